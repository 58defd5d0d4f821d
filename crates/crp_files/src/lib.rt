//! Files as devices: how they are opened by their names and given back, and what is known of them.
//!
//! `Files` opens files and counts their failures; `SystemFiles` are those of the system. `Wanted` is a file that is written where one is
//! asked for. `Role` says what a file or a stream is to a job, and `first_shared` finds one that is written and has another role too.
#![tactic(auto)]

mod files;
mod roles;
mod system;
mod wanted;

pub use files::{Files, NotFinished, NotOpened};
pub use roles::{
    JobNames, Role, STANDARD_ERROR, STANDARD_INPUT, STANDARD_OUTPUT, Shared, first_shared,
};
pub use system::SystemFiles;
pub use wanted::{Named, Wanted, prepare_wanted};
