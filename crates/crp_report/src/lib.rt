//! The report of a yard: what is to be done in each bay, bytes in to bytes out.
//!
//! `run` reads a yard list and a message, answers the problem of each bay from which a container leaves,
//! and writes the report and the certificates bay by bay, and the yard as the plans leave it; `run_watched`
//! lets a `Watch` see how far it is, and ends searches by a `Clock`. What the report is is said in `specs/Report.antt`, and what a run
//! promises in `specs/Runs.antt`. `print_moves` writes the moves of one plan.
#![tactic(auto)]

mod ahead;
mod answers;
mod bay_texts;
mod bays;
mod by_workers;
mod fault;
mod input;
mod kept;
mod laws;
mod lines;
mod look;
mod numbers;
mod printing;
mod ready;
mod running;
mod settings;
mod shelf;
mod status;
mod timing;
mod watching;
mod writing;

pub use answers::{certificate_by, certificate_of, said_of, status_of};
pub use fault::{Fault, Input, Output};
pub use input::{Message, message_from, yard_from};
pub use laws::{first_lines_are_one, reports_mean_one_thing};
pub use numbers::numbers_of;
pub use printing::print_moves;
pub use running::{Devices, run, run_watched};
pub use settings::{InputSettings, RunFault, RunSettings};
pub use status::Status;
pub use timing::{Clock, NoClock, Timed, Timer, end_of};
pub use watching::{Unwatched, Watch, show};
pub use writing::write_shares;
