//! Lists with another byte than a comma between their fields, seen as the lists with commas that have the same records.
//!
//! `Separated` is a source of such a list, and gives the bytes of the list with commas; `Unmarked` is a source without the byte order mark
//! of another; `list_with` translates a whole text, in either direction, and `with_separator` one
//! with commas. `ListInput` is a file that is opened, seen as such a list or as it is.
//! That the records are the same is the law `records_are_the_same`.
#![tactic(auto)]

mod input;
mod laws;
mod places;
mod separated;
mod texts;
mod translating;
mod unmarked;

pub use input::ListInput;
pub use laws::records_are_the_same;
pub use places::Place;
pub use separated::Separated;
pub use texts::{list_with, with_separator};
pub use translating::Separators;
pub use unmarked::Unmarked;
