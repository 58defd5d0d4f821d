//! What is printed as JSON Lines: of each entry one object, which says what its lines say.
//!
//! `JsonLines` is a sink in front of another one: what is written to it are the pieces of a report, of what checks show or of bounds, and the
//! other one gets their JSON Lines. `read_entries` reads a piece, `line_of` gives the line of an entry, and `head_line` the one before all. What the
//! lines are is said in `specs/Lines.antt`.
//!
//! `JsonErrors` is a sink in front of the standard error: the other one gets the object of each line that is complete. What the objects are is
//! said in `specs/Errors.antt`.
#![tactic(auto)]

mod bound_lines;
mod chain_lines;
mod check_lines;
mod check_objects;
mod entry;
mod error_objects;
mod errors;
mod kept;
mod laws;
mod lines;
mod members;
mod objects;
mod reading;

pub use entry::{BayBounds, BayEntry, BayVerdict, ChainRank, Chains, Entry, Printed};
pub use error_objects::error_line_of;
pub use errors::JsonErrors;
pub use laws::{one_json, worked_cases, worked_errors};
pub use lines::{Begun, JsonLines};
pub use objects::{head_line, line_of};
pub use reading::read_entries;
