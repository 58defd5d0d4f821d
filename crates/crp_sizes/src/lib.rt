//! Reads lists of sizes: for each bay that is not of the yard's common size, how many tiers each of its rows has.
//!
//! A list of sizes is CSV with a header and a record for each bay. `read_sizes` answers what the records give exactly where none has a
//! fault, and else the first fault with the number of its record. What a text of heights is is said in `specs/Heights.antt`, what a list is
//! in `specs/Records.antt`, and which fault is the first in `specs/Faults.antt`.
#![tactic(auto)]

mod digits;
mod fault;
mod fields;
mod heights;
mod laws;
mod reading;
mod records;
mod row_heights;
mod rows;
mod sizes;

pub use digits::{is_number, number_of};
pub use fault::SizesFault;
pub use fields::{bay_of, field, is_block};
pub use heights::heights_in;
pub use laws::{one_list, one_outcome, sized_as_listed, worked_cases};
pub use reading::{MAX_BYTES, read_sizes, sizes_from};
pub use rows::rows_of;
pub use sizes::Sizes;
