//! Where in a text a thing stands: the line of an offset, and the offsets at which the records of a CSV text and the segments of an
//! interchange stand. The readers of these texts count records and segments, which no editor shows.
#![tactic(auto)]

mod gaps;
mod lines;
mod records;
mod segments;

pub use lines::line_at;
pub use records::{record_at, without_mark};
pub use segments::{segment_at, segment_end};
