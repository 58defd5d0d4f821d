//! Reasons in brackets, read byte by byte, and followed as they come.
#![tactic(auto)]

mod byte;
mod feeding;
mod numbers;
mod reader;
mod stage;
mod step;

pub use reader::ReasonsReader;
pub use step::Step;
