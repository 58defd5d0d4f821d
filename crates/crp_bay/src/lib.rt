//! Positions of a bay between relocations: where a path of destination rows leads, and how it can go on.
#![tactic(auto)]

mod laws;
mod moving;
mod position;
mod push;
mod starting;

pub use laws::{reached_positions, walks};
pub use position::Position;
