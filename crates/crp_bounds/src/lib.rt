//! Lower bounds on the relocations that a position of a bay still takes.
#![tactic(auto)]

mod ahead;
mod blockers;
mod in_place;
mod known;
mod laws;
mod mover;
mod scanning;
mod undo;

pub use ahead::look_ahead;
pub use blockers::blocking;
pub use in_place::Bounded;
pub use laws::{
    blocking_bounds, bounds_fall_slowly, look_ahead_bounds, look_ahead_is_higher, paths_grow,
    plans_pass, words_mean,
};
pub use mover::Mover;
