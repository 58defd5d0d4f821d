//! A lower bound on the relocations that a position of a bay still takes, by chains of containers that block.
#![tactic(auto)]

mod blocker;
mod bound;
mod family;
mod finding;
mod laws;
mod linking;
mod standing;

pub use blocker::Blocker;
pub use bound::bound_of;
pub use family::gain_of;
pub use laws::{
    chain_words_mean, chains_bound, chains_fall_slowly, chains_grow, chains_pass,
    chains_reach_look_ahead,
};
pub use linking::chain_gain_of;
pub use standing::{beneath, is_open_to_any};
