//! Search for the fewest relocations of a bay.
#![tactic(auto)]

mod beam;
mod beam_levels;
mod first_part;
mod frames;
mod greedy;
mod limit;
mod reasons;
mod searching;
mod searching_first;
mod seeking;
mod walk_end;
mod walking;

pub use beam::beam_plan;
pub use crp_thinning::Claims;
pub use first_part::FirstPart;
pub use greedy::{blocker_moves, first_plan, one_greedy_plan};
pub use limit::Limit;
pub use reasons::Thinning;
pub use searching::search;
pub use searching_first::search_first;
pub use walk_end::WalkEnd;
