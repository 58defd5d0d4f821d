//! Thinned positions in place: what a search and a checker do in a bay from which containers are lifted out.
#![tactic(auto)]

mod claims;
mod close;
mod counting;
mod cutting;
mod finding;
mod follow;
mod follower;
mod hindering;
mod laws;
mod linking;
mod looking;
mod moving;
mod opening;
mod path;
mod reaching;
mod reading;
mod rows;
mod scanning;
mod seeking;
mod settling;
mod stacks;
mod stage;
mod starting;
mod step;
mod thinned;
mod track;

pub use claims::{Claims, Unclosed};
pub use close::close_thinned;
pub use follower::{Follower, follows_thinned};
pub use laws::closed_means;
pub use reaching::{Family, chains_reaching};
pub use thinned::Thinned;
