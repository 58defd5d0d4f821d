//! Thinned branches: search trees that close a node over fewer children, in a bay from which containers are lifted out, and over one child where the
//! container in the way hinders nobody.
#![tactic(auto)]

mod laws;

pub use laws::{
    bounds_fall_slowly, chains_fall_slowly, shown_means, thinned_positions_stay_sound,
    thinned_trees_show,
};
