//! What a run prints of a plan is what a crane can do, and the report of a run is followed over its yard to the yard that the run writes.
#![tactic(auto)]

mod laws;

pub use laws::{headlines_are_followed, plans_are_followed, plans_are_of_rule, runs_are_followed};
