//! What a run over a yard promises: that it is a headline, as crp_audit defines it, and what the checker says of what the solver writes.
//!
//! That it holds of what every run makes is a law here, and a clause of the call over files that the program makes.
#![tactic(auto)]

mod laws;

pub use laws::{answers_are_accepted, headline};
