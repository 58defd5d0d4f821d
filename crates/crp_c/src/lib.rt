//! The library for C: bays solved, and certificates checked, over buffers of the caller. `embed/crp.h` declares what is exported, and says
//! in words what a caller sees to; what each call says is said here again in clauses.
//!
//! C passes a slice as a pointer and a length, and for an allocator nothing. It reads an answer as numbers: which they are is said in
//! `specs/`. No call starts a thread or keeps anything, so calls may run side by side.
#![tactic(auto)]

mod answered;
mod asked;
mod checking;
mod fault;
mod known;
mod rows;
mod solving;
mod status;
mod trouble;
mod version;

pub use answered::Answered;
pub use asked::Search;
pub use checking::{Checked, crp_check};
pub use fault::Fault;
pub use known::Known;
pub use solving::crp_solve;
pub use version::crp_version;
