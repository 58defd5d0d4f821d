//! Parts of one search, in any order, into one certificate.
#![tactic(auto)]

mod fault;
mod gathering;
mod held;
mod laws;
mod settling;

pub use fault::GatherFault;
pub use gathering::gather;
pub use laws::{balanced_parts_are_whole, order_changes_nothing};
pub use settling::settle;
