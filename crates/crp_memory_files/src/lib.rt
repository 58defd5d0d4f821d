//! Files in memory: all that is said of files holds of these, and all of it is known.
#![tactic(auto)]

mod memory;

pub use memory::{FilesInMemory, StoredFile, Written};
