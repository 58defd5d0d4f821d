use crate::given_names::GivenNames;
use crate::wrong::Wrong;

/// What was met among the symbols of a part.
#[derive(Drop)]
pub struct Found {
    /// How many symbols came.
    pub count: u64,
    /// The first wrong node.
    pub wrong: Option<Wrong>,
    /// The names that are given.
    pub given: GivenNames,
}
