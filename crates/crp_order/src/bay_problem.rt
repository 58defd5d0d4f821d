//! The problem of a bay.

use crp_plan::{BayName, Problem};
use crp_yard::Containers;

/// The problem of a bay of the yard.
#[derive(Drop)]
pub struct BayProblem {
    pub bay: BayName,
    pub problem: Problem,
    /// The container of each rank, from rank 1.
    pub names: Containers,
}
