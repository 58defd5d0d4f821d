//! What the checker accepts.

use crate::verdict::Verdict;
use crp_cert::Rows;
use crp_plan::BayName;

/// What an accepted certificate states and shows.
#[derive(Drop)]
pub struct Accepted {
    /// The bay that it names.
    pub bay: BayName,
    /// The rows of its plan, if it has one.
    pub plan: Option<Rows>,
    /// What it shows.
    pub verdict: Verdict,
}
