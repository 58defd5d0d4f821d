//! An answer that is not written yet.

use crate::bay_texts::BayTexts;
use crp_solve::Solved;

/// The answer to the problem of a bay, and what is stated of it.
#[derive(Drop)]
pub(crate) struct Ready {
    pub solved: Solved,
    pub texts: BayTexts,
}
