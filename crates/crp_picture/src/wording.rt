//! What is written in the places of a tier.

/// What is written in the places of a tier: labels, or above them the steps.
#[derive(Clone, Copy)]
pub(crate) enum Wording {
    Labels,
    Steps,
}
