//! A move as its line states it.

use crp_plan::Container;

/// A place in a bay: the row and the tier, both from 1.
#[derive(Clone, Copy, Debug, PartialEq, Eq)]
pub struct Place {
    pub row: u32,
    pub tier: u32,
}

/// A move as its line states it.
#[derive(Drop)]
pub enum SaidMove {
    /// The container is put from one place to another.
    Shift {
        from: Place,
        to: Place,
        container: Container,
    },
    /// The container leaves the bay.
    Take {
        from: Place,
        container: Container,
    },
}
