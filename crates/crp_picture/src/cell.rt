//! A container that is drawn.

use crp_plan::Container;

/// What a container is drawn as.
#[derive(Clone, Copy)]
pub(crate) enum Kind {
    /// It leaves in the first fifth of the moves.
    Soonest,
    /// It leaves in the second.
    Soon,
    /// It leaves in the third.
    Midway,
    /// It leaves in the fourth.
    Late,
    /// It leaves in the last.
    Latest,
    /// It stays.
    Stays,
    /// It is relocated.
    Moved,
    /// It is the place to which one is relocated.
    Goal,
    /// It is taken.
    Taken,
}

/// A container that is drawn: its place, from 1, its name, the step at which it leaves or 0, whether it blocks, and what it is drawn as.
#[derive(Clone, Copy)]
pub(crate) struct Cell<'a> {
    pub row: u64,
    pub tier: u64,
    pub name: &'a Container,
    pub step: u64,
    pub blocks: bool,
    pub kind: Kind,
}
