// The rule of the shared words, and what each step says to the seat that makes it.

use atomic_table::{Join, Play, Split, TableRule};
use crp_plan::{Problem, View};
use std::snapshot::Snapshot;

/// What the words are about. Contracts speak of it; no value of it is made.
pub struct Key {
    /// The problem whose plans are offered.
    pub problem: Problem,
    /// The limit at the start, in relocations.
    pub start: u64,
    /// How many expansions may be claimed.
    pub budget: u64,
    /// How many thinned branches may be tried at a node, each of which is claimed too.
    pub thin: u32,
    /// Whether claims may be stopped before all of those were made.
    pub timed: bool,
}

/// What the table keeps of each seat: its view, beside a copy of the key. No value of it is made.
pub struct KeyedView {
    /// What the words are about.
    pub key: Key,
    /// What the seat knows, and what it did. Of the claims that are lent to it none counts as granted here.
    pub view: View,
    /// How many claims are lent to it, for it to spend alone.
    pub loan: u64,
}

/// What the table is given once, as it is made.
#[derive(Drop)]
pub(crate) struct Opening {
    pub(crate) problem: Snapshot<Problem>,
    pub(crate) start: u64,
    pub(crate) budget: u64,
    pub(crate) thin: u32,
    pub(crate) timed: bool,
}

/// The rule that holds between any two steps.
pub(crate) struct Keeping;

impl TableRule<(), KeyedView, Opening> for Keeping {
    ghost use Rattle.crp_incumbent.specs.Rule.{Keeps, key_of, first};

    ghost holds = { λ o. Keeps (key_of o) };

    ghost first = { λ o. first (key_of o) };
}

/// A load of the limit.
pub(crate) struct Sees;

impl Play<(), KeyedView> for Sees {
    ghost use Rattle.crp_incumbent.specs.Steps.{Saw};

    ghost then = { Saw };
}

/// The limit becomes the lesser of itself and a plan's relocations.
pub(crate) struct Offers;

impl Play<(), KeyedView> for Offers {
    ghost use Rattle.crp_incumbent.specs.Steps.{OfferedUnder};

    ghost then = { OfferedUnder };
}

/// One claim is granted, and more are lent.
pub(crate) struct Takes;

impl Play<(), KeyedView> for Takes {
    ghost use Rattle.crp_incumbent.specs.Steps.{TookUnder};

    ghost then = { TookUnder };
}

/// Of the claims that were lent some are granted, and the rest is open again.
pub(crate) struct Settles;

impl Play<(), KeyedView> for Settles {
    ghost use Rattle.crp_incumbent.specs.Steps.{Settled};

    ghost then = { Settled };
}

/// A load by which one claim is refused, if no claim is open.
pub(crate) struct Refuses;

impl Play<(), KeyedView> for Refuses {
    ghost use Rattle.crp_incumbent.specs.Steps.{RefusedUnder};

    ghost then = { RefusedUnder };
}

/// A load that changes no view, and says that no seat has more than all shares, nor a greater loan than the word counts.
pub(crate) struct Looks;

impl Play<(), KeyedView> for Looks {
    ghost use Rattle.crp_incumbent.specs.Steps.{Looked};

    ghost then = { Looked };
}

/// One share goes to a new seat, and one seat is made of two.
pub(crate) struct Shares;

impl Split<KeyedView> for Shares {
    ghost use Rattle.crp_incumbent.specs.Rule.{kept, given};

    ghost left = { kept };

    ghost right = { given };
}

impl Join<KeyedView> for Shares {
    ghost use Rattle.crp_incumbent.specs.Rule.{joined_seat, gone};

    ghost both = { joined_seat };

    ghost spent = { gone };
}
