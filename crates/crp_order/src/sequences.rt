//! Sequences of containers.

ghost use Rattle.std.specs.Prelude.{◌≡◌};

use crp_plan::Container;
use std::marker::Model;

/// How the orders are put in sequence.
#[derive(Clone, Copy, Debug, PartialEq, Eq)]
pub enum Mode {
    /// As they are listed.
    Listed,
    /// By tier, bay and row of their slots, all rising, and those of one slot as they are listed. So a
    /// container comes before those that are loaded on top of it.
    Stowage,
}

/// The ordered containers, each once, in the order in which they leave the yard.
#[derive(Drop)]
pub struct Sequence {
    list: Vec<Container>,
}

impl Model for Sequence {
    ghost use Rattle.std.specs.Prelude.{ℕ, List};
    ghost use Rattle.crp_order.specs.Sequenced.{AreSequenced};

    ghost Value = { List (List ℕ) };

    ghost view = { λ a. a.list.items };

    ghost invariant = { λ a. AreSequenced a.list.items };
}

impl Sequence {
    ghost use Rattle.crp_order.specs.Sequenced.{AreSequenced};

    /// These containers in this order.
    pub(crate) fn new(list: Vec<Container>) -> Sequence
        requires { AreSequenced list.items }
        ensures { result ≡ list.items }
    {
        Sequence { list }
    }

    /// The containers, the first to leave first.
    pub fn list(&self) -> &[Container]
        ensures value { result.now ≡ self.now }
        ensures sequenced { AreSequenced self.now }
    {
        &self.list
    }
}
