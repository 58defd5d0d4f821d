//! The stacks of a bay.

ghost use Rattle.std.specs.Prelude.{◌≡◌};

use crate::containers::Containers;
use std::marker::Model;

/// The stacks of a bay, for each row from the first.
#[derive(Drop)]
pub(crate) struct Stacks {
    rows: Vec<Containers>,
}

impl Model for Stacks {
    ghost use Rattle.std.specs.Prelude.{ℕ, List};

    ghost Value = { List (List (List ℕ)) };

    ghost view = { λ a. a.rows.items };
}

impl Stacks {
    /// These stacks, for each row from the first. Takes no memory.
    pub fn from_vec(rows: Vec<Containers>) -> Stacks
        ensures { result ≡ rows.items }
    {
        Stacks { rows }
    }

    /// The stacks, for each row from the first.
    pub fn rows(&self) -> &[Containers]
        ensures { result.now ≡ self.now }
    {
        &self.rows
    }
}
