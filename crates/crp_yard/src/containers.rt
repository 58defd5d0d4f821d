//! Lists of containers.

ghost use Rattle.std.specs.Prelude.{◌≡◌};

use crp_plan::Container;
use std::marker::Model;

/// A list of containers: a stack from bottom to top, or the containers of the ranks from 1.
#[derive(Drop)]
pub struct Containers {
    list: Vec<Container>,
}

impl Model for Containers {
    ghost use Rattle.std.specs.Prelude.{ℕ, List};

    ghost Value = { List (List ℕ) };

    ghost view = { λ a. a.list.items };
}

impl Containers {
    /// These containers, in this order. Takes no memory.
    pub fn from_vec(list: Vec<Container>) -> Containers
        ensures { result ≡ list.items }
    {
        Containers { list }
    }

    /// The containers, given out. Takes no memory.
    pub fn into_vec(self) -> Vec<Container>
        ensures { result.items ≡ self }
    {
        let Containers { list } = self;
        list
    }

    /// The containers, in their order.
    pub fn list(&self) -> &[Container]
        ensures { result.now ≡ self.now }
    {
        &self.list
    }
}
