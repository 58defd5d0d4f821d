//! Lists that contracts speak of, and of which no memory is kept.
ghost use Rattle.std.specs.Prelude.{◌≡◌, ◌++◌, ◌∷◌, []};
ghost use Rattle.crp_json.specs.Kept.{is_none};

use std::marker::Model;
use std::snapshot::Snapshot;

// A list, behind those that only clauses see.
struct Last<T> {
    before: Option<Snapshot<Last<T>>>,
    list: Vec<T>,
}

impl<T> Model for Last<T> {
    ghost use Rattle.std.specs.Prelude.{List, length};
    ghost use Rattle.std.proofs.Common.{arith, length-append};

    ghost Value = { List (List T) };

    ghost use Rattle.crp_json.specs.Kept.{lists_with};

    ghost view = { lists_with };

    ghost size = { length };

    ghost size_decreases = { λ a h. Prim.grind (arith, length-append) };
}

/// Lists, one behind the other. Only clauses see them: there is no memory for them.
#[derive(Drop)]
pub(crate) struct Kept<T> {
    all: Option<Snapshot<Last<T>>>,
}

impl<T> Model for Kept<T> {
    ghost use Rattle.std.specs.Prelude.{List};
    ghost use Rattle.crp_json.specs.Kept.{lists_in, AreSome};

    ghost Value = { List (List T) };

    ghost view = { λ k. lists_in k.all };

    ghost invariant = { λ k. AreSome k.all };
}

impl<T> Kept<T> {
    /// No lists.
    pub(crate) fn new() -> Kept<T>
        ensures { result ≡ [] }
    {
        Kept { all: None }
    }

    /// Whether there are none.
    pub(crate) fn is_empty(&self) -> bool
        ensures { result ≡ is_none self.now }
    {
        self.all.is_none()
    }

    /// Adds a list, and gives it back.
    pub(crate) fn add(&mut self, list: Vec<T>) -> Vec<T>
        ensures added { self.new ≡ self.old ++ list.items ∷ [] }
        ensures same { result.items ≡ list.items }
    {
        let last = Last {
            before: self.all.take(),
            list,
        };
        self.all = Some(Snapshot::of(&last));
        let Last { before: _, list } = last;
        list
    }
}
