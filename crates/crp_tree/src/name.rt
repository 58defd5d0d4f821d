ghost use Rattle.std.specs.Prelude.{◌≡◌, ℕ, ◌+◌, ◌<◌, ◌≤◌, ◌↔◌, List, [], ◌∷◌, ◌++◌, length, IsTrue, IsSome, IfSome, nat_eq, Some, option_map};
ghost use Rattle.std.proofs.Common.{rules};
ghost use Rattle.std.specs.Cmp.{partial_order_from_own_ties};
ghost use Rattle.std.specs.Cmp.Lexicographic.{pointwise, slice_cmp};
ghost use Rattle.std.specs.Cmp.Rules.{comparing};
ghost use Rattle.std.specs.Ordering.{nat_cmp, as_partial_cmp};
ghost use Rattle.crp_plan.specs.Bay.{IsProblem, IsAt, Position as Place};
ghost use Rattle.crp_bay.specs.Positions.{at};
ghost use Rattle.crp_tree.specs.Names.{Precedes, name_text};

use crate::path_text::PathText;
use arrayvec::ArrayVec;
use crp_bay::Position;
use crp_bounds::Bounded;
use crp_plan::Problem;
use std::cmp::Ordering;
use std::fmt::{self, Display, Formatter, Write};
use std::marker::Model;

/// The most rows of a name.
pub const MAX_NAME: usize = 8;

/// The name of a part: a path of at most 8 destination rows. Rows count from 1. No call takes memory.
///
/// Names stand in order row by row, and a name stands before those that go on from it. A name is
/// shown as a certificate writes it: `/` for the root, else its rows joined by points.
#[derive(Debug, Drop)]
pub struct Name {
    rows: ArrayVec<u8, MAX_NAME>,
}

impl Model for Name {
    ghost use Rattle.std.specs.Prelude.{List, ℕ, ◌≤◌, length};

    ghost Value = { List ℕ };

    ghost view = { λ name. name.rows.items };

    ghost invariant = { λ name. length name.rows.items ≤ 8 };
}

impl Name {
    /// The empty path, which is the name of the whole search.
    pub fn root() -> Name
        ensures { result ≡ [] }
    {
        Name {
            rows: ArrayVec::new(),
        }
    }

    /// The name of these rows. `None` exactly where there are more than 8.
    pub fn from_rows(rows: &[u8]) -> Option<Name>
        ensures few { IsSome result ↔ (length rows.now ≤ 8) }
        ensures value { IfSome result (λ name. name ≡ rows.now) }
    {
        let mut list = ArrayVec::new();
        let Ok(()) = list.try_extend_from_slice(rows) else {
            return None;
        };
        Some(Name { rows: list })
    }

    /// Its rows, in order.
    pub fn rows(&self) -> &[u8]
        ensures value { result.now ≡ self.now }
        ensures few { length result.now ≤ 8 }
    {
        self.rows.as_slice()
    }

    /// The name that goes on by the row. `None` exactly where this one has 8 rows already.
    pub fn child(&self, row: u8) -> Option<Name>
        ensures room { IsSome result ↔ (length self.now < 8) }
        ensures value { IfSome result (λ name. name ≡ self.now ++ row ∷ []) }
    {
        if self.rows.is_full() {
            return None;
        }
        let mut child = self.copy();
        child.rows.push(row);
        Some(child)
    }

    /// The same name.
    pub fn copy(&self) -> Name
        ensures { result ≡ self.now }
    {
        match Name::from_rows(self.rows()) {
            Some(name) => name,
            None => unreachable!(),
        }
    }

    /// The position at the path. `None` exactly where the name is no path of the problem.
    pub fn position(&self, problem: &Problem) -> Option<Position>
        ensures path { IsSome result ↔ ((s : Place) × IsAt problem.now self.now s) }
        ensures at { IfSome result (λ s. IsAt problem.now self.now s.place) }
        ensures problem { IsProblem problem.now }

        // What the definitions compute.
        ensures value { option_map (λ s. s.place) result ≡ at problem.now self.now }
    {
        let mut position = Position::start(problem);
        for row in self.rows() {
            if !position.push(*row) {
                return None;
            }
        }
        Some(position)
    }

    /// The position at the path with its bounds. `None` exactly where the name is no path of the problem.
    pub fn bounded(&self, problem: &Problem) -> Option<Bounded>
        ensures path { IsSome result ↔ ((s : Place) × IsAt problem.now self.now s) }
        ensures at { IfSome result (λ s. IsAt problem.now self.now s.place) }
        ensures problem { IsProblem problem.now }

        // What the definitions compute.
        ensures value { option_map (λ s. s.place) result ≡ at problem.now self.now }
    {
        let mut bounded = Bounded::start(problem);
        for row in self.rows() {
            if !bounded.push(*row) {
                return None;
            }
        }
        Some(bounded)
    }

    /// Whether this name stands before the other.
    pub fn precedes(&self, other: &Name) -> bool
        ensures { IsTrue result ↔ Precedes self.now other.now }
    {
        self.cmp(other).is_lt()
    }
}

impl Display for Name {
    ghost output = { λ name. Some (name_text name) };

    fn fmt<W: Write>(&self, f: &mut Formatter<W>) -> fmt::Result {
        PathText(self.rows()).fmt(f)
    }
}

impl PartialEq for Name {
    ghost eq = { pointwise nat_eq };

    ghost laws = { Prim.search (comparing, rules) };

    fn eq(&self, other: &Name) -> bool {
        self.rows() == other.rows()
    }
}

impl Eq for Name {
    ghost laws = { Prim.search (comparing, rules) };
}

impl Ord for Name {
    ghost cmp = { slice_cmp nat_cmp };

    ghost total = { Prim.search (comparing, rules) };

    ghost matches_partial_cmp = { Prim.search (comparing, rules) };

    ghost matches_eq = { Prim.search (comparing, rules) };

    fn cmp(&self, other: &Name) -> Ordering {
        self.rows().cmp(&other.rows())
    }
}

impl PartialOrd for Name {
    ghost partial_cmp = { as_partial_cmp (slice_cmp nat_cmp) };

    ghost laws = { partial_order_from_own_ties (Prim.search (comparing, rules)) (Prim.search (comparing, rules)) };

    fn partial_cmp(&self, other: &Name) -> Option<Ordering> {
        Some(self.cmp(other))
    }
}
