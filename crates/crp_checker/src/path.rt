ghost use Rattle.std.specs.Prelude.{◌≡◌, List, ℕ, nat_eq, Some, IfOk};
ghost use Rattle.std.proofs.Common.{rules};
ghost use Rattle.std.specs.Cmp.{partial_order_from_own_ties};
ghost use Rattle.std.specs.Cmp.Lexicographic.{pointwise, slice_cmp};
ghost use Rattle.std.specs.Cmp.Rules.{comparing};
ghost use Rattle.std.specs.Ordering.{nat_cmp, as_partial_cmp};
ghost use Rattle.crp_tree.specs.Names.{name_text};

use crp_tree::PathText;
use std::alloc::{AllocError, Global};
use std::cmp::Ordering;
use std::fmt;
use std::marker::Model;

/// A path of destination rows, of any length. Rows count from 1.
///
/// It is shown as a certificate names a part: `/` where it has no rows, else its rows joined by
/// points. Paths stand in order row by row, and a path stands before those that go on from it.
#[derive(Debug, Drop)]
pub struct Path {
    rows: Vec<u8>,
}

impl Model for Path {
    ghost use Rattle.std.specs.Prelude.{List, ℕ};

    ghost Value = { List ℕ };

    ghost view = { λ path. path.rows.items };
}

impl Path {
    /// The path of these rows.
    pub fn of(rows: Vec<u8>) -> Path
        ensures { result ≡ rows.items }
    {
        Path { rows }
    }

    /// The path of these rows, in memory of its own.
    pub fn from_rows(alloc: Global, rows: &[u8]) -> Result<Path, AllocError>
        ensures { IfOk result (λ path. path ≡ rows.now) }
    {
        let rows = rows.to_vec(alloc)?;
        Ok(Path { rows })
    }

    /// Its rows, in order.
    pub fn rows(&self) -> &[u8]
        ensures { result.now ≡ self.now }
    {
        self.rows.as_slice()
    }
}

impl fmt::Display for Path {
    ghost output = { λ path. Some (name_text path) };

    fn fmt<W: fmt::Write>(&self, f: &mut fmt::Formatter<W>) -> fmt::Result {
        PathText(self.rows()).fmt(f)
    }
}

impl PartialEq for Path {
    ghost eq = { pointwise nat_eq };

    ghost laws = { Prim.search (comparing, rules) };

    fn eq(&self, other: &Path) -> bool {
        self.rows() == other.rows()
    }
}

impl Eq for Path {
    ghost laws = { Prim.search (comparing, rules) };
}

impl Ord for Path {
    ghost cmp = { slice_cmp nat_cmp };

    ghost total = { Prim.search (comparing, rules) };

    ghost matches_partial_cmp = { Prim.search (comparing, rules) };

    ghost matches_eq = { Prim.search (comparing, rules) };

    fn cmp(&self, other: &Path) -> Ordering {
        self.rows().cmp(&other.rows())
    }
}

impl PartialOrd for Path {
    ghost partial_cmp = { as_partial_cmp (slice_cmp nat_cmp) };

    ghost laws = { partial_order_from_own_ties (Prim.search (comparing, rules)) (Prim.search (comparing, rules)) };

    fn partial_cmp(&self, other: &Path) -> Option<Ordering> {
        Some(self.cmp(other))
    }
}
