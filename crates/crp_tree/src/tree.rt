ghost use Rattle.std.specs.Prelude.{◌≡◌, List, map};
ghost use Rattle.std.specs.List.{list_any};
ghost use Rattle.crp_row.specs.Symbol.{Symbol};
ghost use Rattle.crp_row.specs.Rows.{kind_of, gives_away};
ghost use Rattle.crp_tree.specs.Symbols.{symbols, ComeFirst};
ghost use Rattle.crp_tree.specs.Tree.{Tree as Shape};

use crp_row::{Kind, Rest, Row};
use std::marker::Model;

/// A search tree at a path of a problem, kept as its symbols in a row: a branch before its trees.
#[derive(Drop)]
pub struct Tree {
    row: Row,
}

impl Model for Tree {
    ghost use Rattle.std.specs.Prelude.{◌≡◌};
    ghost use Rattle.crp_tree.specs.Tree.{Tree as Shape};
    ghost use Rattle.crp_tree.specs.Symbols.{symbols, tree_of, tree_code};

    ghost Value = { Shape };

    ghost coded = { tree_code };

    ghost view = { λ tree. tree_of tree.row.symbols };

    ghost invariant = { λ tree. tree.row.symbols ≡ symbols (tree_of tree.row.symbols) };
}

impl Tree {
    /// The tree of these symbols, which must be those of one whole tree. It takes no memory.
    pub fn from_row(row: Row) -> Tree
        requires { (tree : Shape) × (row.symbols ≡ symbols tree) }
        ensures { row.symbols ≡ symbols result }
    {
        Tree { row }
    }

    /// Whether one of its symbols gives a subtree away. It looks at none.
    pub fn gives(&self) -> bool
        ensures { result ≡ list_any gives_away (map kind_of (symbols self.now)) }
    {
        self.row.gives()
    }

    /// Its symbols: a branch before its trees, and these by rising rows.
    pub fn symbols(&self) -> Rest<'_>
        ensures { result ≡ symbols self.now }
    {
        self.row.symbols()
    }
}

/// Passes so many trees, whose symbols come first.
pub fn pass_trees(rest: &mut Rest<'_>, count: usize)
    requires { (behind : List Symbol) × ComeFirst count rest.old behind }
    ensures { ComeFirst count rest.old rest.new }
{
    // A value of its own, which is not written back at each symbol.
    let mut own = rest.again();
    let mut left = count;
    while left > 0 {
        let Some((kind, _)) = own.next() else {
            unreachable!()
        };
        left -= 1;
        if let Kind::Branch(below) = kind {
            // For its contract alone: so many are left at most.
            let _most = own.len();
            left += below as usize;
        }
    }
    *rest = own;
}
