use crp_tree::{Name, Tree};
use std::marker::Model;

/// What a part line says: the name of a part, and its tree. Nothing is promised of the two together.
#[derive(Drop)]
pub struct PartLine {
    name: Name,
    tree: Tree,
}

impl Model for PartLine {
    ghost use Rattle.std.specs.Coded.{codes};
    ghost use Rattle.crp_tree.specs.Symbols.{tree_code};
    ghost use Rattle.crp_tree.specs.Claims.{Part};

    ghost Value = { Part };

    ghost coded = { Prim.hlevel (codes, tree_code) };

    ghost view = { λ part. record { name = part.name; tree = part.tree } };
}

impl PartLine {
    ghost use Rattle.std.specs.Prelude.{◌≡◌};

    /// The line of a part of this name and this tree. It takes no memory.
    pub fn new(name: Name, tree: Tree) -> PartLine
        ensures { result ≡ record { name = name; tree = tree } }
    {
        PartLine { name, tree }
    }

    /// The name.
    pub fn name(&self) -> &Name
        ensures { result.now ≡ self.now.name }
    {
        &self.name
    }

    /// The tree.
    pub fn tree(&self) -> &Tree
        ensures { result.now ≡ self.now.tree }
    {
        &self.tree
    }
}

/// Part lines, in order. A contract sees them as a list of parts.
#[derive(Drop)]
pub struct Parts {
    parts: Vec<PartLine>,
}

impl Model for Parts {
    ghost use Rattle.std.specs.Prelude.{List};
    ghost use Rattle.std.specs.Coded.{codes};
    ghost use Rattle.crp_tree.specs.Symbols.{tree_code};
    ghost use Rattle.crp_tree.specs.Claims.{Part};

    ghost Value = { List Part };

    ghost coded = { Prim.hlevel (codes, tree_code) };

    ghost view = { λ a. a.parts.items };
}

impl Parts {
    ghost use Rattle.std.specs.Prelude.{◌≡◌};

    /// These parts.
    pub fn of(parts: Vec<PartLine>) -> Parts
        ensures { result ≡ parts.items }
    {
        Parts { parts }
    }

    /// The parts, in order.
    pub fn as_slice(&self) -> &[PartLine]
        ensures { result.now ≡ self.now }
    {
        self.parts.as_slice()
    }

    /// The parts, in a vector.
    pub fn into_vec(self) -> Vec<PartLine>
        ensures { result.items ≡ self }
    {
        self.parts
    }
}
