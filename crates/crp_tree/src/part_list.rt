ghost use Rattle.std.specs.Prelude.{◌≡◌};

use crate::part::Part;
use std::marker::Model;

/// Parts, in a list.
#[derive(Drop)]
pub struct Parts {
    list: Vec<Part>,
}

impl Model for Parts {
    ghost use Rattle.std.specs.Prelude.{List};
    ghost use Rattle.crp_tree.specs.Parts.{ProblemPart};
    ghost use Rattle.crp_tree.specs.Symbols.{tree_code};
    ghost use Rattle.std.specs.Coded.{codes};

    ghost Value = { List ProblemPart };

    ghost coded = { Prim.hlevel (codes, tree_code) };

    ghost view = { λ parts. parts.list.items };
}

impl Parts {
    /// The list of these parts. It takes no memory.
    pub fn from_vec(list: Vec<Part>) -> Parts
        ensures { result ≡ list.items }
    {
        Parts { list }
    }

    /// The parts, in order.
    pub fn as_slice(&self) -> &[Part]
        ensures { result.now ≡ self.now }
    {
        self.list.as_slice()
    }

    /// The parts, in order. It takes no memory.
    pub fn into_vec(self) -> Vec<Part>
        ensures { result.items ≡ self }
    {
        self.list
    }
}
