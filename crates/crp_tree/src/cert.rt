ghost use Rattle.std.specs.Prelude.{◌≡◌, ◌<◌, [], ◌∷◌, AllPairs, IfOk, length};
ghost use Rattle.crp_tree.specs.Names.{Precedes};
ghost use Rattle.crp_tree.specs.Parts.{IsLeast, IsCertificate, names_of, floors_of};

use crate::part::Part;
use crate::part_list::Parts;
use std::alloc::{AllocError, Global};
use std::marker::Model;

/// Parts of the search of a problem, rising by name, and the lower bound that they show together.
#[derive(Drop)]
pub struct Cert {
    parts: Parts,
    lower: u32,
}

impl Model for Cert {
    ghost use Rattle.crp_tree.specs.Parts.{Certificate, IsCertificate};
    ghost use Rattle.crp_tree.specs.Symbols.{tree_code};
    ghost use Rattle.std.specs.Coded.{codes};

    ghost Value = { Certificate };

    ghost coded = { Prim.hlevel (codes, tree_code) };

    ghost view = { λ c. record { parts = c.parts; lower = c.lower } };

    ghost invariant = { λ c. IsCertificate (record { parts = c.parts; lower = c.lower }) };
}

impl Cert {
    /// The certificate of these parts, of which there is one at least, and which must rise by name.
    /// It takes no memory.
    pub fn of_parts(parts: Parts) -> Cert
        requires some { 0 < length parts }
        requires rising { AllPairs Precedes (names_of parts) }
        ensures parts { result.parts ≡ parts }
        ensures lower { IsLeast result.lower (floors_of parts) }
        ensures certificate { IsCertificate result }
    {
        let lower = least_floor(parts.as_slice());
        Cert { parts, lower }
    }

    /// The certificate of one part.
    pub fn whole(alloc: Global, part: Part) -> Result<Cert, AllocError>
        ensures value { IfOk result (λ cert. cert ≡ record { parts = part ∷ []; lower = part.floor }) }
    {
        let mut parts = Vec::new(alloc);
        parts.push(part)?;
        Ok(Cert::of_parts(Parts::from_vec(parts)))
    }

    /// The parts, rising by name.
    pub fn parts(&self) -> &[Part]
        ensures value { result.now ≡ self.now.parts }
        ensures certificate { IsCertificate self.now }
    {
        self.parts.as_slice()
    }

    /// The least floor of the parts, in relocations.
    pub fn lower(&self) -> u32
        ensures value { result ≡ self.now.lower }
        ensures certificate { IsCertificate self.now }
    {
        self.lower
    }

    /// The parts, rising by name. It takes no memory.
    pub fn into_parts(self) -> Parts
        ensures value { result ≡ self.parts }
        ensures certificate { IsCertificate self }
    {
        self.parts
    }
}

/// The least floor of some parts.
fn least_floor(parts: &[Part]) -> u32
    requires { 0 < length parts.now }
    ensures { IsLeast result (floors_of parts.now) }
{
    let mut lower = parts[0].floor();
    for part in parts {
        lower = lower.min(part.floor());
    }
    lower
}
