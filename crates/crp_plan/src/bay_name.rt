ghost use Rattle.std.specs.Prelude.{◌≡◌, ◌≤◌, ◌↔◌, ◌++◌, All, IsTrue, IsSome, IfSome};
ghost use Rattle.std.proofs.Common.{rules};
ghost use Rattle.std.specs.Cmp.Rules.{comparing, hashing};
ghost use Rattle.std.specs.Hash as fed;
ghost use Rattle.crp_plan.specs.BayNames.{IsYardBay};

use arrayvec::ArrayVec;
use std::hash::{Hash, Hasher};
use std::marker::Model;

/// The most bytes of a block's name.
pub const MAX_BLOCK: usize = 17;

/// The name of a bay: a block of the yard, and the number of the bay in it.
#[derive(Drop)]
pub struct BayName {
    block: ArrayVec<u8, MAX_BLOCK>,
    bay: u16,
}

impl Model for BayName {
    ghost use Rattle.crp_plan.specs.BayNames.{YardBay, IsYardBay};

    ghost Value = { YardBay };

    ghost view = { λ a. record { block = a.block.items; bay = a.bay } };

    ghost invariant = { λ a. IsYardBay (record { block = a.block.items; bay = a.bay }) };
}

impl BayName {
    /// The name, where the block is 1 to 17 bytes from 0x21 to 0x7E and the bay is 1 to 9999.
    pub fn new(block: &[u8], bay: u16) -> Option<BayName>
        ensures accepted { IsSome result ↔ IsYardBay (record { block = block.now; bay = bay }) }
        ensures value { IfSome result (λ name. name ≡ record { block = block.now; bay = bay }) }
    {
        if bay == 0 || bay > 9999 || block.is_empty() || !is_printed(block) {
            return None;
        }
        let block = ArrayVec::try_from(block).ok()?;
        Some(BayName { block, bay })
    }

    /// The block, in bytes.
    pub fn block(&self) -> &[u8]
        ensures value { result.now ≡ self.now.block }
        ensures named { IsYardBay self.now }
    {
        self.block.as_slice()
    }

    /// The number of the bay, from 1.
    pub fn bay(&self) -> u16
        ensures value { result ≡ self.now.bay }
        ensures named { IsYardBay self.now }
    {
        self.bay
    }

    /// The same name once more. It takes no memory.
    pub fn copy(&self) -> BayName
        ensures { result ≡ self.now }
    {
        let mut block = ArrayVec::new();
        let Ok(()) = block.try_extend_from_slice(&self.block) else {
            unreachable!()
        };
        let bay = self.bay;
        BayName { block, bay }
    }
}

impl PartialEq for BayName {
    ghost use Rattle.crp_plan.specs.BayNames.{same_bay};

    ghost eq = { same_bay };

    ghost laws = { Prim.search (comparing, rules) };

    fn eq(&self, other: &BayName) -> bool {
        self.block() == other.block() && self.bay() == other.bay()
    }
}

impl Eq for BayName {
    ghost laws = { Prim.search (comparing, rules) };
}

impl Hash for BayName {
    ghost hash_input = { λ a. fed.slice fed.u8 a.block ++ fed.u16 a.bay };

    ghost respects_eq = { Prim.search (hashing, rules) };

    fn hash<H: Hasher>(&self, state: &mut H) {
        self.block().hash(state);
        self.bay().hash(state);
    }
}

fn is_printed(block: &[u8]) -> bool
    ensures { IsTrue result ↔ All (λ b. (33 ≤ b) × (b ≤ 126)) block.now }
{
    block.iter().all(|b| b.is_ascii_graphic())
}
