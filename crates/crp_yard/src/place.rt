//! Places, as keys of maps.

ghost use Rattle.std.specs.Prelude.{◌≡◌, ◌-◌, ◌++◌};
ghost use Rattle.std.proofs.Common.{rules};
ghost use Rattle.std.specs.Cmp.Rules.{comparing, hashing};
ghost use Rattle.std.specs.Hash as fed;

use crp_plan::BayName;
use std::hash::{Hash, Hasher};
use std::marker::Model;

/// A place of the yard, as a key.
#[derive(Drop)]
pub(crate) struct Place {
    bay: BayName,
    row: u8,
    tier: u8,
}

impl Model for Place {
    ghost use Rattle.crp_yard.specs.Places.{YardPlace};

    ghost Value = { YardPlace };

    ghost view = { λ a. record { bay = a.bay; row = a.row; tier = a.tier } };
}

impl Place {
    /// The row and tier of the bay, which count from 1.
    pub fn new(bay: BayName, row: u8, tier: u8) -> Place
        ensures { result ≡ record { bay = bay; row = row; tier = tier } }
    {
        Place { bay, row, tier }
    }

    pub fn bay(&self) -> &BayName
        ensures { result.now ≡ self.now.bay }
    {
        &self.bay
    }

    pub fn tier(&self) -> u8
        ensures { result ≡ self.now.tier }
    {
        self.tier
    }

    /// The place one tier lower.
    pub fn below(&self) -> Place
        ensures { result ≡ record self.now { tier = self.now.tier - 1 } }
    {
        Place {
            bay: self.bay.copy(),
            row: self.row,
            tier: self.tier.saturating_sub(1),
        }
    }
}

impl PartialEq for Place {
    ghost use Rattle.crp_yard.specs.Places.{same_place};

    ghost eq = { same_place };

    ghost laws = { Prim.search (comparing, rules) };

    fn eq(&self, other: &Place) -> bool {
        self.bay == other.bay && (self.row == other.row && self.tier == other.tier)
    }
}

impl Eq for Place {
    ghost laws = { Prim.search (comparing, rules) };
}

impl Hash for Place {
    ghost hash_input = { λ a. (fed.slice fed.u8 a.bay.block ++ fed.u16 a.bay.bay) ++ (fed.u8 a.row ++ fed.u8 a.tier) };

    ghost respects_eq = { Prim.search (hashing, rules) };

    fn hash<H: Hasher>(&self, state: &mut H) {
        self.bay.hash(state);
        self.row.hash(state);
        self.tier.hash(state);
    }
}
