//! What stands in a yard.

ghost use Rattle.std.specs.Prelude.{◌≡◌, ◌<◌, ◌≤◌, All, IfOk, IfSome, Some, length, slice_get};
ghost use Rattle.crp_sizes.specs.Heights.{CanBeHeights};
ghost use Rattle.crp_yard.specs.Inventory.{name_at, heights_in_bay, stack_in_bay, stands, IsYard};
ghost use Rattle.crp_yard.specs.Listings.{HasNames};

use crate::containers::Containers;
use crate::names::names_of;
use crate::stacks::Stacks;
use crp_plan::{BayName, Container};
use crp_sizes::Sizes;
use indexmap::{IndexMap, IndexSet};
use std::alloc::{AllocError, Global};
use std::marker::Model;

/// The bays of a yard in first-seen order, and what stands in them. Each bay has its rows, each with its
/// height; no container stands in two places.
#[derive(Drop)]
pub struct Yard {
    sizes: Sizes,
    bays: IndexMap<BayName, Stacks>,
    names: IndexSet<Vec<u8>>,
}

impl Model for Yard {
    ghost use Rattle.crp_yard.specs.Inventory.{Inventory};
    ghost use Rattle.crp_yard.specs.Listings.{IsKept};

    ghost Value = { Inventory };

    ghost view = { λ a. record { sizes = a.sizes; bays = a.bays.entries } };

    ghost invariant = { λ a. IsKept (record { sizes = a.sizes; bays = a.bays.entries }) a.names.keys };
}

impl Yard {
    /// The yard of these bays.
    pub(crate) fn new(
        alloc: Global,
        sizes: Sizes,
        bays: IndexMap<BayName, Stacks>,
    ) -> Result<Yard, AllocError>
        requires { IsYard (record { sizes = sizes; bays = bays.entries }) }
        ensures { IfOk result (λ yard. yard ≡ record { sizes = sizes; bays = bays.entries }) }
    {
        let names = names_of(alloc, &bays)?;
        Ok(Yard::with_names(sizes, bays, names))
    }

    /// The yard of these bays, where the set has their containers.
    pub(crate) fn with_names(
        sizes: Sizes,
        bays: IndexMap<BayName, Stacks>,
        names: IndexSet<Vec<u8>>,
    ) -> Yard
        requires yard { IsYard (record { sizes = sizes; bays = bays.entries }) }
        requires names { HasNames bays.entries names.keys }
        ensures { result ≡ record { sizes = sizes; bays = bays.entries } }
    {
        Yard { sizes, bays, names }
    }

    /// The size of each bay.
    pub fn sizes(&self) -> &Sizes
        ensures value { result.now ≡ self.now.sizes }
        ensures yard { IsYard self.now }
    {
        &self.sizes
    }

    /// How many tiers each row of a bay has, from row 1: 1 to 12 rows of 1 to 8 tiers. Bays are numbered from 0 in first-seen order.
    pub fn heights(&self, bay: usize) -> &[u8]
        requires { bay < length self.now.bays }
        ensures value { heights_in_bay self.now bay ≡ Some result.now }
        ensures heights { CanBeHeights result.now }
        ensures yard { IsYard self.now }
    {
        self.sizes.heights_at(self.name(bay))
    }

    /// How many bays there are.
    pub fn count(&self) -> usize
        ensures value { result ≡ length self.now.bays }
        ensures yard { IsYard self.now }
    {
        self.bays.len()
    }

    /// The name of a bay. Bays are numbered from 0 in first-seen order.
    pub fn name(&self, bay: usize) -> &BayName
        requires { bay < length self.now.bays }
        ensures { name_at self.now bay ≡ Some result.now }
    {
        match self.bays.get_index(bay) {
            Some((name, _)) => name,
            None => unreachable!(),
        }
    }

    /// A bay and its stacks, by the same number.
    pub(crate) fn bay(&self, bay: usize) -> (&BayName, &[Containers])
        requires { bay < length self.now.bays }
        ensures value { slice_get self.now.bays bay ≡ Some (result.0.now, result.1.now) }
        ensures rows { length result.1.now ≤ 12 }
        ensures tiers { All (λ stack. length stack ≤ 8) result.1.now }
    {
        match self.bays.get_index(bay) {
            Some((name, stacks)) => (name, stacks.rows()),
            None => unreachable!(),
        }
    }

    /// The containers of a row from bottom to top. Bays are numbered from 0 in first-seen order, rows
    /// from 1.
    pub fn stack(&self, bay: usize, row: u8) -> &[Container]
        requires bay { bay < length self.now.bays }
        requires counts { 1 ≤ row }
        requires there { IfSome (heights_in_bay self.now bay) (λ heights. row ≤ length heights) }
        ensures { stack_in_bay self.now bay row ≡ Some result.now }
    {
        match self.bays.get_index(bay) {
            Some((_, stacks)) => stacks.rows()[row as usize - 1].list(),
            None => unreachable!(),
        }
    }

    /// Whether the container stands in the yard.
    pub fn holds(&self, container: &[u8]) -> bool
        ensures { result ≡ stands self.now.bays container.now }
    {
        self.names.contains(container)
    }
}
