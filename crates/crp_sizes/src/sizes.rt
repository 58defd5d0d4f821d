//! The sizes of bays.

ghost use Rattle.std.specs.Prelude.{◌≡◌, ◌<◌, ◌^◌, ◌++◌, ◌∷◌, [], None, IfOk, OnOk, IfSome, length};
ghost use Rattle.std.specs.Option.{option_copied};
ghost use Rattle.crp_sizes.specs.Heights.{CanBeHeights};
ghost use Rattle.crp_sizes.specs.Sizes.{CanBeSizes, heights_of, heights_at, one_size};

use crate::row_heights::RowHeights;
use crp_plan::BayName;
use indexmap::IndexMap;
use std::alloc::{AllocError, Global};
use std::marker::Model;

/// The size of each bay of a yard: the common one, and in the order of their list the bays that have another.
#[derive(Drop)]
pub struct Sizes {
    common: RowHeights,
    listed: IndexMap<BayName, RowHeights>,
}

impl Model for Sizes {
    ghost use Rattle.crp_sizes.specs.Sizes.{YardSizes, CanBeSizes};

    ghost Value = { YardSizes };

    ghost view = { λ a. record { common = a.common; listed = a.listed.entries } };

    ghost invariant = { λ a. CanBeSizes (record { common = a.common; listed = a.listed.entries }) };
}

impl Sizes {
    /// All bays have rows of these heights. Takes no memory.
    pub fn of_heights(alloc: Global, heights: &[u8]) -> Sizes
        requires { CanBeHeights heights.now }
        ensures { result ≡ one_size heights.now }
    {
        Sizes {
            common: RowHeights::of(heights),
            listed: IndexMap::new(alloc),
        }
    }

    /// How many tiers each row of a bay that is not listed has, from row 1: 1 to 12 rows of 1 to 8 tiers.
    pub fn common(&self) -> &[u8]
        ensures value { result.now ≡ self.now.common }
        ensures sizes { CanBeSizes self.now }
    {
        self.common.list()
    }

    /// How many bays are listed.
    pub fn len(&self) -> usize
        ensures value { result ≡ length self.now.listed }
        ensures small { result < 2 ^ 63 }
    {
        self.listed.len()
    }

    /// How many tiers each row of the bay has, from row 1: 1 to 12 rows of 1 to 8 tiers. None where the bay is not listed.
    pub fn heights_of(&self, bay: &BayName) -> Option<&[u8]>
        ensures value { option_copied result ≡ heights_of self.now.listed bay.now }
        ensures heights { IfSome result (λ heights. CanBeHeights heights.now) }
    {
        match self.listed.get(bay) {
            Some(heights) => Some(heights.list()),
            None => None,
        }
    }

    /// How many tiers each row of the bay has, from row 1: 1 to 12 rows of 1 to 8 tiers.
    pub fn heights_at(&self, bay: &BayName) -> &[u8]
        ensures value { result.now ≡ heights_at self.now bay.now }
        ensures heights { CanBeHeights result.now }
    {
        match self.heights_of(bay) {
            Some(heights) => heights,
            None => self.common(),
        }
    }

    /// Takes a bay more.
    pub(crate) fn push(&mut self, bay: BayName, heights: RowHeights) -> Result<(), AllocError>
        requires fresh { heights_of self.old.listed bay ≡ None }
        requires heights { CanBeHeights heights }
        ensures common { OnOk result (self.new.common ≡ self.old.common) }
        ensures sizes { OnOk result (CanBeSizes self.new) }
        ensures added { OnOk result (self.new.listed ≡ self.old.listed ++ (bay, heights) ∷ []) }
    {
        self.listed.insert(bay, heights)?;
        Ok(())
    }

    /// The same sizes.
    pub fn copy(&self, alloc: Global) -> Result<Sizes, AllocError>
        ensures value { IfOk result (λ copy. copy ≡ self.now) }
        ensures sizes { CanBeSizes self.now }
    {
        let mut copy = Sizes::of_heights(alloc, self.common());
        for i in 0..self.listed.len() {
            let Some((bay, heights)) = self.listed.get_index(i) else {
                unreachable!()
            };
            copy.push(bay.copy(), RowHeights::of(heights.list()))?;
        }
        Ok(copy)
    }
}
