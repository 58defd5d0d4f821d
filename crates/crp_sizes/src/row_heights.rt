//! The heights of the rows of one bay, as they are kept.

ghost use Rattle.std.specs.Prelude.{◌≡◌};
ghost use Rattle.crp_sizes.specs.Heights.{CanBeHeights};

use arrayvec::ArrayVec;
use crp_plan::MAX_ROWS;
use std::marker::Model;

/// How many tiers each row of a bay has, from row 1.
#[derive(Drop)]
pub(crate) struct RowHeights {
    list: ArrayVec<u8, MAX_ROWS>,
}

impl Model for RowHeights {
    ghost use Rattle.std.specs.Prelude.{ℕ, List};
    ghost use Rattle.crp_sizes.specs.Heights.{CanBeHeights};

    ghost Value = { List ℕ };

    ghost view = { λ a. a.list.items };

    ghost invariant = { λ a. CanBeHeights a.list.items };
}

impl RowHeights {
    pub fn new(list: ArrayVec<u8, MAX_ROWS>) -> RowHeights
        requires { CanBeHeights list.items }
        ensures { result ≡ list.items }
    {
        RowHeights { list }
    }

    pub fn of(heights: &[u8]) -> RowHeights
        requires { CanBeHeights heights.now }
        ensures { result ≡ heights.now }
    {
        let mut list = ArrayVec::new();
        let Ok(()) = list.try_extend_from_slice(heights) else {
            unreachable!()
        };
        RowHeights { list }
    }

    pub fn list(&self) -> &[u8]
        ensures value { result.now ≡ self.now }
        ensures heights { CanBeHeights self.now }
    {
        self.list.as_slice()
    }
}
