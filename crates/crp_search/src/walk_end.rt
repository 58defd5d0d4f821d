ghost use Rattle.std.specs.Prelude.{◌≡◌};
ghost use Rattle.crp_search.specs.declared.walk_end.WalkEnd.TheVariants.{Memory};

use std::alloc::{AllocError, AllocFailed};
use thiserror::Error;

/// Why a walk over a part ended before its time.
#[derive(Clone, Copy, Debug, Drop, PartialEq, Eq, Error)]
pub enum WalkEnd {
    /// A claim was refused.
    #[error("a claim was refused")]
    Refused,
    /// No memory is left.
    #[error("no memory is left")]
    Memory,
}

impl From<AllocError> for WalkEnd {
    ghost from_gives = { λ _ end. end ≡ Memory };

    fn from(_error: AllocError) -> WalkEnd {
        WalkEnd::Memory
    }
}

impl<T: Drop> From<AllocFailed<T>> for WalkEnd {
    ghost from_gives = { λ _ end. end ≡ Memory };

    fn from(_error: AllocFailed<T>) -> WalkEnd {
        WalkEnd::Memory
    }
}
