ghost use Rattle.std.specs.Prelude.{◌≡◌, Bool};
ghost use Rattle.crp_thinning.specs.declared.claims.Unclosed.TheVariants.{Memory};

use std::alloc::{AllocError, AllocFailed};
use thiserror::Error;

/// What a closer asks before each branch, so that a budget can end it.
pub trait Claims {
    /// What a claim does: how things are before it, whether it is granted, and how they are after it.
    ghost claims: { Self → Bool → Self → Type 0 };

    /// Claims one branch, and returns whether it was granted.
    fn claim(&mut self) -> bool
        ensures { claims self.old result self.new };
}

/// Why a position was not closed.
#[derive(Clone, Copy, Debug, Drop, PartialEq, Eq, Error)]
pub enum Unclosed {
    /// No tree was found that closes it.
    #[error("no tree was found")]
    Open,
    /// A claim was refused.
    #[error("a claim was refused")]
    Refused,
    /// No memory is left.
    #[error("no memory is left")]
    Memory,
}

impl From<AllocError> for Unclosed {
    ghost from_gives = { λ _ why. why ≡ Memory };

    fn from(_error: AllocError) -> Unclosed {
        Unclosed::Memory
    }
}

impl<T: Drop> From<AllocFailed<T>> for Unclosed {
    ghost from_gives = { λ _ why. why ≡ Memory };

    fn from(_error: AllocFailed<T>) -> Unclosed {
        Unclosed::Memory
    }
}
