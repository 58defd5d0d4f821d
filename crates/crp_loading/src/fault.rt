//! Why a report does not load the ship in its order.
ghost use Rattle.std.specs.Prelude.{◌≡◌};

use std::alloc::AllocError;
use thiserror::Error;

/// The first fault of a report that is followed, where the ship is to be loaded in its order. Lines count from 1.
#[derive(Clone, Copy, Debug, Error, PartialEq, Eq)]
pub enum LoadingFault {
    /// F11: a take before this one in the same bay has a later turn, or the same.
    #[error("F11 at line {line}")]
    OutOfOrder { line: u64 },
    /// F12: the container that is taken is not ordered.
    #[error("F12 at line {line}")]
    NotOrdered { line: u64 },
    /// No memory is left.
    #[error("out of memory")]
    Memory,
}

impl From<AllocError> for LoadingFault {
    ghost use Rattle.crp_loading.specs.declared.fault.LoadingFault.TheVariants.{Memory};

    ghost from_gives = { λ _ fault. fault ≡ Memory };

    fn from(_error: AllocError) -> LoadingFault {
        LoadingFault::Memory
    }
}
