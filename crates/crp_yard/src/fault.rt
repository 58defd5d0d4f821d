//! Why a text is no yard list.

ghost use Rattle.std.specs.Prelude.{◌≡◌};
ghost use Rattle.crp_yard.specs.declared.fault.YardFault.TheVariants.{Memory};

use std::alloc::{AllocError, AllocFailed};
use thiserror::Error;

/// The first fault of a yard list, with the number of its record, counted from 1. The header is record 1.
#[derive(Clone, Copy, Debug, PartialEq, Eq, Error)]
pub enum YardFault {
    /// The first record is not `block,bay,row,tier,container`, or there is none.
    #[error("Y1 at record {record}")]
    Header { record: usize },
    /// The record has not five fields, or its block is not 1 to 17 bytes from 0x21 to 0x7E, or its
    /// container not 1 to 35 bytes from 0x20 on.
    #[error("Y2 at record {record}")]
    Fields { record: usize },
    /// Bay, row or tier are not 1 to 4 digits, or the bay is 0.
    #[error("Y3 at record {record}")]
    Digits { record: usize },
    /// The bays have no such row, or the tier is above the row's height.
    #[error("Y4 at record {record}")]
    Outside { record: usize },
    /// A record before it names the same place.
    #[error("Y5 at record {record}")]
    PlaceTaken { record: usize },
    /// The container stands above the lowest tier, and no record names the place below it. This is stated
    /// only where no record has another fault.
    #[error("Y6 at record {record}")]
    Floating { record: usize },
    /// A record before it names the same container.
    #[error("Y7 at record {record}")]
    StandsAlready { record: usize },
    /// There are more containers than are read.
    #[error("Y8 at record {record}")]
    TooMany { record: usize },
    /// The source failed, or was interrupted once too often.
    #[error("Y9 at record 0")]
    Read,
    /// There are more bytes than are read.
    #[error("Y10 at record 0")]
    TooLarge,
    /// No memory is left.
    #[error("no memory is left")]
    Memory,
}

impl From<AllocError> for YardFault {
    ghost from_gives = { λ _ e. e ≡ Memory };

    fn from(_error: AllocError) -> YardFault {
        YardFault::Memory
    }
}

impl<T: Drop> From<AllocFailed<T>> for YardFault {
    ghost from_gives = { λ _ e. e ≡ Memory };

    fn from(_error: AllocFailed<T>) -> YardFault {
        YardFault::Memory
    }
}
