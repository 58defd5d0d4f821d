//! Why a text is no list of sizes.

ghost use Rattle.std.specs.Prelude.{◌≡◌};
ghost use Rattle.crp_sizes.specs.declared.fault.SizesFault.TheVariants.{Memory};

use std::alloc::{AllocError, AllocFailed};
use thiserror::Error;

/// The first fault of a list of sizes, with the number of its record, counted from 1. The header is record 1.
#[derive(Clone, Copy, Debug, PartialEq, Eq, Error)]
pub enum SizesFault {
    /// The first record is not `block,bay,heights`, or there is none.
    #[error("Z1 at record {record}")]
    Header { record: usize },
    /// The record has not three fields, or its block is not 1 to 17 bytes from 0x21 to 0x7E.
    #[error("Z2 at record {record}")]
    Fields { record: usize },
    /// The bay is not 1 to 4 digits, or is 0.
    #[error("Z3 at record {record}")]
    Digits { record: usize },
    /// The heights are not 1 to 12 digits from 1 to 8, joined by points.
    #[error("Z4 at record {record}")]
    Heights { record: usize },
    /// A record before it names the same bay.
    #[error("Z5 at record {record}")]
    Twice { record: usize },
    /// There are more bytes than are read.
    #[error("Z6 at record 0")]
    TooLarge,
    /// The source failed, or was interrupted once too often.
    #[error("Z7 at record 0")]
    Read,
    /// No memory is left.
    #[error("no memory is left")]
    Memory,
}

impl From<AllocError> for SizesFault {
    ghost from_gives = { λ _ e. e ≡ Memory };

    fn from(_error: AllocError) -> SizesFault {
        SizesFault::Memory
    }
}
