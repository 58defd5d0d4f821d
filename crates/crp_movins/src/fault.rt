//! Why a list of segments gives no load orders.

ghost use Rattle.std.specs.Prelude.{◌≡◌};
ghost use Rattle.crp_movins.specs.declared.fault.MovinsFault.TheVariants.{Memory};

use std::alloc::{AllocError, AllocFailed};
use thiserror::Error;

/// The first fault of an interchange, with the number of its segment, counted from 1. Service string
/// advice is no segment.
#[derive(Clone, Copy, Debug, PartialEq, Eq, Error)]
pub enum MovinsFault {
    /// The first segment is not UNB.
    #[error("V1 at segment {segment}")]
    NoInterchangeHeader { segment: usize },
    /// UNB has fewer than 5 elements or an empty control reference.
    #[error("V2 at segment {segment}")]
    InterchangeHeader { segment: usize },
    /// UNG or UNE: functional groups are not read.
    #[error("V3 at segment {segment}")]
    FunctionalGroup { segment: usize },
    /// Outside of a message a segment other than UNH and UNZ, inside one UNB, UNH or UNZ, or a UNH
    /// with an empty reference. A list that ends without UNZ is stated at one past its last segment.
    #[error("V4 at segment {segment}")]
    OutOfPlace { segment: usize },
    /// UNT does not count the segments of its message.
    #[error("V5 at segment {segment}")]
    MessageCount { segment: usize },
    /// UNT does not repeat the reference of its UNH.
    #[error("V6 at segment {segment}")]
    MessageReference { segment: usize },
    /// UNZ does not count the messages.
    #[error("V7 at segment {segment}")]
    InterchangeCount { segment: usize },
    /// UNZ does not repeat the control reference of UNB.
    #[error("V8 at segment {segment}")]
    InterchangeReference { segment: usize },
    /// A segment stands after UNZ.
    #[error("V9 at segment {segment}")]
    AfterTrailer { segment: usize },
    /// The message is not `MOVINS`, `D`, `95B`, `UN`.
    #[error("V10 at segment {segment}")]
    MessageType { segment: usize },
    /// The slot of a loading group is not six or seven digits.
    #[error("V11 at segment {segment}")]
    SlotNumber { segment: usize },
    /// A container is ordered a second time; `first` is the number of the segment that orders it before.
    #[error("V12 at segment {segment}")]
    OrderedTwice { segment: usize, first: usize },
    /// There are more orders than are read.
    #[error("V13 at segment {segment}")]
    TooManyOrders { segment: usize },
    /// No memory is left.
    #[error("no memory is left")]
    Memory,
}

impl From<AllocError> for MovinsFault {
    ghost from_gives = { λ _ e. e ≡ Memory };

    fn from(_error: AllocError) -> MovinsFault {
        MovinsFault::Memory
    }
}

impl<T: Drop> From<AllocFailed<T>> for MovinsFault {
    ghost from_gives = { λ _ e. e ≡ Memory };

    fn from(_error: AllocFailed<T>) -> MovinsFault {
        MovinsFault::Memory
    }
}
