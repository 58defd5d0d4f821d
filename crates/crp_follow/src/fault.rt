//! Why a report cannot be followed.
ghost use Rattle.std.specs.Prelude.{◌≡◌};

use std::alloc::AllocError;
use thiserror::Error;

/// The first fault of a report over a yard. Lines count from 1.
#[derive(Clone, Copy, Debug, Error, PartialEq, Eq)]
pub enum FollowFault {
    /// F10: the report has more than 8388608 bytes.
    #[error("F10 at line 0")]
    TooLong,
    /// F1: the first line is not the orders line; or the report has no line, and the fault stands at line 1.
    #[error("F1 at line {line}")]
    Orders { line: u64 },
    /// F2: the line is none of a bay, none of a move below a bay, and not the last line with nothing behind it.
    #[error("F2 at line {line}")]
    NoLine { line: u64 },
    /// F3: the last line does not count the bays, or those that are decided; or there is none, and the fault stands one line past the
    /// last.
    #[error("F3 at line {line}")]
    Count { line: u64 },
    /// F4: the yard has no such bay.
    #[error("F4 at line {line}")]
    NoBay { line: u64 },
    /// F5: the bay has a line already.
    #[error("F5 at line {line}")]
    Again { line: u64 },
    /// F6: the line of the bay does not count the relocations below it; or moves are below a line that says that there is no plan.
    #[error("F6 at line {line}")]
    Relocations { line: u64 },
    /// F7: no container is the highest of its row at the place where one is to be lifted.
    #[error("F7 at line {line}")]
    Lift { line: u64 },
    /// F8: another container stands there.
    #[error("F8 at line {line}")]
    Container { line: u64 },
    /// F9: the place where the container is to be set down is not the lowest free one of another row, or is above the row's height.
    #[error("F9 at line {line}")]
    SetDown { line: u64 },
    /// No memory is left.
    #[error("out of memory")]
    Memory,
}

impl From<AllocError> for FollowFault {
    ghost use Rattle.crp_follow.specs.declared.fault.FollowFault.TheVariants.{Memory};

    ghost from_gives = { λ _ fault. fault ≡ Memory };

    fn from(_error: AllocError) -> FollowFault {
        FollowFault::Memory
    }
}
