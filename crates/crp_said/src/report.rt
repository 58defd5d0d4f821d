//! A report as it is spelled.

use crate::numbers::Numbers;
use crate::said::SaidBay;
use std::alloc::AllocError;
use thiserror::Error;

/// What a report says as it is spelled, whether or not its last line counts its bays.
#[derive(Drop)]
pub struct Report {
    pub numbers: Numbers,
    pub bays: Vec<SaidBay>,
    /// The bays that the last line counts.
    pub count: u32,
    /// Those that it counts as decided.
    pub settled: u32,
}

/// Why a text is no report.
#[derive(Clone, Copy, Debug, Error, PartialEq, Eq)]
pub enum ReportFault {
    /// The first line that is not as said, from 1.
    #[error("line {0} is not that of a report")]
    Line(u64),
    /// Memory ran out.
    #[error("out of memory")]
    Memory,
}

impl From<AllocError> for ReportFault {
    ghost use Rattle.std.specs.Prelude.{◌≡◌};
    ghost use Rattle.crp_said.specs.declared.report.ReportFault.TheVariants.{Memory};

    ghost from_gives = { λ _ fault. fault ≡ Memory };

    fn from(_error: AllocError) -> ReportFault {
        ReportFault::Memory
    }
}
