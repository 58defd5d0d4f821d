//! The lines of a head that were read.
ghost use Rattle.std.specs.Prelude.{◌≡◌, ◌≤◌};
ghost use Rattle.std.specs.Option.{option_copied};
ghost use Rattle.crp_cert.specs.declared.head_lines.HeadLines.TheVariants as lines;
ghost use Rattle.crp_cert.specs.LinesOfHead.{line_number, fault_behind, bay_of};

use crate::bay_rows::{BayClaim, BayRows, BaySize};
use crate::fault::CertFault;
use crate::head::Head;
use crate::version::{Version, first_row};
use crp_plan::BayName;

/// The lines of a head that were read.
#[derive(Drop)]
pub enum HeadLines {
    /// None.
    Start,
    /// The title.
    Title { version: Version },
    /// The name of the bay too.
    Bay { version: Version, bay: BayName },
    /// The size too, where a line states the heights.
    Size { sized: BaySize },
    /// The heights too, and some rows or all.
    Rows { rows: BayRows },
    /// The claim too.
    Claim { claimed: BayClaim },
}

/// What one line more leads to.
#[derive(Drop)]
pub enum HeadRead {
    /// The head goes on.
    Lines { lines: HeadLines },
    /// The line was its last.
    Whole { head: Head },
}

impl HeadLines {
    /// The fault of a text whose next line may not stand there.
    pub fn fault(&self) -> CertFault
        ensures { result ≡ fault_behind self.now }
    {
        match self {
            HeadLines::Start => CertFault::Opening { line: 1 },
            HeadLines::Title { .. } => CertFault::Opening { line: 2 },
            HeadLines::Bay { .. } => CertFault::Size { line: 3 },
            HeadLines::Size { .. } => CertFault::Size { line: 4 },
            HeadLines::Rows { rows } => row_fault(rows),
            HeadLines::Claim { claimed } => CertFault::Plan {
                line: line_behind(&claimed.rows) + 1,
            },
        }
    }

    /// The bay that the lines name, if they do.
    pub fn bay(&self) -> Option<&BayName>
        ensures { option_copied result ≡ bay_of self.now }
    {
        match self {
            HeadLines::Start | HeadLines::Title { .. } => None,
            HeadLines::Bay { bay, .. } => Some(bay),
            HeadLines::Size { sized } => Some(&sized.bay),
            HeadLines::Rows { rows } => Some(&rows.bay),
            HeadLines::Claim { claimed } => Some(&claimed.rows.bay),
        }
    }
}

/// The number of the line behind some rows, from 1.
fn line_behind(rows: &BayRows) -> u32
    ensures value { result ≡ line_number rows.now }
    ensures few { result ≤ 17 }
{
    first_row(rows.version) + rows.stacks.len() as u32
}

/// The fault behind some rows: of the next row, or of the claim.
fn row_fault(rows: &BayRows) -> CertFault
    ensures { result ≡ fault_behind (lines.Rows rows.now) }
{
    let line = line_behind(rows);
    if rows.stacks.len() < rows.size.rows as usize {
        return CertFault::Row { line };
    }
    CertFault::Claim { line }
}
