//! A head that comes in pieces.
ghost use Rattle.std.specs.Prelude.{◌≡◌, ◌≢◌, ◌≤◌, ◌⊎◌, ◌++◌, ◌∷◌, [], true, false, List, ℕ, IfOk, length, take};
ghost use Rattle.std.specs.Option.{option_copied};
ghost use Rattle.crp_cert.specs.Faults.{IsFirstFault};
ghost use Rattle.crp_cert.specs.Settled.{longest_line};
ghost use Rattle.crp_cert.specs.LinesOfHead.{HasLines, bay_of};
ghost use Rattle.crp_cert.specs.HeadsFed.{IsLineEnd, IsInHead, IsBayIn, HasFed, HasPlanRows, GoesOn};

use crate::fault::CertFault;
use crate::head::Head;
use crate::head_lines::{HeadLines, HeadRead};
use crp_plan::BayName;
use std::alloc::{AllocError, Global};

/// No line of a head has more bytes: a plan has at most 672 relocations.
const MAX_LINE: usize = 2021;

/// The front of a head, which comes in pieces, however they are cut.
#[derive(Drop)]
pub struct OpenHead {
    /// The lines that were read.
    lines: HeadLines,
    /// The bytes that came of the next one.
    begun: Vec<u8>,
}

/// What the next bytes of a head lead to.
#[derive(Drop)]
pub enum HeadFed {
    /// The head goes on.
    Open {
        head: OpenHead,
    },
    /// The head is whole.
    Whole {
        head: Head,
    },
    /// A line may not stand there, whatever follows: the bay, if the lines above name it, and the fault.
    Faulty {
        bay: Option<BayName>,
        fault: CertFault,
    },
}

/// Whether a line can be judged, of which so many bytes came, and this one last.
fn is_judged(byte: u8, len: usize) -> bool
    ensures judged { result ≡ true → (byte ≡ 10) ⊎ (longest_line ≤ len) }
    ensures goes_on { result ≡ false → byte ≢ 10 }
{
    byte == b'\n' || len >= MAX_LINE
}

/// The bay that the lines name, if they do, once more.
fn named_by(lines: &HeadLines) -> Option<BayName>
    ensures { result ≡ bay_of lines.now }
{
    lines.bay().map(BayName::copy)
}

/// What a line leads to, behind these lines.
fn end_line(alloc: Global, lines: HeadLines, line: &[u8]) -> Result<HeadFed, AllocError>
    ensures rows { IfOk result HasPlanRows }
    ensures fed { IfOk result (λ fed. (before : List ℕ) → HasLines before lines → IsLineEnd line.now
        → HasFed (before ++ line.now) fed) }
{
    let fault = lines.fault();
    let bay = named_by(&lines);
    let Some((read, _)) = lines.read(alloc, line)? else {
        return Ok(HeadFed::Faulty { bay, fault });
    };
    match read {
        HeadRead::Lines { lines } => {
            let begun = Vec::new(alloc);
            let head = OpenHead { lines, begun };
            Ok(HeadFed::Open { head })
        }
        HeadRead::Whole { head } => Ok(HeadFed::Whole { head }),
    }
}

impl OpenHead {
    /// A head of which nothing came.
    pub fn new(alloc: Global) -> OpenHead
        ensures { IsInHead [] result }
    {
        OpenHead {
            lines: HeadLines::Start,
            begun: Vec::new(alloc),
        }
    }

    /// What one byte more leads to.
    fn read_byte(self, alloc: Global, byte: u8) -> Result<HeadFed, AllocError>
        ensures rows { IfOk result HasPlanRows }
        ensures fed { IfOk result (λ fed. (before : List ℕ) → IsInHead before self → HasFed (before ++ byte ∷ []) fed) }
    {
        let OpenHead { lines, begun } = self;
        let mut begun = begun;
        begun.push(byte)?;
        if is_judged(byte, begun.len()) {
            let fed = end_line(alloc, lines, &begun)?;
            return Ok(fed);
        }
        let head = OpenHead { lines, begun };
        Ok(HeadFed::Open { head })
    }

    /// What more bytes lead to, and how many of them were read: all as long as the head goes on, none behind its last line, and
    /// none behind a line that may not stand there.
    pub fn read(self, alloc: Global, bytes: &[u8]) -> Result<(HeadFed, usize), AllocError>
        ensures some { IfOk result (λ next. 1 ≤ length bytes.now → 1 ≤ next.1) }
        ensures within { IfOk result (λ next. next.1 ≤ length bytes.now) }
        ensures all { IfOk result (λ next. GoesOn next.0 → next.1 ≡ length bytes.now) }
        ensures rows { IfOk result (λ next. HasPlanRows next.0) }
        ensures fed { IfOk result (λ next. (before : List ℕ) → IsInHead before self → HasFed (before ++ take next.1 bytes.now) next.0) }
    {
        let mut head = self;
        for (i, byte) in bytes.iter().enumerate() {
            match head.read_byte(alloc, *byte)? {
                HeadFed::Open { head: next } => head = next,
                HeadFed::Whole { head } => return Ok((HeadFed::Whole { head }, i + 1)),
                HeadFed::Faulty { bay, fault } => {
                    return Ok((HeadFed::Faulty { bay, fault }, i + 1));
                }
            }
        }
        Ok((HeadFed::Open { head }, bytes.len()))
    }

    /// The first fault of bytes that end here.
    pub fn fault(&self) -> CertFault
        ensures { (bytes : List ℕ) → IsInHead bytes self.now → IsFirstFault bytes result }
    {
        self.lines.fault()
    }

    /// The bay that the lines name, if they do.
    pub fn bay(&self) -> Option<&BayName>
        ensures { (bytes : List ℕ) → IsInHead bytes self.now → IsBayIn bytes (option_copied result) }
    {
        self.lines.bay()
    }
}
