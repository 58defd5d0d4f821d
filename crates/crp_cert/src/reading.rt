//! Reading the head of a certificate, line by line.
ghost use Rattle.std.specs.Prelude.{◌≡◌, ◌≢◌, ℕ, ◌<◌, ◌≤◌, ◌⊎◌, List, ◌++◌, ◌∷◌, [], IfOk, IfErr, IfSome, IfNone, length, vec_len};
ghost use Rattle.crp_plan.specs.Faults.{stacks_of, stated_with};
ghost use Rattle.crp_cert.specs.Text.{IsSize, IsHead, IsHeadOf, row_line, head_text};
ghost use Rattle.crp_cert.specs.Faults.{BeginsWith, AreHeightsOf, AreFirstStacks, IsNextStack, IsFirstFault};
ghost use Rattle.crp_cert.specs.declared.bay_rows.BayRows.{BayRows};
ghost use Rattle.crp_cert.specs.declared.head_lines.HeadLines.TheVariants as lines;
ghost use Rattle.crp_cert.specs.declared.head_lines.HeadRead.TheVariants as read;
ghost use Rattle.crp_cert.specs.LinesOfHead.{HasNoLine, IsLineRead};

use crate::bay_rows::{BayClaim, BayRows, BaySize};
use crate::fault::CertFault;
use crate::fields::{
    bay_of, claim_of, heights_line_of, plan_of, row_of, same_heights, size_of, title_of,
};
use crate::head::Head;
use crate::head_lines::{HeadLines, HeadRead};
use crate::ranks::{are_all, are_new};
use crate::size::Size;
use crate::version::Version;
use arrayvec::ArrayVec;
use crp_plan::{BayName, MAX_ROWS, Problem};
use std::alloc::{AllocError, Global};

/// Adds the stack that the next row line states, and gives what follows the line; none where no
/// stack may be stated there.
fn next_stack<'a>(
    alloc: Global,
    size: Size,
    heights: &[u8],
    stacks: &mut Vec<Vec<u8>>,
    bytes: &'a [u8],
) -> Result<Option<&'a [u8]>, AllocError>
    requires size { IsSize size }
    requires heights { AreHeightsOf size heights.now }
    requires first { AreFirstStacks size heights.now (stacks_of stacks.old.items) }
    requires more { vec_len stacks.old < size.rows }
    ensures found { IfOk result (λ parsed. IfSome parsed (λ rest.
        (stack : List ℕ) × IsNextStack size heights.now (stacks_of stacks.old.items) stack
        × (bytes.now ≡ row_line stack ++ rest.now)
        × (stacks_of stacks.new.items ≡ stacks_of stacks.old.items ++ stack ∷ []))) }
    ensures none { IfOk result (λ parsed. IfNone parsed
        (¬ BeginsWith (IsNextStack size heights.now (stacks_of stacks.old.items)) row_line bytes.now)) }
{
    let height = heights[stacks.len()] as usize;
    let Some((stack, rest)) = row_of(alloc, height, bytes)? else {
        return Ok(None);
    };
    if !are_new(size.total, &stack, stacks) {
        return Ok(None);
    }
    stacks.push(stack)?;
    if stacks.len() == size.rows as usize && !are_all(size.total, stacks) {
        return Ok(None);
    }
    Ok(Some(rest))
}

/// The problem that a size, the heights and all stacks of the bay state.
fn problem_of(size: Size, heights: &[u8], stacks: &[Vec<u8>]) -> Problem
    requires size { IsSize size }
    requires heights { AreHeightsOf size heights.now }
    requires first { AreFirstStacks size heights.now (stacks_of stacks.now) }
    requires all { length stacks.now ≡ size.rows }
    ensures { result ≡ stated_with heights.now size.ordered (stacks_of stacks.now) }
{
    match Problem::with_heights(heights, size.ordered, stacks) {
        Ok(problem) => problem,
        Err(_) => unreachable!(),
    }
}

/// Reads the title.
fn read_title(bytes: &[u8]) -> Option<(HeadRead, &[u8])>
    ensures found { IfSome result (λ next. IsLineRead lines.Start bytes.now next.0 next.1.now) }
    ensures none { IfNone result (HasNoLine lines.Start bytes.now) }
{
    let (version, rest) = title_of(bytes)?;
    let lines = HeadLines::Title { version };
    Some((HeadRead::Lines { lines }, rest))
}

/// Reads the name of the bay.
fn read_bay(version: Version, bytes: &[u8]) -> Option<(HeadRead, &[u8])>
    ensures found { IfSome result (λ next. IsLineRead (lines.Title version) bytes.now next.0 next.1.now) }
    ensures none { IfNone result (HasNoLine (lines.Title version) bytes.now) }
{
    let (bay, rest) = bay_of(bytes)?;
    let lines = HeadLines::Bay { version, bay };
    Some((HeadRead::Lines { lines }, rest))
}

/// A bay with its heights, of which no row was read.
fn no_rows(
    alloc: Global,
    version: Version,
    bay: BayName,
    size: Size,
    heights: ArrayVec<u8, MAX_ROWS>,
) -> BayRows
    requires size { IsSize size }
    requires heights { AreHeightsOf size heights.items }
    ensures version { result.version ≡ version }
    ensures bay { result.bay ≡ bay }
    ensures size { result.size ≡ size }
    ensures heights { result.heights.items ≡ heights.items }
    ensures stacks { stacks_of result.stacks.items ≡ [] }
{
    BayRows {
        version,
        bay,
        size,
        heights,
        stacks: Vec::new(alloc),
    }
}

/// Reads the size. In version 1 it states the heights too.
fn read_size(
    alloc: Global,
    version: Version,
    bay: BayName,
    bytes: &[u8],
) -> Option<(HeadRead, &[u8])>
    ensures found { IfSome result (λ next. IsLineRead (lines.Bay version bay) bytes.now next.0 next.1.now) }
    ensures none { IfNone result (HasNoLine (lines.Bay version bay) bytes.now) }
{
    let (size, rest) = size_of(bytes)?;
    let lines = match version {
        Version::One => {
            let heights = same_heights(size);
            HeadLines::Rows {
                rows: no_rows(alloc, Version::One, bay, size, heights),
            }
        }
        Version::Two | Version::Three => HeadLines::Size {
            sized: BaySize { version, bay, size },
        },
    };
    Some((HeadRead::Lines { lines }, rest))
}

/// Reads the heights.
fn read_heights(alloc: Global, sized: BaySize, bytes: &[u8]) -> Option<(HeadRead, &[u8])>
    ensures found { IfSome result (λ next. IsLineRead (lines.Size sized) bytes.now next.0 next.1.now) }
    ensures none { IfNone result (HasNoLine (lines.Size sized) bytes.now) }
{
    let (heights, rest) = heights_line_of(sized.size, bytes)?;
    let lines = HeadLines::Rows {
        rows: no_rows(alloc, sized.version, sized.bay, sized.size, heights),
    };
    Some((HeadRead::Lines { lines }, rest))
}

/// Reads a row.
fn read_row(
    alloc: Global,
    rows: BayRows,
    bytes: &[u8],
) -> Result<Option<(HeadRead, &[u8])>, AllocError>
    requires { length (stacks_of rows.stacks.items) < rows.size.rows }
    ensures found { IfOk result (λ found. IfSome found (λ next. IsLineRead (lines.Rows rows) bytes.now next.0 next.1.now)) }
    ensures none { IfOk result (λ found. IfNone found (HasNoLine (lines.Rows rows) bytes.now)) }
{
    let BayRows {
        version,
        bay,
        size,
        heights,
        stacks,
    } = rows;
    let mut stacks = stacks;
    let Some(rest) = next_stack(alloc, size, heights.as_slice(), &mut stacks, bytes)? else {
        return Ok(None);
    };
    let rows = BayRows {
        version,
        bay,
        size,
        heights,
        stacks,
    };
    let lines = HeadLines::Rows { rows };
    Ok(Some((HeadRead::Lines { lines }, rest)))
}

/// Reads the claim, behind all rows.
fn read_claim(rows: BayRows, bytes: &[u8]) -> Option<(HeadRead, &[u8])>
    requires { length (stacks_of rows.stacks.items) ≡ rows.size.rows }
    ensures found { IfSome result (λ next. IsLineRead (lines.Rows rows) bytes.now next.0 next.1.now) }
    ensures none { IfNone result (HasNoLine (lines.Rows rows) bytes.now) }
{
    let (claim, rest) = claim_of(rows.version, rows.size.most_claimed(), bytes)?;
    let lines = HeadLines::Claim {
        claimed: BayClaim { rows, claim },
    };
    Some((HeadRead::Lines { lines }, rest))
}

/// Reads a row, or the claim where all rows were read.
fn read_row_or_claim(
    alloc: Global,
    rows: BayRows,
    bytes: &[u8],
) -> Result<Option<(HeadRead, &[u8])>, AllocError>
    ensures found { IfOk result (λ found. IfSome found (λ next. IsLineRead (lines.Rows rows) bytes.now next.0 next.1.now)) }
    ensures none { IfOk result (λ found. IfNone found (HasNoLine (lines.Rows rows) bytes.now)) }
{
    if rows.stacks.len() < rows.size.rows as usize {
        return read_row(alloc, rows, bytes);
    }
    Ok(read_claim(rows, bytes))
}

/// Reads the plan, with which the head ends.
fn read_plan(
    alloc: Global,
    claimed: BayClaim,
    bytes: &[u8],
) -> Result<Option<(HeadRead, &[u8])>, AllocError>
    ensures found { IfOk result (λ found. IfSome found (λ next. IsLineRead (lines.Claim claimed) bytes.now next.0 next.1.now)) }
    ensures none { IfOk result (λ found. IfNone found (HasNoLine (lines.Claim claimed) bytes.now)) }
{
    let Some((plan, rest)) = plan_of(alloc, bytes)? else {
        return Ok(None);
    };
    let BayClaim { rows, claim } = claimed;
    let problem = problem_of(rows.size, rows.heights.as_slice(), &rows.stacks);
    let head = Head {
        version: rows.version,
        bay: rows.bay,
        problem,
        claim,
        plan,
    };
    Ok(Some((HeadRead::Whole { head }, rest)))
}

impl HeadLines {
    /// Reads the next line. What it leads to, and what follows it; none where the bytes begin with no line that may stand there.
    pub fn read(self, alloc: Global, bytes: &[u8]) -> Result<Option<(HeadRead, &[u8])>, AllocError>
        ensures found { IfOk result (λ found. IfSome found (λ next. IsLineRead self bytes.now next.0 next.1.now)) }
        ensures none { IfOk result (λ found. IfNone found (HasNoLine self bytes.now)) }
    {
        match self {
            HeadLines::Start => Ok(read_title(bytes)),
            HeadLines::Title { version } => Ok(read_bay(version, bytes)),
            HeadLines::Bay { version, bay } => Ok(read_size(alloc, version, bay, bytes)),
            HeadLines::Size { sized } => Ok(read_heights(alloc, sized, bytes)),
            HeadLines::Rows { rows } => read_row_or_claim(alloc, rows, bytes),
            HeadLines::Claim { claimed } => read_plan(alloc, claimed, bytes),
        }
    }
}

/// The head that the bytes begin with, and what follows its plan line.
pub fn head_and_rest(alloc: Global, bytes: &[u8]) -> Result<(Head, &[u8]), CertFault>
    ensures head { IfOk result (λ parsed. IsHead parsed.0) }
    ensures text { IfOk result (λ parsed. bytes.now ≡ head_text parsed.0 ++ parsed.1.now) }
    ensures refused { IfErr result (λ fault. (fault ≡ CertFault.Memory) ⊎ IsFirstFault bytes.now fault) }
{
    let mut lines = HeadLines::Start;
    let mut rest = bytes;
    loop {
        let fault = lines.fault();
        let Some((read, after)) = lines.read(alloc, rest)? else {
            return Err(fault);
        };
        rest = after;
        match read {
            HeadRead::Lines { lines: next } => lines = next,
            HeadRead::Whole { head } => return Ok((head, rest)),
        }
    }
}

/// The head that the bytes begin with, down to its plan line. What follows is not looked at. Else
/// the first line that is not as said, or that no memory is left.
pub fn read_head(alloc: Global, bytes: &[u8]) -> Result<Head, CertFault>
    ensures found { IfOk result (IsHeadOf bytes.now) }
    ensures refused { IfErr result (λ fault. (fault ≡ CertFault.Memory) ⊎ IsFirstFault bytes.now fault) }
{
    let (head, _) = head_and_rest(alloc, bytes)?;
    Ok(head)
}
