//! The fields of a line.
ghost use Rattle.std.specs.Prelude.{◌≡◌, ◌≤◌, ◌<◌, ◌+◌, ◌*◌, ◌-◌, ◌++◌, ℕ, List, IfOk, IfSome, IfNone, IsTrue, ◌↔◌, All, replicate};
ghost use Rattle.std.specs.List.{list_all};
ghost use Rattle.crp_plan.specs.BayNames.{YardBay, IsYardBay};
ghost use Rattle.crp_cert.specs.Text.{bay_line};
ghost use Rattle.crp_cert.specs.Reading.{Reads, tag_at, digits_at, number_at, spaced_at, newline_at, numbers_at, word_at, title_at, size_at, heights_line_at, bound_at, first_at, claim_at, is_size, is_height, are_heights, name_at, row_at, plan_at};

use crate::claim::Claim;
use crate::rows::Rows;
use crate::size::Size;
use crate::version::Version;
use arrayvec::ArrayVec;
use crp_plan::{BayName, MAX_ROWS, tallest};
use std::alloc::{AllocError, Global};

/// What follows a tag.
pub fn after_tag<'a>(tag: &[u8], bytes: &'a [u8]) -> Option<&'a [u8]>
    ensures { Reads (λ x. x.now) result (tag_at tag.now bytes.now) }
{
    let mut rest = bytes;
    for t in tag {
        let [b, after @ ..] = rest else {
            return None;
        };
        if *b != *t {
            return None;
        }
        rest = after;
    }
    Some(rest)
}

/// The version that a title says.
pub fn title_of(bytes: &[u8]) -> Option<(Version, &[u8])>
    ensures { Reads (λ x. (x.0, x.1.now)) result (title_at bytes.now) }
{
    if let Some(rest) = after_tag(b"CRP-CERT 1\n", bytes) {
        return Some((Version::One, rest));
    }
    if let Some(rest) = after_tag(b"CRP-CERT 2\n", bytes) {
        return Some((Version::Two, rest));
    }
    let rest = after_tag(b"CRP-CERT 3\n", bytes)?;
    Some((Version::Three, rest))
}

/// A number whose first digit is read, up to the limit, and what follows its digits.
fn further_digits(limit: u32, first: u32, bytes: &[u8]) -> Option<(u32, &[u8])>
    requires { first ≤ limit }
    ensures value { Reads (λ x. (x.0, x.1.now)) result (digits_at limit first bytes.now) }
    ensures low { IfSome result (λ x. x.0 ≤ limit) }
{
    let mut value = first;
    for (i, b) in bytes.iter().enumerate() {
        if !b.is_ascii_digit() {
            return Some((value, &bytes[i..]));
        }
        let more = 10 * value as u64 + (*b - b'0') as u64;
        if more > limit as u64 {
            return None;
        }
        value = more as u32;
    }
    Some((value, &bytes[bytes.len()..]))
}

/// A number up to the limit, without leading zeros, and what follows it.
pub fn number(limit: u32, bytes: &[u8]) -> Option<(u32, &[u8])>
    requires { 9 ≤ limit }
    ensures value { Reads (λ x. (x.0, x.1.now)) result (number_at limit bytes.now) }
    ensures low { IfSome result (λ x. x.0 ≤ limit) }
{
    match bytes {
        [b'0', rest @ ..] => Some((0, rest)),
        [b, rest @ ..] if b.is_ascii_digit() => further_digits(limit, (*b - b'0') as u32, rest),
        _ => None,
    }
}

/// A space and a number up to the limit.
pub fn spaced(limit: u32, bytes: &[u8]) -> Option<(u32, &[u8])>
    requires { 9 ≤ limit }
    ensures value { Reads (λ x. (x.0, x.1.now)) result (spaced_at limit bytes.now) }
    ensures low { IfSome result (λ x. x.0 ≤ limit) }
{
    match bytes {
        [b' ', rest @ ..] => number(limit, rest),
        _ => None,
    }
}

/// What follows the end of the line.
pub fn after_newline(bytes: &[u8]) -> Option<&[u8]>
    ensures { Reads (λ x. x.now) result (newline_at bytes.now) }
{
    match bytes {
        [b'\n', rest @ ..] => Some(rest),
        _ => None,
    }
}

/// What stands before the first space, and what stands from there on.
pub fn word(bytes: &[u8]) -> Option<(&[u8], &[u8])>
    ensures { Reads (λ x. (x.0.now, x.1.now)) result (word_at bytes.now) }
{
    for (i, b) in bytes.iter().enumerate() {
        if *b == b' ' {
            return Some(bytes.split_at(i));
        }
    }
    None
}

/// The size that a line says, within the limits of a bay.
#[tactic(auto, unfolding(crate::specs::Reading::size_at))]
pub fn size_of(bytes: &[u8]) -> Option<(Size, &[u8])>
    ensures { Reads (λ x. (x.0, x.1.now)) result (size_at bytes.now) }
{
    let rest = after_tag(b"size", bytes)?;
    let (rows, rest) = spaced(99, rest)?;
    let (tiers, rest) = spaced(99, rest)?;
    let (ordered, rest) = spaced(99, rest)?;
    let (total, rest) = spaced(99, rest)?;
    let rest = after_newline(rest)?;
    let size = Size {
        rows: rows as u8,
        tiers: tiers as u8,
        ordered: ordered as u8,
        total: total as u8,
    };
    if !is_allowed(size) {
        return None;
    }
    Some((size, rest))
}

/// Whether a size is within the limits of a bay.
fn is_allowed(size: Size) -> bool
    requires rows { size.rows ≤ 99 }
    requires tiers { size.tiers ≤ 99 }
    ensures { result ≡ is_size size }
{
    size.rows >= 1
        && size.rows <= 12
        && size.tiers >= 1
        && size.tiers <= 8
        && size.ordered <= size.total
        && size.total as u32 <= size.rows as u32 * size.tiers as u32
}

/// Heights of one or two digits to the end of the line, no more than a bay has rows.
fn few_numbers(bytes: &[u8]) -> Option<(ArrayVec<u8, MAX_ROWS>, &[u8])>
    ensures { Reads (λ x. (x.0.items, x.1.now)) result (numbers_at 12 bytes.now) }
{
    let mut numbers = ArrayVec::new();
    let mut rest = bytes;
    for _ in 0..MAX_ROWS {
        if let Some(after) = after_newline(rest) {
            return Some((numbers, after));
        }
        let (number, after) = spaced(99, rest)?;
        numbers.push(number as u8);
        rest = after;
    }
    let after = after_newline(rest)?;
    Some((numbers, after))
}

/// Whether each is a height of 1 to 8.
fn are_low(heights: &[u8]) -> bool
    ensures { result ≡ list_all is_height heights.now }
{
    heights.iter().all(|height| *height >= 1 && *height <= 8)
}

/// Whether a line may say these heights under a size.
fn are_allowed(size: Size, heights: &[u8]) -> bool
    ensures { result ≡ are_heights size heights.now }
{
    heights.len() == size.rows as usize && tallest(heights) == size.tiers && are_low(heights)
}

/// The heights that a line says under a size.
#[tactic(auto, unfolding(crate::specs::Reading::heights_line_at))]
pub fn heights_line_of(size: Size, bytes: &[u8]) -> Option<(ArrayVec<u8, MAX_ROWS>, &[u8])>
    ensures { Reads (λ x. (x.0.items, x.1.now)) result (heights_line_at size bytes.now) }
{
    let rest = after_tag(b"heights", bytes)?;
    let (heights, rest) = few_numbers(rest)?;
    if !are_allowed(size, heights.as_slice()) {
        return None;
    }
    Some((heights, rest))
}

/// The tiers for each row.
pub fn same_heights(size: Size) -> ArrayVec<u8, MAX_ROWS>
    requires { size.rows ≤ 12 }
    ensures { result.items ≡ replicate size.rows size.tiers }
{
    let mut heights = ArrayVec::new();
    for _ in 0..size.rows {
        heights.push(size.tiers);
    }
    heights
}

/// The bound that a line of a word says, up to the cap.
#[tactic(auto, unfolding(crate::specs::Reading::bound_at))]
fn bound_of<'a>(word: &[u8], cap: u32, bytes: &'a [u8]) -> Option<(u32, &'a [u8])>
    ensures { Reads (λ x. (x.0, x.1.now)) result (bound_at word.now cap bytes.now) }
{
    let rest = after_tag(word, bytes)?;
    let (bound, rest) = spaced(9999, rest)?;
    let rest = after_newline(rest)?;
    if bound > cap {
        return None;
    }
    Some((bound, rest))
}

/// The claim of the first best plan that a line makes, up to the cap, where the version has one.
fn first_of(version: Version, cap: u32, bytes: &[u8]) -> Option<(Claim, &[u8])>
    ensures { Reads (λ x. (x.0, x.1.now)) result (first_at version cap bytes.now) }
{
    match version {
        Version::One => None,
        Version::Two | Version::Three => {
            let (bound, rest) = bound_of(b"first", cap, bytes)?;
            Some((Claim::First(bound), rest))
        }
    }
}

/// What a line of a version claims, up to the cap.
pub fn claim_of(version: Version, cap: u32, bytes: &[u8]) -> Option<(Claim, &[u8])>
    ensures { Reads (λ x. (x.0, x.1.now)) result (claim_at version cap bytes.now) }
{
    if let Some((bound, rest)) = bound_of(b"at least", cap, bytes) {
        return Some((Claim::AtLeast(bound), rest));
    }
    first_of(version, cap, bytes)
}

/// Numbers of one or two digits to the end of the line, at most so many.
pub fn numbers(
    alloc: Global,
    most: usize,
    bytes: &[u8],
) -> Result<Option<(Vec<u8>, &[u8])>, AllocError>
    requires { most ≤ 672 }
    ensures { IfOk result (λ found. Reads (λ x. (x.0.items, x.1.now)) found (numbers_at most bytes.now)) }
{
    let mut numbers = Vec::new(alloc);
    let mut rest = bytes;
    for _ in 0..most {
        if let Some(after) = after_newline(rest) {
            return Ok(Some((numbers, after)));
        }
        let Some((number, after)) = spaced(99, rest) else {
            return Ok(None);
        };
        numbers.push(number as u8)?;
        rest = after;
    }
    match after_newline(rest) {
        Some(after) => Ok(Some((numbers, after))),
        None => Ok(None),
    }
}

/// The block and the number that the line of a bay says, whatever they are.
#[tactic(auto, unfolding(crate::specs::Reading::name_at))]
fn name_of(bytes: &[u8]) -> Option<((&[u8], u32), &[u8])>
    ensures value { Reads (λ x. ((x.0.0.now, x.0.1), x.1.now)) result (name_at bytes.now) }
    ensures low { IfSome result (λ x. x.0.1 ≤ 9999) }
{
    let rest = after_tag(b"bay ", bytes)?;
    let (block, rest) = word(rest)?;
    let (bay, rest) = spaced(9999, rest)?;
    let rest = after_newline(rest)?;
    Some(((block, bay), rest))
}

/// The name of the bay that a line says.
pub fn bay_of(bytes: &[u8]) -> Option<(BayName, &[u8])>
    ensures found { IfSome result (λ x. IsYardBay x.0 × (bytes.now ≡ bay_line x.0 ++ x.1.now)) }
    ensures none { IfNone result ((name : YardBay) (rest : List ℕ) → IsYardBay name → bytes.now ≡ bay_line name ++ rest → ⊥) }
{
    let Some(((block, bay), rest)) = name_of(bytes) else {
        return None;
    };
    let Some(name) = BayName::new(block, bay as u16) else {
        return None;
    };
    Some((name, rest))
}

/// The ranks of a row, at most so many, of one or two digits.
#[tactic(auto, unfolding(crate::specs::Reading::row_at))]
pub fn row_of(
    alloc: Global,
    most: usize,
    bytes: &[u8],
) -> Result<Option<(Vec<u8>, &[u8])>, AllocError>
    requires { most ≤ 672 }
    ensures { IfOk result (λ found. Reads (λ x. (x.0.items, x.1.now)) found (row_at most bytes.now)) }
{
    let Some(rest) = after_tag(b"row", bytes) else {
        return Ok(None);
    };
    numbers(alloc, most, rest)
}

/// What a plan line says: the rows of a plan, or that there is none.
#[tactic(auto, unfolding(crate::specs::Reading::plan_at))]
pub fn plan_of(alloc: Global, bytes: &[u8]) -> Result<Option<(Option<Rows>, &[u8])>, AllocError>
    ensures { IfOk result (λ found. Reads (λ x. (x.0, x.1.now)) found (plan_at bytes.now)) }
{
    let Some(rest) = after_tag(b"plan", bytes) else {
        return Ok(None);
    };
    if let Some(after) = after_tag(b" -\n", rest) {
        return Ok(Some((None, after)));
    }
    match numbers(alloc, 672, rest)? {
        Some((rows, after)) => Ok(Some((Some(Rows::of(rows)), after))),
        None => Ok(None),
    }
}
