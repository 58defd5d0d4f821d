//! The first bytes of a line after a head.
ghost use Rattle.std.specs.Prelude.{◌≡◌, ◌↔◌, ◌++◌, ◌∷◌, [], IsTrue, OnOk, IfOk, List, ℕ};
ghost use Rattle.crp_checker.specs.Openings.{IsOpening, IsPartOpening, IsLastOpening, IsBegunWith, part_word};

use crp_cert::{CertFault, end_line, read_name};
use crp_plan::Problem;
use crp_tree::Name;
use std::alloc::AllocError;

/// The most bytes of a name in a part line, with its colon and the space behind it.
const MAX_SPELLED: usize = 25;

/// What the first bytes of a line are.
#[derive(Drop)]
pub enum Opening {
    /// The line is still open: it may be a part line or the last line.
    Open,
    /// It is a part line down to the space behind its name.
    Name(Name),
    /// It is the whole last line.
    Ended,
    /// No line that may stand there begins so.
    Refused(CertFault),
}

/// Whether the bytes begin with these.
pub fn begins_with(bytes: &[u8], front: &[u8]) -> bool
    ensures { IsTrue result ↔ IsBegunWith bytes.now front.now }
{
    bytes.starts_with(front)
}

/// Whether the last of the bytes is a space.
fn ends_with_space(bytes: &[u8]) -> bool
    ensures { IsTrue result ↔ ((before : List ℕ) × (bytes.now ≡ before ++ 32 ∷ [])) }
{
    match bytes.last() {
        Some(last) => *last == b' ',
        None => false,
    }
}

/// What a part line is, of which these bytes came behind its word.
fn part_opening(problem: &Problem, line: u32, behind: &[u8]) -> Opening
    ensures { IsPartOpening problem.now line behind.now result }
{
    if ends_with_space(behind) {
        return match read_name(problem, behind) {
            Some(name) => Opening::Name(name),
            None => Opening::Refused(CertFault::Part { line }),
        };
    }
    if behind.len() >= MAX_SPELLED {
        return Opening::Refused(CertFault::Part { line });
    }
    Opening::Open
}

/// What a line is, of which these bytes came, that begins with another word than a part line.
fn last_opening(count: usize, line: u32, begun: &[u8]) -> Opening
    requires { IsBegunWith begun.now part_word → ⊥ }
    ensures { IsLastOpening count line begun.now result }
{
    let last_line = end_line(count);
    let last = last_line.as_slice();
    if begins_with(begun, last) {
        return Opening::Ended;
    }
    if begins_with(last, begun) {
        return Opening::Open;
    }
    if begins_with(b"part ", begun) {
        return Opening::Open;
    }
    Opening::Refused(CertFault::End { line })
}

/// Adds a byte to a line, which has this number and stands after so many parts. What the line is then.
pub fn open_by(
    problem: &Problem,
    count: usize,
    line: u32,
    begun: &mut Vec<u8>,
    byte: u8,
) -> Result<Opening, AllocError>
    ensures added { OnOk result (begun.new.items ≡ begun.old.items ++ byte ∷ []) }
    ensures opening { IfOk result (IsOpening problem.now count line begun.old.items begun.new.items) }
{
    begun.push(byte)?;
    let begun = begun.as_slice();
    if begins_with(begun, b"part ") {
        return Ok(part_opening(problem, line, &begun[5..]));
    }
    Ok(last_opening(count, line, begun))
}
