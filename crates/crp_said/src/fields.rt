//! The fields of a line.
ghost use Rattle.std.specs.Prelude.{◌≡◌};
ghost use Rattle.crp_cert.specs.Reading.{Reads};
ghost use Rattle.crp_said.specs.Fields.{number_alone_at, counts_at, last_at, optimal_at, outside_at, upper_at, cause_at, said_optimal_at, said_none_at, said_between_at, said_outside_at, said_at, bay_at, is_move};

use crate::numbers::Numbers;
use crate::said::{Said, SaidCause};
use crp_cert::{after_tag, number, word};

/// The most that a number of a report can be.
pub const MAX_NUMBER: u32 = 4294967295;

/// The number that all of the bytes are.
#[tactic(auto, unfolding(crate::specs::Fields::number_alone_at))]
fn number_alone(bytes: &[u8]) -> Option<u32>
    ensures { Reads (λ x. x) result (number_alone_at bytes.now) }
{
    let (value, rest) = number(MAX_NUMBER, bytes)?;
    if rest.is_empty() {
        return Some(value);
    }
    None
}

/// The three numbers that a first line says.
#[tactic(auto, unfolding(crate::specs::Fields::counts_at))]
pub fn counts_of(line: &[u8]) -> Option<Numbers>
    ensures { Reads (λ x. x) result (counts_at line.now) }
{
    let rest = after_tag(b"orders ", line)?;
    let (orders, rest) = number(MAX_NUMBER, rest)?;
    let rest = after_tag(b" open ", rest)?;
    let (vacant, rest) = number(MAX_NUMBER, rest)?;
    let rest = after_tag(b" absent ", rest)?;
    let absent = number_alone(rest)?;
    Some(Numbers {
        orders: orders as u64,
        vacant: vacant as u64,
        absent: absent as u64,
    })
}

/// The two numbers that a last line says.
#[tactic(auto, unfolding(crate::specs::Fields::last_at))]
pub fn last_of(line: &[u8]) -> Option<(u32, u32)>
    ensures { Reads (λ x. (x.0, x.1)) result (last_at line.now) }
{
    let rest = after_tag(b"bays ", line)?;
    let (count, rest) = number(MAX_NUMBER, rest)?;
    let rest = after_tag(b" decided ", rest)?;
    let settled = number_alone(rest)?;
    Some((count, settled))
}

/// What stands behind the relocations of an optimal plan.
fn optimal_of(count: u32, bytes: &[u8]) -> Option<Said>
    ensures { Reads (λ x. x) result (optimal_at count bytes.now) }
{
    if bytes == b"".as_slice() {
        return Some(Said::Optimal(count));
    }
    if bytes == b" first".as_slice() {
        return Some(Said::First(count));
    }
    None
}

/// What stands behind the relocations of moves outside the rule.
fn outside_of(count: u32, bytes: &[u8]) -> Option<Said>
    ensures { Reads (λ x. x) result (outside_at count bytes.now) }
{
    if bytes == b", edited".as_slice() {
        return Some(Said::Outside(count));
    }
    None
}

/// The relocations of a plan, or that there is none.
fn upper_of(bytes: &[u8]) -> Option<(Option<u32>, &[u8])>
    ensures { Reads (λ x. (x.0, x.1.now)) result (upper_at bytes.now) }
{
    if let Some(rest) = after_tag(b"none", bytes) {
        return Some((None, rest));
    }
    let (count, rest) = number(MAX_NUMBER, bytes)?;
    Some((Some(count), rest))
}

/// Why a bay is left open.
fn cause_of(bytes: &[u8]) -> Option<SaidCause>
    ensures { Reads (λ x. x) result (cause_at bytes.now) }
{
    if bytes == b"budget".as_slice() {
        return Some(SaidCause::Budget);
    }
    if bytes == b"memory".as_slice() {
        return Some(SaidCause::Memory);
    }
    if bytes == b"time".as_slice() {
        return Some(SaidCause::Time);
    }
    if bytes == b"edited".as_slice() {
        return Some(SaidCause::Edited);
    }
    None
}

#[tactic(auto, unfolding(crate::specs::Fields::said_optimal_at))]
fn said_optimal(bytes: &[u8]) -> Option<Said>
    ensures { Reads (λ x. x) result (said_optimal_at bytes.now) }
{
    let rest = after_tag(b"optimal ", bytes)?;
    let (count, rest) = number(MAX_NUMBER, rest)?;
    optimal_of(count, rest)
}

fn said_none(bytes: &[u8]) -> Option<Said>
    ensures { Reads (λ x. x) result (said_none_at bytes.now) }
{
    if bytes == b"no plan".as_slice() {
        return Some(Said::NoPlan);
    }
    None
}

#[tactic(auto, unfolding(crate::specs::Fields::said_between_at))]
fn said_between(bytes: &[u8]) -> Option<Said>
    ensures { Reads (λ x. x) result (said_between_at bytes.now) }
{
    let rest = after_tag(b"between ", bytes)?;
    let (lower, rest) = number(MAX_NUMBER, rest)?;
    let rest = after_tag(b" and ", rest)?;
    let (upper, rest) = upper_of(rest)?;
    let rest = after_tag(b", ", rest)?;
    let cause = cause_of(rest)?;
    Some(Said::Between {
        lower,
        upper,
        cause,
    })
}

#[tactic(auto, unfolding(crate::specs::Fields::said_outside_at))]
fn said_outside(bytes: &[u8]) -> Option<Said>
    ensures { Reads (λ x. x) result (said_outside_at bytes.now) }
{
    let rest = after_tag(b"outside the rule ", bytes)?;
    let (count, rest) = number(MAX_NUMBER, rest)?;
    outside_of(count, rest)
}

/// What a line says of the fewest relocations.
fn said_of(bytes: &[u8]) -> Option<Said>
    ensures { Reads (λ x. x) result (said_at bytes.now) }
{
    if let Some(said) = said_optimal(bytes) {
        return Some(said);
    }
    if let Some(said) = said_none(bytes) {
        return Some(said);
    }
    if let Some(said) = said_between(bytes) {
        return Some(said);
    }
    said_outside(bytes)
}

/// The name of a bay, whatever it is, and what is said of the bay.
#[tactic(auto, unfolding(crate::specs::Fields::bay_at))]
pub fn parts_of(line: &[u8]) -> Option<((&[u8], u32), Said)>
    ensures { Reads (λ x. ((x.0.0.now, x.0.1), x.1)) result (bay_at line.now) }
{
    let rest = after_tag(b"bay ", line)?;
    let (block, rest) = word(rest)?;
    let rest = after_tag(b" ", rest)?;
    let (bay, rest) = number(MAX_NUMBER, rest)?;
    let rest = after_tag(b": ", rest)?;
    let said = said_of(rest)?;
    Some(((block, bay), said))
}

/// Whether a line of moves may begin so.
pub fn is_move(line: &[u8]) -> bool
    ensures { result ≡ is_move line.now }
{
    match line {
        [first, ..] => *first != b'b',
        [] => false,
    }
}
