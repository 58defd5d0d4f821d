//! The fields of a part line.
ghost use Rattle.std.specs.Prelude.{◌≡◌, ℕ, List, IfSome, IfNone};
ghost use Rattle.crp_plan.specs.Bay.{IsAt, IsProblem};
ghost use Rattle.crp_cert.specs.Reading.{Reads};
ghost use Rattle.crp_cert.specs.PartReading.{line_at, name_at, part_at};
ghost use Rattle.crp_cert.specs.Settled.{IsName, spelled_name};

use crate::fields::{after_newline, after_tag, number};
use crp_bay::Position;
use crp_plan::Problem;
use crp_tree::Name;

/// What stands before the end of the line, and what stands from there on.
fn line_of(bytes: &[u8]) -> Option<(&[u8], &[u8])>
    ensures { Reads (λ x. (x.0.now, x.1.now)) result (line_at bytes.now) }
{
    for (i, b) in bytes.iter().enumerate() {
        if *b == b'\n' {
            return Some(bytes.split_at(i));
        }
    }
    None
}

/// A name that is a path of the problem, where it leads, and what follows it.
#[tactic(auto, unfolding(crate::specs::PartReading::name_at))]
fn name_of<'a>(problem: &Problem, bytes: &'a [u8]) -> Option<((Name, Position), &'a [u8])>
    ensures value { Reads (λ x. ((x.0.0, x.0.1.place), x.1.now)) result (name_at problem.now bytes.now) }
    ensures problem { IsProblem problem.now }
{
    if let Some(rest) = after_tag(b"/", bytes) {
        return Some(((Name::root(), Position::start(problem)), rest));
    }
    let mut name = Name::root();
    let mut place = Position::start(problem);
    let mut rest = bytes;
    loop {
        let (row, after) = number(99, rest)?;
        place = place.child(row as u8)?;
        name = name.child(row as u8)?;
        let Some(more) = after_tag(b".", after) else {
            return Some(((name, place), after));
        };
        rest = more;
    }
}

/// What a part line states: its name and where that leads, its symbols, whatever they are, and what
/// follows the line.
#[derive(Drop)]
pub struct PartFields<'a> {
    pub name: Name,
    pub place: Position,
    pub symbols: &'a [u8],
    pub rest: &'a [u8],
}

/// The fields of the part line whose first word is read.
#[tactic(auto, unfolding(crate::specs::PartReading::part_at))]
pub fn part_line<'a>(problem: &Problem, bytes: &'a [u8]) -> Option<PartFields<'a>>
    ensures value { Reads (λ x. ((x.name, x.symbols.now), x.rest.now)) result (part_at problem.now bytes.now) }
    ensures at { IfSome result (λ x. IsAt problem.now x.name x.place.place) }
    ensures problem { IsProblem problem.now }
{
    let ((name, place), rest) = name_of(problem, bytes)?;
    let rest = after_tag(b": ", rest)?;
    let (symbols, rest) = line_of(rest)?;
    let rest = after_newline(rest)?;
    Some(PartFields {
        name,
        place,
        symbols,
        rest,
    })
}

/// The name of which the bytes are the spelling in a part line: from behind its first word down to
/// the space before its symbols. `None` where they spell no path of the problem with at most 8 rows.
pub fn read_name(problem: &Problem, bytes: &[u8]) -> Option<Name>
    ensures found { IfSome result (λ name. IsName problem.now name × (bytes.now ≡ spelled_name name)) }
    ensures none { IfNone result ((name : List ℕ) → IsName problem.now name
        → bytes.now ≡ spelled_name name → ⊥) }
    ensures problem { IsProblem problem.now }
{
    let Some((named, rest)) = name_of(problem, bytes) else {
        return None;
    };
    let Some(after) = after_tag(b": ", rest) else {
        return None;
    };
    if !after.is_empty() {
        return None;
    }
    Some(named.0)
}
