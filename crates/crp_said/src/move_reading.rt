//! Reading the line of a move.
ghost use Rattle.std.specs.Prelude.{◌≡◌, ◌≢◌, ◌&&◌, IfOk, MatchOption, length, nat_le};
ghost use Rattle.std.specs.List.{list_all};
ghost use Rattle.crp_yard.specs.Records.{is_container};
ghost use Rattle.crp_cert.specs.Reading.{Reads};
ghost use Rattle.crp_said.specs.declared.moves.SaidMove.{SaidMove};
ghost use Rattle.crp_said.specs.MoveLines.{move_words};
ghost use Rattle.crp_said.specs.Spelled.{CanBeStated};
ghost use Rattle.crp_said.specs.Fields.{place_at, container_at, shift_at, take_at, stated_at};

use crate::fields::MAX_NUMBER;
use crate::moves::{Place, SaidMove};
use crp_cert::{after_tag, number};
use crp_plan::Container;
use std::alloc::{AllocError, Global};

// A space and a place, and what follows it.
#[tactic(auto, unfolding(crate::specs::Fields::place_at))]
fn place_of(bytes: &[u8]) -> Option<(Place, &[u8])>
    ensures { Reads (λ x. (x.0, x.1.now)) result (place_at bytes.now) }
{
    let rest = after_tag(b" ", bytes)?;
    let (row, rest) = number(MAX_NUMBER, rest)?;
    let rest = after_tag(b".", rest)?;
    let (tier, rest) = number(MAX_NUMBER, rest)?;
    let place = Place { row, tier };
    Some((place, rest))
}

// No byte is below 0x20.
fn have_no_controls(bytes: &[u8]) -> bool
    ensures { result ≡ list_all (λ b. nat_le 32 b) bytes.now }
{
    bytes.iter().all(|b| *b >= 32)
}

// Whether the bytes can be the name of a container.
fn is_container(bytes: &[u8]) -> bool
    ensures { result ≡ is_container bytes.now }
{
    !bytes.is_empty() && bytes.len() <= 35 && have_no_controls(bytes)
}

// A space and the name of a container, to the end of the bytes.
#[tactic(auto, unfolding(crate::specs::Fields::container_at))]
fn container_of(bytes: &[u8]) -> Option<&[u8]>
    ensures { Reads (λ x. x.now) result (container_at bytes.now) }
{
    let name = after_tag(b" ", bytes)?;
    if is_container(name) {
        return Some(name);
    }
    None
}

// The places and the container of a relocation.
#[tactic(auto, unfolding(crate::specs::Fields::shift_at))]
fn shift_of(bytes: &[u8]) -> Option<(Place, Place, &[u8])>
    ensures { Reads (λ x. SaidMove.Shift x.0 x.1 x.2.now) result (shift_at bytes.now) }
{
    let rest = after_tag(b"shift", bytes)?;
    let (from, rest) = place_of(rest)?;
    let (to, rest) = place_of(rest)?;
    let container = container_of(rest)?;
    Some((from, to, container))
}

// The place and the container of a retrieval.
#[tactic(auto, unfolding(crate::specs::Fields::take_at))]
fn take_of(bytes: &[u8]) -> Option<(Place, &[u8])>
    ensures { Reads (λ x. SaidMove.Take x.0 x.1.now) result (take_at bytes.now) }
{
    let rest = after_tag(b"take", bytes)?;
    let (from, rest) = place_of(rest)?;
    let container = container_of(rest)?;
    Some((from, container))
}

/// The move that a line states, without its LF: exactly the one whose words these bytes are. Where they are the words of none that a line
/// can state, `None`.
pub fn read_move(alloc: Global, line: &[u8]) -> Result<Option<SaidMove>, AllocError>
    ensures { IfOk result (λ stated. MatchOption stated ((m : SaidMove) → CanBeStated m → line.now ≢ move_words m) (λ m. CanBeStated m × (line.now ≡ move_words m))) }
{
    if let Some((from, to, name)) = shift_of(line) {
        let container = Container::named(alloc, name)?;
        return Ok(Some(SaidMove::Shift {
            from,
            to,
            container,
        }));
    }
    let Some((from, name)) = take_of(line) else {
        return Ok(None);
    };
    let container = Container::named(alloc, name)?;
    Ok(Some(SaidMove::Take { from, container }))
}
