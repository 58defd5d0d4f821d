//! Closing a position by one cut.
ghost use Rattle.std.specs.Prelude.{◌≡◌, ℕ, ◌≤◌, List, ◌∷◌, ◌++◌, IfOk};
ghost use Rattle.std.specs.Bool.{OnTrue, OnFalse};
ghost use Rattle.crp_thinning.specs.Symbols.{Closes};

use crate::reading::{Reads, begin_family};
use crate::seeking::MAX_FAMILY;
use crate::thinned::Thinned;
use arrayvec::ArrayVec;
use std::alloc::AllocError;

/// Whether the symbols are the text of a family whose chains make a cut that reaches what is needed.
fn ends_family(place: &Thinned, need: u32, text: &[u8]) -> bool
    ensures { OnTrue result (Closes place.now.place need (84 ∷ text.now)) }
{
    let mut reading = begin_family(need.saturating_sub(place.blocking()));
    for (i, symbol) in text.iter().enumerate() {
        match place.read_family(&mut reading, *symbol) {
            Reads::On => {}
            Reads::Ended => return i + 1 == text.len(),
            Reads::Wrong => return false,
        }
    }
    false
}

/// Closes a position by the chains of a family, each with at most so many rows that are open to any of it, where one is found
/// that gains as much. No family may be found where there is one.
fn cut_by_chains(
    place: &Thinned,
    need: u32,
    rows: u8,
    symbols: &mut Vec<u8>,
) -> Result<bool, AllocError>
    ensures closed { IfOk result (λ cut. OnTrue cut ((text : List ℕ) × Closes place.now.place need text × (symbols.new.items ≡ symbols.old.items ++ text))) }
    ensures open { IfOk result (λ cut. OnFalse cut (symbols.new.items ≡ symbols.old.items)) }
    ensures grown { (text : List ℕ) × (symbols.new.items ≡ symbols.old.items ++ text) }
{
    let mut text = ArrayVec::<u8, MAX_FAMILY>::new();
    let wanted = need.saturating_sub(place.blocking());
    if !place.find_family(wanted, rows, &mut text) || !ends_family(place, need, text.as_slice()) {
        return Ok(false);
    }
    symbols.push(b'T')?;
    symbols.extend_from_slice(text.as_slice())?;
    Ok(true)
}

/// Closes a position by one cut, where a bound reaches what is needed: the blocking bound, the look-ahead bound, or, unless no row
/// may be open to a chain, chains that are found.
pub fn cut(place: &Thinned, need: u32, rows: u8, symbols: &mut Vec<u8>) -> Result<bool, AllocError>
    ensures closed { IfOk result (λ cut. OnTrue cut ((text : List ℕ) × Closes place.now.place need text × (symbols.new.items ≡ symbols.old.items ++ text))) }
    ensures open { IfOk result (λ cut. OnFalse cut (symbols.new.items ≡ symbols.old.items)) }
    ensures grown { (text : List ℕ) × (symbols.new.items ≡ symbols.old.items ++ text) }
{
    if place.blocking() >= need {
        symbols.push(b'B')?;
        return Ok(true);
    }
    if place.look_ahead_reaches(need) {
        symbols.push(b'L')?;
        return Ok(true);
    }
    if rows == 0 {
        return Ok(false);
    }
    cut_by_chains(place, need, rows, symbols)
}
