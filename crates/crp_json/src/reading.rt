//! Reading what is printed: an entry of a report, some entries of checks, or one of bounds.
ghost use Rattle.std.specs.Prelude.{◌≡◌, ◌≢◌, ◌++◌, ◌∷◌, [], List, codes, IfOk, IfSome, IfNone};
ghost use Rattle.std.specs.List.{AllByRecursion};
ghost use Rattle.crp_said.specs.declared.moves.SaidMove.{SaidMove};
ghost use Rattle.crp_said.specs.Spelled.{CanBeStated, IsOrdersLine, IsLastLine};
ghost use Rattle.crp_json.specs.declared.entry.Entry.{Entry};
ghost use Rattle.crp_json.specs.declared.entry.Printed;
ghost use Rattle.crp_json.specs.Entries.{moves_text, entry_text, IsEntryOf, IsPiece, IsNumberLine, IsShownLine};
ghost use Rattle.crp_json.specs.Lines.{report_of};

use crate::bound_lines::read_bounds;
use crate::check_lines::{read_number, read_shown};
use crate::entry::{BayEntry, Entry, Printed};
use crp_said::{SaidMove, cut_line, read_bay, read_last, read_move, read_numbers};
use std::alloc::{AllocError, Global};

// The moves that lines state, if each states one.
fn read_moves(alloc: Global, text: &[u8]) -> Result<Option<Vec<SaidMove>>, AllocError>
    ensures found { IfOk result (λ read. IfSome read (λ moves. AllByRecursion CanBeStated moves.items × (text.now ≡ moves_text moves.items))) }
    ensures none { IfOk result (λ read. IfNone read ((moves : List SaidMove) → AllByRecursion CanBeStated moves → text.now ≢ moves_text moves)) }
{
    let mut moves = Vec::new(alloc);
    let mut rest = text;
    while let Some((line, behind)) = cut_line(rest) {
        let Some(step) = read_move(alloc, line)? else {
            return Ok(None);
        };
        moves.push(step).map_err(AllocError::from)?;
        rest = behind;
    }
    if !rest.is_empty() {
        return Ok(None);
    }
    Ok(Some(moves))
}

// The entry of a line that stands alone, if it is that of a first or a last line.
fn read_single(line: &[u8], rest: &[u8]) -> Option<Entry>
    ensures found { IfSome result (λ entry. IsEntryOf Printed.Report entry × (line.now ++ 10 ∷ rest.now ≡ entry_text entry)) }
    ensures none { IfNone result (rest.now ≡ [] → (¬ IsOrdersLine line.now) × (¬ IsLastLine line.now)) }
{
    if !rest.is_empty() {
        return None;
    }
    if let Some(numbers) = read_numbers(line) {
        return Some(Entry::First(numbers));
    }
    let Some((bays, decided)) = read_last(line) else {
        return None;
    };
    Some(Entry::Last { bays, decided })
}

// The entry of a report whose lines these are. Where they are those of none, `None`.
fn read_entry(alloc: Global, text: &[u8]) -> Result<Option<Entry>, AllocError>
    ensures found { IfOk result (λ read. IfSome read (λ entry. IsEntryOf Printed.Report entry × (text.now ≡ entry_text entry))) }
    ensures none { IfOk result (λ read. IfNone read ((entry : Entry) → IsEntryOf Printed.Report entry → text.now ≢ entry_text entry)) }
{
    let Some((line, rest)) = cut_line(text) else {
        return Ok(None);
    };
    if let Some(entry) = read_single(line, rest) {
        return Ok(Some(entry));
    }
    let Some((bay, said)) = read_bay(line) else {
        return Ok(None);
    };
    let Some(moves) = read_moves(alloc, rest)? else {
        return Ok(None);
    };
    Ok(Some(Entry::Bay(BayEntry { bay, said, moves })))
}

// The entry of checks that a line states, if it states one.
fn read_check(line: &[u8]) -> Option<Entry>
    ensures found { IfSome result (λ entry. IsEntryOf Printed.Checks entry × (line.now ++ 10 ∷ [] ≡ entry_text entry)) }
    ensures none { IfNone result ((¬ IsShownLine line.now) × (¬ IsNumberLine (codes "audited ") line.now)) }
{
    if let Some(shown) = read_shown(line) {
        return Some(Entry::Certified(shown));
    }
    let bays = read_number(b"audited ", line)?;
    Some(Entry::Audited(bays))
}

// The entries of checks that lines state, if each states one.
fn read_checks(alloc: Global, text: &[u8]) -> Result<Option<Vec<Entry>>, AllocError>
    ensures found { IfOk result (λ read. IfSome read (λ entries. AllByRecursion (IsEntryOf Printed.Checks) entries.items × (text.now ≡ report_of entries.items))) }
    ensures none { IfOk result (λ read. IfNone read ((entries : List Entry) → AllByRecursion (IsEntryOf Printed.Checks) entries → text.now ≢ report_of entries)) }
{
    let mut entries = Vec::new(alloc);
    let mut rest = text;
    while let Some((line, behind)) = cut_line(rest) {
        match read_check(line) {
            Some(entry) => entries.push(entry).map_err(AllocError::from)?,
            None => return Ok(None),
        }
        rest = behind;
    }
    if !rest.is_empty() {
        return Ok(None);
    }
    Ok(Some(entries))
}

// One entry, alone.
fn alone(alloc: Global, entry: Entry) -> Result<Vec<Entry>, AllocError>
    ensures { IfOk result (λ entries. entries.items ≡ entry ∷ []) }
{
    let mut entries = Vec::new(alloc);
    entries.push(entry).map_err(AllocError::from)?;
    Ok(entries)
}

// The entry of a report whose lines a piece has.
fn report_piece(alloc: Global, piece: &[u8]) -> Result<Option<Vec<Entry>>, AllocError>
    ensures found { IfOk result (λ read. IfSome read (λ entries. IsPiece Printed.Report entries.items × (piece.now ≡ report_of entries.items))) }
    ensures none { IfOk result (λ read. IfNone read ((entries : List Entry) → IsPiece Printed.Report entries → piece.now ≢ report_of entries)) }
{
    let Some(entry) = read_entry(alloc, piece)? else {
        return Ok(None);
    };
    let entries = alone(alloc, entry)?;
    Ok(Some(entries))
}

// The entry of bounds whose lines a piece has.
fn bounds_piece(alloc: Global, piece: &[u8]) -> Result<Option<Vec<Entry>>, AllocError>
    ensures found { IfOk result (λ read. IfSome read (λ entries. IsPiece Printed.Bounds entries.items × (piece.now ≡ report_of entries.items))) }
    ensures none { IfOk result (λ read. IfNone read ((entries : List Entry) → IsPiece Printed.Bounds entries → piece.now ≢ report_of entries)) }
{
    let Some(bounds) = read_bounds(alloc, piece)? else {
        return Ok(None);
    };
    let entries = alone(alloc, Entry::Bounds(bounds))?;
    Ok(Some(entries))
}

/// The entries whose lines a piece of what is printed has: one of a report, some of checks, or one of bounds. Where they are those of none,
/// `None`.
pub fn read_entries(
    alloc: Global,
    printed: Printed,
    piece: &[u8],
) -> Result<Option<Vec<Entry>>, AllocError>
    ensures found { IfOk result (λ read. IfSome read (λ entries. IsPiece printed entries.items × (piece.now ≡ report_of entries.items))) }
    ensures none { IfOk result (λ read. IfNone read ((entries : List Entry) → IsPiece printed entries → piece.now ≢ report_of entries)) }
{
    match printed {
        Printed::Report => report_piece(alloc, piece),
        Printed::Checks => read_checks(alloc, piece),
        Printed::Bounds => bounds_piece(alloc, piece),
    }
}
