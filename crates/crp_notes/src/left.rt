//! What a report that is followed does not take of what is ordered.
ghost use Rattle.std.specs.Prelude.{◌≡◌, ◌<◌, ◌++◌, ℕ, Bool, List, Some, IfOk, OnOk, length, map, filter, slice_get};
ghost use Rattle.std.specs.Option.{option_map};
ghost use Rattle.crp_yard.specs.Inventory.{StackedBay};
ghost use Rattle.crp_said.specs.declared.moves.SaidMove.{SaidMove as Move};
ghost use Rattle.crp_follow.specs.Stated.{moves_of};
ghost use Rattle.crp_follow.specs.Views.{bay_followed};
ghost use Rattle.crp_report.specs.Watching.{ShowsMore};
ghost use Rattle.crp_notes.specs.Left.{moves_of_all, is_taken, is_left, left_in, note_on_left, note_on_loaded};
ghost use Rattle.crp_notes.specs.LeftNames.{HasThose};

use crate::lines::Lines;
use crate::wording::{left_note, loaded_note};
use crp_follow::{Followed, StatedMove};
use crp_order::Sequence;
use crp_plan::{Container, Sink};
use crp_said::SaidMove;
use crp_yard::Yard;
use std::alloc::{AllocError, Global};
use std::collections::HashSet;

// Adds the containers that moves take.
fn add_taken<'a>(names: &mut HashSet<&'a [u8]>, moves: &'a [StatedMove]) -> Result<(), AllocError>
    ensures { OnOk result ((before : List Move) → HasThose (is_taken before) names.old.keys
        → HasThose (is_taken (before ++ moves_of moves.now)) names.new.keys) }
{
    for stated in moves {
        match &stated.said {
            SaidMove::Take { container, .. } => {
                names.insert(container.bytes())?;
            }
            SaidMove::Shift { .. } => {}
        }
    }
    Ok(())
}

// The containers that the moves of a report take.
fn taken_names(alloc: Global, followed: &Followed) -> Result<HashSet<&[u8]>, AllocError>
    ensures { IfOk result (λ names. HasThose (is_taken (moves_of_all (map bay_followed followed.now.bays.items))) names.keys) }
{
    let mut names = HashSet::new(alloc);
    for bay in &followed.bays {
        add_taken(&mut names, &bay.stated.moves)?;
    }
    Ok(names)
}

// The containers of the sequence that none of these is.
fn names_without<'a>(
    alloc: Global,
    sequence: &'a Sequence,
    taken: &HashSet<&[u8]>,
) -> Result<HashSet<&'a [u8]>, AllocError>
    ensures { (moves : List Move) → HasThose (is_taken moves) taken.now.keys → IfOk result (λ names. HasThose (is_left sequence.now moves) names.keys) }
{
    let mut names = HashSet::new(alloc);
    for container in sequence.list() {
        if !taken.contains(container.bytes()) {
            names.insert(container.bytes())?;
        }
    }
    Ok(names)
}

// The containers that are ordered, and that no move of the report takes.
fn left_names<'a>(
    alloc: Global,
    followed: &Followed,
    sequence: &'a Sequence,
) -> Result<HashSet<&'a [u8]>, AllocError>
    ensures { IfOk result (λ names. HasThose (is_left sequence.now (moves_of_all (map bay_followed followed.now.bays.items))) names.keys) }
{
    let taken = taken_names(alloc, followed)?;
    names_without(alloc, sequence, &taken)
}

// Whether a container is among the names.
fn has(names: &HashSet<&[u8]>, container: &Container) -> bool
    ensures { (passes : List ℕ → Bool) → HasThose passes names.now.keys → result ≡ passes container.now }
{
    names.contains(container.bytes())
}

// Adds those of a stack that are among the names.
fn push_left<'a>(
    found: &mut Vec<&'a [u8]>,
    stack: &'a [Container],
    names: &HashSet<&[u8]>,
) -> Result<(), AllocError>
    ensures { OnOk result ((passes : List ℕ → Bool) → HasThose passes names.now.keys
        → map (λ name. name.now) found.new.items ≡ map (λ name. name.now) found.old.items ++ filter passes stack.now) }
{
    for container in stack {
        if has(names, container) {
            found.push(container.bytes())?;
        }
    }
    Ok(())
}

// Those of a bay that are left, row by row from bottom to top.
fn left_in<'a>(
    alloc: Global,
    yard: &'a Yard,
    bay: usize,
    names: &HashSet<&[u8]>,
) -> Result<Vec<&'a [u8]>, AllocError>
    requires { bay < length yard.now.bays }
    ensures { IfOk result (λ found. (b : StackedBay) (sequence : List (List ℕ)) (moves : List Move)
        → slice_get yard.now.bays bay ≡ Some b → HasThose (is_left sequence moves) names.now.keys
        → map (λ name. name.now) found.items ≡ left_in sequence moves b.1) }
{
    let mut found = Vec::new(alloc);
    for i in 0..yard.heights(bay).len() as u8 {
        push_left(&mut found, yard.stack(bay, i + 1), names)?;
    }
    Ok(found)
}

/// The note on a bay, if something is left in it.
fn note_on_left(
    alloc: Global,
    yard: &Yard,
    bay: usize,
    names: &HashSet<&[u8]>,
) -> Result<Option<Vec<u8>>, AllocError>
    requires { bay < length yard.now.bays }
    ensures { IfOk result (λ note. (b : StackedBay) (sequence : List (List ℕ)) (moves : List Move)
        → slice_get yard.now.bays bay ≡ Some b → HasThose (is_left sequence moves) names.now.keys
        → option_map (λ text. text.items) note ≡ note_on_left sequence moves b) }
{
    let found = left_in(alloc, yard, bay, names)?;
    if found.is_empty() {
        return Ok(None);
    }
    let note = left_note(alloc, yard.name(bay), &found)?;
    Ok(Some(note))
}

/// The note on what is said to be loaded, if that is more than is ordered.
fn note_on_loaded(
    alloc: Global,
    sequenced: usize,
    loaded: Option<u64>,
) -> Result<Option<Vec<u8>>, AllocError>
    ensures { IfOk result (λ note. option_map (λ text. text.items) note ≡ note_on_loaded sequenced loaded) }
{
    match loaded {
        Some(loaded) if (sequenced as u64) < loaded => {
            Ok(Some(loaded_note(alloc, loaded, sequenced)?))
        }
        _ => Ok(None),
    }
}

// Notes a bay in which something is left.
fn note_bay<E: Sink>(
    alloc: Global,
    lines: &mut Lines,
    yard: &Yard,
    bay: usize,
    names: &HashSet<&[u8]>,
    errors: &mut E,
)
    requires { bay < length yard.now.bays }
    ensures { ShowsMore (E.contents errors.old) (E.contents errors.new) }
{
    if let Ok(Some(note)) = note_on_left(alloc, yard, bay, names) {
        lines.note(errors, Ok(note));
    }
}

// Notes the bays in which something is left.
fn note_bays<E: Sink>(
    alloc: Global,
    lines: &mut Lines,
    yard: &Yard,
    followed: &Followed,
    sequence: &Sequence,
    errors: &mut E,
)
    ensures { ShowsMore (E.contents errors.old) (E.contents errors.new) }
{
    let Ok(names) = left_names(alloc, followed, sequence) else {
        return;
    };
    for bay in 0..yard.count() {
        note_bay(alloc, lines, yard, bay, &names, errors);
    }
}

// Notes that more is said to be loaded than is ordered.
fn note_loaded<E: Sink>(
    alloc: Global,
    lines: &mut Lines,
    sequenced: usize,
    loaded: Option<u64>,
    errors: &mut E,
)
    ensures { ShowsMore (E.contents errors.old) (E.contents errors.new) }
{
    if let Ok(Some(note)) = note_on_loaded(alloc, sequenced, loaded) {
        lines.note(errors, Ok(note));
    }
}

/// Notes where more containers are said to be loaded than are ordered; and what a report that is followed leaves of what is ordered,
/// a line for each bay of the yard.
pub fn note_left<E: Sink>(
    alloc: Global,
    yard: &Yard,
    followed: &Followed,
    sequence: &Sequence,
    loaded: Option<u64>,
    errors: &mut E,
)
    ensures { ShowsMore (E.contents errors.old) (E.contents errors.new) }
{
    let mut lines = Lines::new();
    note_loaded(alloc, &mut lines, sequence.list().len(), loaded, errors);
    note_bays(alloc, &mut lines, yard, followed, sequence, errors);
    lines.end(alloc, errors);
}
