//! The marks of containers.
ghost use Rattle.std.specs.Prelude.{◌≡◌, ◌++◌, ◌≤◌, map, flat_map, OnOk};
ghost use Rattle.crp_picture.specs.Pictures.{letter_of, has_mark, mark_at, mark_of, marked, marks};
ghost use Rattle.crp_picture.specs.Views.{cell_as};

use crate::cell::{Cell, Kind};
use crate::grid::{push_bar, push_outline, push_path, push_stroke};
use crate::mark::Mark;
use std::alloc::{AllocError, Global};

// The letter of what a container is drawn as.
fn letter_of(kind: Kind) -> u8
    ensures { result ≡ letter_of kind }
{
    match kind {
        Kind::Soonest => b'0',
        Kind::Soon => b'1',
        Kind::Midway => b'2',
        Kind::Late => b'3',
        Kind::Latest => b'4',
        Kind::Stays => b's',
        Kind::Moved => b'm',
        Kind::Goal => b'o',
        Kind::Taken => b't',
    }
}

// Whether a container gets the mark.
fn has_mark(mark: Mark, cell: &Cell<'_>) -> bool
    ensures { result ≡ has_mark mark (cell_as cell.now) }
{
    match mark {
        Mark::Box(kind) => letter_of(cell.kind) == letter_of(kind),
        Mark::Outline => letter_of(cell.kind) == b'o',
        Mark::Corner => letter_of(cell.kind) != b't' && cell.blocks,
        Mark::Up => letter_of(cell.kind) == b't',
    }
}

// Adds the mark at a place.
fn push_at(text: &mut Vec<u8>, mark: Mark, tiers: u8, row: u64, tier: u64) -> Result<(), AllocError>
    ensures { OnOk result (text.new.items ≡ text.old.items ++ mark_at mark tiers row tier) }
{
    match mark {
        Mark::Box(_) => push_bar(text, tiers, row, tier),
        Mark::Outline => push_outline(text, tiers, row, tier),
        Mark::Corner => push_stroke(text, 2, 2, b"h11l-11 11z", tiers, row, tier),
        Mark::Up => push_stroke(text, 9, 14, b"v-8m-4 4 4-4 4 4", tiers, row, tier),
    }
}

// Adds the mark at all containers that get it, without its path.
fn push_strokes(
    text: &mut Vec<u8>,
    tiers: u8,
    cells: &[Cell<'_>],
    mark: Mark,
) -> Result<(), AllocError>
    ensures { OnOk result (text.new.items ≡ text.old.items ++ flat_map (mark_of tiers mark) (map cell_as cells.now)) }
{
    for cell in cells {
        if has_mark(mark, cell) {
            push_at(text, mark, tiers, cell.row, cell.tier)?;
        }
    }
    Ok(())
}

// Adds one mark at all containers that get it.
fn push_marked(
    alloc: Global,
    text: &mut Vec<u8>,
    tiers: u8,
    cells: &[Cell<'_>],
    mark: Mark,
) -> Result<(), AllocError>
    ensures { OnOk result (text.new.items ≡ text.old.items ++ marked tiers (map cell_as cells.now) mark) }
{
    let mut strokes = Vec::new(alloc);
    push_strokes(&mut strokes, tiers, cells, mark)?;
    match mark {
        Mark::Box(kind) => push_path(text, &[b'k', letter_of(kind)], &strokes),
        Mark::Outline => push_path(text, b"o", &strokes),
        Mark::Corner => push_path(text, b"b", &strokes),
        Mark::Up => push_path(text, b"u", &strokes),
    }
}

// Adds each of these marks.
fn push_each(
    alloc: Global,
    text: &mut Vec<u8>,
    tiers: u8,
    cells: &[Cell<'_>],
    marks: &[Mark],
) -> Result<(), AllocError>
    ensures { OnOk result (text.new.items ≡ text.old.items ++ flat_map (marked tiers (map cell_as cells.now)) marks.now) }
{
    for mark in marks {
        push_marked(alloc, text, tiers, cells, *mark)?;
    }
    Ok(())
}

/// Adds all marks.
pub(crate) fn push_marks(
    alloc: Global,
    text: &mut Vec<u8>,
    tiers: u8,
    cells: &[Cell<'_>],
) -> Result<(), AllocError>
    ensures { OnOk result (text.new.items ≡ text.old.items ++ flat_map (marked tiers (map cell_as cells.now)) marks) }
{
    let marks = [
        Mark::Box(Kind::Soonest),
        Mark::Box(Kind::Soon),
        Mark::Box(Kind::Midway),
        Mark::Box(Kind::Late),
        Mark::Box(Kind::Latest),
        Mark::Box(Kind::Stays),
        Mark::Box(Kind::Moved),
        Mark::Box(Kind::Taken),
        Mark::Outline,
        Mark::Corner,
        Mark::Up,
    ];
    push_each(alloc, text, tiers, cells, marks.as_slice())
}
