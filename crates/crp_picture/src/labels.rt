//! The labels of containers, and above them the steps at which they leave.
ghost use Rattle.std.specs.Prelude.{◌≡◌, ◌++◌, ◌≤◌, map, option_map, decimal, OnOk};
ghost use Rattle.crp_picture.specs.Names.{right_in};
ghost use Rattle.crp_picture.specs.Pictures.{cell_at, has_piece, piece_of, last_row, pieces_to, line_of, lines_to};
ghost use Rattle.crp_picture.specs.Views.{cell_as};

use crate::cell::Cell;
use crate::escaping::push_label;
use crate::grid::{push_text_line, y_of};
use crate::names::push_spaces;
use crate::wording::Wording;
use itoa::Buffer;
use std::alloc::{AllocError, Global};

/// Adds a number with spaces before it, 7 characters.
pub(crate) fn push_number(text: &mut Vec<u8>, number: u64) -> Result<(), AllocError>
    ensures { OnOk result (text.new.items ≡ text.old.items ++ right_in 7 (decimal number)) }
{
    let mut buffer = Buffer::new();
    let digits = buffer.format(number).as_bytes();
    push_spaces(text, 7usize.saturating_sub(digits.len()))?;
    text.extend_from_slice(digits)
}

// The container at a place, if one stands there.
fn cell_at<'a, 'b>(cells: &'a [Cell<'b>], row: u64, tier: u64) -> Option<&'a Cell<'b>>
    ensures { option_map (λ cell. cell_as cell.now) result ≡ cell_at (map cell_as cells.now) row tier }
{
    for cell in cells {
        if cell.row == row && cell.tier == tier {
            return Some(cell);
        }
    }
    None
}

// Whether a place has something in a line.
fn has_piece(wording: Wording, cell: Option<&Cell<'_>>) -> bool
    ensures { result ≡ has_piece wording (option_map (λ cell. cell_as cell.now) cell.entry) }
{
    match (cell, wording) {
        (None, _) => false,
        (Some(_), Wording::Labels) => true,
        (Some(cell), Wording::Steps) => cell.step > 0,
    }
}

// Adds what stands there.
fn push_piece(
    text: &mut Vec<u8>,
    wording: Wording,
    cell: Option<&Cell<'_>>,
) -> Result<(), AllocError>
    ensures { OnOk result (text.new.items ≡ text.old.items ++ piece_of wording (option_map (λ cell. cell_as cell.now) cell.entry)) }
{
    match (wording, cell) {
        (Wording::Labels, None) => push_spaces(text, 5),
        (Wording::Labels, Some(cell)) => push_label(text, cell.name.bytes()),
        (Wording::Steps, None) => push_spaces(text, 7),
        (Wording::Steps, Some(cell)) => {
            if cell.step == 0 {
                push_spaces(text, 7)
            } else {
                push_number(text, cell.step)
            }
        }
    }
}

// The last of so many rows that has something in the line of a tier; 0 where none has.
fn last_row(wording: Wording, cells: &[Cell<'_>], tier: u64, rows: u64) -> u64
    ensures { result ≡ last_row wording (map cell_as cells.now) tier rows }
{
    let mut last = rows;
    while last > 0 {
        if has_piece(wording, cell_at(cells, last, tier)) {
            return last;
        }
        last -= 1;
    }
    0
}

// Adds what stands in so many rows.
fn push_pieces(
    text: &mut Vec<u8>,
    wording: Wording,
    cells: &[Cell<'_>],
    tier: u64,
    last: u64,
) -> Result<(), AllocError>
    ensures { OnOk result (text.new.items ≡ text.old.items ++ pieces_to wording (map cell_as cells.now) tier last) }
{
    for i in 0..last {
        push_piece(text, wording, cell_at(cells, i + 1, tier))?;
    }
    Ok(())
}

// Adds the line of a tier of so many rows.
fn push_line(
    alloc: Global,
    text: &mut Vec<u8>,
    wording: Wording,
    tiers: u8,
    rows: u64,
    cells: &[Cell<'_>],
    tier: u64,
) -> Result<(), AllocError>
    ensures { OnOk result (text.new.items ≡ text.old.items ++ line_of wording tiers rows (map cell_as cells.now) tier) }
{
    let last = last_row(wording, cells, tier, rows);
    let mut pieces = Vec::new(alloc);
    push_pieces(&mut pieces, wording, cells, tier, last)?;
    let y = y_of(tiers, tier);
    match wording {
        Wording::Labels => push_text_line(text, b'l', 14, y + 26, last, &pieces),
        Wording::Steps => push_text_line(text, b'n', 13, y + 12, last, &pieces),
    }
}

/// Adds the lines of all tiers.
pub(crate) fn push_lines(
    alloc: Global,
    text: &mut Vec<u8>,
    tiers: u8,
    rows: u64,
    cells: &[Cell<'_>],
) -> Result<(), AllocError>
    ensures { OnOk result (text.new.items ≡ text.old.items ++ lines_to tiers rows (map cell_as cells.now) tiers) }
{
    for i in 0..tiers {
        let tier = u64::from(i) + 1;
        push_line(alloc, text, Wording::Labels, tiers, rows, cells, tier)?;
        push_line(alloc, text, Wording::Steps, tiers, rows, cells, tier)?;
    }
    Ok(())
}
