//! The pictures of a bay.
ghost use Rattle.std.specs.Prelude.{◌≡◌, ◌+◌, ◌/◌, ◌^◌, ◌++◌, ◌≤◌, map, option_map, flat_map, codes, OnOk};
ghost use Rattle.crp_follow.specs.Stated.{moves_of};
ghost use Rattle.crp_follow.specs.Views.{bay_followed};
ghost use Rattle.crp_picture.specs.Frames.{aimed_at};
ghost use Rattle.crp_picture.specs.Grid.{y_of, path};
ghost use Rattle.crp_picture.specs.Pictures.{drawn, aim_of, aim, middle_of, arrow_from, arrow_to, arrow_strokes, arrow_number, arrow, first_arrow, position_picture, start_picture, end_picture, frame_picture};
ghost use Rattle.crp_picture.specs.Views.{cell_as, frame_as};

use crate::cell::Cell;
use crate::cells::{cells_of, frame_cells};
use crate::drawn::DrawnBay;
use crate::frame::Frame;
use crate::grid::{push_outline, push_path, x_of, y_of};
use crate::labels::push_lines;
use crate::marks::push_marks;
use crate::moving::rows_after;
use crate::steps::first_taken;
use crp_cert::push_decimal;
use crp_follow::{FollowedBay, Row, StatedMove};
use crp_plan::Container;
use crp_said::{Place, SaidMove};
use std::alloc::{AllocError, Global};

// Adds containers of so many rows.
fn push_drawn(
    alloc: Global,
    text: &mut Vec<u8>,
    tiers: u8,
    rows: usize,
    cells: &[Cell<'_>],
) -> Result<(), AllocError>
    ensures { OnOk result (text.new.items ≡ text.old.items ++ drawn tiers rows (map cell_as cells.now)) }
{
    push_marks(alloc, text, tiers, cells)?;
    push_lines(alloc, text, tiers, rows as u64, cells)?;
    Ok(())
}

// Adds outlines round the containers of this name.
fn push_outlines(
    text: &mut Vec<u8>,
    tiers: u8,
    name: &[u8],
    cells: &[Cell<'_>],
) -> Result<(), AllocError>
    ensures { OnOk result (text.new.items ≡ text.old.items ++ flat_map (aim_of tiers name.now) (map cell_as cells.now)) }
{
    for cell in cells {
        if cell.name.bytes() == name {
            push_outline(text, tiers, cell.row, cell.tier)?;
        }
    }
    Ok(())
}

// The container for which a frame digs where it takes none.
fn aimed_at<'a>(frame: &Frame<'a>) -> Option<&'a Container>
    ensures { option_map (λ container. container.now) result ≡ aimed_at (frame_as frame.now) }
{
    if first_taken(frame.moves).is_some() {
        return None;
    }
    first_taken(frame.later)
}

// Adds the outline round the container for which a frame digs, where it stands after the frame.
fn push_aim(
    alloc: Global,
    text: &mut Vec<u8>,
    tiers: u8,
    bay: &DrawnBay<'_>,
    frame: &Frame<'_>,
) -> Result<(), AllocError>
    ensures { OnOk result (text.new.items ≡ text.old.items ++ aim tiers (moves_of bay.now.stated.moves) (frame_as frame.now) (aimed_at (frame_as frame.now))) }
{
    let Some(container) = aimed_at(frame) else {
        return Ok(());
    };
    let rows = rows_after(alloc, &frame.before, frame.moves)?;
    let cells = cells_of(alloc, bay, &rows)?;
    let mut strokes = Vec::new(alloc);
    push_outlines(&mut strokes, tiers, container.bytes(), &cells)?;
    push_path(text, b"e", &strokes)
}

// The middle of a row.
fn middle_of(row: u32) -> u128
    ensures value { result ≡ middle_of row }
    ensures right { 38 ≤ result }
    ensures small { result ≤ 2 ^ 64 }
{
    x_of(u64::from(row)) + 20
}

// Adds where an arrow begins.
fn push_arrow_from(text: &mut Vec<u8>, a: u128, up: u64) -> Result<(), AllocError>
    ensures { OnOk result (text.new.items ≡ text.old.items ++ arrow_from a up) }
{
    text.push(b'M')?;
    push_decimal(text, a)?;
    text.push(b' ')?;
    push_decimal(text, up)
}

// Adds how it goes on.
fn push_arrow_to(text: &mut Vec<u8>, b: u128, down: u64) -> Result<(), AllocError>
    ensures { OnOk result (text.new.items ≡ text.old.items ++ arrow_to b down) }
{
    text.extend_from_slice(b"V11H")?;
    push_decimal(text, b)?;
    text.push(b'V')?;
    push_decimal(text, down)?;
    text.extend_from_slice(b"m-5-6 5 6 5-6")
}

// Adds the number of a step on its arrow.
fn push_arrow_number(
    alloc: Global,
    text: &mut Vec<u8>,
    middle: u128,
    step: u64,
) -> Result<(), AllocError>
    ensures { OnOk result (text.new.items ≡ text.old.items ++ arrow_number middle step) }
{
    let mut plate = Vec::from_slice(alloc, b"M")?;
    push_decimal(&mut plate, middle.saturating_sub(12))?;
    plate.extend_from_slice(b" 11h24")?;
    push_path(text, b"p", &plate)?;
    text.extend_from_slice(b"<text class=\"w\" x=\"")?;
    push_decimal(text, middle)?;
    text.extend_from_slice(b"\" y=\"15\">")?;
    push_decimal(text, step)?;
    text.extend_from_slice(b"</text>")
}

// Adds the arrow of a relocation.
fn push_arrow(
    alloc: Global,
    text: &mut Vec<u8>,
    tiers: u8,
    step: u64,
    from: Place,
    to: Place,
) -> Result<(), AllocError>
    ensures { OnOk result (text.new.items ≡ text.old.items ++ (path (codes "a") (arrow_strokes (middle_of from.row) (y_of tiers from.tier) (middle_of to.row) (y_of tiers to.tier))
        ++ arrow_number ((middle_of from.row + middle_of to.row) / 2) step)) }
{
    let (a, b) = (middle_of(from.row), middle_of(to.row));
    let up = y_of(tiers, u64::from(from.tier));
    let down = y_of(tiers, u64::from(to.tier));
    let mut strokes = Vec::new(alloc);
    push_arrow_from(&mut strokes, a, up)?;
    push_arrow_to(&mut strokes, b, down)?;
    push_path(text, b"a", &strokes)?;
    push_arrow_number(alloc, text, (a + b) / 2, step)
}

// Adds the arrow of the first of these moves, if it is a relocation.
fn push_first_arrow(
    alloc: Global,
    text: &mut Vec<u8>,
    tiers: u8,
    step: u64,
    moves: &[StatedMove],
) -> Result<(), AllocError>
    ensures { OnOk result (text.new.items ≡ text.old.items ++ first_arrow tiers step moves.now) }
{
    let [first, ..] = moves else {
        return Ok(());
    };
    match &first.said {
        SaidMove::Shift { from, to, .. } => push_arrow(alloc, text, tiers, step, *from, *to),
        SaidMove::Take { .. } => Ok(()),
    }
}

// Adds the position of a bay in which these rows stand.
fn push_position(
    alloc: Global,
    text: &mut Vec<u8>,
    tiers: u8,
    bay: &FollowedBay,
    rows: &[Row],
) -> Result<(), AllocError>
    ensures { OnOk result (text.new.items ≡ text.old.items ++ position_picture tiers (moves_of bay.now.stated.moves.items) rows.now) }
{
    let drawn = DrawnBay::of(alloc, bay)?;
    let cells = cells_of(alloc, &drawn, rows)?;
    push_drawn(alloc, text, tiers, rows.len(), &cells)?;
    Ok(())
}

/// Adds the picture of a bay before its first move. The highest row of the bay has so many tiers.
pub fn push_start(
    alloc: Global,
    text: &mut Vec<u8>,
    tiers: u8,
    bay: &FollowedBay,
) -> Result<(), AllocError>
    ensures { OnOk result (text.new.items ≡ text.old.items ++ start_picture tiers (bay_followed bay.now)) }
{
    push_position(alloc, text, tiers, bay, &bay.start)?;
    Ok(())
}

/// Adds the picture of a bay after its last move.
pub fn push_end(
    alloc: Global,
    text: &mut Vec<u8>,
    tiers: u8,
    bay: &FollowedBay,
) -> Result<(), AllocError>
    ensures { OnOk result (text.new.items ≡ text.old.items ++ end_picture tiers (bay_followed bay.now)) }
{
    push_position(alloc, text, tiers, bay, &bay.after)?;
    Ok(())
}

/// Adds the picture of a frame of a bay: the position before it, with what is relocated and what is taken, and the arrow of the relocation.
pub fn push_frame(
    alloc: Global,
    text: &mut Vec<u8>,
    tiers: u8,
    bay: &DrawnBay<'_>,
    frame: &Frame<'_>,
) -> Result<(), AllocError>
    ensures { OnOk result (text.new.items ≡ text.old.items ++ frame_picture tiers bay.now (frame_as frame.now)) }
{
    let cells = frame_cells(alloc, bay, frame)?;
    push_drawn(alloc, text, tiers, frame.before.len(), &cells)?;
    push_aim(alloc, text, tiers, bay, frame)?;
    push_first_arrow(alloc, text, tiers, frame.step, frame.moves)?;
    Ok(())
}
