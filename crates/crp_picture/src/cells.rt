//! The containers of a position, and of a frame.
ghost use Rattle.std.specs.Prelude.{◌≡◌, ◌++◌, length, map, count_by, IfOk, OnOk};
ghost use Rattle.crp_follow.specs.Stated.{moves_of};
ghost use Rattle.crp_follow.specs.Crane.{from_of};
ghost use Rattle.crp_picture.specs.Cells.{cell_on, row_cells, cells_of};
ghost use Rattle.crp_picture.specs.Frames.{is_at, kind_of, acting, goals, frame_cells};
ghost use Rattle.crp_picture.specs.Views.{cell_as, frame_as};

use crate::cell::{Cell, Kind};
use crate::drawn::DrawnBay;
use crate::frame::Frame;
use crate::moving::stack_in;
use crate::steps::{blocks, kind_at};
use crp_follow::{FollowedBay, Row, StatedMove};
use crp_plan::Container;
use crp_said::{Place, SaidMove};
use std::alloc::{AllocError, Global};

// A container on top of these in a row.
fn cell_on<'a>(bay: &DrawnBay<'_>, row: u64, beneath: &[Container], name: &'a Container) -> Cell<'a>
    ensures { cell_as result ≡ cell_on (moves_of bay.now.stated.moves) row beneath.now name.now }
{
    let step = bay.step_of(name.bytes());
    Cell {
        row,
        tier: beneath.len() as u64 + 1,
        name,
        step,
        blocks: blocks(bay, beneath, name.bytes()),
        kind: kind_at(step, bay.count()),
    }
}

// Adds the containers of a row.
fn add_row<'a>(
    cells: &mut Vec<Cell<'a>>,
    bay: &DrawnBay<'_>,
    row: u64,
    stack: &'a [Container],
) -> Result<(), AllocError>
    ensures { OnOk result (map cell_as cells.new.items ≡ map cell_as cells.old.items ++ row_cells (moves_of bay.now.stated.moves) row stack.now (length stack.now)) }
{
    for i in 0..stack.len() {
        cells.push(cell_on(bay, row, &stack[..i], &stack[i]))?;
    }
    Ok(())
}

/// The containers of a position of a bay.
pub(crate) fn cells_of<'a>(
    alloc: Global,
    bay: &DrawnBay<'_>,
    rows: &'a [Row],
) -> Result<Vec<Cell<'a>>, AllocError>
    ensures { IfOk result (λ cells. map cell_as cells.items ≡ cells_of (moves_of bay.now.stated.moves) rows.now) }
{
    let mut cells = Vec::new(alloc);
    for i in 0..rows.len() {
        add_row(&mut cells, bay, i as u64 + 1, rows[i].containers())?;
    }
    Ok(cells)
}

// Whether a container stands at the place.
fn is_at(cell: &Cell<'_>, place: Place) -> bool
    ensures { result ≡ is_at (cell_as cell.now) place }
{
    cell.row == u64::from(place.row) && cell.tier == u64::from(place.tier)
}

// Where a move lifts, and what is drawn there.
fn lifting(said: &SaidMove) -> (Place, Kind)
    ensures place { result.0 ≡ from_of said.now }
    ensures kind { result.1 ≡ kind_of said.now }
{
    match said {
        SaidMove::Shift { from, .. } => (*from, Kind::Moved),
        SaidMove::Take { from, .. } => (*from, Kind::Taken),
    }
}

// As what a container is drawn where these moves are made.
fn acting(moves: &[StatedMove], cell: &Cell<'_>) -> Kind
    ensures { result ≡ acting moves.now (cell_as cell.now) }
{
    for stated in moves {
        let (place, kind) = lifting(&stated.said);
        if is_at(cell, place) {
            return kind;
        }
    }
    cell.kind
}

// Adds the container of the first of the moves where it is put, if this is a relocation.
fn add_goal<'a>(
    cells: &mut Vec<Cell<'a>>,
    bay: &DrawnBay<'_>,
    rows: &[Row],
    moves: &'a [StatedMove],
) -> Result<(), AllocError>
    ensures { OnOk result (map cell_as cells.new.items ≡ map cell_as cells.old.items ++ goals (moves_of bay.now.stated.moves) rows.now moves.now) }
{
    let [first, ..] = moves else {
        return Ok(());
    };
    if let SaidMove::Shift { to, container, .. } = &first.said {
        let mut goal = cell_on(bay, u64::from(to.row), stack_in(rows, to.row), container);
        goal.kind = Kind::Goal;
        cells.push(goal)?;
    }
    Ok(())
}

/// The containers of a frame of a bay.
pub(crate) fn frame_cells<'a>(
    alloc: Global,
    bay: &DrawnBay<'_>,
    frame: &'a Frame<'a>,
) -> Result<Vec<Cell<'a>>, AllocError>
    ensures { IfOk result (λ cells. map cell_as cells.items ≡ frame_cells (moves_of bay.now.stated.moves) (frame_as frame.now)) }
{
    let mut still = cells_of(alloc, bay, &frame.before)?;
    add_goal(&mut still, bay, &frame.before, frame.moves)?;
    let mut cells = Vec::new(alloc);
    for cell in &still {
        let mut acts = *cell;
        acts.kind = acting(frame.moves, cell);
        cells.push(acts)?;
    }
    Ok(cells)
}

// How many of these block.
fn blocking_of(cells: &[Cell<'_>]) -> usize
    ensures { result ≡ count_by (λ c. c.blocks) (map cell_as cells.now) }
{
    let mut count: usize = 0;
    for cell in cells {
        if cell.blocks {
            count += 1;
        }
    }
    count
}

/// How many containers block at the start of a bay.
pub fn count_blocking(alloc: Global, bay: &FollowedBay) -> Result<usize, AllocError>
    ensures { IfOk result (λ count. count ≡ count_by (λ c. c.blocks) (cells_of (moves_of bay.now.stated.moves.items) bay.now.start.items)) }
{
    let drawn = DrawnBay::of(alloc, bay)?;
    let cells = cells_of(alloc, &drawn, &bay.start)?;
    Ok(blocking_of(&cells))
}
