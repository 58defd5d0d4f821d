//! Rows, and what moves make of them.
ghost use Rattle.std.specs.Prelude.{◌≡◌, ◌∷◌, ◌++◌, [], IfOk, OnOk};
ghost use Rattle.crp_follow.specs.Crane.{with_stack};
ghost use Rattle.crp_follow.specs.Stated.{moves_of};
ghost use Rattle.crp_picture.specs.Cells.{stack_in};
ghost use Rattle.crp_picture.specs.Frames.{lifted, set_down, made, rows_after};

use crp_follow::{Row, StatedMove, row_index};
use crp_plan::Container;
use crp_said::{Place, SaidMove};
use std::alloc::{AllocError, Global};

/// What stands in a row; nothing where there is no such row.
pub(crate) fn stack_in(rows: &[Row], row: u32) -> &[Container]
    ensures { result.now ≡ stack_in rows.now row }
{
    match row_index(row, rows.len()) {
        Some(i) => rows[i].containers(),
        None => &[],
    }
}

// Puts this in the place of a row, if there is such a row.
fn put(rows: &mut Vec<Row>, row: u32, stack: Row)
    ensures { rows.new.items ≡ with_stack rows.old.items row stack }
{
    if let Some(i) = row_index(row, rows.len()) {
        rows[i] = stack;
    }
}

// The same names, and one more.
fn with_top(alloc: Global, stack: &[Container], container: &Container) -> Result<Row, AllocError>
    ensures { IfOk result (λ row. row ≡ stack.now ++ container.now ∷ []) }
{
    let mut higher = Vec::new(alloc);
    for beneath in stack {
        higher.push(Container::named(alloc, beneath.bytes())?)?;
    }
    higher.push(Container::named(alloc, container.bytes())?)?;
    Row::of(alloc, &higher)
}

// Lifts the highest container of a row.
fn lift(alloc: Global, rows: &mut Vec<Row>, from: Place) -> Result<(), AllocError>
    ensures { OnOk result (rows.new.items ≡ lifted rows.old.items from) }
{
    let stack = stack_in(rows, from.row);
    let lower = Row::of(alloc, &stack[..stack.len().saturating_sub(1)])?;
    put(rows, from.row, lower);
    Ok(())
}

// Sets a container down on a row.
fn set_down(
    alloc: Global,
    rows: &mut Vec<Row>,
    to: Place,
    container: &Container,
) -> Result<(), AllocError>
    ensures { OnOk result (rows.new.items ≡ set_down rows.old.items to container.now) }
{
    let higher = with_top(alloc, stack_in(rows, to.row), container)?;
    put(rows, to.row, higher);
    Ok(())
}

/// Makes a move.
pub(crate) fn make(alloc: Global, rows: &mut Vec<Row>, said: &SaidMove) -> Result<(), AllocError>
    ensures { OnOk result (rows.new.items ≡ made rows.old.items said.now) }
{
    match said {
        SaidMove::Shift {
            from,
            to,
            container,
        } => {
            lift(alloc, rows, *from)?;
            set_down(alloc, rows, *to, container)
        }
        SaidMove::Take { from, .. } => lift(alloc, rows, *from),
    }
}

/// The same rows.
pub(crate) fn copied(alloc: Global, rows: &[Row]) -> Result<Vec<Row>, AllocError>
    ensures { IfOk result (λ copy. copy.items ≡ rows.now) }
{
    let mut copy = Vec::new(alloc);
    for row in rows {
        copy.push(Row::of(alloc, row.containers())?)?;
    }
    Ok(copy)
}

/// The rows after moves.
pub(crate) fn rows_after(
    alloc: Global,
    before: &[Row],
    moves: &[StatedMove],
) -> Result<Vec<Row>, AllocError>
    ensures { IfOk result (λ rows. rows.items ≡ rows_after before.now (moves_of moves.now)) }
{
    let mut rows = copied(alloc, before)?;
    for stated in moves {
        make(alloc, &mut rows, &stated.said)?;
    }
    Ok(rows)
}
