//! A move of a report, and what stands in its bay before it.
ghost use Rattle.std.specs.Prelude.{◌≡◌, IfOk, IfSome, Some, slice_get};
ghost use Rattle.crp_follow.specs.declared.stated.StatedMove.{StatedMove as Move};
ghost use Rattle.crp_follow.specs.Stopping.{StandsBefore, StandsInBay};
ghost use Rattle.crp_follow.specs.Views.{bay_stated};

use crate::bays::{find, names_of_yard, rows_of};
use crate::moving::make_moves;
use crate::row::Row;
use crate::stated::{StatedBay, StatedMove};
use crate::stating::state;
use crp_plan::Container;
use crp_said::SaidMove;
use crp_yard::Yard;
use std::alloc::{AllocError, Global};

/// A move of a report, how high the rows of its bay may be, and what stands in them before it.
#[derive(Drop)]
pub struct Stopping {
    pub said: SaidMove,
    pub heights: Vec<u8>,
    pub rows: Vec<Row>,
}

/// The same move.
fn copied(alloc: Global, said: &SaidMove) -> Result<SaidMove, AllocError>
    ensures { IfOk result (λ copy. copy ≡ said.now) }
{
    match said {
        SaidMove::Shift {
            from,
            to,
            container,
        } => Ok(SaidMove::Shift {
            from: *from,
            to: *to,
            container: Container::named(alloc, container.bytes())?,
        }),
        SaidMove::Take { from, container } => Ok(SaidMove::Take {
            from: *from,
            container: Container::named(alloc, container.bytes())?,
        }),
    }
}

/// Which of the moves stands at this line, from 0.
fn step_at(moves: &[StatedMove], line: u64) -> Option<usize>
    ensures { IfSome result (λ i. (m : Move) × (slice_get moves.now i ≡ Some m) × (m.line ≡ line)) }
{
    for (i, stated) in moves.iter().enumerate() {
        if stated.line == line {
            return Some(i);
        }
    }
    None
}

/// The move of a bay at this step, which stands at this line, and what stands in the bay before it.
fn stopping_at(
    alloc: Global,
    yard: &Yard,
    stated: &StatedBay,
    step: usize,
    line: u64,
) -> Option<Stopping>
    requires { (m : Move) × (slice_get stated.now.moves.items step ≡ Some m) × (m.line ≡ line) }
    ensures { IfSome result (λ s. StandsInBay yard.now (bay_stated stated.now) line s.said s.heights.items s.rows.items) }
{
    let Ok(names) = names_of_yard(alloc, yard) else {
        return None;
    };
    let bay = find(yard, &names, &stated.bay)?;
    let heights = yard.heights(bay);
    let Ok(mut rows) = rows_of(alloc, yard, bay) else {
        return None;
    };
    let moves = stated.moves.as_slice();
    let Ok(()) = make_moves(heights, &mut rows, &moves[..step]) else {
        return None;
    };
    let Ok(said) = copied(alloc, &moves[step].said) else {
        return None;
    };
    let Ok(heights) = Vec::from_slice(alloc, heights) else {
        return None;
    };
    Some(Stopping {
        said,
        heights,
        rows,
    })
}

/// The move of a report at this line, and what stands in its bay before it, where the moves before it can be made. None also where memory
/// runs out.
pub fn stopping_at_line(alloc: Global, yard: &Yard, report: &[u8], line: u64) -> Option<Stopping>
    ensures { IfSome result (λ s. StandsBefore yard.now report.now line s.said s.heights.items s.rows.items) }
{
    let Ok((numbers, bays)) = state(alloc, report) else {
        return None;
    };
    let _numbers = numbers;
    for bay in bays.as_slice() {
        match step_at(&bay.moves, line) {
            Some(step) => return stopping_at(alloc, yard, bay, step, line),
            None => {}
        }
    }
    None
}
