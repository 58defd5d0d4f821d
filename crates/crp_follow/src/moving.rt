//! Moves that a crane makes over the rows of a bay.
ghost use Rattle.std.specs.Prelude.{◌≡◌, ◌⊎◌, ◌∷◌, ◌++◌, [], ◌<◌, ◌≤◌, ◌↔◌, suc, ℕ, List, OnOk, IfOk, IfErr, IfSome, IfNone, IsTrue};
ghost use Rattle.crp_yard.specs.Records.{height_of};
ghost use Rattle.crp_follow.specs.Crane.{Stack, with_stack, IsHighest, IsLowestFree, CanMake, Leads, from_of, container_of};
ghost use Rattle.crp_follow.specs.Stated.{moves_of};
ghost use Rattle.crp_follow.specs.MoveFaults.{IsMoveFault, StopsWith};

use crate::fault::FollowFault;
use crate::row::Row;
use crate::stated::StatedMove;
use crp_plan::Container;
use crp_said::{Place, SaidMove};
use std::alloc::AllocError;

/// The index of a row, from 0, where there are so many rows.
pub fn row_index(row: u32, rows: usize) -> Option<usize>
    ensures there { IfSome result (λ i. (row ≡ suc i) × (i < rows)) }
    ensures none { IfNone result ((i : ℕ) → row ≡ suc i → i < rows → ⊥) }
{
    let row = row as usize;
    if row == 0 || row > rows {
        return None;
    }
    Some(row - 1)
}

/// Where a container is to be lifted.
pub(crate) fn from_of(said: &SaidMove) -> Place
    ensures { result ≡ from_of said.now }
{
    match said {
        SaidMove::Shift { from, .. } => *from,
        SaidMove::Take { from, .. } => *from,
    }
}

/// Which container is to be lifted.
pub(crate) fn container_of(said: &SaidMove) -> &Container
    ensures { result.now ≡ container_of said.now }
{
    match said {
        SaidMove::Shift { container, .. } => container,
        SaidMove::Take { container, .. } => container,
    }
}

/// Lifts the highest container of a row off this place.
fn lift(rows: &mut Vec<Row>, from: Place) -> Option<Container>
    ensures lifted { IfSome result (λ container. (beneath : Stack) × IsHighest rows.old.items from container beneath
        × (rows.new.items ≡ with_stack rows.old.items from.row beneath)) }
    ensures none { IfNone result ((container : List ℕ) (beneath : Stack) → ¬ IsHighest rows.old.items from container beneath) }
{
    let Some(i) = row_index(from.row, rows.len()) else {
        return None;
    };
    if rows[i].containers().len() != from.tier as usize {
        return None;
    }
    let Some(container) = rows[i].lift() else {
        return None;
    };
    Some(container)
}

/// Sets a container down on the lowest free place of a row, where this is that place: whether it is.
fn set_down(
    heights: &[u8],
    rows: &mut Vec<Row>,
    to: Place,
    container: Container,
) -> Result<bool, AllocError>
    ensures down { IfOk result (λ down. IsTrue down → (beneath : Stack) × IsLowestFree heights.now rows.old.items to beneath
        × (rows.new.items ≡ with_stack rows.old.items to.row (beneath ++ container ∷ []))) }
    ensures not { IfOk result (λ down. (beneath : Stack) → IsLowestFree heights.now rows.old.items to beneath → IsTrue down) }
{
    let Some(i) = row_index(to.row, rows.len()) else {
        return Ok(false);
    };
    if !is_within(heights, to) {
        return Ok(false);
    }
    if rows[i].containers().len() + 1 != to.tier as usize {
        return Ok(false);
    }
    rows[i].set_down(container)?;
    Ok(true)
}

/// Whether the place is within the height of its row.
fn is_within(heights: &[u8], place: Place) -> bool
    requires { 1 ≤ place.row }
    ensures { IsTrue result ↔ (place.tier ≤ height_of heights.now place.row) }
{
    match heights.get(place.row as usize - 1) {
        Some(height) => place.tier <= u32::from(*height),
        None => place.tier == 0,
    }
}

/// Makes a move over rows of these heights, exactly where the crane can make it; else F7, F8 or F9 at its line. After an error the rows
/// are no longer those before the move.
pub fn make_move(
    heights: &[u8],
    rows: &mut Vec<Row>,
    stated: &StatedMove,
) -> Result<(), FollowFault>
    ensures made { OnOk result (CanMake heights.now rows.old.items stated.now.said rows.new.items) }
    ensures wrong { IfErr result (λ fault. (fault ≡ FollowFault.Memory) ⊎ IsMoveFault heights.now rows.old.items stated.now fault) }
{
    let line = stated.line;
    let from = from_of(&stated.said);
    let Some(lifted) = lift(rows, from) else {
        return Err(FollowFault::Lift { line });
    };
    if lifted.bytes() != container_of(&stated.said).bytes() {
        return Err(FollowFault::Container { line });
    }
    match &stated.said {
        SaidMove::Take { .. } => Ok(()),
        SaidMove::Shift { to, .. } => {
            if to.row == from.row {
                return Err(FollowFault::SetDown { line });
            }
            let down = set_down(heights, rows, *to, lifted)?;
            if !down {
                return Err(FollowFault::SetDown { line });
            }
            Ok(())
        }
    }
}

/// Makes moves one after the other, as long as the crane can make them.
pub(crate) fn make_moves(
    heights: &[u8],
    rows: &mut Vec<Row>,
    moves: &[StatedMove],
) -> Result<(), FollowFault>
    ensures made { OnOk result (Leads heights.now rows.old.items (moves_of moves.now) rows.new.items) }
    ensures wrong { IfErr result (λ fault. (fault ≡ FollowFault.Memory) ⊎ StopsWith heights.now rows.old.items moves.now fault) }
{
    for stated in moves {
        make_move(heights, rows, stated)?;
    }
    Ok(())
}
