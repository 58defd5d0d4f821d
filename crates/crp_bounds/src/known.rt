//! The least ordered ranks of stacks, known by the rank on top.
ghost use Rattle.std.specs.Prelude.{◌≡◌, ◌<◌, ◌≤◌, ℕ, suc, min, nat_le, if◌then◌else◌, false, All, length, take, slice_index, count_by, ◌==◌};
ghost use Rattle.crp_plan.specs.Rows.{holds};
ghost use Rattle.crp_bay.specs.Reached.{IsReached};
ghost use Rattle.crp_bounds.specs.Leasts.{least_ordered, KnowsLeasts};
ghost use Rattle.crp_bounds.specs.Moving.{IsMover};

use crate::mover::Mover;
use crp_bay::Position;

/// The container that every legal relocation moves, where one is left to leave.
#[inline]
pub fn mover_of(position: &Position) -> Mover
    ensures { position.now.place.next ≤ position.now.place.ordered → IsMover result position.now.place }
{
    let next = position.next();
    if next > position.ordered() {
        return Mover { rank: 0, row: 0 };
    }
    let row = position.row_of(next);
    let stack = position.stack(row);
    Mover {
        rank: stack[stack.len() - 1],
        row,
    }
}

/// The least ordered rank of a stack with this container on top of what has this least one.
#[inline]
pub fn with_top(ordered: u8, rank: u8, least: u8) -> u8
    ensures { result ≡ (if nat_le rank ordered then min rank least else least) }
{
    if rank <= ordered && rank < least {
        rank
    } else {
        least
    }
}

/// The least ordered rank of a stack, by what is known of its top; 255 where there is none.
#[inline]
pub fn least_of(ordered: u8, leasts: &[u8; 97], stack: &[u8]) -> u8
    requires ranks { All (λ rank. rank ≤ 96) stack.now }
    requires known { (i : ℕ) → i < length stack.now
        → slice_index leasts.now (slice_index stack.now i) ≡ least_ordered ordered (take (suc i) stack.now) }
    ensures { result ≡ least_ordered ordered stack.now }
{
    // Named in the contract alone.
    let _ordered = ordered;
    let count = stack.len();
    if count == 0 {
        return 255;
    }
    leasts[stack[count - 1] as usize]
}

/// Writes for each container of a stack the least ordered rank at or below it.
fn mark(ordered: u8, ranks: &[u8], leasts: &mut [u8])
    requires few { All (λ rank. rank < length leasts.old) ranks.now }
    requires once { (x : ℕ) → count_by (λ y. y == x) ranks.now ≤ 1 }
    ensures known { (i : ℕ) → i < length ranks.now
        → slice_index leasts.new (slice_index ranks.now i) ≡ least_ordered ordered (take (suc i) ranks.now) }
    ensures others { (x : ℕ) → holds x ranks.now ≡ false → slice_index leasts.new x ≡ slice_index leasts.old x }
{
    let mut least: u8 = 255;
    for rank in ranks {
        least = with_top(ordered, *rank, least);
        leasts[*rank as usize] = least;
    }
}

/// For each container that stands the least ordered rank at or below it in its row, by its rank.
pub fn leasts_of(position: &Position) -> [u8; 97]
    ensures known { KnowsLeasts result position.now.place }
    ensures reached { IsReached position.now.place }
{
    let mut leasts = [0u8; 97];
    for row in 1..position.rows() + 1 {
        mark(position.ordered(), position.stack(row), &mut leasts);
    }
    leasts
}
