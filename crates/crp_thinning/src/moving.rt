//! Moves over the stacks of a bay. Rows are counted from 0.
ghost use Rattle.std.specs.Prelude.{ℕ, ◌≡◌, ◌≤◌, ◌<◌, ◌++◌, ◌∷◌, [], length, slice_set, slice_index_or};
ghost use Rattle.crp_plan.specs.Rows.{holds};
ghost use Rattle.crp_bay.specs.Positions.{top, without_top, ends_in};

use arrayvec::ArrayVec;
use crp_plan::{MAX_ROWS, Stack};

/// Whether a rank is on top of a stack.
#[inline]
pub fn is_on_top(rank: u8, stack: &[u8]) -> bool
    ensures { result ≡ ends_in rank stack.now }
{
    let count = stack.len();
    count > 0 && stack[count - 1] == rank
}

/// Takes the top off a row that has one.
#[inline]
pub fn lift(row: usize, stacks: &mut ArrayVec<Stack, MAX_ROWS>) -> u8
    requires there { row < length stacks.old.items }
    requires some { 0 < length (slice_index_or stacks.old.items row []) }
    ensures value { result ≡ top (slice_index_or stacks.old.items row []) }
    ensures rest { stacks.new.items ≡ slice_set stacks.old.items row (without_top (slice_index_or stacks.old.items row [])) }
{
    stacks.as_mut_slice()[row].pop()
}

/// Puts a rank on top of a row that has room.
#[inline]
pub fn land(row: usize, rank: u8, stacks: &mut ArrayVec<Stack, MAX_ROWS>)
    requires there { row < length stacks.old.items }
    requires room { length (slice_index_or stacks.old.items row []) < 8 }
    ensures { stacks.new.items ≡ slice_set stacks.old.items row (slice_index_or stacks.old.items row [] ++ rank ∷ []) }
{
    stacks.as_mut_slice()[row].push(rank);
}

/// Whether a rank stands in a stack.
#[inline]
pub fn is_in(rank: u8, stack: &[u8]) -> bool
    ensures { result ≡ holds rank stack.now }
{
    stack.iter().any(|x| *x == rank)
}
