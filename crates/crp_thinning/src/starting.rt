//! Copies of what a position has.
ghost use Rattle.std.specs.Prelude.{◌≡◌, ◌-◌, length, take};

use arrayvec::ArrayVec;
use crp_bay::Position;
use crp_plan::{MAX_ROWS, Stack};

/// How high the rows may be.
pub fn heights_of(position: &Position) -> ArrayVec<u8, MAX_ROWS>
    ensures { result.items ≡ position.now.place.heights }
{
    let mut heights = ArrayVec::new();
    for row in 1..position.rows() + 1 {
        heights.push(position.height(row));
    }
    heights
}

/// The stacks of the rows.
pub fn stacks_of(position: &Position) -> ArrayVec<Stack, MAX_ROWS>
    ensures { result.items ≡ position.now.place.stacks }
{
    let mut stacks = ArrayVec::new();
    for row in 1..position.rows() + 1 {
        stacks.push(Stack::of(position.stack(row)));
    }
    stacks
}
