//! Lower parts of stacks, and rows that are open.
ghost use Rattle.std.specs.Prelude.{◌≡◌, ◌≤◌, length};
ghost use Rattle.std.specs.List.{list_any};
ghost use Rattle.crp_plan.specs.Rows.{holds, below};
ghost use Rattle.crp_chains.specs.Chains.{is_open as open_to, open_rows as rows_open};

use crate::blocker::Blocker;
use crp_bay::Position;

/// What stands beneath a container in its stack.
pub fn beneath(rank: u8, stack: &[u8]) -> &[u8]
    ensures { result.now ≡ below rank stack.now }
{
    let mut count = 0;
    while count < stack.len() && stack[count] != rank {
        count += 1;
    }
    &stack[..count]
}

/// Whether a rank stands in the list.
pub fn has_rank(rank: u8, stack: &[u8]) -> bool
    ensures { result ≡ holds rank stack.now }
{
    stack.iter().any(|y| *y == rank)
}

/// Whether a row of a height with this stack is open to a container.
fn is_open(ordered: u8, height: u8, stack: &[u8], blocker: Blocker) -> bool
    ensures { result ≡ open_to ordered height stack.now blocker }
{
    let mut count = 0;
    while count < stack.len() && stack[count] >= blocker.turn {
        if stack[count] <= ordered && stack[count] < blocker.rank {
            return false;
        }
        count += 1;
    }
    count < height as usize
}

/// Whether the row is open to any of a chain.
pub fn is_open_to_any(ordered: u8, height: u8, stack: &[u8], chain: &[Blocker]) -> bool
    ensures { result ≡ list_any (open_to ordered height stack.now) chain.now }
{
    chain
        .iter()
        .any(|blocker| is_open(ordered, height, stack, *blocker))
}

/// How many rows are open to any of a chain.
pub fn open_rows(position: &Position, chain: &[Blocker]) -> u32
    ensures value { result ≡ rows_open position.now.place chain.now }
    ensures few { result ≤ 12 }
{
    let mut count: u32 = 0;
    for row in 1..position.rows() + 1 {
        if is_open_to_any(
            position.ordered(),
            position.height(row),
            position.stack(row),
            chain,
        ) {
            count += 1;
        }
    }
    count
}
