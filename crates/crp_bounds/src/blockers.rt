//! The blocking bound.
ghost use Rattle.std.specs.Prelude.{◌≡◌, ◌≤◌, List, [], length};
ghost use Rattle.crp_plan.specs.declared.moves.Move.{Move};
ghost use Rattle.crp_plan.specs.Bay.{Completes, relocations};
ghost use Rattle.crp_bounds.specs.Bounds.{holds_lower, blocked_in, blocking as blocking_bound};

use crp_bay::Position;

/// Whether an ordered container of a lower rank than `c` stands in the stack.
pub fn has_lower(ordered: u8, c: u8, stack: &[u8]) -> bool
    ensures { result ≡ holds_lower ordered c stack.now }
{
    stack.iter().any(|d| *d <= ordered && *d < c)
}

/// How many containers of a stack stand above an ordered one of a lower rank.
fn blocked_containers(ordered: u8, stack: &[u8]) -> u32
    requires { length stack.now ≤ 8 }
    ensures value { result ≡ blocked_in ordered [] stack.now }
    ensures few { result ≤ 8 }
{
    let mut count: u32 = 0;
    for (i, c) in stack.iter().enumerate() {
        if has_lower(ordered, *c, &stack[..i]) {
            count += 1;
        }
    }
    count
}

/// The blocking bound: how many containers stand above an ordered one of a lower rank. It takes no memory.
///
/// Each of these has to be relocated at least once (Kim and Hong 2006).
pub fn blocking(position: &Position) -> u32
    ensures value { result ≡ blocking_bound position.now.place }
    ensures below_every_run { (moves : List Move) → Completes position.now.place moves → result ≤ relocations moves }
    ensures few { result ≤ 96 }
{
    let mut count: u32 = 0;
    for row in 1..position.rows() + 1 {
        count += blocked_containers(position.ordered(), position.stack(row));
    }
    count
}
