//! The blocking bound of a thinned position.
ghost use Rattle.std.specs.Prelude.{◌≡◌, ◌≤◌, [], length};
ghost use Rattle.crp_bounds.specs.Bounds.{blocked_in, blocking as blocking_bound};

use crate::rows::has_lower;
use crate::track::Track;

/// How many containers of a stack stand above an ordered one of a lower rank.
fn blocked_containers(ordered: u8, stack: &[u8]) -> u32
    requires { length stack.now ≤ 8 }
    ensures value { result ≡ blocked_in ordered [] stack.now }
    ensures few { result ≤ 8 }
{
    let mut count: u32 = 0;
    for (i, c) in stack.iter().enumerate() {
        if has_lower(ordered, *c, &stack[..i]) {
            count += 1;
        }
    }
    count
}

/// The blocking bound.
pub fn blocking(track: &Track) -> u32
    ensures value { result ≡ blocking_bound track.now.place }
    ensures few { result ≤ 96 }
{
    let ordered = track.ordered();
    let stacks = track.stacks();
    let mut count: u32 = 0;
    for stack in stacks {
        count += blocked_containers(ordered, stack.ranks());
    }
    count
}
