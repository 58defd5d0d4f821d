//! The look-ahead bound.
ghost use Rattle.std.specs.Prelude.{◌≡◌, ◌+◌, ◌*◌, ◌≤◌, List};
ghost use Rattle.crp_plan.specs.declared.moves.Move.{Move};
ghost use Rattle.crp_plan.specs.Bay.{Completes, relocations};
ghost use Rattle.crp_bounds.specs.Bounds.{look_ahead as look_ahead_bound};

use crate::blockers::blocking;
use crate::known::leasts_of;
use crate::scanning::again_from;
use crp_bay::Position;

/// The look-ahead bound, a bound of this project's: the blocking bound, and in addition each blocker that
/// would block again wherever it went. It takes no memory.
///
/// For each rank from the next to the last, in turn, a container above it counts once more where every other
/// stack with room holds an ordered container of a lower rank; then the rank's stack is cut off from it upward.
pub fn look_ahead(position: &Position) -> u32
    ensures value { result ≡ look_ahead_bound position.now.place }
    ensures below_every_run { (moves : List Move) → Completes position.now.place moves → result ≤ relocations moves }
    ensures few { result ≤ 96 + 96 * 96 }
{
    let blocking = blocking(position);
    blocking + again_from(position, &leasts_of(position), blocking)
}
