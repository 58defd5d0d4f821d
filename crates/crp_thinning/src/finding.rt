//! Containers that block, found by their ranks.
ghost use Rattle.std.specs.Prelude.{◌≡◌, ◌≤◌, ◌-◌, ℕ, true, false, List, IfSome, IfNone, length, Some, slice_get};
ghost use Rattle.std.specs.List.{AllByRecursion};
ghost use Rattle.crp_plan.specs.Rows.{holds};
ghost use Rattle.crp_chains.specs.declared.blocker.Blocker.{Blocker as Named};
ghost use Rattle.crp_chains.specs.Chains.{IsBlocker, ranks_of};

use crate::looking::{rows, stack};
use crate::scanning::least_of as least_ordered;
use crate::track::Track;
use arrayvec::ArrayVec;
use crp_chains::{Blocker, beneath};

/// The row in which a rank stands, if any.
fn row_with(track: &Track, rank: u8) -> Option<u8>
    ensures counts { IfSome result (λ row. 1 ≤ row) }
    ensures there { IfSome result (λ row. row ≤ length track.now.place.heights) }
    ensures held { IfSome result (λ row. (stack : List ℕ) → slice_get track.now.place.stacks (row - 1) ≡ Some stack → holds rank stack ≡ true) }
    ensures none { IfNone result ((i : ℕ) (stack : List ℕ) → slice_get track.now.place.stacks i ≡ Some stack → holds rank stack ≡ false) }
{
    let row = track.place_of_rank(rank) as u8;
    if row >= rows(track) {
        return None;
    }
    Some(row + 1)
}

/// The container of this rank with its turn. `None` exactly where none of this rank blocks.
fn blocker_of(track: &Track, rank: u8) -> Option<Blocker>
    ensures rank { IfSome result (λ b. b.rank ≡ rank) }
    ensures blocks { IfSome result (λ b. IsBlocker track.now.place b) }
    ensures none { IfNone result ((b : Named) → b.rank ≡ rank → IsBlocker track.now.place b → ⊥) }
{
    let Some(row) = row_with(track, rank) else {
        return None;
    };
    let turn = least_ordered(track.ordered(), beneath(rank, stack(track, row)));
    if turn < rank {
        Some(Blocker { rank, turn })
    } else {
        None
    }
}

/// The containers of these ranks with their turns. `None` exactly where one of them does not block.
pub fn blockers_of(track: &Track, ranks: &[u8]) -> Option<ArrayVec<Blocker, 96>>
    requires { length ranks.now ≤ 96 }
    ensures ranks { IfSome result (λ chain. ranks_of chain.items ≡ ranks.now) }
    ensures block { IfSome result (λ chain. AllByRecursion (IsBlocker track.now.place) chain.items) }
    ensures none { IfNone result ((chain : List Named) → ranks_of chain ≡ ranks.now → AllByRecursion (IsBlocker track.now.place) chain → ⊥) }
{
    let mut chain = ArrayVec::new();
    for rank in ranks {
        let Some(blocker) = blocker_of(track, *rank) else {
            return None;
        };
        chain.push(blocker);
    }
    Some(chain)
}
