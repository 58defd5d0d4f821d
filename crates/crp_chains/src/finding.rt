//! Containers that block, found by their ranks.
ghost use Rattle.std.specs.Prelude.{◌≡◌, ◌≤◌, ◌-◌, ℕ, true, false, min, nat_le, if◌then◌else◌, List, IfSome, IfNone, length, Some, slice_get};
ghost use Rattle.std.specs.List.{AllByRecursion};
ghost use Rattle.crp_plan.specs.Rows.{holds, below};
ghost use Rattle.crp_bounds.specs.Leasts.{least_ordered as least_of};
ghost use Rattle.crp_chains.specs.declared.blocker.Blocker.{Blocker as Named};
ghost use Rattle.crp_chains.specs.Chains.{IsBlocker, ranks_of};

use crate::blocker::Blocker;
use crate::standing::{beneath, has_rank};
use arrayvec::ArrayVec;
use crp_bay::Position;

/// The least ordered rank of a list with one more container, where this was the least before.
fn lesser(ordered: u8, rank: u8, least: u8) -> u8
    ensures { result ≡ (if nat_le rank ordered then min rank least else least) }
{
    if rank <= ordered && rank < least {
        rank
    } else {
        least
    }
}

/// The least ordered rank of a list; 255 where there is none.
fn least_ordered(ordered: u8, stack: &[u8]) -> u8
    ensures { result ≡ least_of ordered stack.now }
{
    let mut least: u8 = 255;
    for rank in stack {
        least = lesser(ordered, *rank, least);
    }
    least
}

/// The row in which a rank stands, if any.
fn row_with(position: &Position, rank: u8) -> Option<u8>
    ensures counts { IfSome result (λ row. 1 ≤ row) }
    ensures there { IfSome result (λ row. row ≤ length position.now.place.heights) }
    ensures held { IfSome result (λ row. (stack : List ℕ) → slice_get position.now.place.stacks (row - 1) ≡ Some stack → holds rank stack ≡ true) }
    ensures none { IfNone result ((i : ℕ) (stack : List ℕ) → slice_get position.now.place.stacks i ≡ Some stack → holds rank stack ≡ false) }
{
    for row in 1..position.rows() + 1 {
        if has_rank(rank, position.stack(row)) {
            return Some(row);
        }
    }
    None
}

/// The container of this rank with its turn. `None` exactly where none of this rank blocks.
fn blocker_of(position: &Position, rank: u8) -> Option<Blocker>
    ensures rank { IfSome result (λ b. b.rank ≡ rank) }
    ensures blocks { IfSome result (λ b. IsBlocker position.now.place b) }
    ensures none { IfNone result ((b : Named) → b.rank ≡ rank → IsBlocker position.now.place b → ⊥) }
{
    let Some(row) = row_with(position, rank) else {
        return None;
    };
    let turn = least_ordered(position.ordered(), beneath(rank, position.stack(row)));
    if turn < rank {
        Some(Blocker { rank, turn })
    } else {
        None
    }
}

/// The containers of these ranks with their turns. `None` exactly where one of them does not block.
pub fn blockers_of(position: &Position, ranks: &[u8]) -> Option<ArrayVec<Blocker, 96>>
    requires { length ranks.now ≤ 96 }
    ensures ranks { IfSome result (λ chain. ranks_of chain.items ≡ ranks.now) }
    ensures block { IfSome result (λ chain. AllByRecursion (IsBlocker position.now.place) chain.items) }
    ensures none { IfNone result ((chain : List Named) → ranks_of chain ≡ ranks.now → AllByRecursion (IsBlocker position.now.place) chain → ⊥) }
{
    let mut chain = ArrayVec::new();
    for rank in ranks {
        let Some(blocker) = blocker_of(position, *rank) else {
            return None;
        };
        chain.push(blocker);
    }
    Some(chain)
}
