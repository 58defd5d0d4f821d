//! What a family gains that is given by its ranks.
ghost use Rattle.std.specs.Prelude.{◌≡◌, ◌≤◌, ◌+◌, ◌*◌, ℕ, List, map, IfSome, IfNone, length, slice_index, count_by, ◌==◌};
ghost use Rattle.std.specs.Bool.{OnTrue, OnFalse};
ghost use Rattle.crp_plan.specs.declared.moves.Move.{Move};
ghost use Rattle.crp_plan.specs.Bay.{Completes, relocations};
ghost use Rattle.crp_bounds.specs.Bounds.{blocking};
ghost use Rattle.crp_chains.specs.declared.blocker.Blocker.{Blocker};
ghost use Rattle.crp_chains.specs.Chains.{IsFamily, ranks_of, gain as gain_at};
ghost use Rattle.crp_chains.specs.Given.{lists_of};

use crate::linking::chain_gain_of;
use arrayvec::ArrayVec;
use crp_bay::Position;

/// Counts each rank of a list. `false` exactly where one was there already or comes twice.
fn mark(ranks: &[u8], seen: &mut [u8; 256]) -> bool
    requires { (x : ℕ) → slice_index seen.old x ≤ 1 }
    ensures counted { OnTrue result ((x : ℕ) → slice_index seen.new x ≡ slice_index seen.old x + count_by (λ y. y == x) ranks.now) }
    ensures few { OnTrue result ((x : ℕ) → slice_index seen.new x ≤ 1) }
    ensures twice { OnFalse result ((x : ℕ) × (2 ≤ slice_index seen.old x + count_by (λ y. y == x) ranks.now)) }
{
    for rank in ranks {
        if seen[*rank as usize] != 0 {
            return false;
        }
        seen[*rank as usize] = 1;
    }
    true
}

/// What the family of these ranks gains, chain by chain. `None` exactly where they make no family.
pub fn gain_of(position: &Position, family: &[ArrayVec<u8, 96>]) -> Option<u32>
    requires { length family.now ≤ 96 }
    ensures gain { IfSome result (λ gain. (chains : List (List Blocker)) × (map ranks_of chains ≡ lists_of family.now)
        × IsFamily position.now.place chains × (gain ≡ gain_at position.now.place chains)) }
    ensures none { IfNone result ((chains : List (List Blocker)) → map ranks_of chains ≡ lists_of family.now → IsFamily position.now.place chains → ⊥) }
    ensures below_every_run { IfSome result (λ gain. (moves : List Move) → Completes position.now.place moves → blocking position.now.place + gain ≤ relocations moves) }
    ensures few { IfSome result (λ gain. gain ≤ 96 * 96) }
{
    // Called for its clause: some path leads to the position.
    let _next = position.next();
    let mut seen = [0u8; 256];
    let mut gain: u32 = 0;
    for ranks in family {
        if !mark(ranks.as_slice(), &mut seen) {
            return None;
        }
        let Some(more) = chain_gain_of(position, ranks.as_slice()) else {
            return None;
        };
        gain += more;
    }
    Some(gain)
}
