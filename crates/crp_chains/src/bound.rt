//! The bound by a family that is given by its ranks, at a position that is changed in place.
ghost use Rattle.std.specs.Prelude.{◌≡◌, ◌≤◌, ◌+◌, ◌*◌, ◌++◌, ℕ, List, map, IfSome, IfNone, length};
ghost use Rattle.crp_plan.specs.declared.moves.Move.{Move};
ghost use Rattle.crp_plan.specs.Bay.{Problem as Statement, IsProblem, IsAt, IsPlan, path_of, Completes, relocations};
ghost use Rattle.crp_bounds.specs.Bounds.{blocking};
ghost use Rattle.crp_chains.specs.declared.blocker.Blocker.{Blocker};
ghost use Rattle.crp_chains.specs.Chains.{IsFamily, ranks_of, gain};
ghost use Rattle.crp_chains.specs.Given.{lists_of};

use crate::family::gain_of;
use arrayvec::ArrayVec;
use crp_bounds::Bounded;

/// The blocking bound and what the family of these ranks gains. `None` exactly where they make no family.
pub fn bound_of(bounded: &Bounded, family: &[ArrayVec<u8, 96>]) -> Option<u32>
    requires { length family.now ≤ 96 }
    ensures value { IfSome result (λ bound. (chains : List (List Blocker)) × (map ranks_of chains ≡ lists_of family.now)
        × IsFamily bounded.now.place chains × (bound ≡ blocking bounded.now.place + gain bounded.now.place chains)) }
    ensures none { IfNone result ((chains : List (List Blocker)) → map ranks_of chains ≡ lists_of family.now → IsFamily bounded.now.place chains → ⊥) }
    ensures below_every_run { IfSome result (λ bound. (moves : List Move) → Completes bounded.now.place moves → bound ≤ relocations moves) }
    ensures below_every_plan { IfSome result (λ bound. (p : Statement) (path more : List ℕ) (moves : List Move) → IsProblem p → IsAt p path bounded.now.place
        → IsPlan p moves → path_of moves ≡ path ++ more → length path + bound ≤ relocations moves) }
    ensures few { IfSome result (λ bound. bound ≤ 96 + 96 * 96) }
{
    let Some(gain) = gain_of(bounded.position(), family) else {
        return None;
    };
    Some(bounded.blocking() + gain)
}
