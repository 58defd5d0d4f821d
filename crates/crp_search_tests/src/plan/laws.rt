//! What the laws say of six containers.
ghost use Rattle.std.specs.Prelude.{◌≡◌, ◌≤◌, List, [], ◌∷◌};
ghost use Rattle.crp_plan.specs.declared.moves.Move.{Move};
ghost use Rattle.crp_plan.specs.declared.moves.Move.TheVariants.{Shift, Take};
ghost use Rattle.crp_plan.specs.Bay.{IsProblem, IsPlan, relocations, path_of};
ghost use Rattle.crp_plan.specs.Faults.{stated};

use crp_plan::{few_relocations, path_decides};

/// Six containers in three rows of three tiers are a problem, and these moves are a plan of it. Each of its plans has
/// twelve relocations at most, and no other has the same path.
fn plans_of_six_containers()
    ensures problem { IsProblem (stated 3 6 ((1 ∷ 5 ∷ 4 ∷ []) ∷ (6 ∷ []) ∷ (3 ∷ 2 ∷ []) ∷ [])) }
    ensures plan { IsPlan (stated 3 6 ((1 ∷ 5 ∷ 4 ∷ []) ∷ (6 ∷ []) ∷ (3 ∷ 2 ∷ []) ∷ []))
        (Shift 1 2 ∷ Shift 1 2 ∷ Take 1 ∷ Take 3 ∷ Take 3 ∷ Shift 2 1 ∷ Take 2 ∷ Take 1 ∷ Take 2 ∷ []) }
    ensures few { (moves : List Move) → IsPlan (stated 3 6 ((1 ∷ 5 ∷ 4 ∷ []) ∷ (6 ∷ []) ∷ (3 ∷ 2 ∷ []) ∷ [])) moves
        → relocations moves ≤ 12 }
    ensures one { (moves : List Move) → IsPlan (stated 3 6 ((1 ∷ 5 ∷ 4 ∷ []) ∷ (6 ∷ []) ∷ (3 ∷ 2 ∷ []) ∷ [])) moves
        → path_of moves ≡ 2 ∷ 2 ∷ 1 ∷ []
        → moves ≡ Shift 1 2 ∷ Shift 1 2 ∷ Take 1 ∷ Take 3 ∷ Take 3 ∷ Shift 2 1 ∷ Take 2 ∷ Take 1 ∷ Take 2 ∷ [] }
{
    few_relocations();
    path_decides();
}

#[test]
fn laws_of_six_containers(_rt: HostRuntime) {
    plans_of_six_containers();
}
