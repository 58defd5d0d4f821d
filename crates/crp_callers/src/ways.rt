//! What the laws of moves, of positions and of bounds say of plans, and of ways to the end of a bay.
ghost use Rattle.std.specs.Prelude.{◌≡◌, ◌≤◌, ℕ, suc, List, [], ◌∷◌, ◌++◌, All, Some, IsTrue, length};
ghost use Rattle.std.specs.List.Sorted.{IsStrictlyIncreasing};
ghost use Rattle.crp_plan.specs.declared.moves.Move.{Move};
ghost use Rattle.crp_plan.specs.declared.moves.Move.TheVariants.{Shift, Take};
ghost use Rattle.crp_plan.specs.declared.plan.PlanFault.{PlanFault};
ghost use Rattle.crp_plan.specs.Rows.{tallest};
ghost use Rattle.crp_plan.specs.Bay.{Problem, IsProblem, Position, start, cap, IsFinished, IsShifted, Legal, Runs, Completes, IsPlan, IsAt, IsLegalRow, IsSound, relocations, path_of};
ghost use Rattle.crp_plan.specs.Faults.{IsPlanFault};
ghost use Rattle.crp_bay.specs.Positions.{at, targets, child, can_shift};
ghost use Rattle.crp_bay.specs.Reached.{IsReached};
ghost use Rattle.crp_bounds.specs.Bounds.{blocking, look_ahead};
ghost use Rattle.crp_search.specs.Greedy.{IsGreedyPath};

use crp_bay::{reached_positions, walks};
use crp_bounds::{
    blocking_bounds, look_ahead_bounds, look_ahead_is_higher, paths_grow, plans_pass,
};
use crp_plan::{
    few_relocations, one_fault, one_kind, path_decides, paths_have_fronts, plans_branch,
    stays_sound,
};
use crp_search::{blocker_moves, one_greedy_plan};

/// Two legal moves lead from the start of a problem to what is sound.
pub fn two_moves_stay_sound()
    ensures { (p : Problem) (one other : Move) (s t : Position) → IsProblem p → Legal (start p) one s → Legal s other t → IsSound t }
{
    stays_sound();
}

/// Where a position stands at a path of two rows, one stands at the first of them.
pub fn first_of_two_rows()
    ensures { (p : Problem) (row next : ℕ) (t : Position) → IsProblem p → IsAt p (row ∷ next ∷ []) t → (s : Position) × IsAt p (row ∷ []) s }
{
    paths_have_fronts();
}

/// In rows of one tier nothing is relocated. And no plan has as many relocations as the cap.
pub fn few_are_relocated()
    ensures one_tier { (s t : Position) (moves : List Move) → IsSound s → tallest s.heights ≡ 1 → Runs s moves t → relocations moves ≡ 0 }
    ensures below_cap { (p : Problem) (moves : List Move) → IsProblem p → IsPlan p moves → relocations moves ≡ cap p → ⊥ }
{
    few_relocations();
}

/// Where something is still to leave when all has been taken that can be, a plan begins with a legal row. Where nothing is, it has no relocation.
pub fn plans_begin()
    ensures legally { (p : Problem) (s : Position) (moves : List Move) → IsProblem p → IsAt p [] s → s.next ≤ s.ordered → IsPlan p moves
        → (row : ℕ) × (after : List ℕ) × (path_of moves ≡ row ∷ after) × IsLegalRow p [] row }
    ensures nowhere { (p : Problem) (s : Position) (moves : List Move) → IsProblem p → IsAt p [] s → IsFinished s → IsPlan p moves → path_of moves ≡ [] }
{
    plans_branch();
}

/// What every position has that a path leads to: nothing can be taken, no way to the end has fewer relocations than the look-ahead bound, and
/// there are at most 12 stacks, of at most 8 tiers, from which at most 96 containers leave.
pub fn reached_is_bounded()
    ensures settled { (s t : Position) (row : ℕ) → IsReached s → Legal s (Take row) t → ⊥ }
    ensures bound { (s : Position) (moves : List Move) → IsReached s → Completes s moves → look_ahead s ≤ relocations moves }
    ensures stacks { (s : Position) → IsReached s → length s.stacks ≤ 12 }
    ensures tiers { (s : Position) → IsReached s → All (λ height. height ≤ 8) s.heights }
    ensures next { (s : Position) → IsReached s → s.next ≤ 97 }
{
    reached_positions();
    look_ahead_bounds();
}

/// Where a way to the end has no relocation, nothing blocks. Where it has as many as containers block, the look-ahead bound is no higher.
pub fn bounds_are_met()
    ensures none { (s : Position) (moves : List Move) → IsSound s → Completes s moves → relocations moves ≡ 0 → blocking s ≡ 0 }
    ensures no_more { (s : Position) (moves : List Move) → IsSound s → Completes s moves → relocations moves ≡ blocking s → look_ahead s ≡ blocking s }
{
    blocking_bounds();
    look_ahead_bounds();
    look_ahead_is_higher();
}

/// A relocation lowers neither bound by more than one.
pub fn one_row_more()
    ensures blocking { (p : Problem) (path : List ℕ) (row : ℕ) (s t : Position) → IsProblem p → IsAt p path s → IsAt p (path ++ row ∷ []) t
        → blocking s ≤ suc (blocking t) }
    ensures look_ahead { (p : Problem) (path : List ℕ) (row : ℕ) (s t : Position) → IsProblem p → IsAt p path s → IsAt p (path ++ row ∷ []) t
        → look_ahead s ≤ suc (look_ahead t) }
{
    paths_grow();
}

/// A plan whose first relocation goes to a row has one more, at least, than either bound of the position there.
pub fn behind_the_first_row()
    ensures blocking { (p : Problem) (row : ℕ) (after : List ℕ) (s : Position) (moves : List Move) → IsProblem p → IsAt p (row ∷ []) s → IsPlan p moves
        → path_of moves ≡ row ∷ after → suc (blocking s) ≤ relocations moves }
    ensures look_ahead { (p : Problem) (row : ℕ) (after : List ℕ) (s : Position) (moves : List Move) → IsProblem p → IsAt p (row ∷ []) s → IsPlan p moves
        → path_of moves ≡ row ∷ after → suc (look_ahead s) ≤ relocations moves }
{
    plans_pass();
}

/// All relocations that are legal in a position move the same container.
pub fn one_is_moved()
    ensures { (s t u : Position) (from to source target : ℕ) → IsSound s → (one : IsShifted s from to t) → (other : IsShifted s source target u)
        → one.moved ≡ other.moved }
{
    blocker_moves();
}

/// All greedy plans of a problem have as many relocations.
pub fn greedy_plans_are_as_long()
    ensures { (p : Problem) (path other : List ℕ) → IsProblem p → IsGreedyPath p path → IsGreedyPath p other → length path ≡ length other }
{
    one_greedy_plan();
}

/// Where a path of one row leads, found step by step: where the row leads from the start, and it leads there if the next relocation may go
/// to it. The rows to which it may go rise.
pub fn one_row()
    ensures found { (p : Problem) (s t : Position) (row : ℕ) → IsProblem p → IsAt p [] s → IsAt p (row ∷ []) t → at p (row ∷ []) ≡ Some (child s row) }
    ensures leads { (p : Problem) (s : Position) (row : ℕ) → IsProblem p → at p [] ≡ Some s → IsTrue (can_shift s row) → IsAt p (row ∷ []) (child s row) }
    ensures rising { (s : Position) → IsStrictlyIncreasing (targets s) }
{
    walks();
}

/// One container at most can be taken from a sound position, or one can be relocated, and each row to which it goes leads to one position.
pub fn one_move_at_a_time()
    ensures taken { (s t u : Position) (row other : ℕ) → IsSound s → Legal s (Take row) t → Legal s (Take other) u → t ≡ u }
    ensures either { (s t u : Position) (row from to : ℕ) → IsSound s → Legal s (Take row) t → Legal s (Shift from to) u → ⊥ }
    ensures shifted { (s t u : Position) (from to source : ℕ) → IsSound s → Legal s (Shift from to) t → Legal s (Shift source to) u → t ≡ u }
{
    one_kind();
}

/// As many containers block wherever a path leads, and a plan that is wrong is wrong in one way.
pub fn paths_decide()
    ensures blocking { (p : Problem) (path : List ℕ) (s t : Position) → IsProblem p → IsAt p path s → IsAt p path t → blocking s ≡ blocking t }
    ensures wrong { (p : Problem) (rows : List ℕ) (fault other : PlanFault) → IsProblem p → IsPlanFault p rows fault → IsPlanFault p rows other
        → fault ≡ other }
{
    path_decides();
    one_fault();
}
