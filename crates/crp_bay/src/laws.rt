//! Laws of the definitions, for the crates above.
ghost use Rattle.std.specs.Prelude.{◌≡◌, ℕ, ◌+◌, ◌≤◌, List, [], ◌∷◌, ◌++◌, length, All, Contains, Some, IsTrue, ◌↔◌};
ghost use Rattle.std.specs.List.Sorted.{IsStrictlyIncreasing};
ghost use Rattle.crp_plan.specs.Bay.{Problem, IsProblem, start, Position as Place, IsSound, IsAt};
ghost use Rattle.crp_plan.specs.Walks.{NoneToTake};
ghost use Rattle.crp_bay.specs.Positions.{settled, at, targets, child, can_shift};
ghost use Rattle.crp_bay.specs.Reached.{IsReached};

/// The computed position is the one at the path, and the computed rows are the legal ones, rising.
pub fn walks()
    ensures begins { (p : Problem) → IsProblem p → IsAt p [] (settled (start p)) }
    ensures sound { (p : Problem) (path : List ℕ) (s : Place) → IsProblem p → IsAt p path s → at p path ≡ Some s }
    ensures complete { (p : Problem) (path : List ℕ) (s : Place) → IsProblem p → at p path ≡ Some s → IsAt p path s }
    ensures goes_on { (p : Problem) (path : List ℕ) (s : Place) (row : ℕ) → IsProblem p → IsAt p path s → Contains (targets s) row
        → IsAt p (path ++ row ∷ []) (child s row) }
    ensures every_row { (p : Problem) (path : List ℕ) (s : Place) (row : ℕ) (t : Place) → IsProblem p → IsAt p path s → IsAt p (path ++ row ∷ []) t
        → Contains (targets s) row × (child s row ≡ t) }
    ensures rising { (s : Place) → IsStrictlyIncreasing (targets s) }
    ensures row_test { (s : Place) (row : ℕ) → (Contains (targets s) row ↔ IsTrue (can_shift s row)) }
{}

/// What holds in every position that a path leads to.
pub fn reached_positions()
    ensures sound { (s : Place) → IsReached s → IsSound s }
    ensures settled { (s : Place) → IsReached s → NoneToTake s }
    ensures rows { (s : Place) → IsReached s → (1 ≤ length s.heights) × (length s.heights ≤ 12) }
    ensures same_rows { (s : Place) → IsReached s → length s.stacks ≡ length s.heights }
    ensures heights { (s : Place) → IsReached s → All (λ height. (1 ≤ height) × (height ≤ 8)) s.heights }
    ensures ordered { (s : Place) → IsReached s → s.ordered ≤ 96 }
    ensures next { (s : Place) → IsReached s → (1 ≤ s.next) × (s.next ≤ s.ordered + 1) }
{}
