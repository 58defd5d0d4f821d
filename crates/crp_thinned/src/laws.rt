//! Laws of thinned branches, for the crates above.
ghost use Rattle.std.specs.Prelude.{◌≡◌, ℕ, ◌+◌, ◌≤◌, ◌<◌, ◌↔◌, List, ◌++◌, length, map, All, Contains};
ghost use Rattle.crp_plan.specs.declared.moves.Move.{Move};
ghost use Rattle.crp_plan.specs.Rows.{occurrences};
ghost use Rattle.crp_plan.specs.Bay.{Problem, IsProblem, Position, IsSound, IsTaken, IsAt, IsPlan, Completes, relocations, path_of, cap};
ghost use Rattle.crp_bounds.specs.Bounds.{blocking, look_ahead};
ghost use Rattle.crp_chains.specs.declared.blocker.Blocker.{Blocker};
ghost use Rattle.crp_chains.specs.Chains.{IsFamily, gain, ranks_of, without};
ghost use Rattle.crp_chains.specs.Named.{family_of};
ghost use Rattle.crp_thinned.specs.Tree.{Tree};
ghost use Rattle.crp_thinned.specs.Thinned.{good_rows, free_row, blocker, settled_over, child_at, child_without, thinned_cuts, FitsThinned, ReachesAll, shown};
ghost use Rattle.crp_thinned.specs.Missing.{IsThinned, IsSoundlyThin, FallsSlowly};

/// What holds in each thinned position holds in a real one where nothing can be taken, and below each row where the blocker is well
/// placed, where it is lifted out, and below the first row where it hinders nobody.
pub fn thinned_positions_stay_sound()
    ensures real { (s : Position) → IsSound s → ((row : ℕ) (t : Position) → IsTaken s row t → ⊥) → IsSoundlyThin s }
    ensures row { (s : Position) (row : ℕ) → IsSoundlyThin s → Contains (good_rows s) row → IsSoundlyThin (child_at s row) }
    ensures without { (s : Position) → IsSoundlyThin s → s.next ≤ s.ordered → IsSoundlyThin (child_without s) }
    ensures free { (s : Position) → IsSoundlyThin s → 1 ≤ free_row s → IsSoundlyThin (child_at s (free_row s)) }
{}

/// Both bounds may stand below a thinned branch, and below one with one tree.
pub fn bounds_fall_slowly()
    ensures blocking { FallsSlowly blocking }
    ensures look_ahead { FallsSlowly look_ahead }
{}

/// So may the chains of a family: where the blocker is well placed, the family goes on without it, and the blocking bound and its gain are
/// together one less at most; where it is lifted out, two less at most; and they are 0 where nothing is left to leave. Retrievals by
/// force, and missing ranks that are passed over, leave a family what it is. The ranks of a family say which it is, and
/// some family has just the look-ahead bound.
pub fn chains_fall_slowly()
    ensures row { (s : Position) (row : ℕ) (family : List (List Blocker)) → IsSoundlyThin s → Contains (good_rows s) row → IsFamily s family
        → IsFamily (child_at s row) (map (without (blocker s)) family)
        × (blocking s + gain s family ≤ 1 + (blocking (child_at s row) + gain (child_at s row) (map (without (blocker s)) family))) }
    ensures without { (s : Position) (family : List (List Blocker)) → IsSoundlyThin s → s.next ≤ s.ordered → IsFamily s family
        → IsFamily (child_without s) (map (without (blocker s)) family)
        × (blocking s + gain s family ≤ 2 + (blocking (child_without s) + gain (child_without s) (map (without (blocker s)) family))) }
    ensures end { (s : Position) (family : List (List Blocker)) → IsSoundlyThin s → s.ordered < s.next → IsFamily s family → blocking s + gain s family ≡ 0 }
    ensures named { (s : Position) (family : List (List Blocker)) → IsSoundlyThin s → IsFamily s family → family ≡ family_of s (map ranks_of family) }
    ensures reach_look_ahead { (s : Position) → IsSoundlyThin s
        → ((family : List (List Blocker)) × IsFamily s family × (look_ahead s ≡ blocking s + gain s family)) }
    ensures settled { (s : Position) (family : List (List Blocker)) → ((x : ℕ) → occurrences x s.stacks ≤ 1)
        → ((x : ℕ) → x < s.next → occurrences x s.stacks ≡ 0) → IsFamily s family
        → IsFamily (settled_over s) family
        × (blocking s + gain s family ≤ blocking (settled_over s) + gain (settled_over s) family) }
{}

/// A tree that fits at a thinned position, and has no cut of a value below the floor, shows the floor: at a path, every complete plan
/// whose path begins with it has at least so many relocations; so it is with every way to the end from a sound position where nothing
/// can be taken; and with one from a real position, beside a thinned one, but for what blocks in the real one alone.
pub fn thinned_trees_show()
    ensures path { (p : Problem) (path : List ℕ) (s : Position) (tree : Tree) (floor : ℕ) (moves : List Move) → IsProblem p → IsAt p path s
        → FitsThinned s tree → ReachesAll floor (thinned_cuts (length path) s tree) → IsPlan p moves → ((rest : List ℕ) × (path_of moves ≡ path ++ rest)) → floor ≤ relocations moves }
    ensures run { (s : Position) (tree : Tree) (cost floor : ℕ) (moves : List Move) → IsSound s → ((row : ℕ) (t : Position) → IsTaken s row t → ⊥)
        → FitsThinned s tree → ReachesAll floor (thinned_cuts cost s tree) → Completes s moves → floor ≤ relocations moves + cost }
    ensures thinned { (s t : Position) (tree : Tree) (cost floor : ℕ) (moves : List Move) → IsSound s → IsThinned s t
        → FitsThinned t tree → ReachesAll floor (thinned_cuts cost t tree) → Completes s moves
        → floor + blocking s ≤ relocations moves + cost + blocking t }
{}

/// The bound that a tree shows is the greatest floor that its cuts have; so it is at most the relocations of any way to the end.
pub fn shown_means()
    ensures cuts { (s : Position) (tree : Tree) (cost floor : ℕ) → FitsThinned s tree
        → (ReachesAll floor (thinned_cuts cost s tree) ↔ (floor ≤ cost + shown s tree)) }
    ensures bounds { (s : Position) (tree : Tree) (moves : List Move) → IsSound s → ((row : ℕ) (t : Position) → IsTaken s row t → ⊥)
        → FitsThinned s tree → Completes s moves → shown s tree ≤ relocations moves }
{}
