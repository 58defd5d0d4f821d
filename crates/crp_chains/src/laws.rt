//! Laws of the bound by chains, for the crates above.
ghost use Rattle.std.specs.Prelude.{◌≡◌, ℕ, ◌≤◌, ◌+◌, List, [], ◌∷◌, ◌++◌, length, IsTrue, IsFalse, map, Some, slice_get};
ghost use Rattle.crp_plan.specs.declared.moves.Move.{Move};
ghost use Rattle.crp_plan.specs.Bay.{Problem, IsProblem, IsPlan, IsAt, path_of, Position, IsSound, Legal, IsShifted, Completes, relocations};
ghost use Rattle.crp_plan.specs.Rows.{holds};
ghost use Rattle.crp_bounds.specs.Turns.{left_at};
ghost use Rattle.crp_bounds.specs.Bounds.{blocking, look_ahead};
ghost use Rattle.crp_chains.specs.declared.blocker.Blocker.{Blocker};
ghost use Rattle.crp_chains.specs.Chains.{StandsOn, IsBlocker, IsFamily, is_open, standing_at, gain, without, ranks_of};
ghost use Rattle.crp_chains.specs.Named.{family_of};

/// The blocking bound and the gain of any family are together at most the relocations of any way to the end.
pub fn chains_bound()
    ensures { (s : Position) (family : List (List Blocker)) (moves : List Move) → IsSound s → IsFamily s family → Completes s moves
        → blocking s + gain s family ≤ relocations moves }
{}

/// After a retrieval the same family gains as much. After a relocation it is a family without the container that was moved, and the
/// blocking bound and its gain are together one less at most.
pub fn chains_fall_slowly()
    ensures taken { (s : Position) (family : List (List Blocker)) (row : ℕ) (t : Position) → IsSound s → IsFamily s family → Legal s (Move.Take row) t
        → IsFamily t family × (blocking s + gain s family ≤ blocking t + gain t family) }
    ensures shifted { (s : Position) (family : List (List Blocker)) (from to : ℕ) (t : Position) → IsSound s → IsFamily s family
        → (k : IsShifted s from to t)
        → IsFamily t (map (without k.moved) family) × (blocking s + gain s family ≤ 1 + (blocking t + gain t (map (without k.moved) family))) }
{}

/// A plan whose path begins with a path has at least the length of that, the blocking bound of the position there and the gain of any
/// family at it.
pub fn chains_pass()
    ensures { (p : Problem) (path more : List ℕ) (s : Position) (family : List (List Blocker)) (moves : List Move) → IsProblem p → IsAt p path s
        → IsFamily s family → IsPlan p moves → path_of moves ≡ path ++ more → length path + (blocking s + gain s family) ≤ relocations moves }
{}

/// Along a legal row a family goes on without the container that is moved, and length plus bound never falls.
pub fn chains_grow()
    ensures { (p : Problem) (path : List ℕ) (row : ℕ) (s t : Position) (family : List (List Blocker)) → IsProblem p → IsAt p path s
        → IsAt p (path ++ row ∷ []) t → IsFamily s family
        → (x : ℕ) × IsFamily t (map (without x) family)
        × (length path + (blocking s + gain s family) ≤ length (path ++ row ∷ []) + (blocking t + gain t (map (without x) family))) }
{}

/// What the words of chains say: a container has one turn, and the row that it stands in is not open to it; what stands at a turn is
/// what the look-ahead bound leaves of a stack; and the ranks of a family say which it is.
pub fn chain_words_mean()
    ensures one_turn { (s : Position) (a b : Blocker) → IsSound s → IsBlocker s a → IsBlocker s b → a.rank ≡ b.rank → a ≡ b }
    ensures own_row { (s : Position) (b : Blocker) (k : IsBlocker s b) (height row : ℕ) (stack : List ℕ) → IsSound s → slice_get s.stacks row ≡ Some stack
        → IsTrue (holds b.rank stack) → IsFalse (is_open s.ordered height stack b) }
    ensures left { (s : Position) (k row : ℕ) (stack : List ℕ) → IsSound s → slice_get s.stacks row ≡ Some stack
        → standing_at k stack ≡ left_at s.next k stack }
    ensures one_family { (s : Position) (a b : List (List Blocker)) → IsSound s → IsFamily s a → IsFamily s b → map ranks_of a ≡ map ranks_of b → a ≡ b }
    ensures named { (s : Position) (family : List (List Blocker)) → IsSound s → IsFamily s family → family ≡ family_of s (map ranks_of family) }
    ensures ranks { (s : Position) (lists : List (List ℕ)) → map ranks_of (family_of s lists) ≡ lists }
{}

/// Some family gains what the look-ahead bound adds to the blocking bound: the chains of one container that no row is open to.
pub fn chains_reach_look_ahead()
    ensures { (s : Position) → IsSound s → ((family : List (List Blocker)) × IsFamily s family × (look_ahead s ≡ blocking s + gain s family)) }
{}
