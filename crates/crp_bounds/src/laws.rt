//! Laws of the bounds, for the crates above.
ghost use Rattle.std.specs.Prelude.{◌≡◌, ℕ, ◌≤◌, ◌+◌, ◌-◌, suc, List, [], ◌∷◌, ◌++◌, length, map, IsTrue, IsFalse, ◌↔◌, Some, slice_get, sum_by};
ghost use Rattle.std.specs.List.{AllZip};
ghost use Rattle.crp_plan.specs.declared.moves.Move.{Move};
ghost use Rattle.crp_plan.specs.Rows.{holds, occurrences, above, below};
ghost use Rattle.crp_plan.specs.Bay.{Problem, IsProblem, Position, IsSound, Legal, Completes, IsPlan, relocations, path_of, IsAt};
ghost use Rattle.crp_bay.specs.Positions.{counted};
ghost use Rattle.crp_bounds.specs.Bounds.{blocking, look_ahead, stuck_above, has_no_place, HasNoPlace};
ghost use Rattle.crp_bounds.specs.Turns.{left_at};
ghost use Rattle.crp_bounds.specs.BlockingPlaces.{AreBlockers};

/// The blocking bound is at most the relocations of any way to the end.
pub fn blocking_bounds()
    ensures { (s : Position) (moves : List Move) → IsSound s → Completes s moves → blocking s ≤ relocations moves }
{}

/// The look-ahead bound is at most the relocations of any way to the end.
pub fn look_ahead_bounds()
    ensures { (s : Position) (moves : List Move) → IsSound s → Completes s moves → look_ahead s ≤ relocations moves }
{}

/// The look-ahead bound is at least the blocking bound.
pub fn look_ahead_is_higher()
    ensures { (s : Position) → blocking s ≤ look_ahead s }
{}

/// A relocation lowers either bound by one at most, and a retrieval leaves them.
pub fn bounds_fall_slowly()
    ensures blocking_taken { (s : Position) (row : ℕ) (t : Position) → IsSound s → Legal s (Move.Take row) t → blocking t ≡ blocking s }
    ensures look_ahead_taken { (s : Position) (row : ℕ) (t : Position) → IsSound s → Legal s (Move.Take row) t → look_ahead t ≡ look_ahead s }
    ensures blocking_shifted { (s : Position) (from to : ℕ) (t : Position) → IsSound s → Legal s (Move.Shift from to) t
        → blocking s ≤ 1 + blocking t }
    ensures look_ahead_shifted { (s : Position) (from to : ℕ) (t : Position) → IsSound s → Legal s (Move.Shift from to) t
        → look_ahead s ≤ 1 + look_ahead t }
{}

/// Length plus bound never falls as a path grows by a legal row.
pub fn paths_grow()
    ensures blocking { (p : Problem) (path : List ℕ) (row : ℕ) (s t : Position) → IsProblem p → IsAt p path s → IsAt p (path ++ row ∷ []) t
        → length path + blocking s ≤ length (path ++ row ∷ []) + blocking t }
    ensures look_ahead { (p : Problem) (path : List ℕ) (row : ℕ) (s t : Position) → IsProblem p → IsAt p path s → IsAt p (path ++ row ∷ []) t
        → length path + look_ahead s ≤ length (path ++ row ∷ []) + look_ahead t }
{}

/// A plan whose path begins with a path has at least the length of that plus either bound of the position there.
pub fn plans_pass()
    ensures blocking { (p : Problem) (path more : List ℕ) (s : Position) (moves : List Move) → IsProblem p → IsAt p path s → IsPlan p moves
        → path_of moves ≡ path ++ more → length path + blocking s ≤ relocations moves }
    ensures look_ahead { (p : Problem) (path more : List ℕ) (s : Position) (moves : List Move) → IsProblem p → IsAt p path s → IsPlan p moves
        → path_of moves ≡ path ++ more → length path + look_ahead s ≤ relocations moves }
{}

/// What the bounds count, said by places: the blocking bound counts the containers that stand, in their stack, above an ordered one
/// of a lower rank. The look-ahead bound adds a sum over the ranks from the next to the last: for each, of what is left of the
/// stacks, the containers above it that have no place. And what the parts of that say: of the stacks other than the rank's own,
/// of a stack cut at the rank, and of one that does not hold it.
pub fn words_mean()
    ensures blocking { (s : Position)
        → ((blockers : List (List ℕ)) × AllZip (AreBlockers s.ordered) s.stacks blockers × (blocking s ≡ sum_by length blockers)) }
    ensures look_ahead { (s : Position)
        → look_ahead s ≡ blocking s + sum_by (λ k. stuck_above s.ordered s.heights (map (left_at s.next k) s.stacks) k) (counted s.next (suc s.ordered - s.next)) }
    ensures no_place { (ordered k own : ℕ) (heights : List ℕ) (stacks : List (List ℕ)) (stack : List ℕ) (c : ℕ) → slice_get stacks own ≡ Some stack
        → IsTrue (holds k stack) → occurrences k stacks ≤ 1
        → (IsTrue (has_no_place ordered k heights stacks c) ↔ HasNoPlace ordered own heights stacks c) }
    ensures cut { (k : ℕ) (low high : List ℕ) → IsFalse (holds k low) → (above k (low ++ k ∷ high) ≡ high) × (below k (low ++ k ∷ high) ≡ low) }
    ensures absent { (k : ℕ) (stack : List ℕ) → IsFalse (holds k stack) → (above k stack ≡ []) × (below k stack ≡ stack) }
{}
