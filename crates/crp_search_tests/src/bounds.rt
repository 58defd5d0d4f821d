ghost use Rattle.std.specs.Prelude.{◌≡◌, [], ◌∷◌};
ghost use Rattle.crp_plan.specs.Rows.{above, below};
ghost use Rattle.crp_bounds.specs.Bounds.{HasNoPlace};

use crp_bounds::words_mean;

/// In three rows of three tiers 4 has to make way for 1: on 2 and on 3 it would block again, on 6 it would not.
fn places_of_four()
    ensures no_place { HasNoPlace 4 0 (3 ∷ 3 ∷ 3 ∷ []) ((1 ∷ 4 ∷ []) ∷ (2 ∷ []) ∷ (3 ∷ []) ∷ []) 4 }
    ensures a_place { HasNoPlace 6 0 (3 ∷ 3 ∷ 3 ∷ []) ((1 ∷ 5 ∷ 4 ∷ []) ∷ (6 ∷ []) ∷ (3 ∷ 2 ∷ []) ∷ []) 4 → ⊥ }
    ensures cut { (above 4 (1 ∷ 4 ∷ []) ≡ []) × (below 4 (1 ∷ 4 ∷ []) ≡ 1 ∷ []) }
{
    words_mean();
}

#[test]
fn laws_of_places(_rt: HostRuntime) {
    places_of_four();
}
