//! What the laws of sequences say of two orders, and which slots are apart.

ghost use Rattle.std.specs.Prelude.{◌≡◌, ◌<◌, ◌≤◌, ◌↔◌, ◌⊎◌, ℕ, List, [], ◌∷◌, codes, false, Some, IsTrue, slice_get};
ghost use Rattle.crp_yard.specs.Inventory.{is_among};
ghost use Rattle.crp_order.specs.Slots.{IsBeneath};
ghost use Rattle.crp_order.specs.Sequences.{IsSequence};
ghost use Rattle.crp_order.specs.declared.sequences.Mode.TheVariants.{Listed, Stowage};
ghost use Rattle.crp_order.specs.ByRank.{RankedContainer};
ghost use Rattle.crp_callers.specs.TwoOrders.{upper, lower, lower_first};
ghost use Rattle.crp_callers.specs.TwoBays.{first_bay, problem_of_first};

use crp_movins::Slot;
use crp_order::{beneath, beneath_comes_first, one_sequence, ranks_by_places};

/// By stowage LOWER leaves before UPPER, and there is no other sequence, though UPPER is listed before it. As they
/// are listed UPPER leaves first.
pub fn sequences_of_two_orders()
    ensures stowed { IsSequence Stowage (upper ∷ lower ∷ []) lower_first }
    ensures one_stowed { (containers : List (List ℕ)) → IsSequence Stowage (upper ∷ lower ∷ []) containers
        → containers ≡ lower_first }
    ensures one_listed { (containers : List (List ℕ)) → IsSequence Listed (upper ∷ lower ∷ []) containers
        → containers ≡ codes "UPPER" ∷ codes "LOWER" ∷ [] }
{
    one_sequence();
}

/// A bay of two cells lies over each of them: by stowage LOWER, which is beneath UPPER, has the earlier place.
pub fn beneath_two_cells()
    ensures beneath { IsBeneath lower.slot upper.slot }
    ensures earlier { (containers : List (List ℕ)) → IsSequence Stowage (upper ∷ lower ∷ []) containers
        → (k : ℕ) × (l : ℕ) × (k < l) × (slice_get containers k ≡ Some (codes "LOWER"))
        × (slice_get containers l ≡ Some (codes "UPPER")) }
{
    beneath_comes_first();
}

/// In the problem of a bay the two that leave have the first ranks, in their sequence. The two that stay have the
/// ranks behind, by row, then tier.
pub fn ranks_of_a_bay()
    ensures stays { (a : RankedContainer first_bay.1 problem_of_first) × (a.container ≡ codes "STAYS") × (a.rank ≡ 3) }
    ensures leave_first { (a : RankedContainer first_bay.1 problem_of_first) (i : ℕ)
        → slice_get lower_first i ≡ Some a.container → a.rank ≤ 2 }
    ensures in_sequence { (a b : RankedContainer first_bay.1 problem_of_first) (i j : ℕ)
        → slice_get lower_first i ≡ Some a.container → slice_get lower_first j ≡ Some b.container → i < j → a.rank < b.rank }
    ensures stay_behind { (a : RankedContainer first_bay.1 problem_of_first)
        → is_among lower_first a.container ≡ false → 2 < a.rank }
    ensures by_row_then_tier { (a b : RankedContainer first_bay.1 problem_of_first)
        → is_among lower_first a.container ≡ false → is_among lower_first b.container ≡ false
        → (a.row < b.row) ⊎ ((a.row ≡ b.row) × (a.tier < b.tier)) → a.rank < b.rank }
{
    ranks_by_places();
}

/// Whether neither slot is beneath the other, so that their containers may be loaded in any order.
pub fn are_apart(a: &Slot, b: &Slot) -> bool
    ensures { IsTrue result ↔ ((IsBeneath a.now b.now → ⊥) × (IsBeneath b.now a.now → ⊥)) }
{
    !beneath(a, b) && !beneath(b, a)
}
