//! Laws of the definitions. Each is the contract of a function that does nothing.

ghost use Rattle.std.specs.Prelude.{◌≡◌, ◌<◌, [], ℕ, List, Some, slice_get, filter};
ghost use Rattle.crp_plan.specs.BayNames.{YardBay};
ghost use Rattle.crp_movins.specs.declared.order.Order.{Order};
ghost use Rattle.crp_order.specs.declared.sequences.Mode.{Mode};
ghost use Rattle.crp_order.specs.declared.sequences.Mode.TheVariants.{Stowage};
ghost use Rattle.crp_sizes.specs.Sizes.{heights_at};
ghost use Rattle.crp_yard.specs.Inventory.{Inventory, StackedBay, IsYard};
ghost use Rattle.crp_order.specs.Slots.{IsBeneath};
ghost use Rattle.crp_order.specs.Sequences.{IsSequence};
ghost use Rattle.crp_order.specs.Sequenced.{AreSequenced};
ghost use Rattle.crp_order.specs.BayProblems.{problem_of, problems_of, absent_of};
ghost use Rattle.crp_order.specs.OfBays.{is_chosen, of_bays, IsSequenceOf};
ghost use Rattle.crp_order.specs.ByRank.{AreRanked};

/// By stowage a container comes before those above it: of two orders, where the slot of one is beneath
/// that of the other, its container has a place in the sequence before that of the other.
pub fn beneath_comes_first()
    ensures { (orders : List Order) (containers : List (List ℕ)) (i j : ℕ) (a b : Order)
        → IsSequence Stowage orders containers
        → slice_get orders i ≡ Some a → slice_get orders j ≡ Some b → IsBeneath a.slot b.slot
        → (k : ℕ) × (l : ℕ) × (k < l) × (slice_get containers k ≡ Some a.container)
        × (slice_get containers l ≡ Some b.container) }
{}

/// The orders have one sequence.
pub fn one_sequence()
    ensures { (mode : Mode) (orders : List Order) (first second : List (List ℕ))
        → IsSequence mode orders first → IsSequence mode orders second → first ≡ second }
{}

/// In the problem of each bay of a yard the containers of the sequence have the first ranks, in its order,
/// and those that stay have the ranks behind, by row, then tier.
pub fn ranks_by_places()
    ensures { (yard : Inventory) (sequence : List (List ℕ)) (number : ℕ) (bay : StackedBay)
        → IsYard yard → AreSequenced sequence → slice_get yard.bays number ≡ Some bay
        → AreRanked sequence bay.1 (problem_of (heights_at yard.sizes bay.0) sequence bay.1) }
{}

/// A run for some bays states the problems of those bays as a run for all does, in the same order.
pub fn problems_of_named_bays()
    ensures { (names : List YardBay) (yard : Inventory) (sequence : List (List ℕ)) → IsYard yard
        → problems_of yard (of_bays names yard sequence)
        ≡ filter (λ made. is_chosen names made.bay) (problems_of yard sequence) }
{}

/// A run for some bays counts the absent containers as a run for all does, and one with no bay named is for all.
pub fn absent_in_named_bays()
    ensures absent { (names : List YardBay) (yard : Inventory) (sequence : List (List ℕ))
        → absent_of yard (of_bays names yard sequence) ≡ absent_of yard sequence }
    ensures all { (yard : Inventory) (sequence : List (List ℕ)) → of_bays [] yard sequence ≡ sequence }
{}

/// The orders have one sequence of some bays of the yard.
pub fn one_sequence_of_bays()
    ensures { (mode : Mode) (names : List YardBay) (yard : Inventory) (orders : List Order) (first second : List (List ℕ))
        → IsSequenceOf mode names yard orders first → IsSequenceOf mode names yard orders second → first ≡ second }
{}
