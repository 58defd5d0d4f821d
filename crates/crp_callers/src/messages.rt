//! What the laws of load messages say of one with two orders.

ghost use Rattle.std.specs.Prelude.{◌≡◌, ◌<◌, ℕ, List, [], ◌∷◌, false, Some, None, length, map};
ghost use Rattle.crp_movins.specs.declared.order.Order.{Order};
ghost use Rattle.crp_movins.specs.declared.fault.MovinsFault.TheVariants.{SlotNumber};
ghost use Rattle.crp_movins.specs.Kinds.{settles_code};
ghost use Rattle.crp_movins.specs.Places.{kind_at};
ghost use Rattle.crp_movins.specs.Faults.{fault_at};
ghost use Rattle.crp_movins.specs.ByPlaces.{IsLast, IsOrdered, AreOrdered, AreVacant};
ghost use Rattle.crp_callers.specs.TwoOrders.{loading, of_another, two_orders, two_faults, upper, lower};

use crp_movins::{
    first_fault_is_least, last_is_last, orders_by_places, orders_stand_by_place, vacant_by_places,
};

/// A segment orders its container to the slot of the group in which it stands, and nothing else. One under
/// another handling code orders nothing, and none does where another message is read.
pub fn orders_of_segments()
    ensures upper { IsOrdered two_orders loading 6 upper }
    ensures lower { IsOrdered two_orders loading 9 lower }
    ensures nothing_else { (order : Order) → IsOrdered two_orders loading 9 order → order ≡ lower }
    ensures nothing { (order : Order) → IsOrdered two_orders loading 12 order → ⊥ }
    ensures unread { (order : Order) → IsOrdered two_orders of_another 6 order → ⊥ }
{
    orders_by_places();
}

/// Some list has the segments that order, each with its order, and each such list has these two orders, as
/// they are listed.
pub fn orders_as_listed()
    ensures listed { (placed : List (ℕ × Order)) × AreOrdered two_orders loading placed }
    ensures two { (placed : List (ℕ × Order)) → AreOrdered two_orders loading placed
        → map (λ p. p.1) placed ≡ upper ∷ lower ∷ [] }
{
    orders_stand_by_place();
}

/// Some list has the vacant groups, and each such list has one.
pub fn groups_without_container()
    ensures listed { (groups : List ℕ) × AreVacant two_orders loading groups }
    ensures one { (groups : List ℕ) → AreVacant two_orders loading groups → length groups ≡ 1 }
{
    vacant_by_places();
}

/// At the UNT the second HAN settles the handling code. Before the UNH nothing does.
pub fn handling_in_force()
    ensures last { IsLast settles_code two_orders 13 10 }
    ensures none { (k : ℕ) → k < 2 → settles_code (kind_at two_orders k) ≡ false }
{
    last_is_last();
}

/// Of two faulty segments the first is stated, and before it stands none. Where no fault is stated, no segment
/// is faulty.
pub fn first_faulty_segment()
    ensures first { (i : ℕ) × (i < 15) × (fault_at two_faults loading i ≡ Some (SlotNumber 7))
        × ((k : ℕ) → k < i → fault_at two_faults loading k ≡ None) }
    ensures none { (k : ℕ) → k < 15 → fault_at two_orders loading k ≡ None }
{
    first_fault_is_least();
}
