//! Laws of the definitions. Each is the contract of a function that does nothing.

ghost use Rattle.std.specs.Prelude.{◌≡◌, ◌<◌, ℕ, List, Bool, true, false, Some, None, length, map};
ghost use Rattle.edi_text.specs.Parts.{SegmentParts};
ghost use Rattle.crp_movins.specs.Loading.{Loading};
ghost use Rattle.crp_movins.specs.Places.{kind_at, last_before};
ghost use Rattle.crp_movins.specs.LoadOrders.{order_at, load_orders_of};
ghost use Rattle.crp_movins.specs.ByPlaces.{IsOrdered, AreOrdered, AreVacant};
ghost use Rattle.crp_movins.specs.Faults.{fault_at, first_fault_before};
ghost use Rattle.crp_movins.specs.declared.order.Order.{Order};
ghost use Rattle.crp_movins.specs.declared.fault.MovinsFault.{MovinsFault};
ghost use Rattle.crp_movins.specs.declared.kind.Kind.{Kind};

/// The first fault is that of a segment before which none is faulty; and where there is no first fault,
/// no segment is faulty.
pub fn first_fault_is_least()
    ensures faulty { (segments : List SegmentParts) (loading : Loading) (n : ℕ) (fault : MovinsFault)
        → first_fault_before segments loading n ≡ Some fault
        → (i : ℕ) × (i < n) × (fault_at segments loading i ≡ Some fault)
        × ((k : ℕ) → k < i → fault_at segments loading k ≡ None) }
    ensures faultless { (segments : List SegmentParts) (loading : Loading) (n : ℕ)
        → first_fault_before segments loading n ≡ None
        → (k : ℕ) → k < n → fault_at segments loading k ≡ None }
{}

/// The last segment of some kind before a place is of that kind, and none between is; and where there
/// is no last, none is.
pub fn last_is_last()
    ensures found { (test : Kind → Bool) (segments : List SegmentParts) (n j : ℕ)
        → last_before test segments n ≡ Some j
        → (j < n) × (test (kind_at segments j) ≡ true)
        × ((k : ℕ) → j < k → k < n → test (kind_at segments k) ≡ false) }
    ensures none { (test : Kind → Bool) (segments : List SegmentParts) (n : ℕ)
        → last_before test segments n ≡ None
        → (k : ℕ) → k < n → test (kind_at segments k) ≡ false }
{}

/// The order of a segment, as it is computed, is what the relation of places says, and the other way
/// round.
pub fn orders_by_places()
    ensures means { (segments : List SegmentParts) (loading : Loading) (i : ℕ) (order : Order)
        → order_at segments loading i ≡ Some order → IsOrdered segments loading i order }
    ensures given { (segments : List SegmentParts) (loading : Loading) (i : ℕ) (order : Order)
        → IsOrdered segments loading i order → order_at segments loading i ≡ Some order }
{}

/// The orders stand by the places of the segments that give them: one list, and no other, has each segment
/// that orders, once and by its number, with its order, and of nothing else; and its orders are those of the
/// message.
pub fn orders_stand_by_place()
    ensures placed { (segments : List SegmentParts) (loading : Loading)
        → (placed : List (ℕ × Order)) × AreOrdered segments loading placed
        × ((load_orders_of segments loading).list ≡ map (λ p. p.1) placed) }
    ensures one_list { (segments : List SegmentParts) (loading : Loading) (placed others : List (ℕ × Order))
        → AreOrdered segments loading placed → AreOrdered segments loading others → placed ≡ others }
{}

/// As many vacant groups are counted as there are by the relation of places: one list, and no other, has
/// the number of each vacant group, once, and of nothing else, and it is as long as the count.
pub fn vacant_by_places()
    ensures counted { (segments : List SegmentParts) (loading : Loading)
        → (groups : List ℕ) × AreVacant segments loading groups × ((load_orders_of segments loading).vacant ≡ length groups) }
    ensures one_list { (segments : List SegmentParts) (loading : Loading) (groups others : List ℕ)
        → AreVacant segments loading groups → AreVacant segments loading others → groups ≡ others }
{}
