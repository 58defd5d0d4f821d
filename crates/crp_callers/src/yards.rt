//! What the laws of yards say of one with two bays.

ghost use Rattle.std.specs.Prelude.{◌≡◌, ◌<◌, ◌≤◌, ◌↔◌, ℕ, List, [], ◌∷◌, codes, Some, None, slice_get};
ghost use Rattle.crp_yard.specs.declared.fault.YardFault.TheVariants.{PlaceTaken};
ghost use Rattle.crp_yard.specs.Places.{YardPlace};
ghost use Rattle.crp_yard.specs.Records.{Entry, entries_of, records_of};
ghost use Rattle.crp_yard.specs.Inventory.{Inventory, stack_up_to};
ghost use Rattle.crp_yard.specs.Reading.{IsYardListOf};
ghost use Rattle.crp_yard.specs.ByPlaces.{StandsAt, NamesFirst, FloatsFirst, NoneFloats};
ghost use Rattle.crp_yard.specs.Faults.{fault_at, first_fault};
ghost use Rattle.crp_yard.specs.Text.{yard_text};
ghost use Rattle.crp_yard.specs.After.{IsPlanForBay, IsAfter};
ghost use Rattle.crp_callers.specs.TwoBays.{sizes, bay, two_bays, with_empty_bay, first_record, stating, listed, placed, entries, two_float, twice_faulty, quoted_yard, quoted_text, plan_for_first, yard_left};

use crp_plan::{one_kind, path_decides};
use crp_yard::{
    each_stands_in_its_place, first_fault_is_least, floating_by_places, inventory_by_places,
    places_read_back, plans_leave_a_yard, text_reads_back,
};

/// What a list states stands in its yard, and nothing else. Of the two bays that it names the one that it names
/// first stands first. In every list without a fault the container of the second tier stands second in its row.
pub fn yard_of_a_list()
    ensures stands { (i : ℕ) (entry : Entry) → slice_get entries i ≡ Some entry → StandsAt two_bays entry.0 entry.1 }
    ensures stated { (place : YardPlace) (container : List ℕ) → StandsAt two_bays place container
        → (i : ℕ) × (slice_get entries i ≡ Some (place, container)) }
    ensures named { (i : ℕ) × NamesFirst entries (bay 2) i }
    ensures first_seen { (i j : ℕ) → NamesFirst entries (bay 1) i → NamesFirst entries (bay 2) j → i < j }
    ensures second { (records : List (List (List ℕ))) (i : ℕ) (container : List ℕ) → first_fault sizes records ≡ None
        → slice_get (entries_of records) i ≡ Some (placed 1 1 2 container)
        → slice_get (stack_up_to (entries_of records) (bay 1) 1 2) 1 ≡ Some container }
{
    inventory_by_places();
    each_stands_in_its_place();
}

/// Of two containers that stand on nothing the first one floats, and no other. In a list without a fault none
/// floats.
pub fn first_to_float()
    ensures first { FloatsFirst sizes two_float 3 }
    ensures one { (n : ℕ) → FloatsFirst sizes two_float n → n ≡ 3 }
    ensures none { NoneFloats sizes listed }
    ensures some { NoneFloats sizes two_float → ⊥ }
{
    floating_by_places();
}

/// Of two faulty records the first is stated, and before it stands none. Where no fault is stated, no record
/// is faulty.
pub fn first_faulty_record()
    ensures first { (i : ℕ) × (1 ≤ i) × (i ≤ 4) × (fault_at sizes twice_faulty i ≡ Some (PlaceTaken 3))
        × ((k : ℕ) → 1 ≤ k → k < i → fault_at sizes twice_faulty k ≡ None) }
    ensures none { (k : ℕ) → 1 ≤ k → k ≤ 6 → fault_at sizes listed k ≡ None }
{
    first_fault_is_least();
}

/// A name with a comma and a quote is written in quotes, and reads back.
pub fn quoted_name()
    ensures written { yard_text quoted_yard ≡ quoted_text }
    ensures read { records_of quoted_text ≡ first_record ∷ stating (codes "1") (codes "1") (codes "1") (codes "A,\"B") ∷ [] }
{
    text_reads_back();
}

/// A bay in which nothing stands is not written. The yard that is read lacks it, and all else stands where it
/// stood.
pub fn empty_bay()
    ensures read { IsYardListOf sizes (yard_text with_empty_bay) two_bays }
    ensures same { (place : YardPlace) (container : List ℕ)
        → StandsAt with_empty_bay place container ↔ StandsAt two_bays place container }
{
    text_reads_back();
    places_read_back();
}

/// A plan for a bay leaves the yard as one other: what it moves stands where it moves it, what it takes stands
/// nowhere, and the other bay is as it was.
pub fn yard_after_a_plan()
    ensures plan { IsPlanForBay two_bays plan_for_first }
    ensures left { (left : Inventory) × IsAfter two_bays (plan_for_first ∷ []) left }
    ensures one { (left : Inventory) → IsAfter two_bays (plan_for_first ∷ []) left → left ≡ yard_left }
{
    plans_leave_a_yard();
    path_decides();
    one_kind();
}
