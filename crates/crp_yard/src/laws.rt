//! Laws of the definitions. Each is the contract of a function that does nothing.

ghost use Rattle.std.specs.Prelude.{◌≡◌, ◌<◌, ◌≤◌, ◌-◌, ◌↔◌, ℕ, List, All, Some, None, slice_get};
ghost use Rattle.crp_plan.specs.BayNames.{IsYardBay};
ghost use Rattle.crp_sizes.specs.Sizes.{YardSizes, heights_at};
ghost use Rattle.crp_yard.specs.declared.bay_plan.BayPlan.{BayPlan};
ghost use Rattle.crp_yard.specs.declared.fault.YardFault.{YardFault};
ghost use Rattle.crp_yard.specs.declared.fault.YardFault.TheVariants.{Floating};
ghost use Rattle.crp_yard.specs.Records.{Entry, height_of, records_of, entries_of};
ghost use Rattle.crp_yard.specs.Inventory.{Inventory, IsYard, stack_up_to, inventory_of};
ghost use Rattle.crp_yard.specs.Places.{YardPlace};
ghost use Rattle.crp_yard.specs.Reading.{IsYardListOf};
ghost use Rattle.crp_yard.specs.ByPlaces.{StandsAt, HasEntries, FloatsFirst, NoneFloats};
ghost use Rattle.crp_yard.specs.Faults.{fault_at, first_fault_up_to, first_fault};
ghost use Rattle.crp_yard.specs.Text.{records_of_yard, yard_text};
ghost use Rattle.crp_yard.specs.After.{IsCompletePlan, IsAfter};

/// What is written of a yard reads back: csv gives the header, and then the record of each container.
pub fn text_reads_back()
    ensures { (yard : Inventory) → records_of (yard_text yard) ≡ records_of_yard yard.bays }
{}

/// Where what is written of a yard is read without a fault, each container stands where it stood, and no other
/// stands anywhere.
pub fn places_read_back()
    ensures { (yard read : Inventory) (sizes : YardSizes)
        → IsYard yard → All (λ bay. IsYardBay bay.0) yard.bays → IsYardListOf sizes (yard_text yard) read
        → (place : YardPlace) (container : List ℕ) → StandsAt yard place container ↔ StandsAt read place container }
{}

/// The first fault up to a record is that of a record before which none is faulty; and where there is no
/// first fault, no record is faulty.
pub fn first_fault_is_least()
    ensures faulty { (sizes : YardSizes) (records : List (List (List ℕ))) (n : ℕ) (fault : YardFault)
        → first_fault_up_to sizes records n ≡ Some fault
        → (i : ℕ) × (1 ≤ i) × (i ≤ n) × (fault_at sizes records i ≡ Some fault)
        × ((k : ℕ) → 1 ≤ k → k < i → fault_at sizes records k ≡ None) }
    ensures faultless { (sizes : YardSizes) (records : List (List (List ℕ))) (n : ℕ)
        → first_fault_up_to sizes records n ≡ None
        → (k : ℕ) → 1 ≤ k → k ≤ n → fault_at sizes records k ≡ None }
{}

/// A floating container is stated of a record exactly where no record has a fault by what it and those before
/// it say, and this is the first that stands on nothing; and no fault is stated exactly where none of them has
/// such a fault and each container stands on something.
pub fn floating_by_places()
    ensures first { (sizes : YardSizes) (records : List (List (List ℕ))) (n : ℕ)
        → (first_fault sizes records ≡ Some (Floating n)) ↔ FloatsFirst sizes records n }
    ensures none { (sizes : YardSizes) (records : List (List (List ℕ)))
        → (first_fault sizes records ≡ None) ↔ NoneFloats sizes records }
{}

/// Where the records have no fault, what each of them says is so: its container stands in its stack at its
/// tier.
pub fn each_stands_in_its_place()
    ensures { (sizes : YardSizes) (records : List (List (List ℕ))) (i : ℕ) (entry : Entry)
        → first_fault sizes records ≡ None → slice_get (entries_of records) i ≡ Some entry
        → slice_get (stack_up_to (entries_of records) entry.0.bay entry.0.row (height_of (heights_at sizes entry.0.bay) entry.0.row)) (entry.0.tier - 1) ≡ Some entry.1 }
{}

/// Where the records have no fault, the inventory that they give has what they say, and nothing else: what a
/// record says stands there, and what stands there some record says.
pub fn inventory_by_places()
    ensures { (sizes : YardSizes) (records : List (List (List ℕ)))
        → first_fault sizes records ≡ None → HasEntries (entries_of records) (inventory_of sizes (entries_of records)) }
{}

/// Complete plans leave a yard as some other.
pub fn plans_leave_a_yard()
    ensures { (yard : Inventory) (plans : List BayPlan) → All IsCompletePlan plans → (left : Inventory) × IsAfter yard plans left }
{}
