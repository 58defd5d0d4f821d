//! Reads a yard list.

ghost use Rattle.std.specs.Prelude.{◌≡◌, ◌⊎◌, ◌≤◌, ℕ, List, Some, None, IfOk, OnOk, IfErr, length, replicate};
ghost use Rattle.std.specs.List.{AllByRecursion};
ghost use Rattle.crp_plan.specs.Devices.{TransfersAlone};
ghost use Rattle.crp_sizes.specs.Sizes.{one_size};
ghost use Rattle.crp_yard.specs.Inventory.{inventory_of};
ghost use Rattle.crp_yard.specs.Naming.{IsNamedBay};
ghost use Rattle.crp_yard.specs.Listings.{AreEntriesOf};
ghost use Rattle.crp_yard.specs.Faults.{floating_before, fault_of_text};
ghost use Rattle.crp_yard.specs.Reading.{IsYardList, IsYardListOf, IsTextOf, ReadingFailsWith, failures_of_yard};
ghost use Rattle.crp_yard.specs.declared.fault.YardFault.TheVariants.{Memory};

use crate::building::bays_of;
use crate::fault::YardFault;
use crate::floating::floating;
use crate::listing::Listing;
use crate::records::listing_of;
use crate::yard::Yard;
use crp_plan::{MAX_ROWS, ReadFault, Source, read_all};
use crp_sizes::{MAX_BYTES, Sizes};
use std::alloc::Global;

// All bays have so many rows with so many tiers.
fn all_of(alloc: Global, rows: u8, tiers: u8) -> Sizes
    requires some_rows { 1 ≤ rows }
    requires few_rows { rows ≤ 12 }
    requires some_tiers { 1 ≤ tiers }
    requires few_tiers { tiers ≤ 8 }
    ensures { result ≡ one_size (replicate rows tiers) }
{
    let heights = [tiers; MAX_ROWS];
    Sizes::of_heights(alloc, &heights[..rows as usize])
}

/// The yard that the entries give where none floats, and else the fault of the first that does.
fn yard_with(alloc: Global, listing: Listing, sizes: &Sizes) -> Result<Yard, YardFault>
    requires entries { (records : List (List (List ℕ))) × AreEntriesOf sizes.now records listing }
    ensures standing { OnOk result (floating_before listing (length listing) ≡ None) }
    ensures given { IfOk result (λ yard. yard ≡ inventory_of sizes.now listing) }
    ensures refused { IfErr result (λ fault. (fault ≡ Memory) ⊎ (floating_before listing (length listing) ≡ Some fault)) }
{
    match floating(&listing) {
        Some(fault) => return Err(fault),
        None => {}
    }
    let bays = bays_of(alloc, &listing, sizes)?;
    let sizes = sizes.copy(alloc)?;
    Ok(Yard::with_names(sizes, bays, listing.into_names()))
}

/// The yard that a list of records states, whose bays have these sizes, and else the first fault of the list.
pub fn yard_of_sizes(alloc: Global, text: &[u8], sizes: &Sizes) -> Result<Yard, YardFault>
    ensures accepted { IfOk result (λ yard. IsYardListOf sizes.now text.now yard) }
    ensures named { IfOk result (λ yard. AllByRecursion IsNamedBay yard.bays) }
    ensures refused { IfErr result (λ fault. (fault ≡ Memory) ⊎ (fault_of_text sizes.now text.now ≡ Some fault)) }
{
    if text.len() > MAX_BYTES {
        return Err(YardFault::TooLarge);
    }
    let listing = listing_of(alloc, text, sizes)?;
    yard_with(alloc, listing, sizes)
}

/// The same where each bay has so many rows, 1 to 12, and each row so many tiers, 1 to 8.
pub fn yard_of(alloc: Global, text: &[u8], rows: u8, tiers: u8) -> Result<Yard, YardFault>
    requires some_rows { 1 ≤ rows }
    requires few_rows { rows ≤ 12 }
    requires some_tiers { 1 ≤ tiers }
    requires few_tiers { tiers ≤ 8 }
    ensures accepted { IfOk result (λ yard. IsYardList rows tiers text.now yard) }
    ensures named { IfOk result (λ yard. AllByRecursion IsNamedBay yard.bays) }
    ensures refused { IfErr result (λ fault. (fault ≡ Memory) ⊎ (fault_of_text (one_size (replicate rows tiers)) text.now ≡ Some fault)) }
{
    yard_of_sizes(alloc, text, &all_of(alloc, rows, tiers))
}

/// The yard that a source states, whose bays have these sizes: all its bytes are read first. An interrupted
/// call is tried again, at most 1,000 times.
pub fn read_yard_sizes<R: Source>(
    alloc: Global,
    source: &mut R,
    sizes: &Sizes,
) -> Result<Yard, YardFault>
    ensures accepted { IfOk result (λ yard. (text : List ℕ) × IsTextOf (R.remaining source.old) text × IsYardListOf sizes.now text yard) }
    ensures named { IfOk result (λ yard. AllByRecursion IsNamedBay yard.bays) }
    ensures refused { IfErr result (ReadingFailsWith sizes.now (R.remaining source.old) (R.failures source.old) (R.failures source.new)) }
    ensures done { OnOk result (TransfersAlone 0 (R.failures source.old) (R.failures source.new) (R.interrupted source.old) (R.interrupted source.new)) }
    ensures ended { IfErr result (λ fault. TransfersAlone (failures_of_yard fault) (R.failures source.old) (R.failures source.new) (R.interrupted source.old) (R.interrupted source.new)) }
{
    let mut interruptions = 0;
    match read_all(alloc, source, MAX_BYTES, &mut interruptions) {
        Ok(text) => yard_of_sizes(alloc, &text, sizes),
        Err(ReadFault::Failed) => Err(YardFault::Read),
        Err(ReadFault::TooLarge) => Err(YardFault::TooLarge),
        Err(ReadFault::Memory) => Err(YardFault::Memory),
    }
}

/// The same where each bay has so many rows, 1 to 12, and each row so many tiers, 1 to 8.
pub fn read_yard<R: Source>(
    alloc: Global,
    source: &mut R,
    rows: u8,
    tiers: u8,
) -> Result<Yard, YardFault>
    requires some_rows { 1 ≤ rows }
    requires few_rows { rows ≤ 12 }
    requires some_tiers { 1 ≤ tiers }
    requires few_tiers { tiers ≤ 8 }
    ensures accepted { IfOk result (λ yard. (text : List ℕ) × IsTextOf (R.remaining source.old) text × IsYardList rows tiers text yard) }
    ensures named { IfOk result (λ yard. AllByRecursion IsNamedBay yard.bays) }
    ensures refused { IfErr result (ReadingFailsWith (one_size (replicate rows tiers)) (R.remaining source.old) (R.failures source.old) (R.failures source.new)) }
    ensures done { OnOk result (TransfersAlone 0 (R.failures source.old) (R.failures source.new) (R.interrupted source.old) (R.interrupted source.new)) }
    ensures ended { IfErr result (λ fault. TransfersAlone (failures_of_yard fault) (R.failures source.old) (R.failures source.new) (R.interrupted source.old) (R.interrupted source.new)) }
{
    read_yard_sizes(alloc, source, &all_of(alloc, rows, tiers))
}
