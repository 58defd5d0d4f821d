//! Reads the records of a yard list, from the first to the last.

ghost use Rattle.std.specs.Prelude.{◌≡◌, ◌⊎◌, ◌<◌, ◌≤◌, ◌+◌, false, Some, None, IfOk, OnOk, IfErr, length, max};
ghost use Rattle.csv.specs.Records.{fields_of};
ghost use Rattle.crp_yard.specs.Records.{records_of, place_named, field_of, entries_of};
ghost use Rattle.crp_yard.specs.Faults.{max_containers, is_taken, is_named, fault_of, fault_behind, first_fault_up_to, first_fault};
ghost use Rattle.crp_yard.specs.Listings.{entries_behind};
ghost use Rattle.crp_yard.specs.declared.fault.YardFault.TheVariants.{Memory};

use crate::fault::YardFault;
use crate::fields::{has_numbers, is_header, is_well_formed, is_within, place_of};
use crate::listing::Listing;
use crate::place::Place;
use crp_sizes::{Sizes, bay_of, field, rows_of};
use csv::ByteRecord;
use std::alloc::Global;

/// More containers are not read.
pub const MAX_CONTAINERS: usize = 20000;

/// The place that the record with this number names, or its fault behind what the records before it say.
#[tactic(auto, unfolding(crate::specs::Faults::fault_of))]
fn accepted_place(
    listing: &Listing,
    fields: &ByteRecord,
    sizes: &Sizes,
    number: usize,
) -> Result<Place, YardFault>
    ensures faultless { OnOk result (fault_of sizes.now listing.now number (fields_of fields.now) ≡ None) }
    ensures place { IfOk result (λ place. place ≡ place_named (fields_of fields.now)) }
    ensures free { IfOk result (λ place. is_taken listing.now place ≡ false) }
    ensures fresh { OnOk result (is_named listing.now (field_of (fields_of fields.now) 4) ≡ false) }
    ensures room { OnOk result (length listing.now < max_containers) }
    ensures refused { IfErr result (λ fault. fault_of sizes.now listing.now number (fields_of fields.now) ≡ Some fault) }
{
    if !is_well_formed(fields) {
        return Err(YardFault::Fields { record: number });
    }
    if !has_numbers(fields) {
        return Err(YardFault::Digits { record: number });
    }
    let bay = bay_of(fields);
    let heights = sizes.heights_at(&bay);
    if !is_within(fields, heights) {
        return Err(YardFault::Outside { record: number });
    }
    let place = place_of(fields, heights);
    if listing.is_taken(&place) {
        return Err(YardFault::PlaceTaken { record: number });
    }
    if listing.is_named(field(fields, 4)) {
        return Err(YardFault::StandsAlready { record: number });
    }
    if listing.len() >= MAX_CONTAINERS {
        return Err(YardFault::TooMany { record: number });
    }
    Ok(place)
}

/// Takes the record with this number, from 1. The first is the header.
#[tactic(auto, unfolding(crate::specs::Faults::fault_behind, crate::specs::Records::entry_of))]
fn take(
    alloc: Global,
    listing: &mut Listing,
    fields: &ByteRecord,
    sizes: &Sizes,
    number: usize,
) -> Result<(), YardFault>
    requires room { length listing.old ≤ max_containers }
    ensures few { OnOk result (length listing.new ≤ max_containers) }
    ensures faultless { OnOk result (fault_behind sizes.now listing.old number (fields_of fields.now) ≡ None) }
    ensures taken { OnOk result (listing.new ≡ entries_behind listing.old number (fields_of fields.now)) }
    ensures refused { IfErr result (λ fault. (fault ≡ Memory)
        ⊎ (fault_behind sizes.now listing.old number (fields_of fields.now) ≡ Some fault)) }
{
    if number == 1 {
        if is_header(fields) {
            return Ok(());
        }
        return Err(YardFault::Header { record: 1 });
    }
    let place = accepted_place(listing, fields, sizes, number)?;
    listing.push(alloc, place, field(fields, 4))?;
    Ok(())
}

/// What the records of a text say, where none is faulty but by floating.
pub(crate) fn listing_of(alloc: Global, text: &[u8], sizes: &Sizes) -> Result<Listing, YardFault>
    ensures faultless { OnOk result (first_fault_up_to sizes.now (records_of text.now) (max 1 (length (records_of text.now))) ≡ None) }
    ensures said { IfOk result (λ listing. listing ≡ entries_of (records_of text.now)) }
    ensures refused { IfErr result (λ fault. (fault ≡ Memory)
        ⊎ (first_fault sizes.now (records_of text.now) ≡ Some fault)) }
{
    let mut listing = Listing::new(alloc);
    let mut number = 0;
    for row in rows_of(alloc, text) {
        let Ok(fields) = row else {
            return Err(YardFault::Memory);
        };
        number += 1;
        take(alloc, &mut listing, &fields, sizes, number)?;
    }
    if number == 0 {
        return Err(YardFault::Header { record: 1 });
    }
    Ok(listing)
}
