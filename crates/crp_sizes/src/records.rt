//! Reads the records of a list of sizes, from the first to the last.

ghost use Rattle.std.specs.Prelude.{◌≡◌, ◌⊎◌, ◌+◌, ◌++◌, ◌∷◌, [], List, ℕ, None, IfOk, OnOk, IfErr, length, map};
ghost use Rattle.std.specs.List.{IsDistinct};
ghost use Rattle.csv.specs.Records.{fields_of};
ghost use Rattle.crp_plan.specs.BayNames.{same_bay};
ghost use Rattle.crp_sizes.specs.Fields.{records_of};
ghost use Rattle.crp_sizes.specs.Heights.{CanBeHeights};
ghost use Rattle.crp_sizes.specs.Sizes.{BaySize, heights_of};
ghost use Rattle.crp_sizes.specs.Records.{GivesSize, AreListed};
ghost use Rattle.crp_sizes.specs.Faults.{IsFault, IsFaultIn};
ghost use Rattle.crp_sizes.specs.declared.fault.SizesFault.TheVariants.{Memory};

use crate::fault::SizesFault;
use crate::fields::{bay_of, field, has_number, is_header, is_well_formed};
use crate::heights::heights_in;
use crate::row_heights::RowHeights;
use crate::rows::rows_of;
use crate::sizes::Sizes;
use csv::ByteRecord;
use std::alloc::Global;

/// Takes the size that the next record behind those of the sizes gives, or says its fault.
fn take(sizes: &mut Sizes, fields: &ByteRecord) -> Result<(), SizesFault>
    ensures taken { OnOk result ((size : BaySize) × GivesSize (fields_of fields.now) size × (heights_of sizes.old.listed size.0 ≡ None) × (sizes.new.listed ≡ sizes.old.listed ++ size ∷ [])) }
    ensures common { OnOk result (sizes.new.common ≡ sizes.old.common) }
    ensures once { OnOk result (IsDistinct same_bay (map (λ size. size.0) sizes.new.listed)) }
    ensures refused { IfErr result (λ fault. (fault ≡ Memory) ⊎ IsFault sizes.old.listed (fields_of fields.now) (length sizes.old.listed + 2) fault) }
{
    let record = sizes.len() + 2;
    if !is_well_formed(fields) {
        return Err(SizesFault::Fields { record });
    }
    if !has_number(fields) {
        return Err(SizesFault::Digits { record });
    }
    let Some(heights) = heights_in(field(fields, 2)) else {
        return Err(SizesFault::Heights { record });
    };
    let bay = bay_of(fields);
    match sizes.heights_of(&bay) {
        Some(_) => return Err(SizesFault::Twice { record }),
        None => {}
    }
    sizes.push(bay, RowHeights::new(heights))?;
    Ok(())
}

/// The sizes that the records of a text give, with the common ones, and else the first fault of the records.
pub(crate) fn listed_in(alloc: Global, text: &[u8], common: &[u8]) -> Result<Sizes, SizesFault>
    requires { CanBeHeights common.now }
    ensures common { IfOk result (λ sizes. sizes.common ≡ common.now) }
    ensures accepted { IfOk result (λ sizes. AreListed (records_of text.now) sizes.listed) }
    ensures refused { IfErr result (λ fault. (fault ≡ Memory) ⊎ IsFaultIn (records_of text.now) fault) }
{
    let mut rows = rows_of(alloc, text);
    match rows.next() {
        Some(Ok(fields)) => {
            if !is_header(&fields) {
                return Err(SizesFault::Header { record: 1 });
            }
        }
        Some(Err(_)) => return Err(SizesFault::Memory),
        None => return Err(SizesFault::Header { record: 1 }),
    }
    let mut sizes = Sizes::of_heights(alloc, common);
    for row in rows {
        let Ok(fields) = row else {
            return Err(SizesFault::Memory);
        };
        take(&mut sizes, &fields)?;
    }
    Ok(sizes)
}
