//! The records of a text.
ghost use Rattle.std.specs.Prelude.{◌≡◌, ◌≤◌, IfOk, IfSome, length, map, option_map, take};
ghost use Rattle.csv.specs.Records.{fields_of};
ghost use Rattle.crp_sizes.specs.Fields.{records_of};
ghost use Rattle.crp_jobs.specs.Firsts.{record_with};

use crp_sizes::rows_of;
use csv::ByteRecord;
use std::alloc::{AllocError, Global};

/// The first records of a text, at most so many, as csv reads it by its defaults.
pub(crate) fn first_records(
    alloc: Global,
    text: &[u8],
    most: usize,
) -> Result<Vec<ByteRecord>, AllocError>
    ensures { IfOk result (λ records. map fields_of records.items ≡ take most (records_of text.now)) }
{
    let mut rows = rows_of(alloc, text);
    let mut records = Vec::new(alloc);
    for _ in 0..most {
        match rows.next() {
            Some(Ok(fields)) => records.push(fields)?,
            Some(Err(_)) => return Err(AllocError),
            None => return Ok(records),
        }
    }
    Ok(records)
}

/// The record with this number, from 1, if there is one.
pub(crate) fn record_with(records: &[ByteRecord], number: usize) -> Option<&ByteRecord>
    ensures there { option_map (λ r. fields_of r.now) result ≡ record_with (map fields_of records.now) number }
    ensures within { IfSome result (λ _. number ≤ length records.now) }
{
    if number == 0 || records.len() < number {
        return None;
    }
    Some(&records[number - 1])
}
