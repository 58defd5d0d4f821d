//! The size of the bay that a record names, in words.
ghost use Rattle.std.specs.Prelude.{◌≡◌, ◌≤◌, ◌++◌, [], IfOk, OnOk, All, length, option_map};
ghost use Rattle.csv.specs.Records.{fields_of};
ghost use Rattle.crp_plan.specs.Faults.{AreHeights};
ghost use Rattle.crp_sizes.specs.Heights.{CanBeHeights, behind_points, heights_text};
ghost use Rattle.crp_jobs.specs.Firsts.{bay_words, counted, heights_words, is_even, words_on_bay, words_on_fields};

use crate::firsts::names_bay;
use crate::records::{first_records, record_with};
use crp_cert::push_decimal;
use crp_plan::BayName;
use crp_sizes::{Sizes, bay_of};
use csv::ByteRecord;
use std::alloc::{AllocError, Global};

/// Adds a number of things: one of them, or several.
pub(crate) fn push_counted(
    words: &mut Vec<u8>,
    number: usize,
    one: &[u8],
    several: &[u8],
) -> Result<(), AllocError>
    ensures { OnOk result (words.new.items ≡ words.old.items ++ counted number one.now several.now) }
{
    push_decimal(words, number)?;
    words.extend_from_slice(if number == 1 { one } else { several })?;
    Ok(())
}

// Whether all rows have the height of the first.
fn is_even(heights: &[u8]) -> bool
    ensures { result ≡ is_even heights.now }
{
    let first = match heights.first() {
        Some(height) => *height,
        None => 0,
    };
    heights.iter().all(|height| *height == first)
}

// Adds the digits of heights, each behind a point.
fn push_behind_points(words: &mut Vec<u8>, heights: &[u8]) -> Result<(), AllocError>
    requires { All (λ h. h ≤ 8) heights.now }
    ensures { OnOk result (words.new.items ≡ words.old.items ++ behind_points heights.now) }
{
    for height in heights {
        words.push(b'.')?;
        words.push(b'0' + *height)?;
    }
    Ok(())
}

// Adds the digits of heights, joined by points.
fn push_heights(words: &mut Vec<u8>, heights: &[u8]) -> Result<(), AllocError>
    requires { All (λ h. h ≤ 8) heights.now }
    ensures { OnOk result (words.new.items ≡ words.old.items ++ heights_text heights.now) }
{
    match heights {
        [] => Ok(()),
        [first, rest @ ..] => {
            words.push(b'0' + *first)?;
            push_behind_points(words, rest)
        }
    }
}

// Adds the words on heights of rows.
fn push_heights_words(words: &mut Vec<u8>, heights: &[u8]) -> Result<(), AllocError>
    requires { CanBeHeights heights.now }
    ensures { OnOk result (words.new.items ≡ words.old.items ++ heights_words heights.now) }
{
    if is_even(heights) {
        push_counted(words, heights.len(), b" row of ", b" rows of ")?;
        return push_counted(words, usize::from(heights[0]), b" tier", b" tiers");
    }
    words.extend_from_slice(b"heights ")?;
    push_heights(words, heights)
}

// The words on the size of a bay.
fn bay_words(alloc: Global, bay: &BayName, heights: &[u8]) -> Result<Vec<u8>, AllocError>
    requires { CanBeHeights heights.now }
    ensures { IfOk result (λ words. words.items ≡ bay_words bay.now heights.now) }
{
    let mut words = Vec::new(alloc);
    words.extend_from_slice(b", bay ")?;
    words.extend_from_slice(bay.block())?;
    words.extend_from_slice(b" ")?;
    push_decimal(&mut words, bay.bay())?;
    words.extend_from_slice(b" has ")?;
    push_heights_words(&mut words, heights)?;
    Ok(words)
}

// The words on the size of the bay that a record names, if it names one.
fn words_on_fields(
    alloc: Global,
    sizes: &Sizes,
    fields: &ByteRecord,
) -> Result<Option<Vec<u8>>, AllocError>
    ensures { IfOk result (λ words. option_map (λ w. w.items) words ≡ words_on_fields sizes.now (fields_of fields.now)) }
{
    if !names_bay(fields) {
        return Ok(None);
    }
    let bay = bay_of(fields);
    Ok(Some(bay_words(alloc, &bay, sizes.heights_at(&bay))?))
}

/// The words on the size of the bay that the record with this number names, where there is such a record.
pub(crate) fn words_on_bay(
    alloc: Global,
    sizes: &Sizes,
    text: &[u8],
    number: usize,
) -> Result<Option<Vec<u8>>, AllocError>
    ensures { IfOk result (λ words. option_map (λ w. w.items) words ≡ words_on_bay sizes.now text.now number) }
{
    let records = first_records(alloc, text, number)?;
    match record_with(records.as_slice(), number) {
        Some(fields) => words_on_fields(alloc, sizes, fields),
        None => Ok(None),
    }
}
