//! The first of two records that name one place or one container, and the size of the bay that a record names.
ghost use Rattle.std.specs.Prelude.{◌≡◌, ◌==◌, IsTrue, IfOk, map, option_map, position};
ghost use Rattle.csv.specs.Records.{fields_of};
ghost use Rattle.crp_sizes.specs.Fields.{field_of, is_number, number_of};
ghost use Rattle.crp_jobs.specs.Firsts.{are_alike, first_like, first_words, name_one_container, name_one_place, names_bay, names_place, words_on_first};

use crate::commas::comma_list;
use crate::records::{first_records, record_with};
use crp_cert::push_decimal;
use crp_places::{line_at, record_at};
use crp_sizes::{bay_of, field, is_block, is_number, number_of};
use csv::ByteRecord;
use std::alloc::{AllocError, Global};

/// What two records may both name.
#[derive(Clone, Copy, Debug, PartialEq, Eq)]
pub(crate) enum Alike {
    /// A place.
    Place,
    /// A container.
    Container,
}

/// Whether a record names a bay.
pub(crate) fn names_bay(fields: &ByteRecord) -> bool
    ensures { result ≡ names_bay (fields_of fields.now) }
{
    let bay = field(fields, 1);
    is_block(field(fields, 0)) && (is_number(bay) && number_of(bay) > 0)
}

// Whether it names a place.
fn names_place(fields: &ByteRecord) -> bool
    ensures { result ≡ names_place (fields_of fields.now) }
{
    names_bay(fields) && (is_number(field(fields, 2)) && is_number(field(fields, 3)))
}

// Whether two records have one number in this field.
fn have_one_number(a: &ByteRecord, b: &ByteRecord, i: usize) -> bool
    requires first { IsTrue (is_number (field_of (fields_of a.now) i)) }
    requires second { IsTrue (is_number (field_of (fields_of b.now) i)) }
    ensures { result ≡ (number_of (field_of (fields_of a.now) i) == number_of (field_of (fields_of b.now) i)) }
{
    number_of(field(a, i)) == number_of(field(b, i))
}

// Whether two records name one place.
fn name_one_place(a: &ByteRecord, b: &ByteRecord) -> bool
    ensures { result ≡ name_one_place (fields_of a.now) (fields_of b.now) }
{
    (names_place(a) && names_place(b))
        && (bay_of(a) == bay_of(b) && (have_one_number(a, b, 2) && have_one_number(a, b, 3)))
}

// Whether two records name one container.
fn name_one_container(a: &ByteRecord, b: &ByteRecord) -> bool
    ensures { result ≡ name_one_container (fields_of a.now) (fields_of b.now) }
{
    field(a, 4) == field(b, 4)
}

// Whether two records are alike in this.
fn are_alike(how: Alike, a: &ByteRecord, b: &ByteRecord) -> bool
    ensures { result ≡ are_alike how (fields_of a.now) (fields_of b.now) }
{
    match how {
        Alike::Place => name_one_place(a, b),
        Alike::Container => name_one_container(a, b),
    }
}

// Which of the records is the first that is like this one, from 0.
fn position_like(how: Alike, fields: &ByteRecord, records: &[ByteRecord]) -> Option<usize>
    ensures { result ≡ position (λ other. are_alike how (fields_of fields.now) (fields_of other)) records.now }
{
    records
        .iter()
        .position(|other| are_alike(how, fields, other))
}

// The number of the first record behind the header, and before the one with this number, that is like that one.
fn first_like(how: Alike, records: &[ByteRecord], number: usize) -> Option<usize>
    ensures { result ≡ first_like how (map fields_of records.now) number }
{
    let Some(fields) = record_with(records, number) else {
        return None;
    };
    if number < 2 {
        return None;
    }
    match position_like(how, fields, &records[1..number - 1]) {
        Some(i) => Some(i + 2),
        None => None,
    }
}

/// The words on the first of two things of a kind, which stands in this line.
pub(crate) fn first_words(
    alloc: Global,
    what: &[u8],
    first: usize,
    line: usize,
) -> Result<Vec<u8>, AllocError>
    ensures { IfOk result (λ words. words.items ≡ first_words what.now first line) }
{
    let mut words = Vec::new(alloc);
    words.extend_from_slice(b", the first is ")?;
    words.extend_from_slice(what)?;
    push_decimal(&mut words, first)?;
    words.extend_from_slice(b" at line ")?;
    push_decimal(&mut words, line)?;
    Ok(words)
}

/// The words on the first record of a list with this byte between its fields that is like the one with this number, if there is one.
pub(crate) fn words_on_first(
    alloc: Global,
    how: Alike,
    separator: u8,
    text: &[u8],
    number: usize,
) -> Result<Option<Vec<u8>>, AllocError>
    ensures { IfOk result (λ words. option_map (λ w. w.items) words ≡ words_on_first how separator text.now number) }
{
    let list = comma_list(alloc, text, separator)?;
    let records = first_records(alloc, &list, number)?;
    let Some(first) = first_like(how, records.as_slice(), number) else {
        return Ok(None);
    };
    match record_at(text, separator, first) {
        Some(offset) => Ok(Some(first_words(alloc, b"record ", first, line_at(text, offset))?)),
        None => Ok(None),
    }
}
