//! The fields of a record.

ghost use Rattle.std.specs.Prelude.{◌≡◌, ◌≤◌, ◌&&◌, nat_le, length, IsTrue};
ghost use Rattle.std.specs.List.{list_all};
ghost use Rattle.csv.specs.Records.{fields_of};
ghost use Rattle.crp_yard.specs.Records.{is_header, is_container, is_well_formed, has_numbers, is_within, place_named};

use crate::place::Place;
use crp_sizes::{bay_of, field, is_block, is_number, number_of};
use csv::ByteRecord;

/// The fields are `block,bay,row,tier,container`.
pub(crate) fn is_header(fields: &ByteRecord) -> bool
    ensures { result ≡ is_header (fields_of fields.now) }
{
    fields.len() == 5
        && (field(fields, 0) == b"block".as_slice() && field(fields, 1) == b"bay".as_slice())
        && (field(fields, 2) == b"row".as_slice()
            && (field(fields, 3) == b"tier".as_slice()
                && field(fields, 4) == b"container".as_slice()))
}

fn is_container(bytes: &[u8]) -> bool
    ensures { result ≡ is_container bytes.now }
{
    !bytes.is_empty() && bytes.len() <= 35 && have_no_controls(bytes)
}

fn have_no_controls(bytes: &[u8]) -> bool
    ensures { result ≡ list_all (λ b. nat_le 32 b) bytes.now }
{
    bytes.iter().all(|b| *b >= 32)
}

/// There are five fields, of which the first is a block and the last a container.
pub(crate) fn is_well_formed(fields: &ByteRecord) -> bool
    ensures { result ≡ is_well_formed (fields_of fields.now) }
{
    fields.len() == 5 && is_block(field(fields, 0)) && is_container(field(fields, 4))
}

/// Bay, row and tier are numbers, and the bay is not 0.
pub(crate) fn has_numbers(fields: &ByteRecord) -> bool
    ensures { result ≡ has_numbers (fields_of fields.now) }
{
    let (bay, row, tier) = (field(fields, 1), field(fields, 2), field(fields, 3));
    is_number(bay) && is_number(row) && is_number(tier) && number_of(bay) > 0
}

/// The row is among those that the bays have, and the tier among those of the row.
pub(crate) fn is_within(fields: &ByteRecord, heights: &[u8]) -> bool
    requires { IsTrue (has_numbers (fields_of fields.now)) }
    ensures { result ≡ is_within heights.now (place_named (fields_of fields.now)) }
{
    let (row, tier) = (number_of(field(fields, 2)), number_of(field(fields, 3)));
    let row = row as usize;
    row >= 1 && row <= heights.len() && tier >= 1 && tier <= u16::from(heights[row - 1])
}

/// The place that the record names.
pub(crate) fn place_of(fields: &ByteRecord, heights: &[u8]) -> Place
    requires rows { length heights.now ≤ 12 }
    requires formed { IsTrue (is_well_formed (fields_of fields.now)) }
    requires numbers { IsTrue (has_numbers (fields_of fields.now)) }
    requires within { IsTrue (is_within heights.now (place_named (fields_of fields.now))) }
    ensures { result ≡ place_named (fields_of fields.now) }
{
    let row = number_of(field(fields, 2)) as u8;
    let tier = number_of(field(fields, 3)) as u8;
    Place::new(bay_of(fields), row, tier)
}
