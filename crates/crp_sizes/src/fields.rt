//! The fields of a record.

ghost use Rattle.std.specs.Prelude.{◌≡◌, IsTrue};
ghost use Rattle.std.specs.List.{list_all};
ghost use Rattle.std.specs.Char.{is_ascii_graphic};
ghost use Rattle.csv.specs.Records.{fields_of};
ghost use Rattle.crp_sizes.specs.Fields.{field_of, is_block, has_number, bay_named};
ghost use Rattle.crp_sizes.specs.Records.{is_header, is_well_formed};

use crate::digits::{is_number, number_of};
use crp_plan::BayName;
use csv::ByteRecord;

/// The field with this number, from 0; no bytes where there is none.
pub fn field(fields: &ByteRecord, i: usize) -> &[u8]
    ensures { result.now ≡ field_of (fields_of fields.now) i }
{
    match fields.get(i) {
        Some(bytes) => bytes,
        None => b"",
    }
}

/// The fields are `block,bay,heights`.
pub(crate) fn is_header(fields: &ByteRecord) -> bool
    ensures { result ≡ is_header (fields_of fields.now) }
{
    fields.len() == 3
        && (field(fields, 0) == b"block".as_slice()
            && (field(fields, 1) == b"bay".as_slice() && field(fields, 2) == b"heights".as_slice()))
}

fn are_printed(bytes: &[u8]) -> bool
    ensures { result ≡ list_all is_ascii_graphic bytes.now }
{
    bytes.iter().all(|b| b.is_ascii_graphic())
}

/// The bytes are 1 to 17 bytes from 0x21 to 0x7E.
pub fn is_block(bytes: &[u8]) -> bool
    ensures { result ≡ is_block bytes.now }
{
    !bytes.is_empty() && bytes.len() <= 17 && are_printed(bytes)
}

/// There are three fields, of which the first is a block.
pub(crate) fn is_well_formed(fields: &ByteRecord) -> bool
    ensures { result ≡ is_well_formed (fields_of fields.now) }
{
    fields.len() == 3 && is_block(field(fields, 0))
}

/// The second field is a number, and not 0.
pub(crate) fn has_number(fields: &ByteRecord) -> bool
    ensures { result ≡ has_number (fields_of fields.now) }
{
    let bay = field(fields, 1);
    is_number(bay) && number_of(bay) > 0
}

/// The bay that the first two fields name.
pub fn bay_of(fields: &ByteRecord) -> BayName
    requires block { IsTrue (is_block (field_of (fields_of fields.now) 0)) }
    requires numbered { IsTrue (has_number (fields_of fields.now)) }
    ensures { result ≡ bay_named (fields_of fields.now) }
{
    let (block, number) = (field(fields, 0), number_of(field(fields, 1)));
    match BayName::new(block, number) {
        Some(name) => name,
        None => unreachable!(),
    }
}
