//! The records of a text in turn.

ghost use Rattle.crp_sizes.specs.Rows.{IsAtStart};

use csv::{ByteRecordsIntoIter, ReaderBuilder};
use std::alloc::Global;

/// The records of a text, as csv reads them in turn. Its header row is one of them, and they may differ in length.
pub fn rows_of<'a>(alloc: Global, text: &'a [u8]) -> ByteRecordsIntoIter<&'a [u8]>
    ensures { IsAtStart text.entry.now result }
{
    let reader = ReaderBuilder::new()
        .has_headers(false)
        .flexible(true)
        .from_reader(alloc, text);
    reader.into_byte_records()
}
