//! Where what a fault names stands in its file, and what stands there: a line behind the advice.
ghost use Rattle.std.specs.Prelude.{◌≡◌, ◌≤◌, IfOk, IfSome, length, position};
ghost use Rattle.edi_text.specs.Reading.{is_line_end};
ghost use Rattle.crp_jobs.specs.Found.{IsPlainText};
ghost use Rattle.crp_jobs.specs.Placed.{IsOffsetLine, IsRecordLine, IsSegmentLine, end_text, line_front, place_text, said_at, shown};

use crate::plain::{FoundLine, push_plain};
use arrayvec::ArrayVec;
use crp_cert::push_decimal;
use crp_places::{line_at, record_at, segment_at, segment_end};
use std::alloc::{AllocError, Global};

/// CR or LF.
pub(crate) fn is_line_end(byte: u8) -> bool
    ensures { result ≡ is_line_end byte }
{
    byte == b'\r' || byte == b'\n'
}

// Where the first line end stands.
fn first_end(text: &[u8]) -> Option<usize>
    ensures { result ≡ position is_line_end text.now }
{
    text.iter().position(|b| is_line_end(*b))
}

/// The bytes before the first line end.
pub(crate) fn line_front(text: &[u8]) -> &[u8]
    ensures { result.now ≡ line_front text.now }
{
    match first_end(text) {
        Some(end) => &text[..end],
        None => text,
    }
}

/// The words on what stands in this line, and the bytes that stand there; there may be none.
pub(crate) fn place_text(
    alloc: Global,
    what: &[u8],
    number: usize,
    line: usize,
    bytes: &[u8],
) -> Result<Vec<u8>, AllocError>
    ensures { IfOk result (λ said. said.items ≡ place_text what.now number line bytes.now) }
{
    let mut said = Vec::new(alloc);
    said.extend_from_slice(what)?;
    push_decimal(&mut said, number)?;
    if bytes.is_empty() {
        said.extend_from_slice(b" is at the end of line ")?;
        push_decimal(&mut said, line)?;
        return Ok(said);
    }
    said.extend_from_slice(b" is at line ")?;
    push_decimal(&mut said, line)?;
    said.extend_from_slice(b": ")?;
    said.extend_from_slice(bytes)?;
    Ok(said)
}

/// The words on the end of a text.
pub(crate) fn end_text(alloc: Global, text: &[u8]) -> Result<Vec<u8>, AllocError>
    ensures { IfOk result (λ said. said.items ≡ end_text text.now) }
{
    let mut said = Vec::new(alloc);
    said.extend_from_slice(b"the file ends at line ")?;
    push_decimal(&mut said, line_at(text, text.len()))?;
    Ok(said)
}

// The words on an offset, and what stands there to the end of its line; where there is none, those on the end of the text.
fn said_at(
    alloc: Global,
    what: &[u8],
    number: usize,
    text: &[u8],
    offset: Option<usize>,
) -> Result<Vec<u8>, AllocError>
    requires { IfSome offset (λ o. o ≤ length text.now) }
    ensures { IfOk result (λ said. said.items ≡ said_at what.now number text.now offset) }
{
    match offset {
        Some(offset) => {
            let bytes = line_front(&text[offset..]);
            place_text(alloc, what, number, line_at(text, offset), bytes)
        }
        None => end_text(alloc, text),
    }
}

/// A text as a line shows it.
pub(crate) fn shown(text: &[u8]) -> FoundLine
    ensures shown { result.items ≡ shown text.now }
    ensures plain { IsPlainText result.items }
{
    let mut line = ArrayVec::new();
    push_plain(&mut line, text);
    line
}

/// The line on a record, by its number, of a list with this byte between its fields.
pub(crate) fn line_on_record(
    alloc: Global,
    separator: u8,
    number: usize,
    text: &[u8],
) -> Result<FoundLine, AllocError>
    ensures placed { IfOk result (λ line. IsRecordLine separator number text.now line.items) }
    ensures plain { IfOk result (λ line. IsPlainText line.items) }
{
    let said = said_at(
        alloc,
        b"record ",
        number,
        text,
        record_at(text, separator, number),
    )?;
    Ok(shown(said.as_slice()))
}

/// The line on an offset.
pub(crate) fn line_on_offset(
    alloc: Global,
    offset: usize,
    text: &[u8],
) -> Result<FoundLine, AllocError>
    ensures placed { IfOk result (λ line. IsOffsetLine offset text.now line.items) }
    ensures plain { IfOk result (λ line. IsPlainText line.items) }
{
    let place = if offset < text.len() {
        Some(offset)
    } else {
        None
    };
    let said = said_at(alloc, b"offset ", offset, text, place)?;
    Ok(shown(said.as_slice()))
}

/// The line on a segment, by its number.
pub(crate) fn line_on_segment(
    alloc: Global,
    number: usize,
    text: &[u8],
) -> Result<FoundLine, AllocError>
    ensures placed { IfOk result (λ line. IsSegmentLine number text.now line.items) }
    ensures plain { IfOk result (λ line. IsPlainText line.items) }
{
    match segment_at(text, number) {
        Some(offset) => {
            let bytes = line_front(&text[offset..segment_end(text, offset)]);
            let said = place_text(alloc, b"segment ", number, line_at(text, offset), bytes)?;
            Ok(shown(said.as_slice()))
        }
        None => {
            let said = end_text(alloc, text)?;
            Ok(shown(said.as_slice()))
        }
    }
}
