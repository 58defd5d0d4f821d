//! What is said of a record, with more than where it stands.
ghost use Rattle.std.specs.Prelude.{◌≡◌, ◌≤◌, IfOk, IfSome, length, option_map};
ghost use Rattle.crp_jobs.specs.Found.{IsPlainText};
ghost use Rattle.crp_jobs.specs.Firsts.{IsDetailedLine, detailed_text, said_with};

use crate::placed::{end_text, line_front, place_text, shown};
use crate::plain::FoundLine;
use crp_cert::push_decimal;
use crp_places::{line_at, record_at};
use std::alloc::{AllocError, Global};

/// What is said of a thing with this number in this line: these words, and which bytes stand there.
pub(crate) fn detailed_text(
    alloc: Global,
    what: &[u8],
    number: usize,
    line: usize,
    words: &[u8],
    bytes: &[u8],
) -> Result<Vec<u8>, AllocError>
    ensures { IfOk result (λ said. said.items ≡ detailed_text what.now number line words.now bytes.now) }
{
    let mut said = Vec::new(alloc);
    said.extend_from_slice(what)?;
    push_decimal(&mut said, number)?;
    said.extend_from_slice(b" is at line ")?;
    push_decimal(&mut said, line)?;
    said.extend_from_slice(words)?;
    said.extend_from_slice(b": ")?;
    said.extend_from_slice(bytes)?;
    Ok(said)
}

// What is said of a record that begins at this offset, with these words if there are any.
fn said_with(
    alloc: Global,
    number: usize,
    text: &[u8],
    offset: Option<usize>,
    words: Option<&[u8]>,
) -> Result<Vec<u8>, AllocError>
    requires { IfSome offset (λ o. o ≤ length text.now) }
    ensures { IfOk result (λ said. said.items ≡ said_with number text.now offset (option_map (λ w. w.now) words.entry)) }
{
    let Some(offset) = offset else {
        return end_text(alloc, text);
    };
    let bytes = line_front(&text[offset..]);
    let line = line_at(text, offset);
    match words {
        Some(words) => detailed_text(alloc, b"record ", number, line, words, bytes),
        None => place_text(alloc, b"record ", number, line, bytes),
    }
}

// The line on the record with this number, with these words if there are any.
fn detailed_line(
    alloc: Global,
    separator: u8,
    number: usize,
    text: &[u8],
    words: Option<&[u8]>,
) -> Result<FoundLine, AllocError>
    ensures said { IfOk result (λ line. IsDetailedLine separator number text.now (option_map (λ w. w.now) words.entry) line.items) }
    ensures plain { IfOk result (λ line. IsPlainText line.items) }
{
    let said = said_with(
        alloc,
        number,
        text,
        record_at(text, separator, number),
        words,
    )?;
    Ok(shown(said.as_slice()))
}

/// The line on the record with this number, of a list with this byte between its fields, with words of which there may be none.
pub(crate) fn line_with(
    alloc: Global,
    separator: u8,
    number: usize,
    text: &[u8],
    words: &Option<Vec<u8>>,
) -> Result<FoundLine, AllocError>
    ensures said { IfOk result (λ line. IsDetailedLine separator number text.now (option_map (λ w. w.items) words.now) line.items) }
    ensures plain { IfOk result (λ line. IsPlainText line.items) }
{
    match words {
        Some(words) => detailed_line(alloc, separator, number, text, Some(words.as_slice())),
        None => detailed_line(alloc, separator, number, text, None),
    }
}
