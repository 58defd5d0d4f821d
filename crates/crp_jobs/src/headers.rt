//! What stands in the place of a list's header.
ghost use Rattle.std.specs.Prelude.{◌≡◌, zip};
ghost use Rattle.std.specs.Char.{is_ascii_uppercase};
ghost use Rattle.std.specs.List.{list_all, list_any};
ghost use Rattle.edi_text.specs.Reading.{after_line_ends};
ghost use Rattle.crp_jobs.specs.Found.{IsPlainText};
ghost use Rattle.crp_jobs.specs.Headers.{begins_as_header, begins_parted, first_line, header_and_more, list_text, no_comma_header, no_header, no_other_header, stands_for, too_many_columns, unquoted, wrong_header, wrong_with, wrong_words};
ghost use Rattle.crp_jobs.specs.Placed.{shown};

use crate::instead::words_on_list;
use crate::placed::{is_line_end, line_front};
use crate::plain::{FoundLine, push_plain};
use arrayvec::ArrayVec;

/// A list with a header.
#[derive(Clone, Copy, Debug, PartialEq, Eq)]
pub(crate) enum ListKind {
    /// A yard list.
    Yard,
    /// A list of sizes.
    Sizes,
}

// What stands behind the line ends at the front.
fn after_line_ends(text: &[u8]) -> &[u8]
    ensures { result.now ≡ after_line_ends text.now }
{
    let mut rest = text;
    while let [b'\r' | b'\n', after @ ..] = rest {
        rest = after;
    }
    rest
}

// The first line that is not empty; where there is none, nothing.
fn first_line(text: &[u8]) -> &[u8]
    ensures { result.now ≡ first_line text.now }
{
    line_front(after_line_ends(text))
}

// The line without a quotation mark before it.
fn unquoted(line: &[u8]) -> &[u8]
    ensures { result.now ≡ unquoted line.now }
{
    match line {
        [b'"', after @ ..] => after,
        _ => line,
    }
}

// Whether the first word of a header comes first, in letters of any case.
fn begins_as_header(line: &[u8]) -> bool
    ensures { result ≡ begins_as_header line.now }
{
    let words = unquoted(line);
    words.len() >= 5 && words[..5].eq_ignore_ascii_case(b"block")
}

// How the header of a list goes on where it has further columns.
fn header_and_more(kind: ListKind) -> &'static [u8]
    ensures { result.now ≡ header_and_more kind }
{
    match kind {
        ListKind::Yard => b"block,bay,row,tier,container,",
        ListKind::Sizes => b"block,bay,heights,",
    }
}

// Whether a byte of a header with commas is this one, with this byte in place of the commas.
fn stands_for(separator: u8, wanted: u8, byte: u8) -> bool
    ensures { result ≡ stands_for separator (wanted, byte) }
{
    if wanted == b',' {
        byte == separator
    } else {
        byte == wanted
    }
}

// Whether the bytes of a header stand for those of a line, one by one.
fn stand_for(separator: u8, header: &[u8], line: &[u8]) -> bool
    ensures { result ≡ list_all (stands_for separator) (zip header.now line.now) }
{
    header
        .iter()
        .zip(line.iter())
        .all(|pair| stands_for(separator, *pair.0, *pair.1))
}

// Whether a line begins so, with this byte in place of the commas.
fn begins_parted(separator: u8, header: &[u8], line: &[u8]) -> bool
    ensures { result ≡ begins_parted separator header.now line.now }
{
    header.len() <= line.len() && stand_for(separator, header, line)
}

// Of a first line that is no header, of a list with commas.
fn no_comma_header(kind: ListKind) -> &'static str
    ensures { result.now ≡ no_comma_header kind }
{
    match kind {
        ListKind::Yard => ": a header must come first: block,bay,row,tier,container",
        ListKind::Sizes => ": a header must come first: block,bay,heights",
    }
}

// The same of a list with another byte between its fields.
fn no_other_header(kind: ListKind) -> &'static str
    ensures { result.now ≡ no_other_header kind }
{
    match kind {
        ListKind::Yard => {
            ": a header must come first, with the words block, bay, row, tier and container"
        }
        ListKind::Sizes => ": a header must come first, with the words block, bay and heights",
    }
}

// The same of a list with this byte between its fields.
fn no_header(kind: ListKind, separator: u8) -> &'static str
    ensures { result.now ≡ no_header kind separator }
{
    if separator == b',' {
        no_comma_header(kind)
    } else {
        no_other_header(kind)
    }
}

// Of a header with further columns.
fn too_many_columns(kind: ListKind) -> &'static str
    ensures { result.now ≡ too_many_columns kind }
{
    match kind {
        ListKind::Yard => ": it has further columns, and may have only the first five",
        ListKind::Sizes => ": it has further columns, and may have only the first three",
    }
}

// Whether a capital stands there.
fn has_capitals(line: &[u8]) -> bool
    ensures { result ≡ list_any is_ascii_uppercase line.now }
{
    line.iter().any(|b| b.is_ascii_uppercase())
}

// What is wrong with a line that begins as a header does, where that is plain to see.
fn wrong_header(kind: ListKind, separator: u8, line: &[u8]) -> &'static str
    ensures { result.now ≡ wrong_header kind separator line.now }
{
    if begins_parted(separator, header_and_more(kind), line) {
        return too_many_columns(kind);
    }
    if has_capitals(line) {
        return ": its words must be in small letters";
    }
    ""
}

// What is wrong with the words of a line in the place of a header, where that is plain to see.
fn wrong_words(kind: ListKind, separator: u8, line: &[u8]) -> &'static str
    ensures { result.now ≡ wrong_words kind separator line.now }
{
    if begins_as_header(line) {
        wrong_header(kind, separator, line)
    } else {
        no_header(kind, separator)
    }
}

// What is wrong with a line in the place of the header of a list with this byte between its fields, where that is plain to see.
fn wrong_with(kind: ListKind, separator: u8, line: &[u8]) -> &'static str
    ensures { result.now ≡ wrong_with kind separator line.now }
{
    if line.is_empty() {
        return "empty lines";
    }
    if line.contains(&separator) {
        return wrong_words(kind, separator, line);
    }
    if line.contains(&b';') {
        return ": semicolons stand between its fields: give --separator ';'";
    }
    if line.contains(&b'\t') {
        return ": tabs stand between its fields: give --separator and a tab between quotes";
    }
    if line.contains(&b',') {
        return ": commas stand between its fields: leave --separator out";
    }
    wrong_words(kind, separator, line)
}

/// What stands in the place of the header of a list with this byte between its fields.
pub(crate) fn line_on_header(kind: ListKind, separator: u8, front: &[u8]) -> FoundLine
    ensures said { result.items ≡ shown (list_text kind separator front.now) }
    ensures plain { IsPlainText result.items }
{
    let mut line = ArrayVec::new();
    match words_on_list(front) {
        Some(words) => push_plain(&mut line, words.as_bytes()),
        None => {
            let header = first_line(front);
            push_plain(&mut line, b"the file begins with ");
            push_plain(&mut line, header);
            push_plain(&mut line, wrong_with(kind, separator, header).as_bytes());
        }
    }
    line
}
