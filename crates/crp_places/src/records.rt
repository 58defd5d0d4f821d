//! The offset of a record.

ghost use Rattle.std.specs.Prelude.{◌≡◌, ◌≤◌, ◌<◌, length, IfSome, MatchOption};
ghost use Rattle.csv.specs.Reading.{strip_bom};
ghost use Rattle.crp_places.specs.Records.{Ends, GoesOn, LeavesRecord, record_start};

use crate::gaps::skip_line_ends;

/// Where in a record csv's machine stands, which has neither escapes nor comments here.
#[derive(Clone, Copy, Debug, PartialEq, Eq)]
enum Place {
    FieldStart,
    Field,
    Quoted,
    QuoteEnd,
}

/// Where the machine stands behind this byte; nowhere if the byte ends the record.
fn place_behind(separator: u8, place: Place, byte: u8) -> Option<Place>
    ensures { MatchOption result (Ends separator place byte) (λ behind. GoesOn separator place byte behind) }
{
    match (place, byte) {
        (Place::Quoted, b'"') => Some(Place::QuoteEnd),
        (Place::Quoted, _) => Some(Place::Quoted),
        (Place::FieldStart | Place::QuoteEnd, b'"') => Some(Place::Quoted),
        _ if byte == separator => Some(Place::FieldStart),
        (_, b'\r' | b'\n') => None,
        _ => Some(Place::Field),
    }
}

/// What stands behind the record at the front.
fn after_record(separator: u8, text: &[u8]) -> &[u8]
    ensures left { LeavesRecord separator text.now result.now }
    ensures shorter { length result.now ≤ length text.now }
{
    let mut place = Place::FieldStart;
    let mut rest = text;
    while let [byte, after @ ..] = rest {
        rest = after;
        let Some(behind) = place_behind(separator, place, *byte) else {
            return rest;
        };
        place = behind;
    }
    rest
}

/// The text without a byte order mark.
pub fn without_mark(text: &[u8]) -> &[u8]
    ensures stripped { result.now ≡ strip_bom text.now }
    ensures shorter { length result.now ≤ length text.now }
{
    if text.starts_with(&[0xef, 0xbb, 0xbf]) {
        &text[3..]
    } else {
        text
    }
}

/// The offset, in bytes from 0, at which the record with this number begins, from 1, as csv reads the text with this byte between fields,
/// and else by its defaults without a header row of its own; none where the text has fewer records. Blank lines are no records, and a byte
/// order mark is part of none.
pub fn record_at(text: &[u8], separator: u8, number: usize) -> Option<usize>
    ensures place { result ≡ record_start separator text.now number }
    ensures within { IfSome result (λ offset. offset < length text.now) }
{
    if number == 0 {
        return None;
    }
    let mut rest = skip_line_ends(without_mark(text));
    for _ in 1..number {
        if rest.is_empty() {
            return None;
        }
        rest = skip_line_ends(after_record(separator, rest));
    }
    if rest.is_empty() {
        return None;
    }
    Some(text.len() - rest.len())
}
