//! What the messages of an interchange say of themselves.
ghost use Rattle.std.specs.Prelude.{◌≡◌, ◌≤◌, ◌<◌, ◌+◌, ◌^◌, length, codes};
ghost use Rattle.std.specs.Str.{bytes_eq};
ghost use Rattle.crp_movins.specs.Kinds.{names_slot, names_container};
ghost use Rattle.crp_movins.specs.Places.{segment_numbered};
ghost use Rattle.crp_notes.specs.Messages.{IsSaid};

use crp_movins::Loading;
use edi_text::{Segment, Segments};
use std::alloc::{AllocError, Global};

/// The most names that a note lists.
pub(crate) const MAX_LISTED: usize = 10;

// What a message function says, of those of UN/EDIFACT D.95B 1225 that are no original.
const FUNCTIONS: [(&str, &str); 35] = [
    ("1", " (cancellation)"),
    ("2", " (addition)"),
    ("3", " (deletion)"),
    ("4", " (change)"),
    ("5", " (replace)"),
    ("6", " (confirmation)"),
    ("7", " (duplicate)"),
    ("8", " (status)"),
    ("10", " (not found)"),
    ("11", " (response)"),
    ("12", " (not processed)"),
    ("13", " (request)"),
    ("14", " (advance notification)"),
    ("15", " (reminder)"),
    ("16", " (proposal)"),
    ("17", " (cancel, to be reissued)"),
    ("18", " (reissue)"),
    ("19", " (seller initiated change)"),
    ("20", " (replace heading section only)"),
    ("21", " (replace item detail and summary only)"),
    ("22", " (final transmission)"),
    ("23", " (transaction on hold)"),
    ("24", " (delivery instruction)"),
    ("25", " (forecast)"),
    ("26", " (delivery instruction and forecast)"),
    ("27", " (not accepted)"),
    ("28", " (accepted, with amendment in heading section)"),
    ("29", " (accepted without amendment)"),
    ("30", " (accepted, with amendment in detail section)"),
    ("31", " (copy)"),
    ("32", " (approval)"),
    ("33", " (change in heading section)"),
    ("34", " (accepted with amendment)"),
    ("35", " (retransmission)"),
    ("36", " (change in detail section)"),
];

/// The words for a message function, where it is one of the code list.
pub(crate) fn words_of(function: &[u8]) -> &'static [u8] {
    for (code, words) in &FUNCTIONS {
        if code.as_bytes() == function {
            return words.as_bytes();
        }
    }
    b""
}

/// Whether a message function is that of an original, or there is none.
pub(crate) fn is_original(function: &[u8]) -> bool {
    function.is_empty() || function == b"9".as_slice()
}

/// What a segment says of the message that it stands in.
#[derive(Clone, Copy, Drop)]
pub(crate) enum Says<'a> {
    /// The message with this reference begins.
    Begins(&'a [u8]),
    /// The message has this function.
    Function(&'a [u8]),
    /// This handling code is in force from here on.
    Code(&'a [u8]),
    /// A group of orders to this slot of the ship begins.
    Slot(&'a [u8]),
    /// This container belongs to the group.
    Container(&'a [u8]),
    /// Something else.
    Other,
}

// The bytes are this text.
fn is_text(bytes: &[u8], text: &[u8]) -> bool
    ensures { result ≡ bytes_eq bytes.now text.now }
{
    bytes == text
}

// A place on board of the ship.
fn names_slot(segment: &Segment) -> bool
    ensures { result ≡ names_slot segment.now }
{
    is_text(segment.component(1, 1), b"147")
}

// A container with a name.
fn names_container(segment: &Segment) -> bool
    ensures { result ≡ names_container segment.now }
{
    is_text(segment.component(1, 1), b"CN") && !segment.component(2, 1).is_empty()
}

// What a LOC says.
fn slot_said<'a>(segment: &Segment<'a>) -> Says<'a>
    requires { segment.now.tag ≡ codes "LOC" }
    ensures { IsSaid segment.now result }
{
    if names_slot(segment) {
        Says::Slot(segment.component(2, 1))
    } else {
        Says::Other
    }
}

// What an EQD says.
fn container_said<'a>(segment: &Segment<'a>) -> Says<'a>
    requires { segment.now.tag ≡ codes "EQD" }
    ensures { IsSaid segment.now result }
{
    if names_container(segment) {
        Says::Container(segment.component(2, 1))
    } else {
        Says::Other
    }
}

// What a segment says.
fn said<'a>(segment: &Segment<'a>) -> Says<'a>
    ensures { IsSaid segment.now result }
{
    let tag = segment.tag();
    if is_text(tag, b"UNH") {
        return Says::Begins(segment.component(1, 1));
    }
    if is_text(tag, b"BGM") {
        return Says::Function(segment.component(3, 1));
    }
    if is_text(tag, b"HAN") {
        return Says::Code(segment.component(1, 1));
    }
    if is_text(tag, b"LOC") {
        return slot_said(segment);
    }
    if is_text(tag, b"EQD") {
        return container_said(segment);
    }
    Says::Other
}

/// What the segment with this number says.
pub(crate) fn said_by(segments: &Segments, number: usize) -> Says<'_>
    ensures { IsSaid (segment_numbered segments.now number) result }
{
    match segments.segment(number) {
        Some(segment) => said(&segment),
        None => Says::Other,
    }
}

/// How many messages are read.
pub(crate) fn messages(segments: &Segments, loading: &Loading) -> usize
    ensures { result ≤ length segments.now }
{
    let mut messages = 0;
    for i in 0..segments.count() {
        if let Says::Begins(reference) = said_by(segments, i + 1) {
            if loading.reads(reference) {
                messages += 1;
            }
        }
    }
    messages
}

/// The first ten handling codes of the messages that are read that are not empty, each once, and whether there are more.
pub(crate) fn handling_codes<'a>(
    alloc: Global,
    segments: &'a Segments,
    loading: &Loading,
) -> Result<(Vec<&'a [u8]>, bool), AllocError> {
    let mut codes = Vec::new(alloc);
    let mut is_read = false;
    for i in 0..segments.count() {
        match said_by(segments, i + 1) {
            Says::Begins(reference) => is_read = loading.reads(reference),
            Says::Code(code) => {
                let is_new = is_read && !code.is_empty() && !codes.contains(&code);
                if is_new && codes.len() == MAX_LISTED {
                    return Ok((codes, true));
                }
                if is_new {
                    codes.push(code)?;
                }
            }
            _ => {}
        }
    }
    Ok((codes, false))
}
