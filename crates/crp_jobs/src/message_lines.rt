//! What is said of a fault of a message.
ghost use Rattle.std.specs.Prelude.{◌≡◌, IfOk, IfSome, option_map};
ghost use Rattle.crp_jobs.specs.Found.{IsPlainText};
ghost use Rattle.crp_jobs.specs.MessageLines.{IsEdiLine, IsInterchangeLine, IsMessageLine, IsOrderedAgainLine, seems_ended_by_tilde, sign_words, words_on_signs};
ghost use Rattle.crp_jobs.specs.Placed.{IsOfFront, IsSegmentLine};

use crate::instead::words_on_message;
use crate::named::{again_named, offset_named, segment_named};
use crate::ordered_again::line_on_ordered_again;
use crate::placed::{line_on_offset, line_on_segment, shown};
use crate::plain::{FRONT, FoundLine, MOST_FOUND};
use crp_files::Files;
use crp_movins::MovinsFault;
use crp_places::without_mark;
use edi_text::{EdiFault, MAX_TEXT};
use std::alloc::{AllocError, Global};

// How many bytes of a message are looked at: more than are read, so that it can be shown what stands behind the limit.
const MOST_TEXT: usize = MAX_TEXT + MOST_FOUND;

// Whether a text begins without service string advice, has no apostrophe, and has a tilde.
fn seems_ended_by_tilde(text: &[u8]) -> bool
    ensures { result ≡ seems_ended_by_tilde text.now }
{
    text.starts_with(b"UNB") && text.contains(&b'~') && !text.contains(&b'\'')
}

// What is said of a text whose segments cannot be told apart, where the reason is plain to see.
fn sign_words(text: &[u8]) -> Option<&'static str>
    ensures { option_map (λ words. words.now) result ≡ sign_words text.now }
{
    if text.starts_with(&[0xef, 0xbb, 0xbf]) {
        return Some("the file begins with a byte order mark: save it without one");
    }
    if seems_ended_by_tilde(text) {
        return Some("segments seem to end with ~: then the file must begin with UNA and say so");
    }
    None
}

// The same, unless the fault is that the text is too long.
fn words_on_signs(fault: &EdiFault, text: &[u8]) -> Option<&'static str>
    ensures { option_map (λ words. words.now) result ≡ words_on_signs fault.now text.now }
{
    match fault {
        EdiFault::TooLong { .. } => None,
        EdiFault::NoSegment { .. }
        | EdiFault::Advice { .. }
        | EdiFault::Unfinished { .. }
        | EdiFault::Tag { .. }
        | EdiFault::Release { .. }
        | EdiFault::Control { .. }
        | EdiFault::Memory => sign_words(text),
    }
}

// The line on a fault at this offset of a text.
fn line_on_text(
    alloc: Global,
    fault: &EdiFault,
    offset: usize,
    text: &[u8],
) -> Result<FoundLine, AllocError>
    ensures said { IfOk result (λ line. IsEdiLine fault.now offset text.now line.items) }
    ensures plain { IfOk result (λ line. IsPlainText line.items) }
{
    match words_on_signs(fault, text) {
        Some(words) => Ok(shown(words.as_bytes())),
        None => line_on_offset(alloc, offset, text),
    }
}

/// The line on a message that is no interchange.
pub(crate) fn line_on_interchange<F: Files>(
    alloc: Global,
    files: &F,
    name: &str,
    fault: &EdiFault,
) -> Option<FoundLine>
    ensures plain { IfSome result (λ line. IsPlainText line.items) }
    ensures said { IfSome result (λ line. IsInterchangeLine ((F.known files.now).given name.now) fault.now line.items) }
{
    let offset = offset_named(fault)?;
    let front = files.begins(alloc, name, FRONT)?;
    if let Some(words) = words_on_message(without_mark(front.as_slice())) {
        return Some(shown(words.as_bytes()));
    }
    let text = files.begins(alloc, name, MOST_TEXT)?;
    line_on_text(alloc, fault, offset, text.as_slice()).ok()
}

// The line on the segment with this number.
fn line_on_segment_of<F: Files>(
    alloc: Global,
    files: &F,
    name: &str,
    number: usize,
) -> Option<FoundLine>
    ensures plain { IfSome result (λ line. IsPlainText line.items) }
    ensures said { IfSome result (λ line. IsOfFront ((F.known files.now).given name.now) (λ text. IsSegmentLine number text line.items)) }
{
    let text = files.begins(alloc, name, MAX_TEXT)?;
    line_on_segment(alloc, number, text.as_slice()).ok()
}

// The line on one that orders a container again.
fn line_on_again_of<F: Files>(
    alloc: Global,
    files: &F,
    name: &str,
    number: usize,
    first: usize,
) -> Option<FoundLine>
    ensures plain { IfSome result (λ line. IsPlainText line.items) }
    ensures said { IfSome result (λ line. IsOfFront ((F.known files.now).given name.now) (λ text. IsOrderedAgainLine number first text line.items)) }
{
    let text = files.begins(alloc, name, MAX_TEXT)?;
    line_on_ordered_again(alloc, number, first, text.as_slice()).ok()
}

/// The line on a message that gives no load orders.
pub(crate) fn line_on_message<F: Files>(
    alloc: Global,
    files: &F,
    name: &str,
    fault: &MovinsFault,
) -> Option<FoundLine>
    ensures plain { IfSome result (λ line. IsPlainText line.items) }
    ensures said { IfSome result (λ line. IsMessageLine ((F.known files.now).given name.now) fault.now line.items) }
{
    match again_named(fault) {
        Some((number, first)) => line_on_again_of(alloc, files, name, number, first),
        None => line_on_segment_of(alloc, files, name, segment_named(fault)?),
    }
}
