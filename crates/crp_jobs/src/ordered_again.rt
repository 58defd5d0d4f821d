//! What is said of a segment that orders a container again.
ghost use Rattle.std.specs.Prelude.{IfOk};
ghost use Rattle.crp_jobs.specs.Found.{IsPlainText};
ghost use Rattle.crp_jobs.specs.MessageLines.{IsOrderedAgainLine};

use crate::detailed::detailed_text;
use crate::firsts::first_words;
use crate::placed::{end_text, line_front, line_on_segment, shown};
use crate::plain::FoundLine;
use crp_places::{line_at, segment_at, segment_end};
use std::alloc::{AllocError, Global};

/// The line on a segment that orders a container again, by its number and that of the segment that orders it first.
pub(crate) fn line_on_ordered_again(
    alloc: Global,
    number: usize,
    first: usize,
    text: &[u8],
) -> Result<FoundLine, AllocError>
    ensures placed { IfOk result (λ line. IsOrderedAgainLine number first text.now line.items) }
    ensures plain { IfOk result (λ line. IsPlainText line.items) }
{
    let Some(before) = segment_at(text, first) else {
        return line_on_segment(alloc, number, text);
    };
    let Some(offset) = segment_at(text, number) else {
        let said = end_text(alloc, text)?;
        return Ok(shown(said.as_slice()));
    };
    let words = first_words(alloc, b"segment ", first, line_at(text, before))?;
    let bytes = line_front(&text[offset..segment_end(text, offset)]);
    let line = line_at(text, offset);
    let said = detailed_text(alloc, b"segment ", number, line, words.as_slice(), bytes)?;
    Ok(shown(said.as_slice()))
}
