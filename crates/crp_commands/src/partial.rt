//! A report that may end early, and the notes on one that does.
ghost use Rattle.std.specs.Prelude.{◌≡◌, IfOk, not};
ghost use Rattle.crp_report.specs.Runs.{sink_seen};
ghost use Rattle.crp_report.specs.Watching.{ShowsMore};
ghost use Rattle.crp_commands.specs.Noted.{IsNotedBy};
ghost use Rattle.crp_commands.specs.Partial.{IsReportIn, standing_words, last_note, unended_note, end_note, behind_words, behind_note};

use crp_cert::push_decimal;
use crp_plan::Sink;
use crp_report::show;
use crp_said::{Completed, complete};
use std::alloc::{AllocError, Global};

// Behind the number of bays that stand there.
fn standing_words(bays: usize) -> &'static [u8]
    ensures { result.now ≡ standing_words bays }
{
    if bays == 1 {
        b" bay stands there\n"
    } else {
        b" bays stand there\n"
    }
}

// Behind the number of bays that do not, of which there are some.
fn behind_words(bays: usize) -> &'static [u8]
    ensures { result.now ≡ behind_words bays }
{
    if bays == 1 {
        b" bay from which containers leave does not stand there\n"
    } else {
        b" bays from which containers leave do not stand there\n"
    }
}

// The note that the last line is lacking of the report that is called so.
fn last_note(alloc: Global, words: &[u8], bays: usize) -> Result<Vec<u8>, AllocError>
    ensures { IfOk result (λ text. text.items ≡ last_note words.now bays) }
{
    let mut text = Vec::new(alloc);
    text.extend_from_slice(b"crp: note: ")?;
    text.extend_from_slice(words)?;
    text.extend_from_slice(b" has no last line: ")?;
    push_decimal(&mut text, bays)?;
    text.extend_from_slice(standing_words(bays))?;
    Ok(text)
}

// The note that it lacks nothing but the line end of its last line.
fn unended_note(alloc: Global, words: &[u8]) -> Result<Vec<u8>, AllocError>
    ensures { IfOk result (λ text. text.items ≡ unended_note words.now) }
{
    let mut text = Vec::new(alloc);
    text.extend_from_slice(b"crp: note: the last line of ")?;
    text.extend_from_slice(words)?;
    text.extend_from_slice(b" lacks its line end\n")?;
    Ok(text)
}

// The first of these notes, or the second where a report with a line end is the one with its last line.
fn end_note(
    alloc: Global,
    words: &[u8],
    ended: &[u8],
    report: &[u8],
    bays: usize,
) -> Result<Vec<u8>, AllocError>
    ensures { IfOk result (λ note. note.items ≡ end_note words.now ended.now report.now bays) }
{
    if ended == report {
        unended_note(alloc, words)
    } else {
        last_note(alloc, words, bays)
    }
}

// The note on the bays behind those that stand there.
fn behind_note(alloc: Global, bays: usize) -> Result<Vec<u8>, AllocError>
    ensures { IfOk result (λ text. text.items ≡ behind_note bays) }
{
    if bays == 0 {
        return Vec::from_slice(
            alloc,
            b"crp: note: each bay from which containers leave stands there\n",
        );
    }
    let mut text = Vec::from_slice(alloc, b"crp: note: ")?;
    push_decimal(&mut text, bays)?;
    text.extend_from_slice(behind_words(bays))?;
    Ok(text)
}

// Notes that the last line is lacking, or its line end.
#[tactic(auto, using(crate::proofs::Noted::shown_none))]
fn note_end<E: Sink>(
    alloc: Global,
    words: &[u8],
    ended: &[u8],
    report: &[u8],
    bays: usize,
    errors: &mut E,
)
    ensures { ShowsMore (E.contents errors.old) (E.contents errors.new) }
{
    if let Ok(text) = end_note(alloc, words, ended, report, bays) {
        show(errors, &text);
    }
}

/// Notes how many bays are behind those that stand there.
#[tactic(auto, using(crate::proofs::Noted::shown_none))]
pub(crate) fn note_behind<E: Sink>(alloc: Global, bays: usize, errors: &mut E)
    ensures { ShowsMore (E.contents errors.old) (E.contents errors.new) }
{
    if let Ok(text) = behind_note(alloc, bays) {
        show(errors, &text);
    }
}

/// The report that a text is. One that may end early gets its last line where that is lacking, or only its
/// line end is, which is noted of a report that is called so.
#[tactic(auto, using(crate::proofs::Noted::unnoted))]
pub(crate) fn whole_in<E: Sink>(
    alloc: Global,
    text: Vec<u8>,
    words: &[u8],
    partial: bool,
    errors: &mut E,
) -> Result<Completed, AllocError>
    ensures report { IfOk result (λ whole. IsReportIn partial text.items whole.text.items whole.bays) }
    ensures noted { IsNotedBy (not partial) (sink_seen E.contents E.failures errors.old errors.new) }
{
    if !partial {
        return Ok(Completed { text, bays: None });
    }
    let mut ended = text.clone()?;
    ended.push(b'\n')?;
    let whole = complete(alloc, text)?;
    if let Some(bays) = whole.bays {
        note_end(alloc, words, &ended, &whole.text, bays, errors);
    }
    Ok(whole)
}

/// The same of the only report that there is.
pub(crate) fn report_in<E: Sink>(
    alloc: Global,
    text: Vec<u8>,
    partial: bool,
    errors: &mut E,
) -> Result<Completed, AllocError>
    ensures report { IfOk result (λ whole. IsReportIn partial text.items whole.text.items whole.bays) }
    ensures noted { IsNotedBy (not partial) (sink_seen E.contents E.failures errors.old errors.new) }
{
    whole_in(alloc, text, b"the report", partial, errors)
}
