//! What is said of a line of a report, by its number.
ghost use Rattle.std.specs.Prelude.{◌≡◌, ◌≢◌, ◌+◌, ◌++◌, [], ℕ, Some, None, IfNone, IfOk, IfSome, option_map, slice_get};
ghost use Rattle.crp_follow.specs.Lines.{pieces_of, without_cr};
ghost use Rattle.crp_jobs.specs.Found.{IsPlainText};
ghost use Rattle.crp_jobs.specs.Placed.{shown};
ghost use Rattle.crp_jobs.specs.ReportLines.{IsAuditedLine, IsEndedLine, IsFollowedLine, IsNoReportLine, before_bytes, line_numbered, line_text, numbered_text, text_end};

use crate::instead::words_on_report;
use crate::placed::shown;
use crate::plain::{FRONT, FoundLine};
use crp_cert::push_decimal;
use crp_files::Files;
use crp_places::without_mark;
use crp_said::{cut_line, line_behind};
use std::alloc::{AllocError, Global};

/// How many bytes of a report are looked at: as many as one that is audited may have.
pub(crate) const MOST_REPORT: usize = 16777216;

// The first line of a text, whether it has an end or not.
#[tactic(auto, using(crate::proofs::LineSteps::first_ended, crate::proofs::LineSteps::first_plain))]
fn first_line(text: &[u8]) -> &[u8]
    requires { text.now ≢ [] }
    ensures { slice_get (pieces_of text.now) 0 ≡ Some result.now }
{
    match cut_line(text) {
        Some((line, _)) => line,
        None => text,
    }
}

// What stands behind the first line of a text, if that has an end.
#[tactic(auto, using(crate::proofs::LineSteps::next_ended, crate::proofs::LineSteps::next_plain))]
fn behind_line(text: &[u8]) -> Option<&[u8]>
    ensures behind { IfSome result (λ behind. (k : ℕ) → slice_get (pieces_of text.now) (k + 1) ≡ slice_get (pieces_of behind.now) k) }
    ensures last { IfNone result ((k : ℕ) → slice_get (pieces_of text.now) (k + 1) ≡ None) }
{
    match cut_line(text) {
        Some((_, behind)) => Some(behind),
        None => None,
    }
}

/// The line with this number, from 1, if there is one.
pub(crate) fn line_numbered(text: &[u8], number: u64) -> Option<&[u8]>
    ensures { option_map (λ line. line.now) result ≡ line_numbered text.now number }
{
    if number == 0 {
        return None;
    }
    let mut rest = text;
    for _ in 1..number {
        let Some(behind) = behind_line(rest) else {
            return None;
        };
        rest = behind;
    }
    if rest.is_empty() {
        return None;
    }
    Some(first_line(rest))
}

// A line without a CR at its end.
fn without_cr(line: &[u8]) -> &[u8]
    ensures { result.now ≡ without_cr line.now }
{
    match line.last() {
        Some(last) if *last == b'\r' => &line[..line.len() - 1],
        _ => line,
    }
}

// The line with this number without a CR at its end.
fn line_without_cr(text: &[u8], number: u64) -> Option<&[u8]>
    ensures { option_map (λ line. line.now) result ≡ option_map without_cr (line_numbered text.now number) }
{
    Some(without_cr(line_numbered(text, number)?))
}

// How the words on a line go on before its bytes.
fn before_bytes(line: &[u8]) -> &'static [u8]
    ensures { result.now ≡ before_bytes line.now }
{
    match line.last() {
        Some(b' ' | b'\t') => b" ends with a blank: ",
        _ => b": ",
    }
}

// What is said of a line with this number.
fn line_text(alloc: Global, number: u64, line: &[u8]) -> Result<Vec<u8>, AllocError>
    ensures { IfOk result (λ said. said.items ≡ line_text number line.now) }
{
    let mut said = Vec::new(alloc);
    said.extend_from_slice(b"line ")?;
    push_decimal(&mut said, number)?;
    if line.is_empty() {
        said.extend_from_slice(b" is empty")?;
        return Ok(said);
    }
    said.extend_from_slice(before_bytes(line))?;
    said.extend_from_slice(line)?;
    Ok(said)
}

// What is said where the text ends before it.
fn text_end(alloc: Global, text: &[u8]) -> Result<Vec<u8>, AllocError>
    ensures { IfOk result (λ said. said.items ≡ text_end text.now) }
{
    let mut said = Vec::new(alloc);
    said.extend_from_slice(b"the file ends at line ")?;
    push_decimal(&mut said, line_behind(text))?;
    Ok(said)
}

// What is said of the line with this number, where it is this one, if there is one.
fn numbered_text(
    alloc: Global,
    number: u64,
    text: &[u8],
    line: Option<&[u8]>,
) -> Result<Vec<u8>, AllocError>
    ensures { IfOk result (λ said. said.items ≡ numbered_text number text.now (option_map (λ line. line.now) line.entry)) }
{
    match line {
        Some(line) => line_text(alloc, number, line),
        None => text_end(alloc, text),
    }
}

// The line with that.
fn line_on_numbered(
    alloc: Global,
    number: u64,
    text: &[u8],
    line: Option<&[u8]>,
) -> Result<FoundLine, AllocError>
    ensures plain { IfOk result (λ found. IsPlainText found.items) }
    ensures said { IfOk result (λ found. found.items ≡ shown (numbered_text number text.now (option_map (λ line. line.now) line.entry))) }
{
    let said = numbered_text(alloc, number, text, line)?;
    Ok(shown(said.as_slice()))
}

/// The line on what stands in the place of a report.
pub(crate) fn line_on_no_report<F: Files>(alloc: Global, files: &F, name: &str) -> Option<FoundLine>
    ensures plain { IfSome result (λ line. IsPlainText line.items) }
    ensures said { IfSome result (λ line. IsNoReportLine ((F.known files.now).given name.now) line.items) }
{
    let front = files.begins(alloc, name, FRONT)?;
    let words = words_on_report(without_mark(front.as_slice()))?;
    Some(shown(words.as_bytes()))
}

/// The line on the line with this number of a report that is followed.
pub(crate) fn line_on_followed<F: Files>(
    alloc: Global,
    files: &F,
    name: &str,
    number: u64,
) -> Option<FoundLine>
    ensures plain { IfSome result (λ line. IsPlainText line.items) }
    ensures said { IfSome result (λ line. IsFollowedLine ((F.known files.now).given name.now) number line.items) }
{
    let bytes = files.begins(alloc, name, MOST_REPORT)?;
    let text = without_mark(bytes.as_slice());
    let Ok(line) = line_on_numbered(alloc, number, text, line_without_cr(text, number)) else {
        return None;
    };
    Some(line)
}

/// The line on the line with this number of a report that is audited.
pub(crate) fn line_on_audited<F: Files>(
    alloc: Global,
    files: &F,
    name: &str,
    number: u64,
) -> Option<FoundLine>
    ensures plain { IfSome result (λ line. IsPlainText line.items) }
    ensures said { IfSome result (λ line. IsAuditedLine ((F.known files.now).given name.now) number line.items) }
{
    let bytes = files.begins(alloc, name, MOST_REPORT)?;
    let text = bytes.as_slice();
    line_on_numbered(alloc, number, text, line_numbered(text, number)).ok()
}

// The line with that, and these words at its end.
fn line_ended(
    alloc: Global,
    number: u64,
    text: &[u8],
    line: Option<&[u8]>,
    words: &[u8],
) -> Result<FoundLine, AllocError>
    ensures plain { IfOk result (λ found. IsPlainText found.items) }
    ensures said { IfOk result (λ found. found.items ≡ shown (numbered_text number text.now (option_map (λ line. line.now) line.entry) ++ words.now)) }
{
    let mut said = numbered_text(alloc, number, text, line)?;
    said.extend_from_slice(words)?;
    Ok(shown(said.as_slice()))
}

/// The line on the line with this number of a report that is audited, and these words at its end.
pub(crate) fn line_on_ended<F: Files>(
    alloc: Global,
    files: &F,
    name: &str,
    number: u64,
    words: &[u8],
) -> Option<FoundLine>
    ensures plain { IfSome result (λ line. IsPlainText line.items) }
    ensures said { IfSome result (λ line. IsEndedLine ((F.known files.now).given name.now) number words.now line.items) }
{
    let bytes = files.begins(alloc, name, MOST_REPORT)?;
    let text = bytes.as_slice();
    line_ended(alloc, number, text, line_numbered(text, number), words).ok()
}
