//! A report that ends early, completed.
ghost use Rattle.std.specs.Prelude.{◌≡◌, ◌+◌, ◌<◌, ◌≤◌, ◌^◌, ◌↔◌, ◌∷◌, ◌++◌, [], ℕ, List, length, IfOk, IsTrue};
ghost use Rattle.crp_said.specs.Completed.{AreLinesOf, EndWithLast, IsCompleted, words_in};
ghost use Rattle.crp_said.specs.Tallied.{AreTallied};

use crate::cutting::cut_line;
use crate::line_reading::{read_bay, read_last};
use crate::lines::last_text;
use std::alloc::{AllocError, Global};

/// A report with its last line.
#[derive(Drop)]
pub struct Completed {
    /// Its bytes.
    pub text: Vec<u8>,
    /// The bays that stand there, where the last line was lacking.
    pub bays: Option<usize>,
}

/// What lines of a report come to: the lines of bays, those of them that settle theirs, and whether a last line ends them.
#[derive(Clone, Copy)]
struct Tally {
    bays: usize,
    settled: usize,
    ended: bool,
}

/// A line without a CR at its end.
fn words_in(line: &[u8]) -> &[u8]
    ensures { result.now ≡ words_in line.now }
{
    match line.last() {
        Some(last) if *last == b'\r' => &line[..line.len() - 1],
        _ => line,
    }
}

/// Whether lines end with a last line that end with this one.
fn is_ended(before: bool, words: &[u8]) -> bool
    ensures { (lines : List (List ℕ)) (line : List ℕ) → words.now ≡ words_in line → (IsTrue before ↔ EndWithLast lines) → (IsTrue result ↔ EndWithLast (lines ++ line ∷ [])) }
{
    if words.is_empty() {
        return before;
    }
    match read_last(words) {
        Some(_) => true,
        None => false,
    }
}

/// The tally with one line more.
fn with_line(tally: Tally, line: &[u8]) -> Tally
    requires room { tally.bays + 1 < 2 ^ 64 }
    requires few { tally.settled ≤ tally.bays }
    ensures more { (lines : List (List ℕ)) → AreTallied lines tally → AreTallied (lines ++ line.now ∷ []) result }
    ensures few { (result.bays ≤ tally.bays + 1) × (result.settled ≤ result.bays) }
{
    let words = words_in(line);
    let ended = is_ended(tally.ended, words);
    let Tally { bays, settled, .. } = tally;
    match read_bay(words) {
        None => Tally {
            bays,
            settled,
            ended,
        },
        Some((_, said)) => Tally {
            bays: bays + 1,
            settled: if said.is_settled() {
                settled + 1
            } else {
                settled
            },
            ended,
        },
    }
}

/// What the whole lines of a report come to, and what stands behind them.
fn tally_of(report: &[u8]) -> (Tally, &[u8])
    ensures { (lines : List (List ℕ)) × AreLinesOf report.now lines result.1.now × AreTallied lines result.0 }
{
    let mut tally = Tally {
        bays: 0,
        settled: 0,
        ended: false,
    };
    let mut rest = report;
    while let Some((line, behind)) = cut_line(rest) {
        tally = with_line(tally, line);
        rest = behind;
    }
    (tally, rest)
}

/// The report with its last line. One that has it stays as it is; of any other a line that was cut is left out, and a last line is added that
/// counts the bays that stand there.
pub fn complete(alloc: Global, report: Vec<u8>) -> Result<Completed, AllocError>
    ensures { IfOk result (λ whole. IsCompleted report.items whole.text.items whole.bays) }
{
    let mut text = report;
    let (tally, rest) = tally_of(&text);
    if tally.ended {
        return Ok(Completed { text, bays: None });
    }
    let whole = text.len() - rest.len();
    text.truncate(whole);
    let last = last_text(alloc, tally.bays, tally.settled)?;
    text.extend_from_slice(&last)?;
    Ok(Completed {
        text,
        bays: Some(tally.bays),
    })
}
