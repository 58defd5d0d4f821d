//! Reading a report.
ghost use Rattle.std.specs.Prelude.{◌≡◌, ◌⊎◌, ◌+◌, ◌++◌, ◌∷◌, IfOk, IfErr, IfSome, IfNone, List, ℕ, ◌≤◌, length};
ghost use Rattle.crp_plan.specs.BayNames.{IsYardBay};
ghost use Rattle.crp_said.specs.Said.{counts_line, bay_line, bays_line};
ghost use Rattle.crp_said.specs.Spelled.{most, AreSmall, IsSmall, IsMoveBody, AreMoves, IsOrdersLine, IsBayLine, IsLastLine, BeginsWithLine, SpellsReport, IsMisspelled, line_behind};
ghost use Rattle.crp_said.specs.Views.{report_as};

use crate::cutting::cut_line;
use crate::fields::is_move;
use crate::line_reading::{read_bay, read_last, read_numbers};
use crate::numbers::Numbers;
use crate::report::{Report, ReportFault};
use crate::said::{Said, SaidBay};
use crp_plan::BayName;
use std::alloc::{AllocError, Global};

/// The number of the line behind these bytes, from 1.
pub fn line_behind(front: &[u8]) -> u64
    ensures { result ≡ line_behind front.now }
{
    let mut line: u64 = 1;
    for b in front {
        if *b == b'\n' {
            line += 1;
        }
    }
    line
}

/// The number of the line at which the rest of a text begins.
fn line_at(text: &[u8], rest: &[u8]) -> u64
    requires { length rest.now ≤ length text.now }
    ensures { (front : List ℕ) → text.now ≡ front ++ rest.now → result ≡ line_behind front }
{
    let (front, _) = text.split_at(text.len() - rest.len());
    line_behind(front)
}

/// The three numbers of the first line, and what follows it.
fn first_line(bytes: &[u8]) -> Option<(Numbers, &[u8])>
    ensures found { IfSome result (λ x. AreSmall x.0 × (bytes.now ≡ counts_line x.0 ++ x.1.now)) }
    ensures none { IfNone result (¬ BeginsWithLine IsOrdersLine bytes.now) }
{
    let Some((line, rest)) = cut_line(bytes) else {
        return None;
    };
    let Some(numbers) = read_numbers(line) else {
        return None;
    };
    Some((numbers, rest))
}

/// The name of a bay, what is said of the bay, and what follows the line.
fn next_bay(bytes: &[u8]) -> Option<((BayName, Said), &[u8])>
    ensures found { IfSome result (λ x. IsYardBay x.0.0 × IsSmall x.0.1 × (bytes.now ≡ bay_line x.0.0 x.0.1 ++ x.1.now)) }
    ensures none { IfNone result (¬ BeginsWithLine IsBayLine bytes.now) }
{
    let Some((line, rest)) = cut_line(bytes) else {
        return None;
    };
    let Some((name, said)) = read_bay(line) else {
        return None;
    };
    Some(((name, said), rest))
}

/// A line of moves, and what follows it.
fn next_move(bytes: &[u8]) -> Option<(&[u8], &[u8])>
    ensures found { IfSome result (λ x. IsMoveBody x.0.now × (bytes.now ≡ x.0.now ++ 10 ∷ x.1.now)) }
    ensures none { IfNone result (¬ BeginsWithLine IsMoveBody bytes.now) }
{
    let Some((line, rest)) = cut_line(bytes) else {
        return None;
    };
    if !is_move(line) {
        return None;
    }
    Some((line, rest))
}

/// The lines of moves that the bytes begin with, and what follows them.
fn next_moves(alloc: Global, bytes: &[u8]) -> Result<(Vec<u8>, &[u8]), AllocError>
    ensures moves { IfOk result (λ x. AreMoves x.0.items × (bytes.now ≡ x.0.items ++ x.1.now)) }
    ensures none { IfOk result (λ x. ¬ BeginsWithLine IsMoveBody x.1.now) }
{
    let mut lines = Vec::new(alloc);
    let mut rest = bytes;
    while let Some((body, after)) = next_move(rest) {
        lines.extend_from_slice(body)?;
        lines.push(b'\n')?;
        rest = after;
    }
    Ok((lines, rest))
}

/// The two numbers of a last line, and what follows it.
fn last_line(bytes: &[u8]) -> Option<((u32, u32), &[u8])>
    ensures found { IfSome result (λ x. (x.0.0 ≤ most) × (x.0.1 ≤ most) × (bytes.now ≡ bays_line x.0.0 x.0.1 ++ x.1.now)) }
    ensures none { IfNone result (¬ BeginsWithLine IsLastLine bytes.now) }
{
    let Some((line, rest)) = cut_line(bytes) else {
        return None;
    };
    let Some((count, settled)) = read_last(line) else {
        return None;
    };
    Some(((count, settled), rest))
}

/// What a report says: exactly that whose text these bytes are. Else the first line that is not as said.
pub fn read_report(alloc: Global, text: &[u8]) -> Result<Report, ReportFault>
    ensures found { IfOk result (λ report. SpellsReport text.now (report_as report)) }
    ensures refused { IfErr result (λ fault. (fault ≡ ReportFault.Memory)
        ⊎ ((line : ℕ) × (fault ≡ ReportFault.Line line) × IsMisspelled text.now line)) }
{
    let Some((numbers, rest)) = first_line(text) else {
        return Err(ReportFault::Line(1));
    };
    let mut bays = Vec::new(alloc);
    let mut rest = rest;
    while let Some(((bay, said), after)) = next_bay(rest) {
        let (lines, behind) = next_moves(alloc, after)?;
        bays.push(SaidBay { bay, said, lines })
            .map_err(AllocError::from)?;
        rest = behind;
    }
    let Some(((count, settled), more)) = last_line(rest) else {
        return Err(ReportFault::Line(line_at(text, rest)));
    };
    if !more.is_empty() {
        return Err(ReportFault::Line(line_at(text, more)));
    }
    Ok(Report {
        numbers,
        bays,
        count,
        settled,
    })
}
