//! A report whose moves somebody edited, with lines that count its moves as they stand.
ghost use Rattle.std.specs.Prelude.{◌≡◌, ◌⊎◌, ◌≤◌, ◌++◌, ◌↔◌, length, map, IfOk, IfErr, OnOk, IsTrue};
ghost use Rattle.std.specs.List.{AllByRecursion};
ghost use Rattle.crp_said.specs.Said.{BaySaid, bay_text, is_settled};
ghost use Rattle.crp_follow.specs.Rewritten.{AreRewritten, CanStay, HasFewMoves, IsCountedAnew, IsEditedFault, IsInBounds, IsRewritten, IsSaidAnew, IsSaidOfRule, NamesOutside, lower_below, lower_said, relocations_in};
ghost use Rattle.crp_follow.specs.Stated.{most_bytes, moves_of};
ghost use Rattle.crp_follow.specs.Views.{bay_stated};
ghost use Rattle.crp_follow.specs.Written.{lines_of};

use crate::bays::{counts_shifts, relocations_of};
use crate::fault::FollowFault;
use crate::rule::{OutsideMove, first_outside, outside_in};
use crate::stated::{StatedBay, StatedMove};
use crate::stating::state_edited;
use crp_said::{Said, SaidCause, last_text, numbers_text, push_bay_line, push_words};
use std::alloc::{AllocError, Global};

/// A report with its moves as they stand, and the bays of it whose moves are outside the rule, each with the line of its first move that is,
/// in the report as it was.
#[derive(Drop)]
pub struct Rewritten {
    pub text: Vec<u8>,
    pub outside: Vec<OutsideMove>,
}

/// The number that no plan by the rule has fewer relocations than, by what is said.
fn lower_said(said: Said) -> u32
    ensures { result ≡ lower_said said }
{
    match said {
        Said::Optimal(count) | Said::First(count) => count,
        Said::NoPlan => 0,
        Said::Between { lower, .. } => lower,
        Said::Outside(_) => 0,
    }
}

/// The relocations of moves, if there are any moves.
fn relocations_in(moves: &[StatedMove]) -> Option<u32>
    requires few { length moves.now ≤ most_bytes }
    ensures { result ≡ relocations_in moves.now }
{
    if moves.is_empty() {
        return None;
    }
    Some(relocations_of(moves) as u32)
}

/// Whether it is said of moves of the rule, and no lower number is above an upper one.
fn is_in_bounds(said: Said) -> bool
    ensures { IsTrue result ↔ IsInBounds said }
{
    match said {
        Said::Optimal(_) | Said::First(_) | Said::NoPlan => true,
        Said::Between { lower, upper, .. } => match upper {
            Some(upper) => lower <= upper,
            None => true,
        },
        Said::Outside(_) => false,
    }
}

/// Whether the line of a bay whose moves are of the rule can stay.
fn can_stay(bay: &StatedBay) -> bool
    ensures { IsTrue result ↔ CanStay (bay_stated bay.now) }
{
    counts_shifts(bay) && is_in_bounds(bay.said)
}

/// A lower number, but none above the relocations.
fn lower_below(lower: u32, upper: Option<u32>) -> u32
    ensures { result ≡ lower_below lower upper }
{
    match upper {
        Some(count) => lower.min(count),
        None => lower,
    }
}

/// What is said of a bay whose moves are of the rule.
fn said_of_rule(bay: &StatedBay) -> Said
    requires few { length bay.now.moves.items ≤ most_bytes }
    ensures { IsSaidOfRule (bay_stated bay.now) result }
{
    if can_stay(bay) {
        return bay.said;
    }
    let upper = relocations_in(&bay.moves);
    Said::Between {
        lower: lower_below(lower_said(bay.said), upper),
        upper,
        cause: SaidCause::Edited,
    }
}

/// What is said of a bay by its moves as they stand.
fn said_anew(bay: &StatedBay) -> Said
    requires few { length bay.now.moves.items ≤ most_bytes }
    ensures { IsSaidAnew (bay_stated bay.now) result }
{
    match first_outside(&bay.moves) {
        Some(_) => Said::Outside(relocations_of(&bay.moves) as u32),
        None => said_of_rule(bay),
    }
}

/// Adds the lines of moves.
fn push_moves(text: &mut Vec<u8>, moves: &[StatedMove]) -> Result<(), AllocError>
    ensures { OnOk result (text.new.items ≡ text.old.items ++ lines_of (moves_of moves.now)) }
{
    for stated in moves {
        push_words(text, &stated.said)?;
        text.push(b'\n')?;
    }
    Ok(())
}

/// Adds the lines of a bay, with its moves as they stand: whether it is decided.
fn push_bay(text: &mut Vec<u8>, bay: &StatedBay) -> Result<bool, AllocError>
    requires few { length bay.now.moves.items ≤ most_bytes }
    ensures { IfOk result (λ decided. (s : BaySaid) × IsCountedAnew (bay_stated bay.now) s × (decided ≡ is_settled s.said)
        × (text.new.items ≡ text.old.items ++ bay_text s)) }
{
    let said = said_anew(bay);
    push_bay_line(text, &bay.bay, said)?;
    push_moves(text, &bay.moves)?;
    Ok(said.is_settled())
}

/// Adds the lines of bays, with their moves as they stand: how many are decided.
fn push_bays(text: &mut Vec<u8>, bays: &[StatedBay]) -> Result<usize, AllocError>
    requires few { AllByRecursion HasFewMoves (map bay_stated bays.now) }
    ensures { IfOk result (AreRewritten (map bay_stated bays.now) text.old.items text.new.items) }
{
    let mut decided: usize = 0;
    for bay in bays {
        if push_bay(text, bay)? {
            decided += 1;
        }
    }
    Ok(decided)
}

/// The same report with its moves as they stand, each of whose lines counts them. Of a bay with a move that is not of the restricted rule the
/// line becomes `outside the rule K, edited`, where K are the relocations below it; of any other whose line counts other relocations it
/// becomes `between J and K, edited`, where no plan has fewer than J by the line as it was, and J is no more than K; and the last line
/// counts the bays anew. A report is refused only for its spelling, and where it has no last line.
pub fn rewrite(alloc: Global, report: &[u8]) -> Result<Rewritten, FollowFault>
    ensures rewritten { IfOk result (λ anew. IsRewritten report.now anew.text.items) }
    ensures outside { IfOk result (λ anew. NamesOutside report.now anew.outside.items) }
    ensures refused { IfErr result (λ fault. (fault ≡ FollowFault.Memory) ⊎ IsEditedFault report.now fault) }
{
    let (numbers, bays) = state_edited(alloc, report)?;
    let mut text = numbers_text(alloc, numbers)?;
    let decided = push_bays(&mut text, &bays)?;
    let last = last_text(alloc, bays.len(), decided)?;
    text.extend_from_slice(&last)?;
    let outside = outside_in(alloc, &bays)?;
    Ok(Rewritten { text, outside })
}
