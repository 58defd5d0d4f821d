//! The restricted rule, as far as the lines of moves alone show it.
ghost use Rattle.std.specs.Prelude.{◌≡◌, ◌∷◌, ◌++◌, [], List, map, IfOk, OnOk};
ghost use Rattle.std.specs.List.{filter_map};
ghost use Rattle.crp_said.specs.declared.moves.SaidMove.{SaidMove as Step};
ghost use Rattle.crp_follow.specs.declared.stated.StatedMove.{StatedMove as Stated};
ghost use Rattle.crp_follow.specs.Rule.{next_row, is_of_rule, first_outside, outside_in, AreJudged};
ghost use Rattle.crp_follow.specs.Views.{bay_stated};

use crate::pushing::add;
use crate::stated::{StatedBay, StatedMove};
use crp_plan::BayName;
use crp_said::SaidMove;
use std::alloc::{AllocError, Global};

/// A bay that has a move which is not of the restricted rule, and the number of the line of the first one, from 1.
#[derive(Drop)]
pub struct OutsideMove {
    pub bay: BayName,
    pub line: u64,
}

/// What moves are by the rule: the row from which the first take among them takes, and the line of the first of them that is not of it.
#[derive(Clone, Copy)]
struct Judged {
    next: Option<u32>,
    outside: Option<u64>,
}

/// Whether a move is of the rule, where the next take behind it takes from this row.
fn is_of_rule(said: &SaidMove, next: Option<u32>) -> bool
    ensures { (later : List Step) → next ≡ next_row later → result ≡ is_of_rule said.now later }
{
    let SaidMove::Shift { from, .. } = said else {
        return true;
    };
    match next {
        Some(row) => row == from.row,
        None => false,
    }
}

/// The row from which a move takes, or the next take behind it.
fn next_row(said: &SaidMove, next: Option<u32>) -> Option<u32>
    ensures { (later : List Step) → next ≡ next_row later → result ≡ next_row (said.now ∷ later) }
{
    match said {
        SaidMove::Shift { .. } => next,
        SaidMove::Take { from, .. } => Some(from.row),
    }
}

/// What this move and those behind it are by the rule.
fn with_move(stated: &StatedMove, behind: Judged) -> Judged
    ensures { (later : List Stated) → AreJudged later behind → AreJudged (stated.now ∷ later) result }
{
    let outside = if is_of_rule(&stated.said, behind.next) {
        behind.outside
    } else {
        Some(stated.line)
    };
    Judged {
        next: next_row(&stated.said, behind.next),
        outside,
    }
}

/// The line of the first of the moves that is not of the rule, if there is one.
pub(crate) fn first_outside(moves: &[StatedMove]) -> Option<u64>
    ensures { result ≡ first_outside moves.now }
{
    let mut judged = Judged {
        next: None,
        outside: None,
    };
    let mut i = moves.len();
    while i > 0 {
        i -= 1;
        judged = with_move(&moves[i], judged);
    }
    judged.outside
}

/// Adds a bay that has a move which is not of the rule.
fn add_outside(found: &mut Vec<OutsideMove>, bay: &StatedBay) -> Result<(), AllocError>
    ensures { OnOk result (found.new.items ≡ found.old.items ++ filter_map outside_in (bay_stated bay.now ∷ [])) }
{
    let Some(line) = first_outside(&bay.moves) else {
        return Ok(());
    };
    let outside = OutsideMove {
        bay: bay.bay.copy(),
        line,
    };
    add(found, outside)
}

/// The bays that have a move which is not of the rule, each with the line of its first one.
pub(crate) fn outside_in(alloc: Global, bays: &[StatedBay]) -> Result<Vec<OutsideMove>, AllocError>
    ensures { IfOk result (λ found. found.items ≡ filter_map outside_in (map bay_stated bays.now)) }
{
    let mut found = Vec::new(alloc);
    for bay in bays {
        add_outside(&mut found, bay)?;
    }
    Ok(found)
}
