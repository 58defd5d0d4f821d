//! Callers that look at the lines of a bay's moves.
ghost use Rattle.std.specs.Prelude.{◌≡◌, ◌≢◌, ◌↔◌, ◌++◌, [], ℕ, List, map, IfOk, IfSome, IfNone, IsTrue};
ghost use Rattle.crp_plan.specs.declared.moves.Move.{Move};
ghost use Rattle.crp_plan.specs.Bay.{IsPlan, relocations, start};
ghost use Rattle.crp_order.specs.BayProblems.{ranked};
ghost use Rattle.crp_said.specs.MoveLines.{AreMoveLines};
ghost use Rattle.crp_audit.specs.Headline.{Handed, Reported, PrintsPlan, problem_in};
ghost use Rattle.crp_callers.specs.NoMoves.{BeginsWithNoMove};

use crp_audit::{
    Looked, Replayed, look_at, one_plan_is_printed, printed_plans_are_followed, replay_lines,
};
use crp_plan::{Problem, one_kind};
use std::alloc::{AllocError, Global};

/// Whether lines are those of a complete plan with so many relocations. No other lines pass for them, and those that a headline prints of a
/// bay do.
pub fn are_plan_lines(
    alloc: Global,
    names: &[Vec<u8>],
    problem: &Problem,
    count: u32,
    lines: &[u8],
) -> Result<bool, AllocError>
    ensures plan { IfOk result (λ yes. IsTrue yes → (moves : List Move) × IsPlan problem.now moves × (relocations moves ≡ count)
        × AreMoveLines (map (λ name. name.items) names.now) (start problem.now) moves lines.now) }
    ensures printed { (h : Handed) (b : Reported) → map (λ name. name.items) names.now ≡ ranked h.sequence b.bay.1 → problem.now ≡ problem_in h b
        → lines.now ≡ b.lines → PrintsPlan h b count → IfOk result IsTrue }
{
    one_kind();
    one_plan_is_printed();
    printed_plans_are_followed();
    let _is_problem = problem.cap();
    match look_at(alloc, names, problem, Some(count), lines)? {
        Looked::Plan { .. } => Ok(true),
        Looked::Nothing => Ok(false),
        Looked::Stopped { .. } => Ok(false),
        Looked::Other => Ok(false),
    }
}

/// Whether there are no lines, of a bay of which no plan is said.
pub fn has_no_lines(
    alloc: Global,
    names: &[Vec<u8>],
    problem: &Problem,
    lines: &[u8],
) -> Result<bool, AllocError>
    ensures { IfOk result (λ none. IsTrue none ↔ (lines.now ≡ [])) }
{
    match look_at(alloc, names, problem, None, lines)? {
        Looked::Nothing => Ok(true),
        Looked::Plan { .. } => Ok(false),
        Looked::Stopped { .. } => Ok(false),
        Looked::Other => Ok(false),
    }
}

/// What stands behind the lines of legal moves at the front, if anything does: it begins with the line of no move that is legal there.
pub fn behind_legal_moves<'a>(
    alloc: Global,
    names: &[Vec<u8>],
    problem: &Problem,
    lines: &'a [u8],
) -> Result<Option<&'a [u8]>, AllocError>
    ensures stopped { IfOk result (λ found. IfSome found (λ rest. (rest.now ≢ [])
        × ((before : List ℕ) × (lines.now ≡ before ++ rest.now) × BeginsWithNoMove (map (λ name. name.items) names.now) problem.now before rest.now))) }
    ensures through { IfOk result (λ found. IfNone found ((moves : List Move) × AreMoveLines (map (λ name. name.items) names.now) (start problem.now) moves lines.now)) }
{
    match replay_lines(alloc, names, problem, lines)? {
        Replayed::Stopped { read } => Ok(Some(&lines[read..])),
        Replayed::Through { .. } => Ok(None),
    }
}
