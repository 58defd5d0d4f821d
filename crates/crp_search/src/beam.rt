//! A plan by a beam search over the completions of the greedy rule.
ghost use Rattle.std.specs.Prelude.{◌≡◌, ℕ, List, IfOk, IfSome, IfNone};
ghost use Rattle.crp_plan.specs.Bay.{IsProblem};
ghost use Rattle.crp_plan.specs.Faults.{IsPlanPath};
ghost use Rattle.crp_search.specs.Greedy.{IsGreedyPath};
ghost use Rattle.crp_search.specs.Beam.{IsNoLonger, shorter};

use crate::beam_levels::best_path;
use crate::greedy::{first_plan, greedy_row};
use crp_bay::Position;
use crp_plan::{MAX_RELOCATIONS, Plan, Problem};
use std::alloc::{AllocError, Global};

/// The plan that goes along the path, and from there on by the greedy rule. `None` where that leads to no complete plan.
fn completed(problem: &Problem, path: Vec<u8>) -> Result<Option<Plan>, AllocError>
    ensures problem { IfOk result (λ found. IfSome found (λ plan. plan.problem ≡ problem.now)) }
    ensures is_problem { IsProblem problem.now }
{
    let mut rows = path;
    let mut position = Position::start(problem);
    for row in rows.as_slice() {
        let _pushed = position.push(*row);
    }
    for _step in 0..MAX_RELOCATIONS {
        let Some(row) = greedy_row(problem, &position) else {
            break;
        };
        let _pushed = position.push(row);
        rows.push(row)?;
    }
    Ok(Plan::from_rows(problem, rows.as_slice()).ok())
}

/// The plan with fewer relocations; where both have as many, the first.
fn shorter_of(first: Option<Plan>, other: Option<Plan>) -> Option<Plan>
    ensures { result ≡ shorter first other }
{
    let Some(plan) = first else {
        return other;
    };
    let Some(another) = other else {
        return Some(plan);
    };
    if another.count() < plan.count() {
        Some(another)
    } else {
        Some(plan)
    }
}

/// A plan by a beam search, with no more relocations than the greedy plan. `None` only where the greedy rule leads to no complete
/// plan, and the search met none either.
///
/// Level by level, each level one relocation, the children of the positions that were kept are completed by the greedy rule, which
/// gives plans, and so many of the children are kept: those whose completion has the fewest relocations, of these those with the
/// lowest look-ahead bound, of these those whose paths come first. One whose completion is a dead end comes last, and one that
/// cannot lead to fewer relocations than the best plan that was met is dropped. The search ends where none is kept.
pub fn beam_plan(alloc: Global, problem: &Problem, width: usize) -> Result<Option<Plan>, AllocError>
    ensures problem { IfOk result (λ found. IfSome found (λ plan. plan.problem ≡ problem.now)) }
    ensures is_problem { IfOk result (λ _. IsProblem problem.now) }
    ensures plan { IfOk result (λ found. IfSome found (λ plan. IsPlanPath problem.now plan.path)) }
    ensures no_longer { IfOk result (λ found. IfSome found (λ plan. IsNoLonger problem.now plan.path)) }
    ensures none { IfOk result (λ found. IfNone found ((path : List ℕ) → IsGreedyPath problem.now path → ⊥)) }
{
    let first = first_plan(problem);
    let limit = match &first {
        Some(plan) => plan.count(),
        None => problem.cap(),
    };
    let path = best_path(alloc, problem, width, limit)?;
    let met = completed(problem, path)?;
    Ok(shorter_of(first, met))
}
