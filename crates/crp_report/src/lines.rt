//! The lines of moves of the report.
ghost use Rattle.std.specs.Prelude.{IfOk, map};
ghost use Rattle.crp_report.specs.Answered.{plan_in};
ghost use Rattle.crp_report.specs.Report.{ArePlanLines, MayBePlanLines};

use crp_plan::Plan;
use crp_said::lines_of;
use crp_solve::Answer;
use std::alloc::{AllocError, Global};

/// The move lines of a plan.
pub(crate) fn plan_lines(
    alloc: Global,
    plan: &Plan,
    names: &[Vec<u8>],
) -> Result<Vec<u8>, AllocError>
    ensures { IfOk result (λ text. ArePlanLines (map (λ name. name.items) names.now) plan.now text.items) }
{
    let moves = plan.moves(alloc)?;
    lines_of(alloc, plan, &moves, names)
}

/// The move lines of the plan that an answer gives, if it gives one.
pub(crate) fn answer_lines(
    alloc: Global,
    answer: &Answer,
    names: &[Vec<u8>],
) -> Result<Vec<u8>, AllocError>
    ensures { IfOk result (λ text. MayBePlanLines (map (λ name. name.items) names.now) (plan_in answer.now) text.items) }
{
    match answer {
        Answer::Optimal { plan, .. } => plan_lines(alloc, plan, names),
        Answer::First { plan, .. } => plan_lines(alloc, plan, names),
        Answer::Between {
            plan: Some(plan),
            ..
        } => plan_lines(alloc, plan, names),
        Answer::NoPlan { .. } | Answer::Between { plan: None, .. } => Ok(Vec::new(alloc)),
    }
}
