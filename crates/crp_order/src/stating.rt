//! States the problems of the bays.

ghost use Rattle.std.specs.Prelude.{◌≡◌, ◌<◌, All, IfOk, length, map};
ghost use Rattle.std.specs.List.{AllByRecursion, IsDistinct};
ghost use Rattle.crp_plan.specs.BayNames.{same_bay};
ghost use Rattle.crp_yard.specs.Naming.{IsNamedBay};
ghost use Rattle.crp_order.specs.BayProblems.{problems_of, IsNamed, IsNamedProblem};
ghost use Rattle.crp_order.specs.Groups.{stacks_numbered, pointed, IsStated, CanLeave};

use crate::bay_problem::BayProblem;
use crate::bays::stacks_of;
use crate::groups::leaving_by_bay;
use crate::ranks::{names_by_rank, stacks_by_rank};
use crate::sequences::Sequence;
use crp_plan::Problem;
use crp_yard::{Containers, Yard};
use std::alloc::{AllocError, Global};

/// The problem of the bay with this number, from 0, which these containers leave in this order.
fn problem_of(
    alloc: Global,
    yard: &Yard,
    bay: usize,
    leaving: &[&[u8]],
) -> Result<BayProblem, AllocError>
    requires bay { bay < length yard.now.bays }
    requires leaving { CanLeave (pointed leaving.now) (stacks_numbered yard.now bay) }
    ensures { IfOk result (IsStated yard.now bay (pointed leaving.now)) }
{
    let heights = yard.heights(bay);
    let stacks = stacks_of(alloc, yard, bay)?;
    let names = names_by_rank(alloc, leaving, &stacks)?;
    let ranks = stacks_by_rank(alloc, &names, &stacks)?;
    match Problem::with_heights(heights, leaving.len() as u8, &ranks) {
        Ok(problem) => Ok(BayProblem {
            bay: yard.name(bay).copy(),
            problem,
            names: Containers::from_vec(names),
        }),
        Err(_) => unreachable!(),
    }
}

/// The problem of each bay in which a container of the sequence stands, in the yard's order. In a bay
/// the containers of the sequence have the ranks from 1, as they come in it, and the others the ranks
/// behind those, by row, then tier.
pub fn problems(
    alloc: Global,
    yard: &Yard,
    sequence: &Sequence,
) -> Result<Vec<BayProblem>, AllocError>
    ensures exact { IfOk result (λ problems. problems.items ≡ problems_of yard.now sequence.now) }

    // The ranks of each problem, read as its names, are the bay of that name as it stands in the yard.
    ensures named { IfOk result (λ problems. All (IsNamed yard.now) problems.items) }
    ensures names { AllByRecursion IsNamedBay yard.now.bays → IfOk result (λ problems. AllByRecursion IsNamedProblem problems.items) }
    ensures once { IfOk result (λ problems. IsDistinct same_bay (map (λ made. made.bay) problems.items)) }
{
    let groups = leaving_by_bay(alloc, yard, sequence)?;
    let mut problems = Vec::new(alloc);
    for (i, leaving) in groups.iter().enumerate() {
        if !leaving.is_empty() {
            problems.push(problem_of(alloc, yard, i, leaving)?)?;
        }
    }
    Ok(problems)
}
