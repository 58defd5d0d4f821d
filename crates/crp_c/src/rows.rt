//! The rows of a bay, from arrays of numbers.
ghost use Rattle.std.specs.Prelude.{◌≡◌, ◌⊎◌, IfOk, OnOk, IfErr};
ghost use Rattle.crp_plan.specs.Bay.{IsProblem};
ghost use Rattle.crp_plan.specs.Faults.{stacks_of, stated_with};
ghost use Rattle.crp_c.specs.Rows.{rows_of, FillRows};
ghost use Rattle.crp_c.specs.Asked.{IsRefusedBay};

use crate::trouble::Trouble;
use crp_plan::Problem;
use std::alloc::Global;

/// The rows of which the first has so many of the ranks, and so on.
fn rows_from(alloc: Global, counts: &[u8], ranks: &[u8]) -> Result<Vec<Vec<u8>>, Trouble>
    ensures filled { OnOk result (FillRows counts.now ranks.now) }
    ensures rows { IfOk result (λ rows. stacks_of rows.items ≡ rows_of counts.now ranks.now) }
    ensures refused { IfErr result (λ trouble. (trouble ≡ Trouble.Memory)
        ⊎ ((trouble ≡ Trouble.Ranks) × ¬ FillRows counts.now ranks.now)) }
{
    let mut rows = Vec::new(alloc);
    let mut rest = ranks;
    for count in counts {
        let count = *count as usize;
        if count > rest.len() {
            return Err(Trouble::Ranks);
        }
        let row = Vec::from_slice(alloc, &rest[..count])?;
        let Ok(()) = rows.push(row) else {
            return Err(Trouble::Memory);
        };
        rest = &rest[count..];
    }
    if !rest.is_empty() {
        return Err(Trouble::Ranks);
    }
    Ok(rows)
}

/// The problem with these heights, from which so many are to leave.
pub(crate) fn problem_from(
    alloc: Global,
    heights: &[u8],
    counts: &[u8],
    ranks: &[u8],
    ordered: u8,
) -> Result<Problem, Trouble>
    ensures filled { OnOk result (FillRows counts.now ranks.now) }
    ensures value { IfOk result (λ p. p ≡ stated_with heights.now ordered (rows_of counts.now ranks.now)) }
    ensures problem { IfOk result IsProblem }
    ensures refused { IfErr result (IsRefusedBay heights.now counts.now ranks.now ordered) }
{
    let rows = rows_from(alloc, counts, ranks)?;
    match Problem::with_heights(heights, ordered, &rows) {
        Ok(problem) => Ok(problem),
        Err(fault) => Err(Trouble::Problem(fault)),
    }
}
