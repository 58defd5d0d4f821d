//! What is wrong with a statement, and a statement that is a problem.
ghost use Rattle.std.specs.Prelude.{◌≡◌, ◌<◌, ◌↔◌, [], ◌∷◌, IfOk, Some, None};
ghost use Rattle.crp_plan.specs.Rows.{total, FitRows};
ghost use Rattle.crp_plan.specs.Bay.{IsProblem};
ghost use Rattle.crp_plan.specs.Faults.{stacks_of, stated, stated_with, HasRows, HasTiers, FitTiers, HasHeights, AreHeights, AreRanks, IsFirstFault};
ghost use Rattle.crp_callers.specs.SmallBays.{bay_of_six};

use crp_plan::{Problem, ProblemFault, one_fault};
use std::alloc::{AllocError, Global};

/// What is wrong with a statement of rows of one height, and nothing where it is a problem. Of several faults it is the first of
/// these: no rows or too many, no tiers or too many, a stack above its height, wrong ranks, too many to leave.
pub fn fault_of(tiers: u8, ordered: u8, stacks: &[Vec<u8>]) -> Option<ProblemFault>
    ensures none { result ≡ None ↔ IsProblem (stated tiers ordered (stacks_of stacks.now)) }
    ensures rows { ¬ HasRows (stacks_of stacks.now) → result ≡ Some ProblemFault.Rows }
    ensures tiers { HasRows (stacks_of stacks.now) → ¬ HasTiers tiers → result ≡ Some ProblemFault.Tiers }
    ensures too_high { HasRows (stacks_of stacks.now) → HasTiers tiers → ¬ FitTiers tiers (stacks_of stacks.now)
        → result ≡ Some ProblemFault.TooHigh }
    ensures ranks { HasRows (stacks_of stacks.now) → HasTiers tiers → FitTiers tiers (stacks_of stacks.now)
        → ¬ AreRanks (stacks_of stacks.now) → result ≡ Some ProblemFault.Ranks }
    ensures ordered { HasRows (stacks_of stacks.now) → HasTiers tiers → FitTiers tiers (stacks_of stacks.now)
        → AreRanks (stacks_of stacks.now) → total (stacks_of stacks.now) < ordered → result ≡ Some ProblemFault.Ordered }
{
    match Problem::new(tiers, ordered, stacks) {
        Ok(_) => None,
        Err(fault) => Some(fault),
    }
}

/// The same where each row has a height of its own, and there may be too few heights or too many.
pub fn fault_with(heights: &[u8], ordered: u8, stacks: &[Vec<u8>]) -> Option<ProblemFault>
    ensures none { result ≡ None ↔ IsProblem (stated_with heights.now ordered (stacks_of stacks.now)) }
    ensures rows { ¬ HasHeights heights.now (stacks_of stacks.now) → result ≡ Some ProblemFault.Rows }
    ensures tiers { HasHeights heights.now (stacks_of stacks.now) → ¬ AreHeights heights.now → result ≡ Some ProblemFault.Tiers }
    ensures too_high { HasHeights heights.now (stacks_of stacks.now) → AreHeights heights.now
        → ¬ FitRows heights.now (stacks_of stacks.now) → result ≡ Some ProblemFault.TooHigh }
    ensures ranks { HasHeights heights.now (stacks_of stacks.now) → AreHeights heights.now → FitRows heights.now (stacks_of stacks.now)
        → ¬ AreRanks (stacks_of stacks.now) → result ≡ Some ProblemFault.Ranks }
    ensures ordered { HasHeights heights.now (stacks_of stacks.now) → AreHeights heights.now → FitRows heights.now (stacks_of stacks.now)
        → AreRanks (stacks_of stacks.now) → total (stacks_of stacks.now) < ordered → result ≡ Some ProblemFault.Ordered }
{
    match Problem::with_heights(heights, ordered, stacks) {
        Ok(_) => None,
        Err(fault) => Some(fault),
    }
}

/// Where two rows have no tiers and 1 stands in both, the tiers are what is wrong.
pub fn tiers_before_ranks()
    ensures { (fault : ProblemFault) → IsFirstFault 0 1 ((1 ∷ []) ∷ (1 ∷ []) ∷ []) fault → fault ≡ ProblemFault.Tiers }
{
    one_fault();
}

/// The bay of six containers, whose statement is a problem. The error says that memory ran out.
pub fn bay_of_six(alloc: Global) -> Result<Problem, AllocError>
    ensures { IfOk result (λ problem. problem ≡ bay_of_six) }
{
    let mut rows = Vec::new(alloc);
    rows.push(Vec::from_slice(alloc, &[1, 5, 4])?)?;
    rows.push(Vec::from_slice(alloc, &[6])?)?;
    rows.push(Vec::from_slice(alloc, &[3, 2])?)?;
    match Problem::new(3, 6, &rows) {
        Ok(problem) => Ok(problem),
        Err(_) => unreachable!(),
    }
}
