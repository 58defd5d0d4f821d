//! The ranks that the row lines of a certificate state.
ghost use Rattle.std.specs.Prelude.{ℕ, ◌+◌, ◌*◌, ◌<◌, ◌≤◌, ◌↔◌, All, IsTrue, length, ◌==◌};
ghost use Rattle.crp_plan.specs.Rows.{occurrences};
ghost use Rattle.crp_plan.specs.Faults.{stacks_of};
ghost use Rattle.crp_cert.specs.Reading.{IsNewRank};

use crp_plan::{places, times};

/// Whether a rank is one of so many, and stands once in a stack and in none of these stacks.
fn is_new(containers: u8, rank: u8, stack: &[u8], stacks: &[Vec<u8>]) -> bool
    requires rows { length stacks.now ≤ 12 }
    requires fit { All (λ row. length row.items ≤ 8) stacks.now }
    ensures { IsTrue result ↔ IsNewRank containers stack.now (stacks_of stacks.now) rank }
{
    rank >= 1 && rank <= containers && times(rank, stack) == 1 && places(rank, stacks) == 0
}

/// Whether each rank of a stack is one of so many, and stands there once and in none of these
/// stacks.
pub fn are_new(containers: u8, stack: &[u8], stacks: &[Vec<u8>]) -> bool
    requires rows { length stacks.now ≤ 12 }
    requires fit { All (λ row. length row.items ≤ 8) stacks.now }
    ensures { IsTrue result ↔ All (IsNewRank containers stack.now (stacks_of stacks.now)) stack.now }
{
    for rank in stack {
        if !is_new(containers, *rank, stack, stacks) {
            return false;
        }
    }
    true
}

/// Whether each of so many ranks stands in one of these stacks.
pub fn are_all(containers: u8, stacks: &[Vec<u8>]) -> bool
    requires rows { length stacks.now ≤ 12 }
    requires fit { All (λ row. length row.items ≤ 8) stacks.now }
    requires few { containers ≤ 96 }
    ensures { IsTrue result ↔ ((x : ℕ) → 1 ≤ x → x ≤ containers → 0 < occurrences x (stacks_of stacks.now)) }
{
    for rank in 1..containers + 1 {
        if places(rank, stacks) == 0 {
            return false;
        }
    }
    true
}
