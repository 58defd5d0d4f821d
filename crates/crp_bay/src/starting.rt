//! What a position keeps of where each rank stands.
ghost use Rattle.std.specs.Prelude.{ℕ, ◌≡◌, ◌-◌, ◌≤◌, ◌<◌, true, false, length, slice_index};
ghost use Rattle.crp_plan.specs.Rows.{holds, occurrences};
ghost use Rattle.crp_bay.specs.Located.{AreRowsOf};

use crp_plan::Stack;

/// Writes the row, from 0, of each rank of a stack.
fn mark(row: u8, ranks: &[u8], row_of: &mut [u8])
    requires few { (x : ℕ) → holds x ranks.now ≡ true → x < length row_of.old }
    ensures marked { (x : ℕ) → holds x ranks.now ≡ true → slice_index row_of.new x ≡ row }
    ensures others { (x : ℕ) → holds x ranks.now ≡ false → slice_index row_of.new x ≡ slice_index row_of.old x }
{
    for rank in ranks {
        row_of[*rank as usize] = row;
    }
}

/// The row, from 0, of each rank.
pub fn rows_of(stacks: &[Stack]) -> [u8; 97]
    requires rows { length stacks.now ≤ 12 }
    requires once { (x : ℕ) → occurrences x stacks.now ≤ 1 }
    requires few { (x : ℕ) → 1 ≤ occurrences x stacks.now → x ≤ 96 }
    ensures rows { AreRowsOf (length stacks.now) stacks.now result }
    ensures long { length result ≡ 97 }
{
    let mut row_of = [0u8; 97];
    for (row, stack) in stacks.iter().enumerate() {
        mark(row as u8, stack.ranks(), &mut row_of);
    }
    row_of
}
