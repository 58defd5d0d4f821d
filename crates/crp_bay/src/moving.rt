//! Moves in place, by the rows in which the ranks stand.
ghost use Rattle.std.specs.Prelude.{ℕ, ◌≡◌, ◌-◌, ◌≤◌, ◌<◌, ◌++◌, ◌∷◌, [], length, slice_set, slice_index_or};
ghost use Rattle.crp_bay.specs.Positions.{top, without_top, ends_in, settled};
ghost use Rattle.crp_bay.specs.Back.{place_of, all_back};
ghost use Rattle.crp_bay.specs.Located.{IsLocated, StepsBack};

use crp_plan::Stack;

/// Whether a rank is on top of a stack.
#[inline]
pub fn is_on_top(rank: u8, stack: &[u8]) -> bool
    ensures { result ≡ ends_in rank stack.now }
{
    let count = stack.len();
    count > 0 && stack[count - 1] == rank
}

/// Takes the top off a row, from 0, that has one.
#[inline]
pub fn lift(row: usize, stacks: &mut [Stack]) -> u8
    requires there { row < length stacks.old }
    requires some { 0 < length (slice_index_or stacks.old row []) }
    ensures value { result ≡ top (slice_index_or stacks.old row []) }
    ensures rest { stacks.new ≡ slice_set stacks.old row (without_top (slice_index_or stacks.old row [])) }
{
    stacks[row].pop()
}

/// Puts a rank on top of a row, from 0, that has room.
#[inline]
pub fn land(row: usize, rank: u8, stacks: &mut [Stack])
    requires there { row < length stacks.old }
    requires room { length (slice_index_or stacks.old row []) < 8 }
    ensures { stacks.new ≡ slice_set stacks.old row (slice_index_or stacks.old row [] ++ rank ∷ []) }
{
    stacks[row].push(rank);
}

/// Makes each take that is legal, and answers the rank whose turn it is then. The heights are those of the rows.
#[inline]
pub fn settle(heights: &[u8], ordered: u8, first: u8, row_of: &[u8; 97], stacks: &mut [Stack]) -> u8
    requires few { ordered ≤ 96 }
    requires located { IsLocated row_of.now (place_of heights.now ordered first stacks.old) }
    ensures { place_of heights.now ordered result stacks.new ≡ settled (place_of heights.now ordered first stacks.old) }
{
    // Named in the contract alone.
    let _heights = heights;
    let mut next = first;
    while next <= ordered {
        let row = row_of[next as usize] as usize;
        if !is_on_top(next, stacks[row].ranks()) {
            return next;
        }
        let _rank = lift(row, stacks);
        next += 1;
    }
    next
}

/// Puts the containers from this rank on, of those that left before the last, back where they stood.
#[inline]
pub fn go_back(
    heights: &[u8],
    ordered: u8,
    until: u8,
    last: u8,
    row_of: &[u8; 97],
    stacks: &mut [Stack],
)
    requires within { until ≤ last }
    requires steps { (j : ℕ) → j < last - until → StepsBack row_of.now (all_back row_of.now j (place_of heights.now ordered last stacks.old)) }
    ensures { place_of heights.now ordered until stacks.new ≡ all_back row_of.now (last - until) (place_of heights.now ordered last stacks.old) }
{
    // Named in the contract alone.
    let _ordered = ordered;
    let _heights = heights;
    let mut next = last;
    while next > until {
        next -= 1;
        land(row_of[next as usize] as usize, next, stacks);
    }
}
