//! The count of the look-ahead bound of a thinned position, with no stack copied or cut: how much is left of each, and the greatest offer
//! of all rows.
ghost use Rattle.std.specs.Prelude.{◌≡◌, ℕ, ◌+◌, ◌-◌, ◌*◌, ◌<◌, ◌≤◌, ◌↔◌, suc, true, false, [], All, IsTrue, length, take, count_by, ◌==◌, nat_le, nat_lt, min, if◌then◌else◌, slice_index, slice_index_or};
ghost use Rattle.crp_plan.specs.Rows.{holds, above, below, occurrences};
ghost use Rattle.crp_bay.specs.Located.{AreRowsOf};
ghost use Rattle.crp_bounds.specs.Bounds.{blocking as blocking_bound, stuck_now};
ghost use Rattle.crp_bounds.specs.Leasts.{least_ordered};
ghost use Rattle.crp_bounds.specs.Offers.{greatest, offer, offers};

use crate::track::Track;
use crp_plan::Stack;

/// Writes the row, from 0, of each rank of a stack.
fn mark(row: u8, ranks: &[u8], row_of: &mut [u8])
    requires few { (x : ℕ) → holds x ranks.now ≡ true → x < length row_of.old }
    ensures marked { (x : ℕ) → holds x ranks.now ≡ true → slice_index row_of.new x ≡ row }
    ensures others { (x : ℕ) → holds x ranks.now ≡ false → slice_index row_of.new x ≡ slice_index row_of.old x }
{
    for rank in ranks {
        row_of[*rank as usize] = row;
    }
}

/// The row, from 0, of each rank that stands.
pub fn rows_of(stacks: &[Stack]) -> [u8; 256]
    requires rows { length stacks.now ≤ 12 }
    requires once { (x : ℕ) → occurrences x stacks.now ≤ 1 }
    requires few { (x : ℕ) → 1 ≤ occurrences x stacks.now → x ≤ 96 }
    ensures rows { AreRowsOf (length stacks.now) stacks.now result }
    ensures long { length result ≡ 256 }
{
    let mut row_of = [0u8; 256];
    for (row, stack) in stacks.iter().enumerate() {
        mark(row as u8, stack.ranks(), &mut row_of);
    }
    row_of
}

/// The least ordered rank of some containers, which have this least one, and one more.
#[inline]
pub fn least_with(ordered: u8, rank: u8, least: u8) -> u8
    ensures { result ≡ (if nat_le rank ordered then min rank least else least) }
{
    if rank <= ordered && rank < least {
        rank
    } else {
        least
    }
}

/// The least ordered rank of a stack; 255 where there is none.
pub fn least_of(ordered: u8, stack: &[u8]) -> u8
    ensures { result ≡ least_ordered ordered stack.now }
{
    let mut least: u8 = 255;
    let mut left = stack.len();
    while left > 0 {
        left -= 1;
        least = least_with(ordered, stack[left], least);
    }
    least
}

/// What a row of a height with this stack offers, of which this is the least ordered rank.
#[inline]
fn offer_of(ordered: u8, height: u8, stack: &[u8], least: u8) -> u8
    requires { least ≡ least_ordered ordered stack.now }
    ensures { result ≡ offer ordered height stack.now }
{
    if height as usize <= stack.len() {
        return 0;
    }
    least
}

/// Writes of each row, from 0, how many containers stand there and the least ordered rank of them, and answers the greatest of what all
/// rows offer.
fn begun(
    ordered: u8,
    heights: &[u8],
    stacks: &[Stack],
    left: &mut [u8; 16],
    leasts: &mut [u8; 16],
) -> u8
    requires same { length heights.now ≡ length stacks.now }
    requires few { length heights.now ≤ 12 }
    requires empty { (r : ℕ) → slice_index left.old r ≡ 0 }
    ensures left { (r : ℕ) → slice_index left.new r ≡ length (slice_index_or stacks.now r []) }
    ensures leasts { (r : ℕ) → r < length stacks.now → slice_index leasts.new r ≡ least_ordered ordered (slice_index_or stacks.now r []) }
    ensures long { length left.new ≡ 16 }
    ensures leasts_long { length leasts.new ≡ 16 }
    ensures most { result ≡ greatest (offers ordered heights.now stacks.now) }
{
    let mut most: u8 = 0;
    for row in 1..heights.len() as u8 + 1 {
        let index = row as usize - 1;
        let stack = stacks[index].ranks();
        let least = least_of(ordered, stack);
        left[index] = stack.len() as u8;
        leasts[index] = least;
        most = most.max(offer_of(ordered, heights[index], stack, least));
    }
    most
}

/// Of the containers above a rank how many are greater than the greatest offer, and how many stand below the rank.
struct Cut {
    more: u32,
    kept: usize,
}

/// What stands above and below a rank in its stack.
#[inline]
fn cut_at_rank(rank: u8, most: u8, stack: &[u8]) -> Cut
    requires short { length stack.now ≤ 8 }
    requires held { holds rank stack.now ≡ true }
    requires once { count_by (λ y. y == rank) stack.now ≤ 1 }
    ensures below { take result.kept stack.now ≡ below rank stack.now }
    ensures lower { result.kept < length stack.now }
    ensures more { result.more ≡ count_by (nat_lt most) (above rank stack.now) }
    ensures few { result.more ≤ 8 }
{
    let mut kept = stack.len() - 1;
    let mut more: u32 = 0;
    while stack[kept] != rank {
        if most < stack[kept] {
            more += 1;
        }
        kept -= 1;
    }
    Cut { more, kept }
}

/// Whether so many containers would block again, rank by rank, where those that block now are so many.
pub fn stuck_reaches(track: &Track, blocking: u32, need: u32) -> bool
    requires blocking { blocking ≡ blocking_bound track.now.place }
    requires few { blocking ≤ 96 }
    ensures { IsTrue result ↔ (need ≤ stuck_now track.now.place) }
{
    let ordered = track.ordered();
    if blocking < need {
        return false;
    }
    let stacks = track.stacks();
    let row_of = track.row_of();
    let mut left = [0u8; 16];
    let mut leasts = [0u8; 16];
    let mut most = begun(ordered, track.heights(), stacks, &mut left, &mut leasts);
    let mut again: u32 = 0;
    let mut still = blocking;
    for rank in track.next()..ordered + 1 {
        let index = row_of[rank as usize] as usize;
        if index < stacks.len() {
            if leasts[index] == rank {
                if most == 255 {
                    return need <= again;
                }
                let stack = &stacks[index].ranks()[..left[index] as usize];
                let Cut { more, kept } = cut_at_rank(rank, most, stack);
                again += more;
                if need <= again {
                    return true;
                }
                still -= (stack.len() - 1 - kept) as u32;
                if again + still < need {
                    return false;
                }
                let least = least_of(ordered, &stack[..kept]);
                left[index] = kept as u8;
                leasts[index] = least;
                most = most.max(least);
            }
        }
    }
    need <= again
}
