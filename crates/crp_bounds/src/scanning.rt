//! The count of the look-ahead bound with no stack copied or cut: how much is left of each, and the greatest offer of all rows.
ghost use Rattle.std.specs.Prelude.{◌≡◌, ℕ, ◌+◌, ◌-◌, ◌*◌, ◌<◌, ◌≤◌, suc, true, [], All, length, take, count_by, ◌==◌, nat_lt, slice_index, slice_index_or, IfSome, IfNone};
ghost use Rattle.crp_plan.specs.Rows.{holds, above, below};
ghost use Rattle.crp_bounds.specs.Bounds.{blocking as blocking_bound, stuck_now};
ghost use Rattle.crp_bounds.specs.Leasts.{least_ordered, KnowsLeasts};
ghost use Rattle.crp_bounds.specs.Offers.{greatest, offer, offers};

use crate::known::least_of;
use crp_bay::Position;

/// What a row of a height with this stack offers.
#[inline]
fn offer_of(ordered: u8, leasts: &[u8; 97], height: u8, stack: &[u8]) -> u8
    requires ranks { All (λ rank. rank ≤ 96) stack.now }
    requires known { (i : ℕ) → i < length stack.now
        → slice_index leasts.now (slice_index stack.now i) ≡ least_ordered ordered (take (suc i) stack.now) }
    ensures { result ≡ offer ordered height stack.now }
{
    if height as usize <= stack.len() {
        return 0;
    }
    least_of(ordered, leasts, stack)
}

/// Writes how many containers stand in each row, from 0, and answers the greatest of what all rows offer; `None` where a row is empty,
/// so that it has a place for any container.
#[inline]
fn begun(position: &Position, leasts: &[u8; 97], left: &mut [u8; 16]) -> Option<u32>
    requires known { KnowsLeasts leasts.now position.now.place }
    requires empty { (r : ℕ) → slice_index left.old r ≡ 0 }
    ensures left { IfSome result (λ _. (r : ℕ) → slice_index left.new r ≡ length (slice_index_or position.now.place.stacks r [])) }
    ensures long { length left.new ≡ 16 }
    ensures most { IfSome result (λ most. most ≡ greatest (offers position.now.place.ordered position.now.place.heights position.now.place.stacks)) }
    ensures open { IfNone result (greatest (offers position.now.place.ordered position.now.place.heights position.now.place.stacks) ≡ 255) }
{
    let mut most: u32 = 0;
    for row in 1..position.rows() + 1 {
        let height = position.height(row);
        let stack = position.stack(row);
        if stack.is_empty() {
            return None;
        }
        left[row as usize - 1] = stack.len() as u8;
        most = most.max(u32::from(offer_of(position.ordered(), leasts, height, stack)));
    }
    Some(most)
}

/// Of the containers above a rank how many are greater than the greatest offer, and how many stand below the rank.
struct Cut {
    more: u32,
    kept: usize,
}

/// What stands above and below a rank in its stack.
#[inline]
fn cut_at_rank(rank: u8, most: u32, stack: &[u8]) -> Cut
    requires short { length stack.now ≤ 8 }
    requires held { holds rank stack.now ≡ true }
    requires once { count_by (λ y. y == rank) stack.now ≤ 1 }
    ensures below { take result.kept stack.now ≡ below rank stack.now }
    ensures lower { result.kept < length stack.now }
    ensures found { slice_index stack.now result.kept ≡ rank }
    ensures more { result.more ≡ count_by (nat_lt most) (above rank stack.now) }
    ensures few { result.more ≤ 8 }
{
    let mut kept = stack.len() - 1;
    let mut more: u32 = 0;
    while stack[kept] != rank {
        if most < u32::from(stack[kept]) {
            more += 1;
        }
        kept -= 1;
    }
    Cut { more, kept }
}

/// What was counted, where it is not below `need`.
#[inline]
fn if_reached(count: u32, need: u32) -> Option<u32>
    ensures value { IfSome result (λ reached. reached ≡ count) }
    ensures reached { IfSome result (λ reached. need ≤ reached) }
    ensures short { IfNone result (count < need) }
{
    if count < need { None } else { Some(count) }
}

/// How many containers would block again, rank by rank, where those that block now are so many, or as many of them as are
/// `enough`; `None` exactly where they are fewer than `need`.
///
/// A rank still stands at its turn exactly where it stands above no lower one, so that it is the least at or below it. Each container
/// counts once at most, and only one that blocks: what stands above the next rank in its stack all blocks, and is gone
/// once the stack is cut off. So there are never more than have counted and still block.
#[inline(always)]
pub fn again_reaching(
    position: &Position,
    leasts: &[u8; 97],
    blocking: u32,
    need: u32,
    enough: u32,
) -> Option<u32>
    requires known { KnowsLeasts leasts.now position.now.place }
    requires blocking { blocking ≡ blocking_bound position.now.place }
    requires enough { need ≤ enough }
    ensures most { IfSome result (λ again. again ≤ stuck_now position.now.place) }
    ensures all { IfSome result (λ again. again < enough → again ≡ stuck_now position.now.place) }
    ensures reached { IfSome result (λ again. need ≤ again) }
    ensures short { IfNone result (stuck_now position.now.place < need) }
    ensures few { IfSome result (λ again. again ≤ 96 * 96) }
{
    let ordered = position.ordered();
    if blocking < need {
        return None;
    }
    let mut left = [0u8; 16];
    let Some(mut most) = begun(position, leasts, &mut left) else {
        return if_reached(0, need);
    };
    let mut again: u32 = 0;
    let mut still = blocking;
    for rank in position.next()..ordered + 1 {
        if leasts[rank as usize] == rank {
            if most == 255 {
                return if_reached(again, need);
            }
            let (row, whole) = position.stack_of(rank);
            let stack = &whole[..left[row] as usize];
            let Cut { more, kept } = cut_at_rank(rank, most, stack);
            again += more;
            if enough <= again {
                return Some(again);
            }
            still -= (stack.len() - 1 - kept) as u32;
            if again + still < need {
                return None;
            }
            left[row] = kept as u8;
            most = most.max(u32::from(least_of(ordered, leasts, &stack[..kept])));
        }
    }
    if_reached(again, need)
}

/// How many containers would block again, rank by rank, where those that block now are so many.
pub fn again_from(position: &Position, leasts: &[u8; 97], blocking: u32) -> u32
    requires known { KnowsLeasts leasts.now position.now.place }
    requires blocking { blocking ≡ blocking_bound position.now.place }
    ensures value { result ≡ stuck_now position.now.place }
    ensures few { result ≤ 96 * 96 }
{
    let Some(again) = again_reaching(position, leasts, blocking, 0, u32::MAX) else {
        unreachable!()
    };
    again
}
