//! The rows where the blocker is well placed.
ghost use Rattle.std.specs.Prelude.{◌≡◌, ◌≤◌, ◌<◌, ◌-◌, ◌&&◌, not, nat_lt, [], length, slice_index, sum_by, Contains};
ghost use Rattle.crp_bay.specs.Positions.{top, source, stack_at, can_shift};
ghost use Rattle.crp_bounds.specs.Bounds.{holds_lower};
ghost use Rattle.crp_thinned.specs.Hindering.{lower_blocking, hinders_nobody as nobody};
ghost use Rattle.crp_thinned.specs.Thinned.{blocker as blocker_of, is_well_placed, good_rows as rows_of, free_row as first_free};
ghost use Rattle.crp_thinned.specs.Missing.{IsSoundlyThin};
ghost use Rattle.crp_thinning.specs.EachRow.{AreGood};

use crate::hindering::{count_lower, hinders_nobody};
use crate::looking::stack;
use crate::scanning::least_of;
use crate::track::Track;
use arrayvec::ArrayVec;
use crp_plan::MAX_ROWS;

/// Whether an ordered container of a lower rank than `c` stands in the stack.
pub fn has_lower(ordered: u8, c: u8, stack: &[u8]) -> bool
    ensures { result ≡ holds_lower ordered c stack.now }
{
    stack.iter().any(|d| *d <= ordered && *d < c)
}

/// The rank on top of a stack that has one.
#[inline]
fn top_of(stack: &[u8]) -> u8
    requires { 0 < length stack.now }
    ensures { result ≡ top stack.now }
{
    stack[stack.len() - 1]
}

/// Whether a row of a height has room for a rank, which is well placed there.
#[inline]
fn has_good_room(ordered: u8, rank: u8, height: u8, stack: &[u8]) -> bool
    ensures { result ≡ (nat_lt (length stack.now) height && not (holds_lower ordered rank stack.now)) }
{
    stack.len() < height as usize && !has_lower(ordered, rank, stack)
}

/// The container that has to make way.
pub fn blocker(track: &Track) -> u8
    requires thin { IsSoundlyThin track.now.place }
    requires left { track.now.place.next ≤ track.now.place.ordered }
    ensures { result ≡ blocker_of track.now.place }
{
    top_of(track.stacks()[track.source()].ranks())
}

/// Whether the blocker, of this rank and in this row, from 0, can go to a row and is well placed there.
fn is_good(track: &Track, from: usize, rank: u8, row: u8) -> bool
    requires left { track.now.place.next ≤ track.now.place.ordered }
    requires source { from ≡ source track.now.place }
    requires blocker { rank ≡ blocker_of track.now.place }
    requires counts { 1 ≤ row }
    requires there { row ≤ length track.now.place.heights }
    ensures { result ≡ (can_shift track.now.place row && is_well_placed track.now.place row) }
{
    let index = row as usize - 1;
    if index == from {
        return false;
    }
    let height = track.heights()[index];
    has_good_room(track.ordered(), rank, height, track.stacks()[index].ranks())
}

/// The legal rows where it is well placed, rising.
pub fn good_rows(track: &Track) -> ArrayVec<u8, MAX_ROWS>
    requires thin { IsSoundlyThin track.now.place }
    ensures { result.items ≡ rows_of track.now.place }
{
    let mut rows = ArrayVec::new();
    let ordered = track.ordered();
    if track.next() > ordered {
        return rows;
    }
    let from = track.source();
    let rank = blocker(track);
    for row in 1..track.heights().len() as u8 + 1 {
        if is_good(track, from, rank, row) {
            rows.push(row);
        }
    }
    rows
}

/// At which place among these rows, from 0, the one stands whose least ordered rank is the smallest, so that the blocker fits best
/// there; 0 where there are none.
pub fn best_fit(track: &Track, rows: &[u8]) -> usize
    requires { AreGood track.now.place rows.now }
    ensures { result ≤ length rows.now }
{
    let mut best = 0;
    let mut least = 255;
    for i in 0..rows.len() {
        let here = least_of(track.ordered(), stack(track, rows[i]));
        if here < least {
            best = i;
            least = here;
        }
    }
    best
}

/// Whether the blocker, of this rank and in this row, from 0, can go to a row, is well placed there and hinders nobody, where so many
/// containers may come to stand on it.
fn is_free(track: &Track, from: usize, rank: u8, row: u8, lower: u32) -> bool
    requires left { track.now.place.next ≤ track.now.place.ordered }
    requires source { from ≡ source track.now.place }
    requires blocker { rank ≡ blocker_of track.now.place }
    requires counts { 1 ≤ row }
    requires there { row ≤ length track.now.place.heights }
    requires lower { lower ≡ sum_by (λ stack. lower_blocking track.now.place.ordered rank [] stack) track.now.place.stacks }
    requires few { lower ≤ 96 }
    ensures { result ≡ (can_shift track.now.place row && is_well_placed track.now.place row
        && nobody track.now.place.ordered (blocker_of track.now.place) track.now.place.stacks (slice_index track.now.place.heights (row - 1)) (stack_at track.now.place (row - 1))) }
{
    if !is_good(track, from, rank, row) {
        return false;
    }
    let index = row as usize - 1;
    let height = track.heights()[index];
    let stacks = track.stacks();
    hinders_nobody(
        track.ordered(),
        rank,
        stacks,
        height,
        stacks[index].ranks(),
        lower,
    )
}

/// The first legal row where it hinders nobody; 0 where there is none.
pub fn free_row(track: &Track) -> u8
    requires thin { IsSoundlyThin track.now.place }
    ensures { result ≡ first_free track.now.place }
{
    let ordered = track.ordered();
    if track.next() > ordered {
        return 0;
    }
    let from = track.source();
    let rank = blocker(track);
    if rank > ordered {
        return 0;
    }
    let lower = count_lower(ordered, rank, track.stacks());
    for row in 1..track.heights().len() as u8 + 1 {
        if is_free(track, from, rank, row, lower) {
            return row;
        }
    }
    0
}
