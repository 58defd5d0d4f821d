//! Where a container hinders nobody.
ghost use Rattle.std.specs.Prelude.{◌≡◌, ℕ, ◌≤◌, ◌&&◌, ◌||◌, List, [], not, nat_le, nat_lt, length, sum_by};
ghost use Rattle.crp_bounds.specs.Bounds.{holds_lower};
ghost use Rattle.crp_bounds.specs.Leasts.{least_ordered};
ghost use Rattle.crp_thinned.specs.Hindering.{hindered, lower_blocking, hinders_nobody as nobody};

use crate::scanning::{least_of, least_with};
use crp_plan::Stack;

/// Whether a container would miss a stack with this least ordered rank if one of this rank stood there; `lower` is whether an ordered one
/// of a lower rank than this stands below the container.
#[inline]
fn misses(rank: u8, least: u8, lower: bool, other: u8) -> bool
    ensures { (ordered : ℕ) (onto : List ℕ) → least ≡ least_ordered ordered onto → result ≡ (nat_lt rank other && (lower && not (holds_lower ordered other onto))) }
{
    rank < other && (lower && other <= least)
}

/// Whether one container more, or what stands below it, is ordered and of a lower rank.
#[inline]
fn or_lower(ordered: u8, rank: u8, other: u8, lower: bool) -> bool
    ensures { result ≡ (lower || (nat_le other ordered && nat_lt other rank)) }
{
    lower || (other <= ordered && other < rank)
}

/// Whether a container, where the least ordered rank below it is this, may come to stand on one of this rank.
#[inline]
fn may_stand_on(rank: u8, least: u8, other: u8) -> bool
    ensures { (ordered : ℕ) (under : List ℕ) → least ≡ least_ordered ordered under → result ≡ (nat_lt other rank && holds_lower ordered other under) }
{
    other < rank && least < other
}

/// How many containers of a stack would miss another one with this least ordered rank, if one of this rank stood there.
fn hindered_in(ordered: u8, rank: u8, least: u8, stack: &[u8]) -> u32
    requires { length stack.now ≤ 8 }
    ensures value { (onto : List ℕ) → least ≡ least_ordered ordered onto → result ≡ hindered ordered rank onto [] stack.now }
    ensures few { result ≤ 8 }
{
    let mut count: u32 = 0;
    let mut lower = false;
    for i in 0..stack.len() {
        let other = stack[i];
        if misses(rank, least, lower, other) {
            count += 1;
        }
        lower = or_lower(ordered, rank, other, lower);
    }
    count
}

/// How many containers of a stack may come to stand on one of this rank.
fn lower_in(ordered: u8, rank: u8, stack: &[u8]) -> u32
    requires { length stack.now ≤ 8 }
    ensures value { result ≡ lower_blocking ordered rank [] stack.now }
    ensures few { result ≤ 8 }
{
    let mut count: u32 = 0;
    let mut least = 255;
    for i in 0..stack.len() {
        let other = stack[i];
        if may_stand_on(rank, least, other) {
            count += 1;
        }
        least = least_with(ordered, other, least);
    }
    count
}

/// Whether no container would miss a stack with this least ordered rank if one of this rank stood there.
fn none_is_hindered(ordered: u8, rank: u8, least: u8, stacks: &[Stack]) -> bool
    ensures { (onto : List ℕ) → least ≡ least_ordered ordered onto → result ≡ nat_le (sum_by (λ stack. hindered ordered rank onto [] stack) stacks.now) 0 }
{
    for stack in stacks {
        if hindered_in(ordered, rank, least, stack.ranks()) > 0 {
            return false;
        }
    }
    true
}

/// How many containers may come to stand on one of this rank.
pub fn count_lower(ordered: u8, rank: u8, stacks: &[Stack]) -> u32
    requires { length stacks.now ≤ 12 }
    ensures value { result ≡ sum_by (λ stack. lower_blocking ordered rank [] stack) stacks.now }
    ensures few { result ≤ 96 }
{
    let mut count: u32 = 0;
    for stack in stacks {
        count += lower_in(ordered, rank, stack.ranks());
    }
    count
}

/// Whether a container hinders nobody on a stack of a row of a height, where so many containers may come to stand on it.
pub fn hinders_nobody(
    ordered: u8,
    rank: u8,
    stacks: &[Stack],
    height: u8,
    onto: &[u8],
    lower: u32,
) -> bool
    requires rows { length stacks.now ≤ 12 }
    requires short { length onto.now ≤ 8 }
    requires lower { lower ≡ sum_by (λ stack. lower_blocking ordered rank [] stack) stacks.now }
    requires few { lower ≤ 96 }
    ensures { result ≡ nobody ordered rank stacks.now height onto.now }
{
    if rank > ordered {
        return false;
    }
    let room = onto.len() as u32 + 1 + lower;
    if room > height as u32 {
        return false;
    }
    none_is_hindered(ordered, rank, least_of(ordered, onto), stacks)
}
