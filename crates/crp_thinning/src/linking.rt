//! Whether containers that block make a chain, and what it gains.
ghost use Rattle.std.specs.Prelude.{◌≡◌, ◌≤◌, ◌↔◌, ℕ, List, IsTrue, IfSome, IfNone, length, nat_lt};
ghost use Rattle.std.specs.List.{AllByRecursion, list_all};
ghost use Rattle.crp_chains.specs.declared.blocker.Blocker.{Blocker as Named};
ghost use Rattle.crp_chains.specs.Chains.{IsBlocker, StandsAbove, MayFollow, AreLinked, AreInTime, IsChain, ranks_of, chain_gain};
ghost use Rattle.crp_thinned.specs.Missing.{IsSoundlyThin};

use crate::finding::blockers_of;
use crate::moving::is_in;
use crate::opening::open_rows;
use crate::track::Track;
use arrayvec::ArrayVec;
use crp_chains::{Blocker, beneath};

/// Whether a container that blocks stands above another.
fn is_above(track: &Track, upper: Blocker, lower: u8) -> bool
    requires thin { IsSoundlyThin track.now.place }
    requires blocks { IsBlocker track.now.place upper }
    ensures { IsTrue result ↔ StandsAbove track.now.place upper.rank lower }
{
    let stacks = track.stacks();
    let row = track.place_of_rank(upper.turn);
    is_in(lower, beneath(upper.rank, stacks[row].ranks()))
}

/// Whether the second may follow the first in a chain.
fn may_follow(track: &Track, first: Blocker, second: Blocker) -> bool
    requires thin { IsSoundlyThin track.now.place }
    requires blocks { IsBlocker track.now.place first }
    ensures { IsTrue result ↔ MayFollow track.now.place first second }
{
    if first.rank > track.ordered() || first.rank >= second.rank {
        return false;
    }
    if first.turn == second.turn {
        return is_above(track, first, second.rank);
    }
    first.turn < second.turn
}

/// Whether each may follow the one before it.
fn are_linked(track: &Track, chain: &[Blocker]) -> bool
    requires thin { IsSoundlyThin track.now.place }
    requires block { AllByRecursion (IsBlocker track.now.place) chain.now }
    ensures { IsTrue result ↔ AreLinked track.now.place chain.now }
{
    for i in 1..chain.len() {
        if !may_follow(track, chain[i - 1], chain[i]) {
            return false;
        }
    }
    true
}

/// Whether all turns come before a rank.
fn are_before(rank: u8, chain: &[Blocker]) -> bool
    ensures { result ≡ list_all (λ b. nat_lt b.turn rank) chain.now }
{
    chain.iter().all(|blocker| blocker.turn < rank)
}

/// Whether all come up before the first of them leaves.
fn are_in_time(chain: &[Blocker]) -> bool
    ensures { IsTrue result ↔ AreInTime chain.now }
{
    let Some((first, rest)) = chain.split_first() else {
        return true;
    };
    are_before(first.rank, rest)
}

/// The chain of these ranks. `None` exactly where they make none.
fn chain_of(track: &Track, ranks: &[u8]) -> Option<ArrayVec<Blocker, 96>>
    requires thin { IsSoundlyThin track.now.place }
    requires few { length ranks.now ≤ 96 }
    ensures ranks { IfSome result (λ chain. ranks_of chain.items ≡ ranks.now) }
    ensures chain { IfSome result (λ chain. IsChain track.now.place chain.items) }
    ensures none { IfNone result ((chain : List Named) → ranks_of chain ≡ ranks.now → IsChain track.now.place chain → ⊥) }
{
    let Some(chain) = blockers_of(track, ranks) else {
        return None;
    };
    if are_linked(track, chain.as_slice()) && are_in_time(chain.as_slice()) {
        Some(chain)
    } else {
        None
    }
}

/// What the chain of these ranks gains. `None` exactly where they make no chain.
pub fn chain_gain_of(track: &Track, ranks: &[u8]) -> Option<u32>
    requires thin { IsSoundlyThin track.now.place }
    requires few { length ranks.now ≤ 96 }
    ensures gain { IfSome result (λ gain. (chain : List Named) × (ranks_of chain ≡ ranks.now) × IsChain track.now.place chain × (gain ≡ chain_gain track.now.place chain)) }
    ensures none { IfNone result ((chain : List Named) → ranks_of chain ≡ ranks.now → IsChain track.now.place chain → ⊥) }
    ensures few { IfSome result (λ gain. gain ≤ 96) }
{
    let Some(chain) = chain_of(track, ranks) else {
        return None;
    };
    let rows = open_rows(track, chain.as_slice());
    Some((chain.len() as u32).saturating_sub(rows))
}
