//! Whether containers that block make a chain, and what it gains.
ghost use Rattle.std.specs.Prelude.{◌≡◌, ◌≤◌, ◌<◌, ◌↔◌, ℕ, List, IsTrue, IfSome, IfNone, length, nat_lt};
ghost use Rattle.std.specs.List.{AllByRecursion, list_all};
ghost use Rattle.crp_plan.specs.Bay.{IsSound};
ghost use Rattle.crp_chains.specs.declared.blocker.Blocker.{Blocker as Named};
ghost use Rattle.crp_chains.specs.Chains.{IsBlocker, StandsAbove, MayFollow, AreLinked, AreInTime, IsChain, ranks_of, chain_gain};

use crate::blocker::Blocker;
use crate::finding::blockers_of;
use crate::standing::{beneath, has_rank, open_rows};
use arrayvec::ArrayVec;
use crp_bay::Position;

/// Whether a container that blocks stands above another.
fn is_above(position: &Position, upper: Blocker, lower: u8) -> bool
    requires sound { IsSound position.now.place }
    requires blocks { IsBlocker position.now.place upper }
    ensures { IsTrue result ↔ StandsAbove position.now.place upper.rank lower }
{
    let row = position.row_of(upper.turn);
    has_rank(lower, beneath(upper.rank, position.stack(row)))
}

/// Whether the second may follow the first in a chain.
fn may_follow(position: &Position, first: Blocker, second: Blocker) -> bool
    requires { IsBlocker position.now.place first }
    ensures { IsTrue result ↔ MayFollow position.now.place first second }
{
    if first.rank > position.ordered() || first.rank >= second.rank {
        return false;
    }
    if first.turn == second.turn {
        return is_above(position, first, second.rank);
    }
    first.turn < second.turn
}

/// Whether each may follow the one before it.
fn are_linked(position: &Position, chain: &[Blocker]) -> bool
    requires { AllByRecursion (IsBlocker position.now.place) chain.now }
    ensures { IsTrue result ↔ AreLinked position.now.place chain.now }
{
    for i in 1..chain.len() {
        if !may_follow(position, chain[i - 1], chain[i]) {
            return false;
        }
    }
    true
}

/// Whether all turns come before a rank.
fn are_before(rank: u8, chain: &[Blocker]) -> bool
    ensures { result ≡ list_all (λ b. nat_lt b.turn rank) chain.now }
{
    chain.iter().all(|blocker| blocker.turn < rank)
}

/// Whether all come up before the first of them leaves.
fn are_in_time(chain: &[Blocker]) -> bool
    ensures { IsTrue result ↔ AreInTime chain.now }
{
    let Some((first, rest)) = chain.split_first() else {
        return true;
    };
    are_before(first.rank, rest)
}

/// The chain of these ranks. `None` exactly where they make none.
fn chain_of(position: &Position, ranks: &[u8]) -> Option<ArrayVec<Blocker, 96>>
    requires sound { IsSound position.now.place }
    requires few { length ranks.now ≤ 96 }
    ensures ranks { IfSome result (λ chain. ranks_of chain.items ≡ ranks.now) }
    ensures chain { IfSome result (λ chain. IsChain position.now.place chain.items) }
    ensures none { IfNone result ((chain : List Named) → ranks_of chain ≡ ranks.now → IsChain position.now.place chain → ⊥) }
{
    let Some(chain) = blockers_of(position, ranks) else {
        return None;
    };
    if are_linked(position, chain.as_slice()) && are_in_time(chain.as_slice()) {
        Some(chain)
    } else {
        None
    }
}

/// What the chain of these ranks gains. `None` exactly where they make no chain.
pub fn chain_gain_of(position: &Position, ranks: &[u8]) -> Option<u32>
    requires { length ranks.now ≤ 96 }
    ensures gain { IfSome result (λ gain. (chain : List Named) × (ranks_of chain ≡ ranks.now) × IsChain position.now.place chain × (gain ≡ chain_gain position.now.place chain)) }
    ensures none { IfNone result ((chain : List Named) → ranks_of chain ≡ ranks.now → IsChain position.now.place chain → ⊥) }
    ensures few { IfSome result (λ gain. gain ≤ 96) }
{
    // Called for its clause: some path leads to the position.
    let _next = position.next();
    let Some(chain) = chain_of(position, ranks) else {
        return None;
    };
    let rows = open_rows(position, chain.as_slice());
    Some((chain.len() as u32).saturating_sub(rows))
}
