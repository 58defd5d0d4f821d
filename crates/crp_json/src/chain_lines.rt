//! Reading the line of chains, without its LF.
ghost use Rattle.std.specs.Prelude.{◌≡◌, ◌≢◌, ◌<◌, ◌++◌, ◌∷◌, [], length, flat_map, IfOk, IfSome, IfNone};
ghost use Rattle.std.specs.List.{AllByRecursion};
ghost use Rattle.crp_cert.specs.Reading.{Reads};
ghost use Rattle.crp_json.specs.declared.entry.Chains.{Chains};
ghost use Rattle.crp_json.specs.Checks.{behind_at, rank_at};
ghost use Rattle.crp_json.specs.Entries.{chains_words, rank_words, ranks_words, AreAllRanks, AreChains, AreMoreRanks, AreRanks, IsSmallRank};

use crate::check_lines::MOST;
use crate::entry::{ChainRank, Chains};
use crp_cert::{after_tag, number};
use std::alloc::{AllocError, Global};

// The rank behind this mark, and what follows it.
#[tactic(auto, unfolding(crate::specs::Checks::behind_at))]
fn behind<'a>(mark: &[u8], begins: bool, bytes: &'a [u8]) -> Option<(ChainRank, &'a [u8])>
    ensures { Reads (λ x. (x.0, x.1.now)) result (behind_at mark.now begins bytes.now) }
{
    let rest = after_tag(mark, bytes)?;
    let (rank, rest) = number(MOST, rest)?;
    Some((ChainRank { begins, rank }, rest))
}

// A rank behind others, and what follows it.
fn rank_of(bytes: &[u8]) -> Option<(ChainRank, &[u8])>
    ensures { Reads (λ x. (x.0, x.1.now)) result (rank_at bytes.now) }
{
    if let Some(read) = behind(b".", false, bytes) {
        return Some(read);
    }
    behind(b" | ", true, bytes)
}

// The same, as the words of ranks have it.
fn next_rank(bytes: &[u8]) -> Option<(ChainRank, &[u8])>
    ensures found { IfSome result (λ x. IsSmallRank x.0 × (bytes.now ≡ rank_words x.0 ++ x.1.now)) }
    ensures shorter { IfSome result (λ x. length x.1.now < length bytes.now) }
    ensures follow { IfSome result (λ x. ¬ AreMoreRanks x.1.now → ¬ AreMoreRanks bytes.now) }
    ensures none { IfNone result (bytes.now ≢ [] → ¬ AreMoreRanks bytes.now) }
{
    let Some((rank, rest)) = rank_of(bytes) else {
        return None;
    };
    Some((rank, rest))
}

// The ranks behind others that all of the bytes are.
fn read_more(alloc: Global, bytes: &[u8]) -> Result<Option<Vec<ChainRank>>, AllocError>
    ensures found { IfOk result (λ read. IfSome read (λ ranks. AllByRecursion IsSmallRank ranks.items × (bytes.now ≡ flat_map rank_words ranks.items))) }
    ensures none { IfOk result (λ read. IfNone read (¬ AreMoreRanks bytes.now)) }
{
    let mut ranks = Vec::new(alloc);
    let mut rest = bytes;
    while !rest.is_empty() {
        let Some((rank, behind)) = next_rank(rest) else {
            return Ok(None);
        };
        ranks.push(rank).map_err(AllocError::from)?;
        rest = behind;
    }
    Ok(Some(ranks))
}

// These ranks, and one before them.
fn with_first(
    alloc: Global,
    first: ChainRank,
    more: &[ChainRank],
) -> Result<Vec<ChainRank>, AllocError>
    ensures { IfOk result (λ ranks. ranks.items ≡ first ∷ more.now) }
{
    let mut ranks = Vec::new(alloc);
    ranks.push(first).map_err(AllocError::from)?;
    ranks.extend_from_slice(more)?;
    Ok(ranks)
}

// The ranks behind the bound that all of the bytes are.
fn read_ranks(alloc: Global, bytes: &[u8]) -> Result<Option<Vec<ChainRank>>, AllocError>
    ensures found { IfOk result (λ read. IfSome read (λ ranks. AreRanks ranks.items × (bytes.now ≡ ranks_words ranks.items))) }
    ensures none { IfOk result (λ read. IfNone read (¬ AreAllRanks bytes.now)) }
{
    if bytes.is_empty() {
        return Ok(Some(Vec::new(alloc)));
    }
    let Some((first, rest)) = behind(b": ", true, bytes) else {
        return Ok(None);
    };
    let Some(more) = read_more(alloc, rest)? else {
        return Ok(None);
    };
    let ranks = with_first(alloc, first, &more)?;
    Ok(Some(ranks))
}

/// The chains that a line states, if it states some.
pub fn read_chains(alloc: Global, line: &[u8]) -> Result<Option<Chains>, AllocError>
    ensures found { IfOk result (λ read. IfSome read (λ chains. AreChains chains × (line.now ≡ chains_words chains))) }
    ensures none { IfOk result (λ read. IfNone read ((chains : Chains) → AreChains chains → line.now ≢ chains_words chains)) }
{
    let Some((first, rest)) = behind(b"chains ", true, line) else {
        return Ok(None);
    };
    let Some(ranks) = read_ranks(alloc, rest)? else {
        return Ok(None);
    };
    Ok(Some(Chains {
        bound: first.rank,
        ranks,
    }))
}
