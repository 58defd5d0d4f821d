//! Writing the objects of checks and of bounds.
ghost use Rattle.std.specs.Prelude.{◌≡◌, ◌++◌, codes, flat_map};
ghost use Rattle.crp_json.specs.Adding.{Adds};
ghost use Rattle.crp_json.specs.Objects.{member, array, object, number_token, known_words, lower_shown, upper_shown, is_first_shown, shown_members, shown_object, audited_object, rank_tokens, ranks_tokens, chains_tokens, bounds_object};

use crate::entry::{BayBounds, BayVerdict, ChainRank, Chains};
use crate::members::{push_bay, push_number, push_option, push_text};
use crp_checker::Verdict;
use json::Writer;
use std::alloc::{AllocError, Global};

// What is known of the fewest relocations by a certificate.
fn known_by(verdict: Verdict) -> &'static str
    ensures { result.now ≡ known_words verdict }
{
    match verdict {
        Verdict::Optimal(_) | Verdict::First(_) => "optimal",
        Verdict::NoPlan => "no plan",
        Verdict::Bounds { .. } => "between",
    }
}

// The relocations that each plan has at least, by a certificate.
fn lower_by(verdict: Verdict) -> Option<u32>
    ensures { result ≡ lower_shown verdict }
{
    match verdict {
        Verdict::Optimal(count) | Verdict::First(count) => Some(count),
        Verdict::NoPlan => None,
        Verdict::Bounds { lower, .. } => Some(lower),
    }
}

// The relocations of the plan of a certificate, if it has one.
fn upper_by(verdict: Verdict) -> Option<u32>
    ensures { result ≡ upper_shown verdict }
{
    match verdict {
        Verdict::Optimal(count) | Verdict::First(count) => Some(count),
        Verdict::NoPlan => None,
        Verdict::Bounds { upper, .. } => upper,
    }
}

// Whether the plan of a certificate is the first of the best.
fn is_first_by(verdict: Verdict) -> bool
    ensures { result ≡ is_first_shown verdict }
{
    match verdict {
        Verdict::First(_) => true,
        _ => false,
    }
}

// Adds what a certificate shows.
fn push_shown(out: &mut Writer, verdict: Verdict) -> Result<(), AllocError>
    ensures { Adds result out.old out.new (shown_members verdict) }
{
    push_text(out, "verdict", known_by(verdict))?;
    push_option(out, "lower", lower_by(verdict))?;
    push_option(out, "upper", upper_by(verdict))?;
    out.key("first")?;
    out.boolean(is_first_by(verdict))
}

/// Adds the object of a certificate.
pub(crate) fn push_shown_object(out: &mut Writer, bay: &BayVerdict) -> Result<(), AllocError>
    ensures { Adds result out.old out.new (shown_object bay.now.bay bay.now.verdict) }
{
    out.begin_object()?;
    push_bay(out, &bay.bay)?;
    push_shown(out, bay.verdict)?;
    out.end_object()
}

/// Adds the object of how many bays were audited.
pub(crate) fn push_audited(out: &mut Writer, bays: u32) -> Result<(), AllocError>
    ensures { Adds result out.old out.new (audited_object bays) }
{
    out.begin_object()?;
    push_number(out, "audited", bays as u64)?;
    out.end_object()
}

// Adds a rank behind others.
fn push_rank(out: &mut Writer, rank: &ChainRank) -> Result<(), AllocError>
    ensures { Adds result out.old out.new (rank_tokens rank.now) }
{
    if rank.begins {
        out.end_array()?;
        out.begin_array()?;
    }
    out.u64(rank.rank as u64)
}

// Adds ranks behind others.
fn push_more(out: &mut Writer, ranks: &[ChainRank]) -> Result<(), AllocError>
    ensures { Adds result out.old out.new (flat_map rank_tokens ranks.now) }
{
    for rank in ranks {
        push_rank(out, rank)?;
    }
    Ok(())
}

// Adds an array of ranks for each chain.
fn push_ranks(out: &mut Writer, ranks: &[ChainRank]) -> Result<(), AllocError>
    ensures { Adds result out.old out.new (ranks_tokens ranks.now) }
{
    let [first, others @ ..] = ranks else {
        return Ok(());
    };
    out.begin_array()?;
    out.u64(first.rank as u64)?;
    push_more(out, others)?;
    out.end_array()
}

// Adds chains.
fn push_chains(out: &mut Writer, chains: &Chains) -> Result<(), AllocError>
    ensures { Adds result out.old out.new (object (member (codes "bound") (number_token chains.now.bound) ++ member (codes "ranks") (array (ranks_tokens chains.now.ranks.items)))) }
{
    out.begin_object()?;
    push_number(out, "bound", chains.bound as u64)?;
    out.key("ranks")?;
    out.begin_array()?;
    push_ranks(out, &chains.ranks)?;
    out.end_array()?;
    out.end_object()
}

// Adds the member of chains, which is null where there are none.
fn push_chain_member(out: &mut Writer, chains: &Option<Chains>) -> Result<(), AllocError>
    ensures { Adds result out.old out.new (member (codes "chains") (chains_tokens chains.now)) }
{
    out.key("chains")?;
    match chains {
        Some(chains) => push_chains(out, chains),
        None => out.null(),
    }
}

/// Adds the object of bounds.
pub(crate) fn push_bounds(out: &mut Writer, bounds: &BayBounds) -> Result<(), AllocError>
    ensures { Adds result out.old out.new (bounds_object bounds.now) }
{
    out.begin_object()?;
    push_bay(out, &bounds.bay)?;
    push_number(out, "blocking", bounds.blocking as u64)?;
    push_number(out, "look_ahead", bounds.look_ahead as u64)?;
    push_chain_member(out, &bounds.chains)?;
    out.end_object()
}
