//! The line of chains that `bound` may write.
ghost use Rattle.std.specs.Prelude.{◌≡◌, ◌++◌, ℕ, List, OnOk};
ghost use Rattle.crp_chains.specs.Given.{lists_of};
ghost use Rattle.crp_thinning.specs.Found.{ShowsBound};
ghost use Rattle.crp_thinning.specs.Symbols.{chain_text};
ghost use Rattle.crp_commands.specs.Bound.{IsChainsLine, chains_text};

use arrayvec::ArrayVec;
use crp_bounds::Bounded;
use crp_cert::push_decimal;
use crp_thinning::{Family, chains_reaching};
use std::alloc::AllocError;

// The last family that is found, as what it has to show rises by one; where none is, that of no chain.
fn last_family(bounded: &Bounded) -> Family
    ensures { ShowsBound bounded.now.place (lists_of result.chains.items) result.bound }
{
    let mut family = Family {
        chains: ArrayVec::new(),
        bound: bounded.blocking(),
    };
    while let Some(more) = chains_reaching(bounded, family.bound + 1) {
        family = more;
    }
    family
}

// Writes the ranks of a chain, with points between them.
fn push_chain(text: &mut Vec<u8>, ranks: &[u8]) -> Result<(), AllocError>
    ensures { OnOk result (text.new.items ≡ text.old.items ++ chain_text ranks.now) }
{
    let [first, others @ ..] = ranks else {
        return Ok(());
    };
    push_decimal(text, *first)?;
    for rank in others {
        text.push(b'.')?;
        push_decimal(text, *rank)?;
    }
    Ok(())
}

// Writes chains behind a colon, with ` | ` between them.
fn push_chains(text: &mut Vec<u8>, chains: &[ArrayVec<u8, 96>]) -> Result<(), AllocError>
    ensures { OnOk result (text.new.items ≡ text.old.items ++ chains_text (lists_of chains.now)) }
{
    let [first, others @ ..] = chains else {
        return Ok(());
    };
    text.extend_from_slice(b": ")?;
    push_chain(text, first.as_slice())?;
    for chain in others {
        text.extend_from_slice(b" | ")?;
        push_chain(text, chain.as_slice())?;
    }
    Ok(())
}

/// Writes the line of chains that are found at a position.
pub fn push_chain_line(text: &mut Vec<u8>, bounded: &Bounded) -> Result<(), AllocError>
    ensures { OnOk result ((line : List ℕ) × IsChainsLine bounded.now.place line × (text.new.items ≡ text.old.items ++ line)) }
{
    let family = last_family(bounded);
    text.extend_from_slice(b"chains ")?;
    push_decimal(text, family.bound)?;
    push_chains(text, family.chains.as_slice())?;
    text.push(b'\n')?;
    Ok(())
}
