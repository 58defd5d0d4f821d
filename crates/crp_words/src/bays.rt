//! The bays that a run is for, the blocks and the messages that are read, by the words.
ghost use Rattle.std.specs.Prelude.{◌≡◌, ℕ, List, IfOk, IfErr, IfSome, IfNone, codes, map};
ghost use Rattle.crp_plan.specs.BayNames.{YardBay, IsYardBay};
ghost use Rattle.clap.specs.Words.{found_of, rows_of};
ghost use Rattle.crp_cert.specs.Reading.{Reads};
ghost use Rattle.crp_words.specs.Bays.{parts_at};
ghost use Rattle.crp_words.specs.declared.usage.SettingFault.TheVariants as setting;
ghost use Rattle.crp_words.specs.declared.usage.Usage.TheVariants as usage;
ghost use Rattle.crp_words.specs.Words.{AreBaysBeyond, FindsBays, IsJust, Lacks, bay_name, given_texts};

use crate::usage::{Mistake, SettingFault, Usage};
use clap::ArgMatches;
use crp_cert::{after_tag, number, word};
use crp_movins::Reference;
use crp_plan::BayName;
use std::alloc::Global;

// What stands before the first blank, and the number behind it.
#[tactic(auto, unfolding(crate::specs::Bays::parts_at))]
fn parts_of(text: &[u8]) -> Option<(&[u8], u32)>
    ensures { Reads (λ x. (x.0.now, x.1)) result (parts_at text.now) }
{
    let (block, rest) = word(text)?;
    let rest = after_tag(b" ", rest)?;
    let (bay, rest) = number(4294967295, rest)?;
    if rest.is_empty() {
        return Some((block, bay));
    }
    None
}

// The bay that a text names, as reports do.
fn bay_in(text: &[u8]) -> Option<BayName>
    ensures some { IfSome result (λ bay. IsYardBay bay × (bay_name bay ≡ text.now)) }
    ensures none { IfNone result ((bay : YardBay) → IsYardBay bay → bay_name bay ≡ text.now → ⊥) }
{
    let Some((block, bay)) = parts_of(text) else {
        return None;
    };
    if bay > 9999 {
        return None;
    }
    let Some(name) = BayName::new(block, bay as u16) else {
        return None;
    };
    Some(name)
}

/// The bays that the run is for; none where none is named.
pub(crate) fn bays_of(alloc: Global, matches: &ArgMatches<'_>) -> Result<Vec<BayName>, Usage>
    ensures ok { IfOk result (λ bays. FindsBays (rows_of (found_of matches.now)) bays.items) }
    ensures err { IfErr result (Lacks (FindsBays (rows_of (found_of matches.now))) (IsJust setting.Bay (AreBaysBeyond (rows_of (found_of matches.now))))) }
{
    let mut bays = Vec::new(alloc);
    let Some(texts) = matches.get_strs("bay") else {
        return Ok(bays);
    };
    for text in texts {
        let Some(bay) = bay_in(text.as_bytes()) else {
            return Err(Usage::Wrong(Mistake::Setting(SettingFault::Bay)));
        };
        if bays.push(bay).is_err() {
            return Err(Usage::Memory);
        }
    }
    Ok(bays)
}

/// The blocks that are named; none where none is.
pub(crate) fn blocks_of<'a>(alloc: Global, matches: &ArgMatches<'a>) -> Result<Vec<&'a str>, Usage>
    ensures ok { IfOk result (λ blocks. map (λ block. block.now) blocks.items ≡ given_texts (codes "block") (rows_of (found_of matches.now))) }
    ensures err { IfErr result (λ fault. fault ≡ usage.Memory) }
{
    let Some(texts) = matches.get_strs("block") else {
        return Ok(Vec::new(alloc));
    };
    match Vec::from_slice(alloc, texts) {
        Ok(blocks) => Ok(blocks),
        Err(_) => Err(Usage::Memory),
    }
}

/// The references of the messages that are read; none where all are.
pub(crate) fn messages_of(alloc: Global, matches: &ArgMatches<'_>) -> Result<Vec<Reference>, Usage>
    ensures ok { IfOk result (λ messages. messages.items ≡ given_texts (codes "message") (rows_of (found_of matches.now))) }
    ensures err { IfErr result (λ fault. fault ≡ usage.Memory) }
{
    let mut messages = Vec::new(alloc);
    let Some(texts) = matches.get_strs("message") else {
        return Ok(messages);
    };
    for text in texts {
        let Ok(message) = Reference::named(alloc, text.as_bytes()) else {
            return Err(Usage::Memory);
        };
        if messages.push(message).is_err() {
            return Err(Usage::Memory);
        }
    }
    Ok(messages)
}
