//! Reading the lines of bounds.
ghost use Rattle.std.specs.Prelude.{◌≡◌, ◌≢◌, ◌≤◌, ◌++◌, ℕ, List, Option, decimal, IfOk, IfSome, IfNone};
ghost use Rattle.std.specs.List.{AllByRecursion};
ghost use Rattle.crp_plan.specs.BayNames.{YardBay, IsYardBay};
ghost use Rattle.crp_said.specs.Spelled.{most, ended};
ghost use Rattle.crp_json.specs.declared.entry.BayBounds.{BayBounds};
ghost use Rattle.crp_json.specs.declared.entry.Chains.{Chains};
ghost use Rattle.crp_json.specs.Entries.{bound_lines, chains_line, title_words, AreChains, IsBounds};

use crate::chain_lines::read_chains;
use crate::check_lines::{read_number, read_title};
use crate::entry::{BayBounds, Chains};
use crp_plan::BayName;
use crp_said::cut_line;
use std::alloc::{AllocError, Global};

// The name of a bay that the first line states, and what is behind it.
fn title_line(text: &[u8]) -> Option<(BayName, &[u8])>
    ensures found { IfSome result (λ x. IsYardBay x.0 × (text.now ≡ ended (title_words x.0) ++ x.1.now)) }
    ensures none { IfNone result ((bay : YardBay) (rest : List ℕ) → IsYardBay bay → text.now ≢ ended (title_words bay) ++ rest) }
{
    let Some((line, rest)) = cut_line(text) else {
        return None;
    };
    let Some(bay) = read_title(line) else {
        return None;
    };
    Some((bay, rest))
}

// The number that the first line states behind these words, and what is behind it.
fn number_line<'a>(words: &[u8], text: &'a [u8]) -> Option<(u32, &'a [u8])>
    requires { AllByRecursion (λ b. b ≢ 10) words.now }
    ensures found { IfSome result (λ x. (x.0 ≤ most) × (text.now ≡ ended (words.now ++ decimal x.0) ++ x.1.now)) }
    ensures none { IfNone result ((n : ℕ) (rest : List ℕ) → n ≤ most → text.now ≢ ended (words.now ++ decimal n) ++ rest) }
{
    let Some((line, rest)) = cut_line(text) else {
        return None;
    };
    let Some(n) = read_number(words, line) else {
        return None;
    };
    Some((n, rest))
}

// The line of chains that the text is, if it is one or none.
fn chain_line(alloc: Global, text: &[u8]) -> Result<Option<Option<Chains>>, AllocError>
    ensures found { IfOk result (λ read. IfSome read (λ chains. IfSome chains AreChains × (text.now ≡ chains_line chains))) }
    ensures none { IfOk result (λ read. IfNone read ((chains : Option Chains) → IfSome chains AreChains → text.now ≢ chains_line chains)) }
{
    if text.is_empty() {
        return Ok(Some(None));
    }
    let Some((line, rest)) = cut_line(text) else {
        return Ok(None);
    };
    if !rest.is_empty() {
        return Ok(None);
    }
    let Some(chains) = read_chains(alloc, line)? else {
        return Ok(None);
    };
    Ok(Some(Some(chains)))
}

/// The bounds whose lines these are. Where they are those of none, `None`.
pub fn read_bounds(alloc: Global, text: &[u8]) -> Result<Option<BayBounds>, AllocError>
    ensures found { IfOk result (λ read. IfSome read (λ bounds. IsBounds bounds × (text.now ≡ ended (title_words bounds.bay) ++ bound_lines bounds))) }
    ensures none { IfOk result (λ read. IfNone read ((bounds : BayBounds) → IsBounds bounds → text.now ≢ ended (title_words bounds.bay) ++ bound_lines bounds)) }
{
    let Some((bay, rest)) = title_line(text) else {
        return Ok(None);
    };
    let Some((blocking, rest)) = number_line(b"blocking ", rest) else {
        return Ok(None);
    };
    let Some((look_ahead, rest)) = number_line(b"look-ahead ", rest) else {
        return Ok(None);
    };
    let Some(chains) = chain_line(alloc, rest)? else {
        return Ok(None);
    };
    Ok(Some(BayBounds {
        bay,
        blocking,
        look_ahead,
        chains,
    }))
}
