//! Reading one line of checks or of bounds, without its LF.
ghost use Rattle.std.specs.Prelude.{◌≡◌, ◌≤◌, ◌++◌, decimal, IfSome, IfNone};
ghost use Rattle.crp_cert.specs.Reading.{Reads};
ghost use Rattle.crp_plan.specs.BayNames.{IsYardBay};
ghost use Rattle.crp_said.specs.Fields.{number_alone_at};
ghost use Rattle.crp_said.specs.Spelled.{most};
ghost use Rattle.crp_json.specs.Checks.{settled_by, behind_tag_at, plan_at, bounds_at, tagged_at, title_at};
ghost use Rattle.crp_json.specs.Entries.{title_words, words_of_shown, IsBoundsLine, IsNumberLine, IsShownLine, IsSmallVerdict, IsTitleLine};

use crate::entry::BayVerdict;
use crp_cert::{after_tag, number, word};
use crp_checker::Verdict;
use crp_plan::BayName;
use crp_said::{Said, read_bay};

/// The most that a number can be.
pub const MOST: u32 = 4294967295;

// The number that all of the bytes are.
#[tactic(auto, unfolding(crp_said::specs::Fields::number_alone_at))]
fn number_alone(bytes: &[u8]) -> Option<u32>
    ensures { Reads (λ x. x) result (number_alone_at bytes.now) }
{
    let (value, rest) = number(MOST, bytes)?;
    if rest.is_empty() {
        return Some(value);
    }
    None
}

#[tactic(auto, unfolding(crate::specs::Checks::behind_tag_at))]
fn behind_tag(bytes: &[u8]) -> Option<Option<u32>>
    ensures { Reads (λ x. x) result (behind_tag_at bytes.now) }
{
    let rest = after_tag(b", plan of ", bytes)?;
    let count = number_alone(rest)?;
    Some(Some(count))
}

// The relocations of the plan, behind the lower bound.
fn plan_of(bytes: &[u8]) -> Option<Option<u32>>
    ensures { Reads (λ x. x) result (plan_at bytes.now) }
{
    if bytes == b"".as_slice() {
        return Some(None);
    }
    behind_tag(bytes)
}

// The name of a bay, whatever it is, and the bounds of its relocations.
#[tactic(auto, unfolding(crate::specs::Checks::bounds_at))]
fn bounds_of(line: &[u8]) -> Option<((&[u8], u32), (u32, Option<u32>))>
    ensures { Reads (λ x. ((x.0.0.now, x.0.1), (x.1.0, x.1.1))) result (bounds_at line.now) }
{
    let rest = after_tag(b"bay ", line)?;
    let (block, rest) = word(rest)?;
    let rest = after_tag(b" ", rest)?;
    let (bay, rest) = number(MOST, rest)?;
    let rest = after_tag(b": at least ", rest)?;
    let (lower, rest) = number(MOST, rest)?;
    let upper = plan_of(rest)?;
    Some(((block, bay), (lower, upper)))
}

// What a certificate shows of a bay, where it gives bounds.
fn read_bounds(line: &[u8]) -> Option<BayVerdict>
    ensures found { IfSome result (λ x. IsYardBay x.bay × IsSmallVerdict x.verdict × (line.now ≡ words_of_shown x.bay x.verdict)) }
    ensures none { IfNone result (¬ IsBoundsLine line.now) }
{
    let Some(((block, bay), (lower, upper))) = bounds_of(line) else {
        return None;
    };
    if bay > 9999 {
        return None;
    }
    let Some(bay) = BayName::new(block, bay as u16) else {
        return None;
    };
    Some(BayVerdict {
        bay,
        verdict: Verdict::Bounds { lower, upper },
    })
}

// What a certificate shows, where a report says it in the same words.
fn settled(said: Said) -> Option<Verdict>
    ensures { result ≡ settled_by said }
{
    match said {
        Said::Optimal(count) => Some(Verdict::Optimal(count)),
        Said::First(count) => Some(Verdict::First(count)),
        Said::NoPlan => Some(Verdict::NoPlan),
        Said::Between { .. } | Said::Outside(_) => None,
    }
}

// What a certificate shows of a bay, where a report says it in the same words.
fn read_settled(line: &[u8]) -> Option<BayVerdict>
    ensures found { IfSome result (λ x. IsYardBay x.bay × IsSmallVerdict x.verdict × (line.now ≡ words_of_shown x.bay x.verdict)) }
    ensures none { IfNone result ((¬ IsBoundsLine line.now) → ¬ IsShownLine line.now) }
{
    let Some((bay, said)) = read_bay(line) else {
        return None;
    };
    let Some(verdict) = settled(said) else {
        return None;
    };
    Some(BayVerdict { bay, verdict })
}

/// What a certificate shows of a bay, as its line states it.
pub fn read_shown(line: &[u8]) -> Option<BayVerdict>
    ensures found { IfSome result (λ x. IsYardBay x.bay × IsSmallVerdict x.verdict × (line.now ≡ words_of_shown x.bay x.verdict)) }
    ensures none { IfNone result (¬ IsShownLine line.now) }
{
    if let Some(shown) = read_settled(line) {
        return Some(shown);
    }
    let Some(shown) = read_bounds(line) else {
        return None;
    };
    Some(shown)
}

// The number behind these words.
#[tactic(auto, unfolding(crate::specs::Checks::tagged_at))]
fn tagged(words: &[u8], line: &[u8]) -> Option<u32>
    ensures { Reads (λ x. x) result (tagged_at words.now line.now) }
{
    let rest = after_tag(words, line)?;
    number_alone(rest)
}

/// The number of a line of these words and a number.
pub fn read_number(words: &[u8], line: &[u8]) -> Option<u32>
    ensures found { IfSome result (λ n. (n ≤ most) × (line.now ≡ words.now ++ decimal n)) }
    ensures none { IfNone result (¬ IsNumberLine words.now line.now) }
{
    let Some(n) = tagged(words, line) else {
        return None;
    };
    Some(n)
}

// The name of a bay, whatever it is.
#[tactic(auto, unfolding(crate::specs::Checks::title_at))]
fn title_of(line: &[u8]) -> Option<(&[u8], u32)>
    ensures { Reads (λ x. (x.0.now, x.1)) result (title_at line.now) }
{
    let rest = after_tag(b"bay ", line)?;
    let (block, rest) = word(rest)?;
    let bay = tagged(b" ", rest)?;
    Some((block, bay))
}

/// The name of a bay, as its line states it.
pub fn read_title(line: &[u8]) -> Option<BayName>
    ensures found { IfSome result (λ bay. IsYardBay bay × (line.now ≡ title_words bay)) }
    ensures none { IfNone result (¬ IsTitleLine line.now) }
{
    let Some((block, bay)) = title_of(line) else {
        return None;
    };
    if bay > 9999 {
        return None;
    }
    let Some(name) = BayName::new(block, bay as u16) else {
        return None;
    };
    Some(name)
}
