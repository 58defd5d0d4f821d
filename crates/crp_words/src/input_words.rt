//! What a yard list and a message mean, by the words: the heights of the rows, the byte between fields, the order of leaving, what is read
//! of the message, and the bays that a run is for.
ghost use Rattle.std.specs.Prelude.{◌≡◌, ◌↔◌, [], IfOk, IfErr, IfSome, IsTrue, option_map};
ghost use Rattle.clap.specs.Words.{found_of, rows_of};
ghost use Rattle.crp_plan.specs.Faults.{HasTiers};
ghost use Rattle.crp_sizes.specs.Heights.{CanBeHeights};
ghost use Rattle.crp_sizes.specs.Sizes.{one_size};
ghost use Rattle.crp_report.specs.Chosen.{IsRowCount};
ghost use Rattle.crp_words.specs.declared.usage.SettingFault.TheVariants as setting;
ghost use Rattle.crp_words.specs.declared.usage.Usage.TheVariants as usage;
ghost use Rattle.crp_words.specs.Words.{AreHeightsBeyond, FindsSizes, FindsRows, FindsTiers, HasInput, HasOrder, HasSeparator, IsInputFault, IsJust, IsSizedTwice, Lacks, MayFindHeights, NoFault, heights_or, may_separate, separator_in};

use crate::bays::{bays_of, messages_of};
use crate::given::{is_given, number_within, text_of, wrong};
use crate::usage::{Mistake, SettingFault, Usage};
use arrayvec::ArrayVec;
use clap::ArgMatches;
use crp_order::Mode;
use crp_plan::MAX_ROWS;
use crp_report::{InputSettings, RunFault};
use crp_sizes::heights_in;
use std::alloc::Global;

// The most rows of a bay.
const MOST_ROWS: u64 = 12;

// The most tiers of a bay.
const MOST_TIERS: u64 = 8;

// The refusal of what may not stand between the fields of a list.
const NO_SEPARATOR: &str =
    "error: the separator is one sign of ASCII, such as ';', that is no letter, digit, blank or quote, or a tab\n";

// The heights of the rows, if they are given.
fn heights_of(matches: &ArgMatches<'_>) -> Result<Option<ArrayVec<u8, MAX_ROWS>>, Usage>
    ensures ok { IfOk result (λ heights. MayFindHeights (rows_of (found_of matches.now)) (option_map (λ list. list.items) heights)) }
    ensures err { IfErr result (Lacks (MayFindHeights (rows_of (found_of matches.now))) (IsJust setting.Heights (AreHeightsBeyond (rows_of (found_of matches.now))))) }
{
    let Some(text) = matches.get_str("heights") else {
        return Ok(None);
    };
    match heights_in(text.as_bytes()) {
        Some(heights) => Ok(Some(heights)),
        None => Err(Usage::Wrong(Mistake::Setting(SettingFault::Heights))),
    }
}

// Whether the heights are given beside the rows or the tiers.
pub(crate) fn is_sized_twice(matches: &ArgMatches<'_>) -> bool
    ensures { IsTrue result ↔ IsSizedTwice (rows_of (found_of matches.now)) }
{
    is_given(matches, "heights") && (is_given(matches, "rows") || is_given(matches, "tiers"))
}

fn order_of(alloc: Global, matches: &ArgMatches<'_>) -> Result<Mode, Usage>
    ensures ok { IfOk result (HasOrder (rows_of (found_of matches.now))) }
    ensures err { IfErr result (Lacks (HasOrder (rows_of (found_of matches.now))) NoFault) }
{
    let word = text_of(alloc, matches, "order")?;
    if word == "listed" {
        return Ok(Mode::Listed);
    }
    if word == "stowage" {
        return Ok(Mode::Stowage);
    }
    Err(wrong(alloc, "error: the order is 'listed' or 'stowage'\n"))
}

// Whether the byte may stand between the fields of a list.
fn may_separate(byte: u8) -> bool
    ensures { result ≡ may_separate byte }
{
    byte == b'\t' || (byte.is_ascii_punctuation() && byte != b'"')
}

// The byte of a text of one byte that may.
fn separator_in(text: &[u8]) -> Option<u8>
    ensures { result ≡ separator_in text.now }
{
    match text {
        [byte] if may_separate(*byte) => Some(*byte),
        _ => None,
    }
}

/// The byte between the fields of lists.
pub(crate) fn separator_of(alloc: Global, matches: &ArgMatches<'_>) -> Result<u8, Usage>
    ensures ok { IfOk result (HasSeparator (rows_of (found_of matches.now))) }
    ensures err { IfErr result (Lacks (HasSeparator (rows_of (found_of matches.now))) NoFault) }
{
    let text = text_of(alloc, matches, "separator")?;
    match separator_in(text.as_bytes()) {
        Some(separator) => Ok(separator),
        None => Err(wrong(alloc, NO_SEPARATOR)),
    }
}

// How large bays are: so many rows with so many tiers, or rows of these heights, where they are given.
#[derive(Drop)]
struct Size {
    rows: u8,
    tiers: u8,
    heights: Option<ArrayVec<u8, MAX_ROWS>>,
}

// How large the bays are.
fn size_of(alloc: Global, matches: &ArgMatches<'_>) -> Result<Size, Usage>
    ensures rows { IfOk result (λ size. FindsRows (rows_of (found_of matches.now)) size.rows) }
    ensures tiers { IfOk result (λ size. FindsTiers (rows_of (found_of matches.now)) size.tiers) }
    ensures own { IfOk result (λ size. MayFindHeights (rows_of (found_of matches.now)) (option_map (λ list. list.items) size.heights)) }
    ensures err { IfErr result (Lacks (FindsSizes (rows_of (found_of matches.now))) (IsInputFault (rows_of (found_of matches.now)))) }
{
    let rows = number_within(alloc, matches, "rows", (1, MOST_ROWS), SettingFault::Rows)?;
    let tiers = number_within(
        alloc,
        matches,
        "tiers",
        (1, MOST_TIERS),
        SettingFault::Tiers,
    )?;
    let heights = heights_of(matches)?;
    Ok(Size {
        rows: rows as u8,
        tiers: tiers as u8,
        heights,
    })
}

// The settings of an input with bays of this size.
fn input_with(alloc: Global, size: &Size, order: Mode, code: &str) -> Result<InputSettings, Usage>
    requires rows { IsRowCount size.now.rows }
    requires tiers { HasTiers size.now.tiers }
    requires own { IfSome size.now.heights (λ list. CanBeHeights list.items) }
    ensures ok { IfOk result (λ settings. settings ≡ record {
      sizes = one_size (heights_or (option_map (λ list. list.items) size.now.heights) size.now.rows size.now.tiers);
      mode = order;
      loading = record { code = code.now; messages = [] };
      bays = [];
    }) }
    ensures err { IfErr result (λ fault. fault ≡ usage.Memory) }
{
    let settings = match InputSettings::new(alloc, size.rows, size.tiers, order, code.as_bytes()) {
        Ok(settings) => settings,
        Err(RunFault::Memory) => return Err(Usage::Memory),
        Err(_) => unreachable!(),
    };
    let Some(heights) = &size.heights else {
        return Ok(settings);
    };
    match settings.with_heights(heights.as_slice()) {
        Ok(settings) => Ok(settings),
        Err(_) => unreachable!(),
    }
}

/// What a yard list and a message mean.
pub(crate) fn input_of(alloc: Global, matches: &ArgMatches<'_>) -> Result<InputSettings, Usage>
    ensures ok { IfOk result (HasInput (rows_of (found_of matches.now))) }
    ensures err { IfErr result (Lacks (HasInput (rows_of (found_of matches.now))) (IsInputFault (rows_of (found_of matches.now)))) }
{
    let size = size_of(alloc, matches)?;
    let bays = bays_of(alloc, matches)?;
    let order = order_of(alloc, matches)?;
    let code = text_of(alloc, matches, "code")?;
    let messages = messages_of(alloc, matches)?;
    let settings = input_with(alloc, &size, order, code)?;
    Ok(settings.of_messages(messages).of_bays(bays))
}
