//! The command `follow` with two reports: from the bytes of a yard list and of both to the table of their bays.
ghost use Rattle.std.specs.Prelude.{◌≡◌, ◌≤◌, ℕ, List, map, IfOk, IfErr, MatchResult, not};
ghost use Rattle.crp_plan.specs.Devices.{HasFailed, most_interruptions};
ghost use Rattle.crp_yard.specs.Inventory.{Inventory};
ghost use Rattle.crp_follow.specs.Compare.{compare_text};
ghost use Rattle.crp_follow.specs.Followed.{IsFollowed};
ghost use Rattle.crp_follow.specs.Views.{bay_followed};
ghost use Rattle.crp_report.specs.BayTexts.{AreFailuresCounted};
ghost use Rattle.crp_report.specs.Runs.{Gets, GetsPart, sink_seen, source_seen};
ghost use Rattle.crp_jobs.specs.declared.outcome.ToolFault.{ToolFault as Fault};
ghost use Rattle.crp_jobs.specs.declared.outcome.ToolFault.TheVariants.{WriteTable};
ghost use Rattle.crp_commands.specs.Calls.{failures_of_tool_fault};
ghost use Rattle.crp_commands.specs.Compare.{CompareEnds, CompareFails, CompareSeen, IsNotFollowed, IsReportFollowed, second_of};
ghost use Rattle.crp_separated.specs.Inputs.{with_separator};
ghost use Rattle.crp_commands.specs.Noted.{IsNotedBy};

use crate::following::report_from;
use crate::partial::whole_in;
use crp_follow::{Followed, compare_text};
use crp_jobs::ToolFault;
use crp_plan::{Sink, Source, write_all};
use crp_report::{InputSettings, Status, yard_from};
use crp_separated::with_separator;
use crp_yard::Yard;
use std::alloc::{AllocError, Global};

/// What is asked for where two reports are compared.
#[derive(Clone, Copy)]
pub struct CompareSettings<'a> {
    /// What the yard list means.
    pub input: &'a InputSettings,
    /// Whether the reports may end early, without their last lines.
    pub partial: bool,
    /// The byte between the fields of the table.
    pub separator: u8,
}

// Follows the report of a source over a yard. Notes call it by these words.
#[tactic(auto, using(crate::proofs::Noted::unnoted))]
fn followed_from<R: Source, E: Sink>(
    alloc: Global,
    yard: &Yard,
    source: &mut R,
    words: &[u8],
    partial: bool,
    errors: &mut E,
    interruptions: &mut u32,
) -> Result<Followed, ToolFault>
    requires { interruptions.old ≤ most_interruptions }
    ensures followed { IfOk result (λ followed. IsReportFollowed partial yard.now (source_seen R.remaining R.failures source.old source.new) followed.numbers (map bay_followed followed.bays.items)) }
    ensures refused { IfErr result (IsNotFollowed partial yard.now (source_seen R.remaining R.failures source.old source.new)) }
    ensures noted { IsNotedBy (not partial) (sink_seen E.contents E.failures errors.old errors.new) }
    ensures counted { MatchResult result
        (λ _. AreFailuresCounted 0 (R.failures source.old) (R.failures source.new) interruptions.old interruptions.new)
        (λ fault. AreFailuresCounted (failures_of_tool_fault fault) (R.failures source.old) (R.failures source.new) interruptions.old interruptions.new) }
    ensures count { R.failures source.old ≤ R.failures source.new }
    ensures passed { interruptions.new ≤ most_interruptions }
{
    let text = report_from(alloc, source, interruptions)?;
    let whole = whole_in(alloc, text, words, partial, errors)?;
    Ok(crp_follow::follow(alloc, yard, &whole.text)?)
}

// Why the second report is not followed, as it is stated.
fn second_of(fault: ToolFault) -> ToolFault
    ensures stated { result ≡ second_of fault }
    ensures failures { failures_of_tool_fault result ≡ failures_of_tool_fault fault }
{
    match fault {
        ToolFault::Followed(fault) => ToolFault::Second(fault),
        ToolFault::ReadOf(_) => ToolFault::ReadSecond,
        other => other,
    }
}

// The same of the second report.
fn second_from<R: Source, E: Sink>(
    alloc: Global,
    yard: &Yard,
    source: &mut R,
    partial: bool,
    errors: &mut E,
    interruptions: &mut u32,
) -> Result<Followed, ToolFault>
    requires { interruptions.old ≤ most_interruptions }
    ensures followed { IfOk result (λ followed. IsReportFollowed partial yard.now (source_seen R.remaining R.failures source.old source.new) followed.numbers (map bay_followed followed.bays.items)) }
    ensures refused { IfErr result (λ fault. (first : Fault) × (fault ≡ second_of first) × IsNotFollowed partial yard.now (source_seen R.remaining R.failures source.old source.new) first) }
    ensures noted { IsNotedBy (not partial) (sink_seen E.contents E.failures errors.old errors.new) }
    ensures counted { MatchResult result
        (λ _. AreFailuresCounted 0 (R.failures source.old) (R.failures source.new) interruptions.old interruptions.new)
        (λ fault. AreFailuresCounted (failures_of_tool_fault fault) (R.failures source.old) (R.failures source.new) interruptions.old interruptions.new) }
    ensures count { R.failures source.old ≤ R.failures source.new }
    ensures passed { interruptions.new ≤ most_interruptions }
{
    match followed_from(
        alloc,
        yard,
        source,
        b"the second report",
        partial,
        errors,
        interruptions,
    ) {
        Ok(followed) => Ok(followed),
        Err(fault) => Err(second_of(fault)),
    }
}

// The table of the bays of two reports, with this byte between its fields.
fn table_with(
    alloc: Global,
    first: &Followed,
    second: &Followed,
    separator: u8,
) -> Result<Vec<u8>, AllocError>
    requires first { (yard : Inventory) × (report : List ℕ) × IsFollowed yard report first.now.numbers (map bay_followed first.now.bays.items) }
    requires second { (yard : Inventory) × (report : List ℕ) × IsFollowed yard report second.now.numbers (map bay_followed second.now.bays.items) }
    ensures { IfOk result (λ table. table.items ≡ with_separator separator (compare_text (map bay_followed first.now.bays.items) (map bay_followed second.now.bays.items))) }
{
    let table = compare_text(alloc, first, second)?;
    with_separator(alloc, table, separator)
}

// Writes the table.
fn write_table<W: Sink>(text: &[u8], out: &mut W, interruptions: &mut u32) -> Result<(), ToolFault>
    requires { interruptions.old ≤ most_interruptions }
    ensures ended { let seen = sink_seen W.contents W.failures out.old out.new
        in MatchResult result (λ _. Gets seen text.now)
        (λ fault. (fault ≡ WriteTable) × HasFailed (W.failures out.old) (W.failures out.new) × GetsPart seen text.now) }
    ensures counted { MatchResult result
        (λ _. AreFailuresCounted 0 (W.failures out.old) (W.failures out.new) interruptions.old interruptions.new)
        (λ fault. AreFailuresCounted (failures_of_tool_fault fault) (W.failures out.old) (W.failures out.new) interruptions.old interruptions.new) }
    ensures count { W.failures out.old ≤ W.failures out.new }
    ensures passed { interruptions.new ≤ most_interruptions }
{
    match write_all(out, text, interruptions) {
        Ok(()) => Ok(()),
        Err(_) => Err(ToolFault::WriteTable),
    }
}

/// Follows the moves of two reports, whoever wrote them, over the yard that a list of bays gives, and writes the table of their bays;
/// where something is refused, nothing. A report that may end early is followed as far as it goes, which is noted on `errors`.
#[tactic(auto, using(crate::proofs::Noted::unnoted))]
pub fn compare<Y: Source, R: Source, S: Source, W: Sink, E: Sink>(
    alloc: Global,
    yard: &mut Y,
    report: &mut R,
    second: &mut S,
    settings: &CompareSettings<'_>,
    out: &mut W,
    errors: &mut E,
) -> Result<Status, ToolFault>
    ensures ended { let seen : CompareSeen = record {
      yard = source_seen Y.remaining Y.failures yard.old yard.new;
      report = source_seen R.remaining R.failures report.old report.new;
      second = source_seen S.remaining S.failures second.old second.new;
      table = sink_seen W.contents W.failures out.old out.new;
    } in MatchResult result (CompareEnds (record { input = settings.now.input.now; partial = settings.now.partial; separator = settings.now.separator }) seen)
        (CompareFails (record { input = settings.now.input.now; partial = settings.now.partial; separator = settings.now.separator }) seen) }
    ensures noted { IsNotedBy (not settings.now.partial) (sink_seen E.contents E.failures errors.old errors.new) }
{
    let mut interruptions = 0;
    let stands = yard_from(alloc, yard, settings.input.sizes(), &mut interruptions)?;
    let first = followed_from(
        alloc,
        &stands,
        report,
        b"the report",
        settings.partial,
        errors,
        &mut interruptions,
    )?;
    let other = second_from(
        alloc,
        &stands,
        second,
        settings.partial,
        errors,
        &mut interruptions,
    )?;
    let table = table_with(alloc, &first, &other, settings.separator)?;
    write_table(&table, out, &mut interruptions)?;
    Ok(Status::Decided)
}
