//! The command `audit`: from the bytes of a yard list, a message, a report and certificates to a line for each bay.
ghost use Rattle.std.specs.Prelude.{◌≡◌, ◌≤◌, ◌+◌, ◌-◌, ◌⊎◌, ℕ, List, Option, IfOk, IfErr, MatchResult, not};
ghost use Rattle.std.specs.List.{AllByRecursion};
ghost use Rattle.crp_plan.specs.Devices.{most_interruptions};
ghost use Rattle.crp_yard.specs.Naming.{IsNamedBay};
ghost use Rattle.crp_yard.specs.Reading.{IsTextOf};
ghost use Rattle.crp_order.specs.OfBays.{IsSequenceOf};
ghost use Rattle.crp_report.specs.BayTexts.{AreFailuresCounted};
ghost use Rattle.crp_report.specs.Runs.{SourceSeen, SinkSeen, Gets, GetsNothing, failures_of_fault, sink_seen, source_seen};
ghost use Rattle.crp_audit.specs.Headline.{Handed, handed, IsHeadline, shown_in};
ghost use Rattle.crp_audit.specs.Stops.{IsAuditStop, failures_of_stop};
ghost use Rattle.crp_commands.specs.declared.heads.TheConstants.{ANY_SIZE};
ghost use Rattle.crp_commands.specs.Audit.{AuditSeen, AuditEnds, AuditFails, IsInputOf, IsNoInput, IsNoStatement, StopsOn, audit_text};
ghost use Rattle.crp_commands.specs.Calls.{IsTextWithin, failures_of_tool_fault};
ghost use Rattle.crp_commands.specs.Check.{verdict_lines};
ghost use Rattle.crp_commands.specs.Noted.{IsNotedBy};
ghost use Rattle.crp_commands.specs.Partial.{IsReportIn, part_of};
ghost use Rattle.crp_report.specs.Watching.{ShowsMore};
ghost use Rattle.crp_audit.specs.Part.{first_sequence};

use crate::checking::push_verdict;
use crate::heads::ANY_SIZE;
use crate::partial::{note_behind, report_in};
use crp_audit::{AuditStop, AuditStopped, Part, first_bays};
use crp_cert::push_decimal;
use crp_checker::Verdicts;
use crp_jobs::{Statement, ToolFault};
use crp_movins::Orders;
use crp_order::{Sequence, sequence_of_bays};
use crp_plan::{ReadFault, Sink, Source, read_all, write_all};
use crp_report::{Fault, InputSettings, Status, message_from, yard_from};
use crp_yard::Yard;
use std::alloc::{AllocError, Global};

/// The most bytes of a report that is audited.
pub const MOST_REPORT: usize = 16_777_216;

// The bytes of a report.
fn report_from<S: Source>(
    alloc: Global,
    source: &mut S,
    interruptions: &mut u32,
) -> Result<Vec<u8>, ToolFault>
    requires { interruptions.old ≤ most_interruptions }
    ensures read { IfOk result (λ text. IsTextWithin MOST_REPORT (S.remaining source.old) text.items) }
    ensures refused { IfErr result (IsNoStatement Statement.Report (source_seen S.remaining S.failures source.old source.new)) }
    ensures counted { MatchResult result
        (λ _. AreFailuresCounted 0 (S.failures source.old) (S.failures source.new) interruptions.old interruptions.new)
        (λ fault. AreFailuresCounted (failures_of_tool_fault fault) (S.failures source.old) (S.failures source.new) interruptions.old interruptions.new) }
    ensures count { S.failures source.old ≤ S.failures source.new }
    ensures passed { interruptions.new ≤ most_interruptions }
{
    match read_all(alloc, source, MOST_REPORT, interruptions) {
        Ok(text) => Ok(text),
        Err(ReadFault::Failed) => Err(ToolFault::ReadOf(Statement::Report)),
        Err(ReadFault::TooLarge) => Err(ToolFault::TooLargeOf(Statement::Report)),
        Err(ReadFault::Memory) => Err(ToolFault::Memory),
    }
}

/// What is asked for where a report is audited.
#[derive(Clone, Copy)]
pub struct AuditSettings<'a> {
    /// What the yard list and the message mean.
    pub input: &'a InputSettings,
    /// Whether the report may end early, without its last line.
    pub partial: bool,
}

/// What a yard list and a message say.
#[derive(Drop)]
pub(crate) struct InputRead {
    pub yard: Yard,
    pub orders: Orders,
    pub sequence: Sequence,
}

// The load orders and their sequence.
fn sequenced(
    alloc: Global,
    yard: Yard,
    orders: Orders,
    settings: &InputSettings,
) -> Result<InputRead, AllocError>
    ensures same { IfOk result (λ input. (input.yard ≡ yard) × (input.orders ≡ orders)) }
    ensures sequence { IfOk result (λ input. IsSequenceOf settings.now.mode settings.now.bays yard orders.list input.sequence) }
{
    let sequence = sequence_of_bays(
        alloc,
        &yard,
        settings.bays(),
        orders.copy(alloc)?,
        settings.mode(),
    )?;
    Ok(InputRead {
        yard,
        orders,
        sequence,
    })
}

/// What the sources of a yard list and of a message say.
pub(crate) fn input_from<Y: Source, M: Source>(
    alloc: Global,
    yard: &mut Y,
    movins: &mut M,
    settings: &InputSettings,
    interruptions: &mut u32,
) -> Result<InputRead, Fault>
    requires first { interruptions.old ≡ 0 }
    ensures read { IfOk result (λ input. IsInputOf settings.now
        (source_seen Y.remaining Y.failures yard.old yard.new)
        (source_seen M.remaining M.failures movins.old movins.new) input.yard input.orders input.sequence) }
    ensures named { IfOk result (λ input. AllByRecursion IsNamedBay input.yard.bays) }
    ensures refused { IfErr result (IsNoInput settings.now
        (source_seen Y.remaining Y.failures yard.old yard.new)
        (source_seen M.remaining M.failures movins.old movins.new)) }
    ensures counted { MatchResult result
        (λ _. (Y.failures yard.new - Y.failures yard.old) + (M.failures movins.new - M.failures movins.old) ≤ interruptions.new)
        (λ fault. (Y.failures yard.new - Y.failures yard.old) + (M.failures movins.new - M.failures movins.old) ≤ interruptions.new + failures_of_fault fault) }
    ensures passed { interruptions.new ≤ most_interruptions }
{
    let listed = yard_from(alloc, yard, settings.sizes(), interruptions)?;
    let message = message_from(alloc, movins, settings.loading(), interruptions)?;
    let input = sequenced(alloc, listed, message.orders, settings)?;
    Ok(input)
}

// A report with its last line, and what the first bays alone are audited by. Notes how many are behind them.
#[tactic(auto, using(crate::proofs::Noted::shown_none))]
fn first_part<E: Sink>(
    alloc: Global,
    input: InputRead,
    report: Vec<u8>,
    bays: usize,
    errors: &mut E,
) -> Result<(InputRead, Vec<u8>), AllocError>
    ensures same { IfOk result (λ x. (x.0.yard ≡ input.yard) × (x.0.orders ≡ input.orders)) }
    ensures part { IfOk result (λ x. (x.0.sequence ≡ first_sequence bays input.yard input.sequence) × (x.1.items ≡ report.items)) }
    ensures noted { ShowsMore (E.contents errors.old) (E.contents errors.new) }
{
    let InputRead {
        yard,
        orders,
        sequence,
    } = input;
    let Part { sequence, behind } = first_bays(alloc, &yard, &sequence, bays)?;
    note_behind(alloc, behind, errors);
    let first = InputRead {
        yard,
        orders,
        sequence,
    };
    Ok((first, report))
}

// The report that a text is, with what it is audited by. Of one that ends early these are the bays that stand there alone, which is noted.
fn in_part<E: Sink>(
    alloc: Global,
    input: InputRead,
    text: Vec<u8>,
    partial: bool,
    errors: &mut E,
) -> Result<(InputRead, Vec<u8>), AllocError>
    ensures same { IfOk result (λ x. (x.0.yard ≡ input.yard) × (x.0.orders ≡ input.orders)) }
    ensures part { IfOk result (λ x. (bays : Option ℕ) × IsReportIn partial text.items x.1.items bays × (x.0.sequence ≡ part_of bays input.yard input.sequence)) }
    ensures noted { IsNotedBy (not partial) (sink_seen E.contents E.failures errors.old errors.new) }
{
    let whole = report_in(alloc, text, partial, errors)?;
    match whole.bays {
        None => Ok((input, whole.text)),
        Some(bays) => first_part(alloc, input, whole.text, bays, errors),
    }
}

// A line for each bay.
fn lines_of(alloc: Global, shown: &Verdicts) -> Result<Vec<u8>, AllocError>
    ensures { IfOk result (λ text. text.items ≡ verdict_lines shown.now) }
{
    let mut text = Vec::new(alloc);
    for (bay, verdict) in shown.as_slice() {
        push_verdict(&mut text, bay, *verdict)?;
    }
    Ok(text)
}

// A line for each bay, and the last line.
fn text_of(alloc: Global, shown: &Verdicts) -> Result<Vec<u8>, AllocError>
    ensures { IfOk result (λ text. text.items ≡ audit_text shown.now) }
{
    let mut text = lines_of(alloc, shown)?;
    text.extend_from_slice(b"audited ")?;
    push_decimal(&mut text, shown.as_slice().len())?;
    text.push(b'\n')?;
    Ok(text)
}

// Writes what an audit shows before the first fault, which is the answer. Where the certificates could not be read, it writes nothing.
fn stop<W: Sink>(
    alloc: Global,
    stopped: AuditStopped,
    out: &mut W,
    interruptions: &mut u32,
) -> ToolFault
    requires { interruptions.old ≤ most_interruptions }
    ensures stated { let out_seen : SinkSeen = sink_seen W.contents W.failures out.old out.new in
        (h : Handed) (given : Option (List ℕ)) (before after : ℕ) → IsTextOf given h.certificates → IsAuditStop h ANY_SIZE before after stopped.before stopped.stop
        → (GetsNothing out_seen × IsNoStatement Statement.Certificates (record { given = given; before = before; after = after }) result) ⊎ StopsOn h out_seen result }
    ensures counted { W.failures out.new + interruptions.old + failures_of_stop stopped.stop ≤ W.failures out.old + interruptions.new + failures_of_tool_fault result }
    ensures count { W.failures out.old ≤ W.failures out.new }
    ensures passed { (interruptions.old ≤ interruptions.new) × (interruptions.new ≤ most_interruptions) }
{
    let AuditStopped { before, stop } = stopped;
    let fault = match stop {
        AuditStop::Fault(fault) => fault,
        AuditStop::Failed => return ToolFault::ReadOf(Statement::Certificates),
        AuditStop::TooLarge => return ToolFault::TooLargeOf(Statement::Certificates),
    };
    let Ok(lines) = lines_of(alloc, &before) else {
        return ToolFault::Memory;
    };
    let Ok(()) = write_all(out, &lines, interruptions) else {
        return ToolFault::Write;
    };
    ToolFault::from(fault)
}

// Audits what is handed in, and writes what is shown.
fn audit_input<C: Source, W: Sink>(
    alloc: Global,
    input: &InputRead,
    report: &[u8],
    certificates: &mut C,
    out: &mut W,
    interruptions: &mut u32,
) -> Result<(), ToolFault>
    requires named { AllByRecursion IsNamedBay input.now.yard.bays }
    requires passed { interruptions.old ≤ most_interruptions }
    ensures ended { let out_seen : SinkSeen = sink_seen W.contents W.failures out.old out.new in
        let given : SourceSeen = source_seen C.remaining C.failures certificates.old certificates.new in
        MatchResult result
        (λ _. (text : List ℕ) × IsTextWithin ANY_SIZE given.given text × ((is : IsHeadline (handed input.now.yard input.now.orders input.now.sequence report.now text))
        × Gets out_seen (audit_text (shown_in (handed input.now.yard input.now.orders input.now.sequence report.now text) is))))
        (λ fault. (GetsNothing out_seen × IsNoStatement Statement.Certificates given fault)
        ⊎ ((text : List ℕ) × IsTextOf given.given text × StopsOn (handed input.now.yard input.now.orders input.now.sequence report.now text) out_seen fault)) }
    ensures counted { MatchResult result
        (λ _. C.failures certificates.new + W.failures out.new + interruptions.old ≤ C.failures certificates.old + W.failures out.old + interruptions.new)
        (λ fault. C.failures certificates.new + W.failures out.new + interruptions.old
        ≤ C.failures certificates.old + W.failures out.old + interruptions.new + failures_of_tool_fault fault) }
    ensures count { (C.failures certificates.old ≤ C.failures certificates.new) × (W.failures out.old ≤ W.failures out.new) }
    ensures passed { interruptions.new ≤ most_interruptions }
{
    match crp_audit::audit(
        alloc,
        &input.yard,
        &input.orders,
        &input.sequence,
        report,
        certificates,
        ANY_SIZE,
        interruptions,
    ) {
        Ok(shown) => {
            let text = text_of(alloc, &shown)?;
            write_all(out, &text, interruptions)?;
            Ok(())
        }
        Err(stopped) => Err(stop(alloc, stopped, out, interruptions)),
    }
}

/// Audits a report and certificates, whoever made them, against a yard list and a message: writes what is shown of each bay, and how
/// many were audited; or what is shown of those before the first fault. The certificates are read in pieces, one after the other. Of a
/// report that may end early, and does, the bays that stand there are audited, and `errors` gets notes of what is missing.
#[tactic(auto, using(crate::proofs::Noted::unnoted))]
pub fn audit<Y: Source, M: Source, R: Source, C: Source, W: Sink, E: Sink>(
    alloc: Global,
    yard: &mut Y,
    movins: &mut M,
    report: &mut R,
    certificates: &mut C,
    settings: &AuditSettings<'_>,
    out: &mut W,
    errors: &mut E,
) -> Result<Status, ToolFault>
    ensures ended { let seen : AuditSeen = record {
      yard = source_seen Y.remaining Y.failures yard.old yard.new;
      movins = source_seen M.remaining M.failures movins.old movins.new;
      report = source_seen R.remaining R.failures report.old report.new;
      certificates = source_seen C.remaining C.failures certificates.old certificates.new;
      out = sink_seen W.contents W.failures out.old out.new;
    } in MatchResult result (AuditEnds (record { input = settings.now.input.now; partial = settings.now.partial }) seen)
        (AuditFails (record { input = settings.now.input.now; partial = settings.now.partial }) seen) }
    ensures noted { IsNotedBy (not settings.now.partial) (sink_seen E.contents E.failures errors.old errors.new) }
{
    let mut interruptions = 0;
    let input = input_from(alloc, yard, movins, settings.input, &mut interruptions)?;
    let text = report_from(alloc, report, &mut interruptions)?;
    let (part, said) = in_part(alloc, input, text, settings.partial, errors)?;
    audit_input(alloc, &part, &said, certificates, out, &mut interruptions)?;
    Ok(Status::Decided)
}
