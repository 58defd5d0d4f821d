//! The audit of a report and its certificates.
ghost use Rattle.std.specs.Prelude.{◌≡◌, ◌≤◌, ◌↔◌, ◌⊎◌, ◌++◌, ◌∷◌, [], ℕ, List, length, OnOk, OnErr, IfOk, IfErr, IfSome, IsTrue};
ghost use Rattle.std.specs.List.{AllByRecursion};
ghost use Rattle.std.specs.Option.{option_copied};
ghost use Rattle.crp_plan.specs.Devices.{Transfers, most_interruptions};
ghost use Rattle.crp_yard.specs.Inventory.{StackedBay};
ghost use Rattle.crp_yard.specs.Naming.{FitsLine, IsNamedBay};
ghost use Rattle.crp_yard.specs.Reading.{IsTextOf};
ghost use Rattle.crp_order.specs.BayProblems.{bay_problem_of};
ghost use Rattle.crp_checker.specs.Reading.{IsLeft, IsTaken};
ghost use Rattle.crp_said.specs.Said.{bay_text};
ghost use Rattle.crp_said.specs.Spelled.{most, AreSmall, line_behind};
ghost use Rattle.crp_said.specs.Views.{bay_as, report_as};
ghost use Rattle.crp_audit.specs.Headline.{Handed, handed, IsTrueOf, IsHeadline, numbers_in, shown_in, verdict_in};
ghost use Rattle.crp_audit.specs.Faults.{CountsRight, IsFaultOf, IsOutside, reported_as};
ghost use Rattle.crp_audit.specs.Stops.{IsAuditStop, StopsAt, failures_of_stop};

use crate::certified::read_certificate;
use crate::fault::{AuditFault, AuditStop, AuditStopped};
use crate::lines_read::read_lines;
use crp_checker::{Unread, Verdict, Verdicts};
use crp_movins::Orders;
use crp_order::{BayProblem, Sequence, absent, problems};
use crp_plan::{BayName, Source};
use crp_said::{
    Numbers, Report, Said, SaidBay, line_behind, numbers_text, push_bay_line, read_report,
};
use crp_yard::Yard;
use std::alloc::{AllocError, Global};

/// Whether nothing is claimed of a bay of which this is said.
fn is_outside(said: Said) -> bool
    ensures { IsTrue result ↔ IsOutside said }
{
    matches!(said, Said::Outside(_))
}

/// Audits a bay that stands behind this front of the report, and whose certificate is the next: its verdict. Adds its text to the
/// front.
fn audit_bay<R: Source>(
    alloc: Global,
    stated: &BayProblem,
    said: &SaidBay,
    front: &mut Vec<u8>,
    source: &mut R,
    unread: Unread,
    interruptions: &mut u32,
) -> Result<(Verdict, Unread), AuditStop>
    requires named { AllByRecursion FitsLine stated.now.names }
    requires some { (left : List ℕ) × IsLeft (R.remaining source.old) unread left }
    requires passed { interruptions.old ≤ most_interruptions }
    ensures front { OnOk result (front.new.items ≡ front.old.items ++ bay_text (bay_as said.now)) }
    ensures right { IfOk result (λ found. (text : List ℕ) × IsTaken (R.remaining source.old) unread text (R.remaining source.new) found.1
        × ((h : Handed) (bay : StackedBay) → stated.now ≡ bay_problem_of h.yard.sizes h.sequence bay → IsTrueOf h (reported_as bay (bay_as said.now) text)
        × (found.0 ≡ verdict_in h (reported_as bay (bay_as said.now) text)))) }
    ensures wrong { IfErr result (StopsAt (R.remaining source.old) unread
        (λ left fault. (h : Handed) (bay : StackedBay) → stated.now ≡ bay_problem_of h.yard.sizes h.sequence bay
        → said.now.bay ≡ bay.0 → (fault ≡ AuditFault.Memory) ⊎ IsFaultOf said.now.said h (reported_as bay (bay_as said.now) []) left front.old.items fault)) }
    ensures done { OnOk result (Transfers 0 interruptions.old interruptions.new (R.failures source.old) (R.failures source.new) (R.interrupted source.old) (R.interrupted source.new)) }
    ensures stopped { IfErr result (λ stop. Transfers (failures_of_stop stop) interruptions.old interruptions.new (R.failures source.old) (R.failures source.new) (R.interrupted source.old) (R.interrupted source.new)) }
{
    if is_outside(said.said) {
        return Err(AuditStop::Fault(AuditFault::Outside {
            bay: said.bay.copy(),
        }));
    }
    push_bay_line(front, &said.bay, said.said)?;
    let rows = read_lines(alloc, stated, said, front)?;
    front.extend_from_slice(&said.lines)?;
    let found = read_certificate(
        alloc,
        stated,
        said.said,
        &rows,
        source,
        unread,
        interruptions,
    )?;
    Ok(found)
}

/// The three numbers of what is handed in.
fn numbers_in(yard: &Yard, orders: &Orders, sequence: &Sequence) -> Numbers
    ensures { (report certificates : List ℕ) → result ≡ numbers_in (handed yard.now orders.now sequence.now report certificates) }
{
    Numbers {
        orders: orders.list().len() as u64,
        vacant: orders.vacant() as u64,
        absent: absent(yard, sequence) as u64,
    }
}

/// Whether the numbers are the same.
fn same_numbers(a: Numbers, b: Numbers) -> bool
    ensures { IsTrue result ↔ (a ≡ b) }
{
    a == b
}

/// Whether the names are the same.
pub(crate) fn is_named(a: &BayName, b: &BayName) -> bool
    ensures { IsTrue result ↔ (a.now ≡ b.now) }
{
    *a == *b
}

/// Adds a verdict to those shown.
fn show(
    shown: &mut Vec<(BayName, Verdict)>,
    bay: &BayName,
    verdict: Verdict,
) -> Result<(), AllocError>
    ensures shown { OnOk result (shown.new.items ≡ shown.old.items ++ (bay.now, verdict) ∷ []) }
    ensures same { OnErr result (shown.new.items ≡ shown.old.items) }
{
    shown.push((bay.copy(), verdict)).map_err(AllocError::from)
}

/// Whether the last line counts the bays and those that are settled.
fn counts_right(report: &Report) -> bool
    ensures { IsTrue result ↔ CountsRight (report_as report.now) }
{
    let mut settled: usize = 0;
    for bay in &report.bays {
        if bay.said.is_settled() {
            settled += 1;
        }
    }
    report.count as usize == report.bays.len() && report.settled as usize == settled
}

/// That another bay is wanted behind this front of the report, or none.
fn other_bay(front: &[u8], wanted: Option<&BayName>) -> AuditStop
    ensures { result ≡ AuditStop.Fault (AuditFault.Bay (line_behind front.now) (option_copied wanted.entry)) }
{
    AuditStop::Fault(AuditFault::Bay {
        line: line_behind(front),
        wanted: wanted.map(BayName::copy),
    })
}

/// Audits what is handed in, and at most so many bytes of certificates. Adds the verdict of each bay that is right to those shown.
fn audit_into<R: Source>(
    alloc: Global,
    yard: &Yard,
    orders: &Orders,
    sequence: &Sequence,
    report: &[u8],
    certificates: &mut R,
    limit: usize,
    interruptions: &mut u32,
    shown: &mut Vec<(BayName, Verdict)>,
) -> Result<(), AuditStop>
    requires named { AllByRecursion IsNamedBay yard.now.bays }
    requires passed { interruptions.old ≤ most_interruptions }
    requires none_shown { shown.old.items ≡ [] }
    ensures accepted { OnOk result ((text : List ℕ) × (length text ≤ limit) × IsTextOf (R.remaining certificates.old) text
        × ((is : IsHeadline (handed yard.now orders.now sequence.now report.now text))
        × (shown.new.items ≡ shown_in (handed yard.now orders.now sequence.now report.now text) is))) }
    ensures refused { IfErr result (λ stop. (text : List ℕ) × IsTextOf (R.remaining certificates.old) text
        × IsAuditStop (handed yard.now orders.now sequence.now report.now text) limit (R.failures certificates.old) (R.failures certificates.new) shown.new.items stop) }
    ensures done { OnOk result (Transfers 0 interruptions.old interruptions.new (R.failures certificates.old) (R.failures certificates.new) (R.interrupted certificates.old) (R.interrupted certificates.new)) }
    ensures stopped { IfErr result (λ stop. Transfers (failures_of_stop stop) interruptions.old interruptions.new (R.failures certificates.old) (R.failures certificates.new) (R.interrupted certificates.old) (R.interrupted certificates.new)) }
{
    let said = read_report(alloc, report)?;
    if !same_numbers(said.numbers, numbers_in(yard, orders, sequence)) {
        return Err(AuditStop::Fault(AuditFault::Numbers));
    }
    let stated = problems(alloc, yard, sequence)?;
    let mut front = numbers_text(alloc, said.numbers)?;
    let mut unread = Unread::new(alloc, limit);
    let mut later = stated.as_slice();
    let mut more = said.bays.as_slice();
    while let Some((next, behind)) = later.split_first() {
        let Some((bay, after)) = more.split_first() else {
            return Err(other_bay(&front, Some(&next.bay)));
        };
        if !is_named(&bay.bay, &next.bay) {
            return Err(other_bay(&front, Some(&next.bay)));
        }
        let (verdict, rest) = audit_bay(
            alloc,
            next,
            bay,
            &mut front,
            certificates,
            unread,
            interruptions,
        )?;
        unread = rest;
        show(shown, &next.bay, verdict)?;
        later = behind;
        more = after;
    }
    if !more.is_empty() {
        return Err(other_bay(&front, None));
    }
    if unread.fill(certificates, interruptions)? {
        return Err(AuditStop::Fault(AuditFault::LeftOver));
    }
    if !counts_right(&said) {
        return Err(AuditStop::Fault(AuditFault::Closing));
    }
    Ok(())
}

/// Audits a report and the certificates that a source gives against a yard, its load orders and their sequence, whoever made them:
/// the verdicts of its bays, where they are a headline, and else the first fault, behind those of the bays before it. The certificates
/// bear them out: they show the same, but of a bay whose moves were edited the lower bound alone. They are read in pieces, and at most
/// `limit` bytes of them. A headline is refused only where memory runs out or a read fails.
pub fn audit<R: Source>(
    alloc: Global,
    yard: &Yard,
    orders: &Orders,
    sequence: &Sequence,
    report: &[u8],
    certificates: &mut R,
    limit: usize,
    interruptions: &mut u32,
) -> Result<Verdicts, AuditStopped>
    requires named { AllByRecursion IsNamedBay yard.now.bays }
    requires passed { interruptions.old ≤ most_interruptions }
    ensures accepted { IfOk result (λ shown. (text : List ℕ) × (length text ≤ limit) × IsTextOf (R.remaining certificates.old) text
        × ((is : IsHeadline (handed yard.now orders.now sequence.now report.now text)) × (shown ≡ shown_in (handed yard.now orders.now sequence.now report.now text) is))) }
    ensures refused { IfErr result (λ stopped. (text : List ℕ) × IsTextOf (R.remaining certificates.old) text
        × IsAuditStop (handed yard.now orders.now sequence.now report.now text) limit (R.failures certificates.old) (R.failures certificates.new) stopped.before stopped.stop) }
    ensures complete { IfSome (R.remaining certificates.old) (λ text. length text ≤ limit → IsHeadline (handed yard.now orders.now sequence.now report.now text)
        → length yard.now.bays ≤ most → AreSmall (numbers_in (handed yard.now orders.now sequence.now report.now text))
        → IfErr result (λ stopped. (stopped.stop ≡ AuditStop.Failed) ⊎ (stopped.stop ≡ AuditStop.Fault AuditFault.Memory))) }
    ensures done { OnOk result (Transfers 0 interruptions.old interruptions.new (R.failures certificates.old) (R.failures certificates.new) (R.interrupted certificates.old) (R.interrupted certificates.new)) }
    ensures stopped { IfErr result (λ stopped. Transfers (failures_of_stop stopped.stop) interruptions.old interruptions.new (R.failures certificates.old) (R.failures certificates.new) (R.interrupted certificates.old) (R.interrupted certificates.new)) }
{
    let mut shown = Vec::new(alloc);
    match audit_into(
        alloc,
        yard,
        orders,
        sequence,
        report,
        certificates,
        limit,
        interruptions,
        &mut shown,
    ) {
        Ok(()) => Ok(Verdicts::of(shown)),
        Err(stop) => Err(AuditStopped {
            before: Verdicts::of(shown),
            stop,
        }),
    }
}
