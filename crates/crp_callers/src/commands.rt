//! Callers of the commands over lists of bytes.
ghost use Rattle.std.specs.Prelude.{◌≡◌, ◌≢◌, ◌≤◌, ◌++◌, ◌∷◌, [], ℕ, List, Err, Some, codes, decimal, length, IfOk, OnOk, MatchOption};
ghost use Rattle.crp_plan.specs.BayNames.{YardBay};
ghost use Rattle.crp_cert.specs.declared.head.Head.{Head as HeadStated};
ghost use Rattle.crp_cert.specs.Text.{IsHeadOf};
ghost use Rattle.crp_checker.specs.declared.refused.Refused.{Refused};
ghost use Rattle.crp_checker.specs.declared.verdict.Verdict.{Verdict};
ghost use Rattle.crp_checker.specs.Files.{IsFileRefusal};
ghost use Rattle.crp_audit.specs.declared.fault.AuditFault.{AuditFault};
ghost use Rattle.crp_audit.specs.Faults.{IsAuditRefusal};
ghost use Rattle.crp_audit.specs.Headline.{IsHeadline, numbers_in, shown_in};
ghost use Rattle.crp_said.specs.Spelled.{most, AreSmall};
ghost use Rattle.crp_yard.specs.Inventory.{Inventory};
ghost use Rattle.crp_yard.specs.Naming.{IsNamedBay};
ghost use Rattle.crp_yard.specs.Reading.{IsYardListOf};
ghost use Rattle.crp_movins.specs.LoadOrders.{LoadOrders};
ghost use Rattle.crp_order.specs.Absences.{absent_text};
ghost use Rattle.crp_report.specs.Runs.{AreOrders};
ghost use Rattle.std.specs.List.{AllByRecursion};
ghost use Rattle.crp_follow.specs.declared.fault.FollowFault.{FollowFault};
ghost use Rattle.crp_commands.specs.Audit.{audit_text};
ghost use Rattle.crp_commands.specs.Check.{verdict_lines};
ghost use Rattle.crp_commands.specs.Rewrite.{IsRefusedReport};
ghost use Rattle.crp_callers.specs.CommandReports.{EndsWithBound, HoldsOfTexts, IsFollowedWhole, IsReportOf};

use crp_audit::headlines_have_no_fault;
use crp_commands::{
    AuditSettings, FollowSettings, Listed, NoTerminal, TextFiles, absent, audit, bound, check,
    follow, perform, replay, rewrite,
};
use crp_follow::Part;
use crp_jobs::{FileCommand, ToolFault};
use crp_plan::{Nowhere, Received};
use crp_report::{InputSettings, Status};
use std::alloc::Global;
use std::sync::Wait;
use std::thread::Threads;

/// What a command reports of the bytes of a file is what that command is to report, and not what another one is.
pub fn performed<T: Threads + Wait + Sync>(
    threads: &T,
    alloc: Global,
    command: &FileCommand,
    bytes: &[u8],
) -> Result<Vec<u8>, ToolFault>
    ensures { IfOk result (λ report. IsReportOf command.now bytes.now report.items) }
{
    let mut source = bytes;
    let mut out = Received::new(alloc);
    perform(
        threads,
        alloc,
        &NoTerminal,
        command,
        &mut source,
        &mut out,
        &mut Nowhere,
    )?;
    Ok(out.bytes)
}

/// A replay counts as relocations the moves that shift a container, which are as many as the plan has rows, and not the others.
pub fn replayed(alloc: Global, bytes: &[u8]) -> Result<Vec<u8>, ToolFault>
    ensures { IfOk result (λ report. (head : HeadStated) × IsHeadOf bytes.now head × MatchOption head.plan
        ((before : List ℕ) × (report.items ≡ before ++ codes "no plan\n"))
        (λ rows. (before : List ℕ) × (after : List ℕ) × (report.items ≡ before ++ (codes " relocations " ++ (decimal (length rows) ++ 10 ∷ after))))) }
{
    let mut source = bytes;
    let mut out = Received::new(alloc);
    replay(alloc, &mut source, &mut out)?;
    Ok(out.bytes)
}

/// No plan of the head's problem has fewer relocations than the number in the line of chains says.
pub fn bounded_by_chains(alloc: Global, bytes: &[u8]) -> Result<Vec<u8>, ToolFault>
    ensures { IfOk result (λ report. (head : HeadStated) × IsHeadOf bytes.now head × EndsWithBound head.problem report.items) }
{
    let mut source = bytes;
    let mut out = Received::new(alloc);
    bound(alloc, &mut source, &mut out, true)?;
    Ok(out.bytes)
}

/// A report that is to be written anew is refused for what is wrong with its text, and then nothing was written.
pub fn rewritten(alloc: Global, bytes: &[u8], out: &mut Received) -> Result<Status, ToolFault>
    requires { out.old.bytes.items ≡ [] }
    ensures { (fault : FollowFault) → result ≡ Err (ToolFault.Followed fault) → IsRefusedReport (Some bytes.now) fault × (out.new.bytes.items ≡ []) }
{
    let mut source = bytes;
    rewrite(alloc, &mut source, out, &mut Nowhere)
}

/// A check of a file that is refused writes the lines of the certificates before the refused one, by however many workers; and of a file
/// that holds some it notes nothing.
pub fn checked<T: Threads + Sync>(
    threads: &T,
    alloc: Global,
    certificates: &[u8],
    lines: &mut Received,
    notes: &mut Received,
    workers: u32,
) -> Result<Status, ToolFault>
    requires no_lines { lines.old.bytes.items ≡ [] }
    requires no_notes { notes.old.bytes.items ≡ [] }
    ensures refused { (number : ℕ) (why : Refused) → result ≡ Err (ToolFault.Checked number why)
        → (before : List (YardBay × Verdict)) × IsFileRefusal certificates.now before number why × (lines.new.bytes.items ≡ verdict_lines before) }
    ensures noted { OnOk result (lines.new.bytes.items ≢ [] → notes.new.bytes.items ≡ []) }
{
    let mut source = certificates;
    check(threads, alloc, &mut source, lines, notes, false, workers)
}

/// The list of a yard list and a message has a record for each ordered container that is not in the yard, and no other, whatever the order
/// of leaving is.
pub fn listed_absent(
    alloc: Global,
    list: &[u8],
    message: &[u8],
    settings: &InputSettings,
) -> Result<Vec<u8>, ToolFault>
    ensures { IfOk result (λ text. (yard : Inventory) × (orders : LoadOrders) × IsYardListOf settings.now.sizes list.now yard
        × AreOrders settings.now.loading message.now orders × (text.items ≡ absent_text yard orders.list)) }
{
    let mut yard_from = list;
    let mut orders_from = message;
    let mut out = Received::new(alloc);
    absent(
        alloc,
        &mut yard_from,
        &mut orders_from,
        settings,
        b',',
        &mut out,
    )?;
    Ok(out.bytes)
}

/// An audit over texts ends well where they are a headline, and then its text is written; where it refuses them, they have that first fault,
/// and are no headline, where the bays and the numbers are few enough for a report.
pub fn audited(
    alloc: Global,
    list: &[u8],
    message: &[u8],
    report: &[u8],
    certificates: &[u8],
    settings: &InputSettings,
) -> Result<Vec<u8>, ToolFault>
    ensures accepted { IfOk result (λ text. HoldsOfTexts settings.now list.now message.now report.now certificates.now
        (λ h. (is : IsHeadline h) × (text.items ≡ audit_text (shown_in h is)))) }
    ensures refused { (fault : AuditFault) → result ≡ Err (ToolFault.Audited fault)
        → HoldsOfTexts settings.now list.now message.now report.now certificates.now (λ h. (before : List (YardBay × Verdict)) × IsAuditRefusal h before fault
        × (AllByRecursion IsNamedBay h.yard.bays → length h.yard.bays ≤ most → AreSmall (numbers_in h) → fault ≢ AuditFault.Memory → ¬ IsHeadline h)) }
{
    headlines_have_no_fault();
    let mut yard_from = list;
    let mut orders_from = message;
    let mut report_from = report;
    let mut certificates_from = certificates;
    let mut out = Received::new(alloc);
    let asked = AuditSettings {
        input: settings,
        partial: false,
    };
    match audit(
        alloc,
        &mut yard_from,
        &mut orders_from,
        &mut report_from,
        &mut certificates_from,
        &asked,
        &mut out,
        &mut Nowhere,
    ) {
        Ok(_) => Ok(out.bytes),
        Err(fault) => Err(fault),
    }
}

/// Where a report is followed with a message, a page and a list, all of the report is followed, the whole page of the part that is named is
/// written, the list is that of the yard as the moves of that part leave it, up to so many containers of the ship or all of them, and the
/// table is in the order in which the ship is loaded.
pub fn followed(
    alloc: Global,
    list: &[u8],
    message: &[u8],
    report: &[u8],
    asked: (&InputSettings, &Part<'_>, Option<u64>),
    texts: &mut TextFiles<Received, Received>,
    table: &mut Received,
) -> Result<Status, ToolFault>
    requires no_page { texts.old.page.bytes.items ≡ [] }
    requires no_list { texts.old.list.bytes.items ≡ [] }
    requires no_table { table.old.bytes.items ≡ [] }
    ensures { OnOk result (IsFollowedWhole asked.entry.0.now asked.entry.1.now asked.entry.2 list.now message.now report.now texts.new.page.bytes.items texts.new.list.bytes.items table.new.bytes.items) }
{
    let (settings, part, loaded) = asked;
    let mut listed = Listed {
        yard: list,
        movins: message,
    };
    let mut report_from = report;
    let asked = FollowSettings {
        input: settings,
        part,
        ship: true,
        page: true,
        list: true,
        loaded,
        partial: false,
        summary: false,
        separator: b',',
    };
    follow(
        alloc,
        &mut listed,
        &mut report_from,
        &asked,
        texts,
        table,
        &mut Nowhere,
    )
}
