//! The command `audit` over its files.
ghost use Rattle.std.specs.Prelude.{MatchResult, not};
ghost use Rattle.crp_report.specs.Runs.{SinkSeen, sink_seen};
ghost use Rattle.crp_jobs.specs.Opened.{FilesSeen};
ghost use Rattle.crp_commands.specs.Audit.{AuditReportsOverFiles, AuditFailsOverFiles};
ghost use Rattle.crp_commands.specs.Noted.{IsNotedBy};

use crate::auditing::{AuditSettings, audit};
use crp_files::Files;
use crp_jobs::{AuditFiles, Statement, ToolFault};
use crp_notes::{Metered, Terminal, begin_reading, clear_reading};
use crp_plan::Sink;
use crp_report::{Fault, Input, InputSettings, Status};
use crp_separated::ListInput;
use std::alloc::Global;

/// Opens the four files, before anything is read, and audits them. What is shown goes to `out`, what is noted of a report that ends early
/// to `errors`, and how far the certificates are read to the terminal.
#[tactic(auto, using(crate::proofs::Noted::unnoted))]
pub fn audit_files<F: Files, W: Sink, E: Sink, S: Terminal>(
    alloc: Global,
    files: &mut F,
    names: &AuditFiles<'_>,
    settings: &InputSettings,
    out: &mut W,
    errors: &mut E,
    terminal: &S,
) -> Result<Status, ToolFault>
    ensures ended { let all : FilesSeen = record { known = F.known files.old; left = F.known files.new; before = F.failures files.old; after = F.failures files.new }
        in let shown : SinkSeen = sink_seen W.contents W.failures out.old out.new
        in MatchResult result (AuditReportsOverFiles names.now settings.now all shown) (AuditFailsOverFiles names.now settings.now all shown) }
    ensures noted { IsNotedBy (not names.now.partial) (sink_seen E.contents E.failures errors.old errors.new) }
{
    let Ok(list) = files.open(names.yard) else {
        return Err(ToolFault::Run(Fault::Read(Input::Yard)));
    };
    let Ok(mut movins) = files.open(names.movins) else {
        return Err(ToolFault::Run(Fault::Read(Input::Movins)));
    };
    let Ok(mut report) = files.open(names.report) else {
        return Err(ToolFault::ReadOf(Statement::Report));
    };
    let Ok(certificates) = files.open(names.certificates) else {
        return Err(ToolFault::ReadOf(Statement::Certificates));
    };
    begin_reading(terminal, files.size(names.certificates));
    let mut certificates = Metered {
        source: certificates,
        terminal,
    };
    let mut yard = ListInput::with_commas(list, names.separator);
    let asked = AuditSettings {
        input: settings,
        partial: names.partial,
    };
    let answer = audit(
        alloc,
        &mut yard,
        &mut movins,
        &mut report,
        &mut certificates,
        &asked,
        out,
        errors,
    );
    clear_reading(terminal);
    files.close(yard.into_file());
    files.close(movins);
    files.close(report);
    files.close(certificates.source);
    answer
}
