//! The command `follow` with two reports over its files.
ghost use Rattle.std.specs.Prelude.{◌≡◌, ◌≢◌, MatchResult, codes, not};
ghost use Rattle.crp_report.specs.Runs.{SourceSeen, SinkSeen, sink_seen, source_seen};
ghost use Rattle.crp_jobs.specs.Opened.{FilesSeen};
ghost use Rattle.crp_commands.specs.Compare.{CompareFailsOverFiles, CompareReportsOverFiles, ComparesOver, IsOverReports, RefusesReport};
ghost use Rattle.crp_commands.specs.Noted.{IsNotedBy};

use crate::comparing::{CompareSettings, compare};
use crate::streams::Streams;
use crp_files::Files;
use crp_jobs::{CompareFiles, Statement, ToolFault};
use crp_plan::{Sink, Source};
use crp_report::{Fault, Input, InputSettings, Status};
use crp_separated::ListInput;
use std::alloc::Global;

// What is asked for where two reports are compared: their files, and what is asked for of their bytes.
#[derive(Clone, Copy)]
struct CompareAsked<'a> {
    names: &'a CompareFiles<'a>,
    settings: CompareSettings<'a>,
}

// Compares the standard input with the file of the second report.
#[tactic(auto, using(crate::proofs::Noted::unnoted))]
fn compare_first_given<F: Files, Y: Source, R: Source, W: Sink, E: Sink>(
    alloc: Global,
    files: &mut F,
    asked: &CompareAsked<'_>,
    yard: &mut Y,
    streams: &mut Streams<R, W, E>,
) -> Result<Status, ToolFault>
    requires { asked.now.names.now.report.now ≡ codes "-" }
    ensures ended { let listed : SourceSeen = source_seen Y.remaining Y.failures yard.old yard.new
        in let given : SourceSeen = source_seen R.remaining R.failures streams.old.input streams.new.input
        in let shown : SinkSeen = sink_seen W.contents W.failures streams.old.out streams.new.out
        in let all : FilesSeen = record { known = F.known files.old; left = F.known files.new; before = F.failures files.old; after = F.failures files.new }
        in ComparesOver (record { input = asked.now.settings.input.now; partial = asked.now.settings.partial; separator = asked.now.settings.separator }) (IsOverReports asked.now.names.now all listed given shown)
        (RefusesReport asked.now.names.now all listed given shown) result }
    ensures noted { IsNotedBy (not asked.now.settings.partial) (sink_seen E.contents E.failures streams.old.errors streams.new.errors) }
{
    let Ok(mut second) = files.open(asked.names.second) else {
        return Err(ToolFault::ReadSecond);
    };
    let answer = compare(
        alloc,
        yard,
        &mut streams.input,
        &mut second,
        &asked.settings,
        &mut streams.out,
        &mut streams.errors,
    );
    files.close(second);
    answer
}

// Compares the file of the first report with the standard input.
#[tactic(auto, using(crate::proofs::Noted::unnoted))]
fn compare_second_given<F: Files, Y: Source, R: Source, W: Sink, E: Sink>(
    alloc: Global,
    files: &mut F,
    asked: &CompareAsked<'_>,
    yard: &mut Y,
    streams: &mut Streams<R, W, E>,
) -> Result<Status, ToolFault>
    requires first { asked.now.names.now.report.now ≢ codes "-" }
    requires second { asked.now.names.now.second.now ≡ codes "-" }
    ensures ended { let listed : SourceSeen = source_seen Y.remaining Y.failures yard.old yard.new
        in let given : SourceSeen = source_seen R.remaining R.failures streams.old.input streams.new.input
        in let shown : SinkSeen = sink_seen W.contents W.failures streams.old.out streams.new.out
        in let all : FilesSeen = record { known = F.known files.old; left = F.known files.new; before = F.failures files.old; after = F.failures files.new }
        in ComparesOver (record { input = asked.now.settings.input.now; partial = asked.now.settings.partial; separator = asked.now.settings.separator }) (IsOverReports asked.now.names.now all listed given shown)
        (RefusesReport asked.now.names.now all listed given shown) result }
    ensures noted { IsNotedBy (not asked.now.settings.partial) (sink_seen E.contents E.failures streams.old.errors streams.new.errors) }
{
    let Ok(mut report) = files.open(asked.names.report) else {
        return Err(ToolFault::ReadOf(Statement::Report));
    };
    let answer = compare(
        alloc,
        yard,
        &mut report,
        &mut streams.input,
        &asked.settings,
        &mut streams.out,
        &mut streams.errors,
    );
    files.close(report);
    answer
}

// Compares the files of the two reports.
#[tactic(auto, using(crate::proofs::Noted::unnoted))]
fn compare_opened<F: Files, Y: Source, R: Source, W: Sink, E: Sink>(
    alloc: Global,
    files: &mut F,
    asked: &CompareAsked<'_>,
    yard: &mut Y,
    streams: &mut Streams<R, W, E>,
) -> Result<Status, ToolFault>
    requires first { asked.now.names.now.report.now ≢ codes "-" }
    requires second { asked.now.names.now.second.now ≢ codes "-" }
    ensures ended { let listed : SourceSeen = source_seen Y.remaining Y.failures yard.old yard.new
        in let given : SourceSeen = source_seen R.remaining R.failures streams.old.input streams.new.input
        in let shown : SinkSeen = sink_seen W.contents W.failures streams.old.out streams.new.out
        in let all : FilesSeen = record { known = F.known files.old; left = F.known files.new; before = F.failures files.old; after = F.failures files.new }
        in ComparesOver (record { input = asked.now.settings.input.now; partial = asked.now.settings.partial; separator = asked.now.settings.separator }) (IsOverReports asked.now.names.now all listed given shown)
        (RefusesReport asked.now.names.now all listed given shown) result }
    ensures noted { IsNotedBy (not asked.now.settings.partial) (sink_seen E.contents E.failures streams.old.errors streams.new.errors) }
{
    let Ok(mut report) = files.open(asked.names.report) else {
        return Err(ToolFault::ReadOf(Statement::Report));
    };
    let Ok(mut second) = files.open(asked.names.second) else {
        return Err(ToolFault::ReadSecond);
    };
    let answer = compare(
        alloc,
        yard,
        &mut report,
        &mut second,
        &asked.settings,
        &mut streams.out,
        &mut streams.errors,
    );
    files.close(report);
    files.close(second);
    answer
}

// Opens the reports, but for the one that is the standard input, if one is.
fn compare_reports<F: Files, Y: Source, R: Source, W: Sink, E: Sink>(
    alloc: Global,
    files: &mut F,
    asked: &CompareAsked<'_>,
    yard: &mut Y,
    streams: &mut Streams<R, W, E>,
) -> Result<Status, ToolFault>
    ensures ended { let listed : SourceSeen = source_seen Y.remaining Y.failures yard.old yard.new
        in let given : SourceSeen = source_seen R.remaining R.failures streams.old.input streams.new.input
        in let shown : SinkSeen = sink_seen W.contents W.failures streams.old.out streams.new.out
        in let all : FilesSeen = record { known = F.known files.old; left = F.known files.new; before = F.failures files.old; after = F.failures files.new }
        in ComparesOver (record { input = asked.now.settings.input.now; partial = asked.now.settings.partial; separator = asked.now.settings.separator }) (IsOverReports asked.now.names.now all listed given shown)
        (RefusesReport asked.now.names.now all listed given shown) result }
    ensures noted { IsNotedBy (not asked.now.settings.partial) (sink_seen E.contents E.failures streams.old.errors streams.new.errors) }
{
    if asked.names.report == "-" {
        return compare_first_given(alloc, files, asked, yard, streams);
    }
    if asked.names.second == "-" {
        return compare_second_given(alloc, files, asked, yard, streams);
    }
    compare_opened(alloc, files, asked, yard, streams)
}

/// Opens the files, before anything is read: the yard list and the two reports. Then compares these. The first one that is named `-` is
/// the standard input. The table goes to the standard output, and of reports that end early notes go to the standard error.
#[tactic(auto, using(crate::proofs::Noted::unnoted))]
pub fn compare_files<F: Files, R: Source, W: Sink, E: Sink>(
    alloc: Global,
    files: &mut F,
    streams: &mut Streams<R, W, E>,
    names: &CompareFiles<'_>,
    settings: &InputSettings,
) -> Result<Status, ToolFault>
    ensures ended { let all : FilesSeen = record { known = F.known files.old; left = F.known files.new; before = F.failures files.old; after = F.failures files.new }
        in let given : SourceSeen = source_seen R.remaining R.failures streams.old.input streams.new.input
        in let shown : SinkSeen = sink_seen W.contents W.failures streams.old.out streams.new.out
        in MatchResult result (CompareReportsOverFiles names.now settings.now all given shown) (CompareFailsOverFiles names.now settings.now all given shown) }
    ensures noted { IsNotedBy (not names.now.partial) (sink_seen E.contents E.failures streams.old.errors streams.new.errors) }
{
    let Ok(list) = files.open(names.yard) else {
        return Err(ToolFault::Run(Fault::Read(Input::Yard)));
    };
    let mut yard = ListInput::with_commas(list, names.separator);
    let asked = CompareAsked {
        names,
        settings: CompareSettings {
            input: settings,
            partial: names.partial,
            separator: names.separator,
        },
    };
    let answer = compare_reports(alloc, files, &asked, &mut yard, streams);
    files.close(yard.into_file());
    answer
}
