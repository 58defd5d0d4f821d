//! A job over its files.
ghost use Rattle.std.specs.Prelude.{◌≡◌, ◌≤◌, ℕ, List, IfOk, OnOk, IfErr, MatchResult};
ghost use Rattle.crp_plan.specs.Devices.{CountsMore, most_interruptions};
ghost use Rattle.crp_sizes.specs.Fields.{IsTextOf};
ghost use Rattle.crp_sizes.specs.Heights.{CanBeHeights};
ghost use Rattle.crp_sizes.specs.Records.{IsSizesListOf};
ghost use Rattle.crp_report.specs.Runs.{sink_seen};
ghost use Rattle.crp_separated.specs.Inputs.{comma_list_of};
ghost use Rattle.crp_jobs.specs.Opened.{FilesSeen};
ghost use Rattle.crp_commands.specs.Noted.{IsNoted, IsNotedIn};
ghost use Rattle.crp_commands.specs.Performing.{JobSeen, job_seen, ReportsFile, FileFailsWith, ReportsOverFiles, FailsOverFiles, unread_by};
ghost use Rattle.crp_commands.specs.Sized.{IsNoList, IsDone, IsFailed};

use crate::over_absent_files::absent_files;
use crate::over_audit_files::audit_files;
use crate::over_compare_files::compare_files;
use crate::over_follow_files::follow_files;
use crate::over_yard_files::{RunAsked, Watcher, solve};
use crate::performing::perform;
use crate::streams::Streams;
use crp_files::{Files, STANDARD_INPUT};
use crp_jobs::{FileCommand, Job, Statement, ToolFault};
use crp_notes::{Metered, Stoppable, Terminal, begin_reading, clear_reading};
use crp_plan::{Sink, Source};
use crp_report::Status;
use crp_separated::ListInput;
use crp_sizes::{Sizes, sizes_from};
use std::alloc::Global;
use std::sync::Wait;
use std::thread::Threads;

// That the file of a command could not be read.
fn unread_by(command: &FileCommand) -> ToolFault
    ensures { result ≡ unread_by command.now }
{
    match command {
        FileCommand::Rewrite => ToolFault::ReadOf(Statement::Report),
        FileCommand::Replay
        | FileCommand::Bound { .. }
        | FileCommand::Check { .. }
        | FileCommand::Prove(_) => ToolFault::Read,
    }
}

// Shows from now on how far the file of this name is read, if the command is one that checks it.
fn begin_checking<F: Files, S: Terminal>(
    files: &F,
    name: &str,
    command: &FileCommand,
    terminal: &S,
) {
    if let FileCommand::Check { .. } = command {
        begin_reading(terminal, files.size(name));
    }
}

// Does a command over one file. A file named `-` is the standard input. How far a search or a check is, is shown on the terminal.
#[tactic(auto, using(crate::proofs::Noted::unnoted_in))]
fn perform_on<T: Threads + Wait + Sync, F: Files, R: Source, W: Sink, E: Sink, S: Terminal + Sync>(
    threads: &T,
    alloc: Global,
    terminal: &S,
    files: &mut F,
    streams: &mut Streams<R, W, E>,
    name: &str,
    command: &FileCommand,
) -> Result<Status, ToolFault>
    ensures done { let seen : JobSeen = job_seen F.known F.failures R.remaining R.failures W.contents W.failures files.old files.new streams.old streams.new
        in MatchResult result (ReportsFile name.now command.now seen) (FileFailsWith name.now command.now seen) }
    ensures noted { IsNotedIn command.now (sink_seen E.contents E.failures streams.old.errors streams.new.errors) }
{
    if name == "-" {
        begin_checking(files, STANDARD_INPUT, command, terminal);
        let answer = perform(
            threads,
            alloc,
            terminal,
            command,
            &mut streams.input,
            &mut streams.out,
            &mut streams.errors,
        );
        clear_reading(terminal);
        return answer;
    }
    let Ok(source) = files.open(name) else {
        return Err(unread_by(command));
    };
    begin_checking(files, name, command, terminal);
    let mut source = Metered { source, terminal };
    let answer = perform(
        threads,
        alloc,
        terminal,
        command,
        &mut source,
        &mut streams.out,
        &mut streams.errors,
    );
    clear_reading(terminal);
    files.close(source.source);
    answer
}

// Does a job over its files.
fn do_job<T: Threads + Wait + Sync, F: Files, R: Source, W: Sink, E: Sink, S: Terminal + Sync>(
    threads: &T,
    alloc: Global,
    files: &mut F,
    streams: &mut Streams<R, W, E>,
    job: &Job<'_>,
    terminal: &S,
) -> Result<Status, ToolFault>
    ensures done { let seen : JobSeen = job_seen F.known F.failures R.remaining R.failures W.contents W.failures files.old files.new streams.old streams.new
        in MatchResult result (ReportsOverFiles job.now seen) (FailsOverFiles job.now seen) }
    ensures noted { IsNoted job.now (sink_seen E.contents E.failures streams.old.errors streams.new.errors) }
{
    match job {
        Job::OneFile {
            file,
            command,
            stop,
        } => {
            let terminal = Stoppable::new(terminal, *stop);
            perform_on(threads, alloc, &terminal, files, streams, file, command)
        }
        Job::Absent {
            files: names,
            settings,
        } => absent_files(alloc, files, names, settings, &mut streams.out),
        Job::Audit {
            files: names,
            settings,
        } => audit_files(
            alloc,
            files,
            names,
            settings,
            &mut streams.out,
            &mut streams.errors,
            terminal,
        ),
        Job::Follow {
            files: names,
            settings,
        } => follow_files(alloc, files, streams, names, settings),
        Job::Compare {
            files: names,
            settings,
        } => compare_files(alloc, files, streams, names, settings),
        Job::Solve {
            files: names,
            settings,
            quiet,
            progress,
        } => {
            let asked = RunAsked { names, settings };
            let watcher = Watcher {
                quiet: *quiet,
                progress: *progress,
                terminal,
            };
            solve(
                threads,
                alloc,
                files,
                &asked,
                &mut streams.out,
                &watcher,
                &mut streams.errors,
            )
        }
    }
}

// The sizes that the list of this name has, with this byte between its fields, and the common ones of bays that it has not.
fn sizes_of<F: Files>(
    alloc: Global,
    files: &mut F,
    name: &str,
    separator: u8,
    common: &[u8],
) -> Result<Sizes, ToolFault>
    requires { CanBeHeights common.now }
    ensures accepted { IfOk result (λ sizes. (text : List ℕ) × IsTextOf (comma_list_of separator ((F.known files.old).given name.now)) text × IsSizesListOf common.now text sizes) }
    ensures read { OnOk result ((n : ℕ) × (n ≤ most_interruptions) × CountsMore n (F.failures files.old) (F.failures files.new)) }
    ensures refused { let seen : FilesSeen = record { known = F.known files.old; left = F.known files.new; before = F.failures files.old; after = F.failures files.new }
        in IfErr result (IsNoList seen separator name.now) }
    ensures kept { F.known files.new ≡ F.known files.old }
{
    let Ok(file) = files.open(name) else {
        return Err(ToolFault::ReadSizes);
    };
    let mut list = ListInput::with_commas(file, separator);
    let sizes = sizes_from(alloc, &mut list, common);
    files.close(list.into_file());
    Ok(sizes?)
}

/// Does a job over its files, and writes its report to the standard output. A job over the file `-`, and one that follows a report named
/// `-`, reads the standard input. A run over a yard that is not to be quiet writes its notes to the standard error, as a check does that
/// finds no certificate, what follows a report with a message, and what follows or audits one that ends early; and it shows on the
/// terminal how far it is, as `prove` does and, where it shows how far a file is read, a check and an audit. Limits of time are seen by the
/// clock of the terminal. A list of sizes, where the job names one, is read before any other file is opened, and the bays of the yard have
/// these sizes.
///
/// Of a run over a yard the headline holds: of the texts that it wrote, and where it ended with a fault of those whose fronts it wrote.
#[tactic(auto, using(crate::proofs::AsSized::unnoted_job))]
pub fn run_job<T: Threads + Wait + Sync, F: Files, R: Source, W: Sink, E: Sink, S: Terminal + Sync>(
    threads: &T,
    alloc: Global,
    files: &mut F,
    streams: &mut Streams<R, W, E>,
    job: &Job<'_>,
    terminal: &S,
) -> Result<Status, ToolFault>
    ensures done { let seen : JobSeen = job_seen F.known F.failures R.remaining R.failures W.contents W.failures files.old files.new streams.old streams.new
        in MatchResult result (IsDone job.now seen) (IsFailed job.now seen) }
    ensures noted { IsNoted job.now (sink_seen E.contents E.failures streams.old.errors streams.new.errors) }
{
    let Some((name, input)) = job.list_of_sizes() else {
        return do_job(threads, alloc, files, streams, job, terminal);
    };
    let sizes = sizes_of(alloc, files, name, job.separator(), input.sizes().common())?;
    let sized = job.with_sizes(alloc, sizes)?;
    do_job(threads, alloc, files, streams, &sized, terminal)
}
