//! What the words of the command line ask for, done.
ghost use Rattle.std.specs.Prelude.{MatchResult, map};
ghost use Rattle.crp_report.specs.Runs.{SinkSeen, sink_seen};
ghost use Rattle.crp_jobs.specs.Opened.{IsLeftAlone};
ghost use Rattle.crp_commands.specs.Performing.{JobSeen, job_seen};
ghost use Rattle.crp_words.specs.Endings.{IsExplainedOf, JobEnds, ProgramEnds};

use crate::ending::{end_with_usage, explain_fault, explain_found};
use crate::words::job;
use crp_commands::{Streams, Terminal, run_job};
use crp_files::Files;
use crp_jobs::{Job, ToolFault, exit_of, found_line, place_of};
use crp_plan::{Sink, Source};
use crp_report::Status;
use std::alloc::Global;
use std::sync::Wait;
use std::thread::Threads;

// Explains the fault of a job: the place where a read or a write has failed, or which files are one; and else what was found, where that
// tells more.
fn explain_of<F: Files, E: Sink>(
    alloc: Global,
    files: &F,
    errors: &mut E,
    job: &Job<'_>,
    fault: &ToolFault,
)
    ensures { let seen : SinkSeen = sink_seen E.contents E.failures errors.old errors.new
        in IsExplainedOf (F.known files.now) job.now fault.now seen }
{
    let Some(place) = place_of(job, fault) else {
        let Some(line) = found_line(alloc, files, job, fault) else {
            return explain_fault(errors, fault, None);
        };
        return explain_found(errors, fault, line.as_slice());
    };
    explain_fault(errors, fault, Some(place));
}

// Explains the fault of a job, if it ended with one.
fn explain_answer<F: Files, E: Sink>(
    alloc: Global,
    files: &F,
    errors: &mut E,
    job: &Job<'_>,
    answer: &Result<Status, ToolFault>,
)
    ensures { let seen : SinkSeen = sink_seen E.contents E.failures errors.old errors.new
        in MatchResult answer.now (λ _. IsLeftAlone seen) (λ fault. IsExplainedOf (F.known files.now) job.now fault seen) }
{
    match answer {
        Ok(_) => {}
        Err(fault) => explain_of(alloc, files, errors, job, fault),
    }
}

// Does a job, and explains its fault behind its notes. Returns the exit status.
fn end_with_job<
    T: Threads + Wait + Sync,
    F: Files,
    R: Source,
    W: Sink,
    E: Sink,
    S: Terminal + Sync,
>(
    threads: &T,
    alloc: Global,
    files: &mut F,
    streams: &mut Streams<R, W, E>,
    job: &Job<'_>,
    terminal: &S,
) -> u8
    ensures { let seen : JobSeen = job_seen F.known F.failures R.remaining R.failures W.contents W.failures files.old files.new streams.old streams.new
        in let errors_seen : SinkSeen = sink_seen E.contents E.failures streams.old.errors streams.new.errors
        in JobEnds job.now seen errors_seen result }
{
    let answer = run_job(threads, alloc, files, streams, job, terminal);
    explain_answer(alloc, files, &mut streams.errors, job, &answer);
    exit_of(&answer)
}

/// Does what the words of the command line ask for, those behind the program's name: a job over its files, where a file named `-` is the
/// standard input; or help, on the standard output. Notes and what went wrong go to the standard error; how far a run is, is shown on the
/// terminal. Returns the exit status.
pub fn run_words<
    T: Threads + Wait + Sync,
    F: Files,
    R: Source,
    W: Sink,
    E: Sink,
    S: Terminal + Sync,
>(
    threads: &T,
    alloc: Global,
    files: &mut F,
    streams: &mut Streams<R, W, E>,
    words: &[&str],
    terminal: &S,
) -> u8
    ensures { let seen : JobSeen = job_seen F.known F.failures R.remaining R.failures W.contents W.failures files.old files.new streams.old streams.new
        in let errors_seen : SinkSeen = sink_seen E.contents E.failures streams.old.errors streams.new.errors
        in ProgramEnds (map (λ w. w.now) words.now) seen errors_seen result }
{
    match job(alloc, words) {
        Ok(job) => end_with_job(threads, alloc, files, streams, &job, terminal),
        Err(usage) => end_with_usage(&usage, &mut streams.out, &mut streams.errors),
    }
}
