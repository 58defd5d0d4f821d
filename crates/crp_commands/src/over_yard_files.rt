//! The command `solve`: opens its files, and runs over them.
ghost use Rattle.std.specs.Prelude.{◌≡◌, MatchResult, option_map};
ghost use Rattle.crp_report.specs.Runs.{SinkSeen};
ghost use Rattle.crp_report.specs.Watching.{ShowsMore};
ghost use Rattle.crp_jobs.specs.Opened.{FilesSeen};
ghost use Rattle.crp_commands.specs.Noted.{IsNotedBy};
ghost use Rattle.crp_commands.specs.Solving.{RunReportsOverFiles, SolveFailsOverFiles};

use crate::finishing::{of_job, unless_unfinished};
use crate::heads::MOST_BYTES;
use crp_files::{Files, Named, Wanted, first_shared, prepare_wanted};
use crp_jobs::{RunFiles, ToolFault};
use crp_notes::{Notes, Stoppable, Terminal};
use crp_plan::{Nowhere, Sink};
use crp_report::{
    Clock, Devices, Fault, Input, Output, RunSettings, Status, Unwatched, Watch, run_watched,
};
use crp_separated::ListInput;
use std::alloc::Global;
use std::marker::Brand;
use std::sync::Wait;
use std::thread::Threads;

/// What a run over a yard is asked for: its files, and how its bays are solved.
#[derive(Clone, Copy)]
pub struct RunAsked<'a> {
    /// The files of the run.
    pub names: &'a RunFiles<'a>,
    /// How the bays are solved.
    pub settings: &'a RunSettings,
}

/// How a run is shown to who waits for it.
#[derive(Clone, Copy)]
pub struct Watcher<'a, S> {
    /// Whether nothing is noted, and nothing is shown on the terminal.
    pub quiet: bool,
    /// Whether a line says that each bay begins, where there is no terminal.
    pub progress: bool,
    /// Shows how far the run is, and has the clock of its limits of time.
    pub terminal: &'a S,
}

// Opens the files, before anything is read, and runs over them. The files that are written, where they are asked for, are those of these
// names: they are made where they are not there, and emptied once it is seen that none is another one of the files.
fn solve_to<
    T: Threads + Wait + Sync,
    K: Clock + Sync,
    F: Files,
    W: Sink,
    V: Watch,
    E: Sink,
    C: Named,
    A: Named,
>(
    threads: &T,
    alloc: Global,
    clock: &K,
    files: &mut F,
    asked: &RunAsked<'_>,
    out: &mut W,
    watch: &mut V,
    errors: &mut E,
) -> Result<Status, ToolFault>
    requires certificates { option_map (λ name. name.now) asked.now.names.now.cert ≡ C.name }
    requires yard_after { option_map (λ name. name.now) asked.now.names.now.after ≡ A.name }
    ensures ended { let all : FilesSeen = record { known = F.known files.old; left = F.known files.new; before = F.failures files.old; after = F.failures files.new }
        in let report : SinkSeen = record { held = W.contents out.old; holds = W.contents out.new; before = W.failures out.old; after = W.failures out.new }
        in MatchResult result (RunReportsOverFiles asked.now.names.now asked.now.settings.now all report)
        (SolveFailsOverFiles asked.now.names.now asked.now.settings.now all report) }
    ensures shown { ShowsMore (E.contents errors.old) (E.contents errors.new) }
{
    let names = asked.names;
    let Ok(list) = files.open(names.yard) else {
        return Err(ToolFault::Run(Fault::Read(Input::Yard)));
    };
    let Ok(movins) = files.open(names.movins) else {
        return Err(ToolFault::Run(Fault::Read(Input::Movins)));
    };
    prepare_wanted(files, names.cert);
    prepare_wanted(files, names.after);
    if let Some(shared) = first_shared(files, names) {
        return Err(ToolFault::OneFile(shared));
    }
    let Ok(certificates) = Wanted::<F, C>::create(files, names.cert) else {
        return Err(ToolFault::Run(Fault::Write(Output::Certificates)));
    };
    let Ok(yard_after) = Wanted::<F, A>::create(files, names.after) else {
        return Err(ToolFault::Run(Fault::Write(Output::YardAfter)));
    };
    let mut devices = Devices {
        yard: ListInput::with_commas(list, names.separator),
        movins,
        certificates,
        yard_after,
        separator: names.separator,
    };
    let answer = run_watched(
        threads,
        alloc,
        clock,
        &mut devices,
        asked.settings,
        out,
        watch,
        errors,
    );
    let certified = devices.certificates.finish(files, names.cert);
    let left = devices.yard_after.finish(files, names.after);
    files.close(devices.yard.into_file());
    files.close(devices.movins);
    let answer = unless_unfinished(answer, certified, Fault::Write(Output::Certificates));
    of_job(unless_unfinished(answer, left, Fault::Write(Output::YardAfter)))
}

// As many bytes of certificates as `check` takes, if they go to a file.
fn largest_file(names: &RunFiles<'_>) -> usize {
    match names.cert {
        Some(_) => MOST_BYTES,
        None => usize::MAX,
    }
}

/// Opens the files, before anything is read: the yard list, the message, the file of the certificates and that of the yard after the
/// plans. Where one that is written is another one of these, or stands behind a standard stream, no file is emptied, and that is the
/// fault. Else runs over them, and writes the report to `out` and, unless it is to be quiet, notes to `errors`; and shows how far it is on
/// the terminal or, where there is none and that is asked for, by a line for each bay to `errors`. Limits of time are seen by the clock of
/// the terminal, also where the run is quiet; where a file that stops the searches is named, that it is there ends them as an end of their
/// time does. At the end the files that were written are finished; one that cannot be is a failed write to it.
#[tactic(auto, using(crate::proofs::Noted::unnoted))]
pub fn solve<T: Threads + Wait + Sync, F: Files, W: Sink, E: Sink, S: Terminal + Sync>(
    threads: &T,
    alloc: Global,
    files: &mut F,
    asked: &RunAsked<'_>,
    out: &mut W,
    watcher: &Watcher<'_, S>,
    errors: &mut E,
) -> Result<Status, ToolFault>
    ensures ended { let all : FilesSeen = record { known = F.known files.old; left = F.known files.new; before = F.failures files.old; after = F.failures files.new }
        in let report : SinkSeen = record { held = W.contents out.old; holds = W.contents out.new; before = W.failures out.old; after = W.failures out.new }
        in MatchResult result (RunReportsOverFiles asked.now.names.now asked.now.settings.now all report)
        (SolveFailsOverFiles asked.now.names.now asked.now.settings.now all report) }
    ensures noted { IsNotedBy watcher.now.quiet (record { held = E.contents errors.old; holds = E.contents errors.new; before = E.failures errors.old; after = E.failures errors.new }) }
{
    let terminal = Stoppable::new(watcher.terminal, asked.names.stop);
    if watcher.quiet {
        return solve_to::<T, Stoppable<'_, S>, F, W, Unwatched, Nowhere, Brand, Brand>(
            threads,
            alloc,
            &terminal,
            files,
            asked,
            out,
            &mut Unwatched::new(),
            &mut Nowhere,
        );
    }
    let mut notes = Notes::new(
        alloc,
        largest_file(asked.names),
        &terminal,
        watcher.progress,
    );
    solve_to::<T, Stoppable<'_, S>, F, W, Notes<'_, Stoppable<'_, S>>, E, Brand, Brand>(
        threads, alloc, &terminal, files, asked, out, &mut notes, errors,
    )
}
