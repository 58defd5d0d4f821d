//! Callers of jobs over files.
ghost use Rattle.std.specs.Prelude.{◌≡◌, ◌≢◌, ◌⊎◌, ℕ, List, [], Some, take, codes, option_map, IfOk, IfSome, IsTrue, OnOk};
ghost use Rattle.crp_yard.specs.Reading.{IsTextOf};
ghost use Rattle.crp_report.specs.Runs.{Made};
ghost use Rattle.crp_audit.specs.Headline.{IsHeadline};
ghost use Rattle.crp_headline.specs.Accepted.{handed_of};
ghost use Rattle.crp_commands.specs.Solving.{AreTwo};
ghost use Rattle.crp_memory_files.specs.Memory.{bytes_at, known_in, place_of};
ghost use Rattle.crp_separated.specs.Inputs.{comma_list_of};
ghost use Rattle.crp_callers.specs.CommandReports.{IsReportOf, IsSizedList};

use crp_commands::{Streams, Terminal, run_job};
use crp_files::Files;
use crp_jobs::{FileCommand, Job, RunFiles, ToolFault};
use crp_memory_files::FilesInMemory;
use crp_plan::{Nowhere, Received};
use crp_report::{RunSettings, Status};
use std::alloc::Global;
use std::sync::Wait;
use std::thread::Threads;

/// A command over a named file reports of the bytes of that file, whatever the standard input has.
pub fn report_of_file<T: Threads + Wait + Sync, F: Files, S: Terminal + Sync>(
    threads: &T,
    alloc: Global,
    files: &mut F,
    name: &str,
    command: FileCommand,
    input: &[u8],
    terminal: &S,
) -> Result<Vec<u8>, ToolFault>
    requires { name.now ≢ codes "-" }
    ensures { (bytes : List ℕ) → (F.known files.old).given name.now ≡ Some bytes → IfOk result (λ report. IsReportOf command bytes report.items) }
{
    let out = Received::new(alloc);
    let mut streams = Streams {
        input,
        out,
        errors: Nowhere,
    };
    let job = Job::OneFile {
        file: name,
        command,
        stop: None,
    };
    run_job(threads, alloc, files, &mut streams, &job, terminal)?;
    Ok(streams.out.bytes)
}

/// A run over the files of a yard writes its report, and no other text, to the standard output: one of a headline, of the yard that the
/// file lists, whose bays have the sizes that were chosen, or those of the list of sizes that is named.
pub fn report_of_run<T: Threads + Wait + Sync, F: Files, S: Terminal + Sync>(
    threads: &T,
    alloc: Global,
    files: &mut F,
    names: RunFiles<'_>,
    settings: RunSettings,
    terminal: &S,
) -> Result<Vec<u8>, ToolFault>
    ensures { IfOk result (λ report. (made : Made) × IsHeadline (handed_of made) × (report.items ≡ made.report)
        × IsTextOf (comma_list_of names.entry.separator ((F.known files.old).given names.entry.yard.now)) made.list
        × IsSizedList (F.known files.old) names.entry.separator (option_map (λ name. name.now) names.entry.sizes) settings.input.sizes made.list made.yard) }
{
    let input: &[u8] = b"";
    let out = Received::new(alloc);
    let mut streams = Streams {
        input,
        out,
        errors: Nowhere,
    };
    let job = Job::Solve {
        files: names,
        settings,
        quiet: true,
        progress: false,
    };
    run_job(threads, alloc, files, &mut streams, &job, terminal)?;
    Ok(streams.out.bytes)
}

/// What stands on the standard output, and was not there before, where a run over the files of a yard ends with a fault: nothing, or a front
/// of the report of a headline, of the yard that the file lists.
pub fn front_of_run<T: Threads + Wait + Sync, F: Files, S: Terminal + Sync>(
    threads: &T,
    alloc: Global,
    files: &mut F,
    names: RunFiles<'_>,
    settings: RunSettings,
    terminal: &S,
) -> Option<Vec<u8>>
    ensures { IfSome result (λ lines. (lines.items ≡ []) ⊎ ((made : Made) × IsHeadline (handed_of made) × ((n : ℕ) × (lines.items ≡ take n made.report))
        × IsTextOf (comma_list_of names.entry.separator ((F.known files.old).given names.entry.yard.now)) made.list
        × IsSizedList (F.known files.old) names.entry.separator (option_map (λ name. name.now) names.entry.sizes) settings.input.sizes made.list made.yard)) }
{
    let input: &[u8] = b"";
    let out = Received::new(alloc);
    let mut streams = Streams {
        input,
        out,
        errors: Nowhere,
    };
    let job = Job::Solve {
        files: names,
        settings,
        quiet: true,
        progress: false,
    };
    match run_job(threads, alloc, files, &mut streams, &job, terminal) {
        Ok(_) => None,
        Err(_) => Some(streams.out.bytes),
    }
}

/// Where files state what is written to them, the file that is named for the certificates holds those of a headline behind a run, and the
/// file that is named for the yard after the list that comes of the same plans, as far as the two are known to be two files.
pub fn files_of_run<T: Threads + Wait + Sync, F: Files, S: Terminal + Sync>(
    threads: &T,
    alloc: Global,
    files: &mut F,
    names: RunFiles<'_>,
    settings: RunSettings,
    terminal: &S,
) -> Result<Status, ToolFault>
    requires states { IsTrue (F.known files.old).states }
    requires two { AreTwo (F.known files.old) names }
    ensures { OnOk result ((made : Made) × IsHeadline (handed_of made)
        × IfSome (option_map (λ name. name.now) names.entry.cert) (λ name. (F.known files.new).given name ≡ Some made.certificates)
        × IfSome (option_map (λ name. name.now) names.entry.after) (λ name. (F.known files.new).given name ≡ Some made.yard_after)) }
{
    let input: &[u8] = b"";
    let mut streams = Streams {
        input,
        out: Nowhere,
        errors: Nowhere,
    };
    let job = Job::Solve {
        files: names,
        settings,
        quiet: true,
        progress: false,
    };
    run_job(threads, alloc, files, &mut streams, &job, terminal)
}

/// The same of files in memory, of which all is known.
pub fn run_in_memory<T: Threads + Wait + Sync, S: Terminal + Sync>(
    threads: &T,
    alloc: Global,
    files: &mut FilesInMemory<'_>,
    names: RunFiles<'_>,
    settings: RunSettings,
    terminal: &S,
) -> Result<Status, ToolFault>
    requires two { AreTwo (known_in files.old.stored.now files.old.written.items) names }
    ensures { OnOk result ((made : Made) × IsHeadline (handed_of made)
        × IfSome (option_map (λ name. name.now) names.entry.cert) (λ name. bytes_at files.new.stored.now files.new.written.items (place_of files.new.stored.now name) ≡ Some made.certificates)
        × IfSome (option_map (λ name. name.now) names.entry.after) (λ name. bytes_at files.new.stored.now files.new.written.items (place_of files.new.stored.now name) ≡ Some made.yard_after)) }
{
    files_of_run(threads, alloc, files, names, settings, terminal)
}
