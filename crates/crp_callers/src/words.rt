//! Callers of the command line, by worked words.
ghost use Rattle.std.specs.Prelude.{◌≡◌, ◌⊎◌, Some, true, codes, replicate, IfOk, IfErr, IfSome};
ghost use Rattle.crp_commands.specs.Check.{IsCheck};
ghost use Rattle.crp_files.specs.Known.{KeepsBytes};
ghost use Rattle.crp_callers.specs.AskedFor.{HasHeights, IsOfSetting, IsStrongSearch};

use crp_commands::{Streams, Terminal};
use crp_files::Files;
use crp_jobs::Job;
use crp_plan::{Nowhere, Received};
use crp_words::{Usage, job, run_words};
use std::alloc::Global;
use std::sync::Wait;
use std::thread::Threads;

// A check of the standard input.
static CHECK: [&str; 2] = ["check", "-"];

// A run that writes its certificates to a file of another name than its yard list.
static SOLVE_TO: [&str; 5] = ["solve", "yard", "orders", "--cert", "proofs"];

// Each number at its limit.
static AT_LIMITS: [&str; 17] = [
    "solve",
    "yard",
    "orders",
    "--rows",
    "12",
    "--tiers",
    "8",
    "--workers",
    "64",
    "--split",
    "8",
    "--beam",
    "10000",
    "--thin",
    "1000000",
    "--budget",
    "1099511627776",
];

// A strong search that begins with a beam of its own.
static STRONG: [&str; 5] = ["prove", "-", "--strong", "--beam", "7"];

/// The words `check -` end with status 0 only where all certificates of the standard input are accepted; and then the lines of all of them
/// stand on the standard output.
pub fn lines_of_check<T: Threads + Wait + Sync, F: Files, S: Terminal + Sync>(
    threads: &T,
    alloc: Global,
    files: &mut F,
    certificates: &[u8],
    terminal: &S,
) -> Option<Vec<u8>>
    ensures { IfSome result (λ lines. IsCheck certificates.now lines.items) }
{
    let out = Received::new(alloc);
    let mut streams = Streams {
        input: certificates,
        out,
        errors: Nowhere,
    };
    let status = run_words(
        threads,
        alloc,
        files,
        &mut streams,
        CHECK.as_slice(),
        terminal,
    );
    if status == 0 {
        Some(streams.out.bytes)
    } else {
        None
    }
}

/// Where the file `proofs` is known to be the yard list itself, by a link, words that would write certificates to it end with status 2, or
/// with 5 where an input cannot be opened, or with 4 where memory runs out; and what was known of the bytes of each file is so still.
pub fn status_of_linked<T: Threads + Wait + Sync, F: Files, S: Terminal + Sync>(
    threads: &T,
    alloc: Global,
    files: &mut F,
    terminal: &S,
) -> u8
    requires { (F.known files.old).are_one (codes "proofs") (codes "yard") ≡ Some true }
    ensures refused { (result ≡ 2) ⊎ ((result ≡ 4) ⊎ (result ≡ 5)) }
    ensures unemptied { KeepsBytes (F.known files.old) (F.known files.new) }
{
    let input: &[u8] = b"";
    let mut streams = Streams {
        input,
        out: Nowhere,
        errors: Nowhere,
    };
    run_words(
        threads,
        alloc,
        files,
        &mut streams,
        SOLVE_TO.as_slice(),
        terminal,
    )
}

/// Words in which each number is at its limit are not refused for a setting; and the bays that they ask for have 12 rows of 8 tiers.
pub fn job_at_limits(alloc: Global) -> Result<Job<'static>, Usage>
    ensures sized { IfOk result (HasHeights (replicate 12 8)) }
    ensures within { IfErr result (λ usage. ¬ IsOfSetting usage) }
{
    job(alloc, AT_LIMITS.as_slice())
}

/// Words with `--strong` and a beam ask for a search with this beam, and in all else for that of `--strong`.
pub fn job_of_strong(alloc: Global) -> Result<Job<'static>, Usage>
    ensures { IfOk result (IsStrongSearch 7) }
{
    job(alloc, STRONG.as_slice())
}
