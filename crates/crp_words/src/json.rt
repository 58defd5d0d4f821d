//! Whether the words ask for JSON Lines, and of what.
ghost use Rattle.std.specs.Prelude.{◌≡◌, IfErr, IfOk, flat_map, map, option_map};
ghost use Rattle.crp_json.specs.Lines.{first_line};
ghost use Rattle.crp_json.specs.Objects.{text_token};
ghost use Rattle.crp_words.specs.declared.json.TheConstants.{VERSION};
ghost use Rattle.crp_words.specs.Json.{IsJsonHead, printed_by, printed_by_file};
ghost use Rattle.crp_words.specs.Words.{Refuses};

use crate::usage::Usage;
use crate::words::job;
use crp_jobs::{FileCommand, Job};
use crp_json::{Printed, head_line};
use std::alloc::Global;

// The version of the program.
const VERSION: &str = "0.1.0";

// What a command over one file prints, where it is asked for JSON Lines.
fn printed_of_file(command: &FileCommand) -> Printed
    ensures { result ≡ printed_by_file command.now }
{
    match command {
        FileCommand::Bound { .. } => Printed::Bounds,
        FileCommand::Replay
        | FileCommand::Check { .. }
        | FileCommand::Prove(_)
        | FileCommand::Rewrite => Printed::Checks,
    }
}

// What a job prints, where it is asked for JSON Lines.
fn printed_of(job: &Job<'_>) -> Printed
    ensures { result ≡ printed_by job.now }
{
    match job {
        Job::OneFile { command, .. } => printed_of_file(command),
        Job::Audit { .. } => Printed::Checks,
        Job::Absent { .. } | Job::Follow { .. } | Job::Compare { .. } | Job::Solve { .. } => {
            Printed::Report
        }
    }
}

/// What the words after the program's name print, and the first line of JSON Lines, where they ask for these: it has the version of the
/// program, and the words.
pub fn json_head(alloc: Global, words: &[&str]) -> Result<(Printed, Option<Vec<u8>>), Usage>
    ensures asked { IfOk result (λ x. IsJsonHead (map (λ w. w.now) words.now) (first_line VERSION.now (flat_map (λ w. text_token w.now) words.now)) x.0 (option_map (λ line. line.items) x.1)) }
    ensures refused { IfErr result (Refuses (map (λ w. w.now) words.now)) }
{
    let job = job(alloc, words)?;
    let printed = printed_of(&job);
    if !job.is_json() {
        return Ok((printed, None));
    }
    match head_line(alloc, VERSION, words) {
        Ok(line) => Ok((printed, Some(line))),
        Err(_) => Err(Usage::Memory),
    }
}
