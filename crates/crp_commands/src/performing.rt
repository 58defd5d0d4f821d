//! What a command does with the bytes of one file.
ghost use Rattle.std.specs.Prelude.{MatchResult};
ghost use Rattle.crp_report.specs.Runs.{sink_seen};
ghost use Rattle.crp_commands.specs.Calls.{CallSeen};
ghost use Rattle.crp_commands.specs.Noted.{IsNotedIn};
ghost use Rattle.crp_commands.specs.Performing.{PerformsIn, CommandFailsInCall};

use crate::bounding::bound;
use crate::checking::check;
use crate::proving::prove;
use crate::replaying::replay;
use crate::rewriting::rewrite;
use crp_jobs::{FileCommand, ToolFault};
use crp_notes::Terminal;
use crp_plan::{Sink, Source};
use crp_report::Status;
use std::alloc::Global;
use std::sync::Wait;
use std::thread::Threads;

/// Does a command over one file, from a source of that file's bytes to the sink of its report. That a file to be checked holds no
/// certificate is noted on `errors`, and which moves of a report that is written anew are not of the restricted rule. A search shows on the terminal how far it is, and sees its limit of time by its clock.
#[tactic(auto, using(crate::proofs::Noted::unnoted_in))]
pub fn perform<T: Threads + Wait + Sync, S: Terminal + Sync, R: Source, W: Sink, E: Sink>(
    rt: &T,
    alloc: Global,
    terminal: &S,
    command: &FileCommand,
    reader: &mut R,
    writer: &mut W,
    errors: &mut E,
) -> Result<Status, ToolFault>
    ensures done { let seen : CallSeen = record {
      given = R.remaining reader.old;
      held = W.contents writer.old;
      holds = W.contents writer.new;
      source_before = R.failures reader.old;
      source_after = R.failures reader.new;
      sink_before = W.failures writer.old;
      sink_after = W.failures writer.new;
    } in MatchResult result (PerformsIn command.now seen) (CommandFailsInCall command.now seen) }
    ensures noted { IsNotedIn command.now (sink_seen E.contents E.failures errors.old errors.new) }
{
    match command {
        FileCommand::Replay => replay(alloc, reader, writer),
        FileCommand::Bound { chains, .. } => bound(alloc, reader, writer, *chains),
        FileCommand::Check {
            any_size,
            workers,
            ..
        } => check(rt, alloc, reader, writer, errors, *any_size, *workers),
        FileCommand::Prove(search) => prove(rt, alloc, terminal, reader, writer, *search),
        FileCommand::Rewrite => rewrite(alloc, reader, writer, errors),
    }
}
