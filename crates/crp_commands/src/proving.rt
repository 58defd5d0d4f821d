//! The command `prove`: from the bytes of a certificate's head to a certificate of its problem.
ghost use Rattle.std.specs.Prelude.{◌≤◌, MatchResult};
ghost use Rattle.crp_commands.specs.declared.heads.TheConstants.{MOST_BYTES};
ghost use Rattle.crp_plan.specs.Devices.{most_interruptions};
ghost use Rattle.crp_yard.specs.Reading.{IsTextOf};
ghost use Rattle.crp_commands.specs.Calls.{CallSeen, call_failures, most_call_failures, WritesReport, CallFailsWith};
ghost use Rattle.crp_commands.specs.Prove.{IsProof, IsSomeProof, IsNoProof};

use crate::heads::head_from;
use crp_incumbent::Board;
use crp_jobs::ToolFault;
use crp_notes::{Progress, Terminal};
use crp_plan::{Sink, Source};
use crp_report::{Status, Timer, certificate_by, status_of, write_shares};
use crp_solve::{Settings, solve};
use std::alloc::Global;
use std::sync::Wait;
use std::thread::Threads;

/// Solves the problem of the head that a source's bytes begin with, and writes a certificate of the answer. The claim and the
/// plan of the head are read and not used. Where the first best plan is asked for and found, the certificate claims it to be that.
/// How far the search is, is shown on the terminal; it ends at its limit of time, where it has one, by the clock of the terminal.
pub fn prove<T: Threads + Wait + Sync, S: Terminal + Sync, R: Source, W: Sink>(
    rt: &T,
    alloc: Global,
    terminal: &S,
    reader: &mut R,
    writer: &mut W,
    settings: Settings,
) -> Result<Status, ToolFault>
    ensures { let seen : CallSeen = record {
      given = R.remaining reader.old;
      held = W.contents writer.old;
      holds = W.contents writer.new;
      source_before = R.failures reader.old;
      source_after = R.failures reader.new;
      sink_before = W.failures writer.old;
      sink_after = W.failures writer.new;
    } in MatchResult result (λ status. WritesReport IsTextOf (IsProof settings status) seen × (call_failures seen ≤ most_interruptions))
        (λ fault. CallFailsWith MOST_BYTES (IsSomeProof settings) IsNoProof seen fault × (call_failures seen ≤ most_call_failures fault)) }
{
    let timer = Timer::start(terminal);
    let mut interruptions = 0;
    let head = head_from(alloc, reader, &mut interruptions)?;
    let board = Board::new(&head.problem);
    let mut progress = Progress::new(alloc, terminal);
    progress.begin(&head.bay, &head.problem, 0, 1);
    let gate = timer.gate(&progress, settings.time());
    let answer = solve(rt, alloc, &head.problem, settings, &board, &gate);
    progress.clear();
    let solved = answer?;
    let status = status_of(&solved.answer);
    let shares = certificate_by(
        rt,
        alloc,
        settings.workers(),
        &head.bay,
        &head.problem,
        &solved.answer,
    )?;
    write_shares(writer, &shares, &mut interruptions)?;
    Ok(status)
}
