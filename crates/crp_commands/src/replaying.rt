//! The command `replay`: from the bytes of a certificate's head to the moves of its plan.
ghost use Rattle.std.specs.Prelude.{◌≡◌, ◌≤◌, ℕ, List, ◌++◌, IfOk, IfErr, OnOk, MatchResult};
ghost use Rattle.crp_commands.specs.declared.heads.TheConstants.{MOST_BYTES};
ghost use Rattle.crp_plan.specs.Bay.{relocations};
ghost use Rattle.crp_plan.specs.Devices.{most_interruptions};
ghost use Rattle.crp_yard.specs.Reading.{IsTextOf};
ghost use Rattle.crp_commands.specs.Calls.{CallSeen, call_failures, most_call_failures, WritesReport, CallFailsWith};
ghost use Rattle.crp_commands.specs.Replay.{count_line, IsReplayText, IsHeadReport, IsReplay, IsNoReplay, IsNoReport};

use crate::heads::head_from;
use crp_cert::{Head, push_bay, push_decimal};
use crp_jobs::ToolFault;
use crp_plan::{Move, Plan, Sink, Source, write_all};
use crp_report::Status;
use crp_said::{lines_of, names_of_ranks};
use std::alloc::{AllocError, Global};

fn push_count(text: &mut Vec<u8>, moves: &[Move], count: u32) -> Result<(), AllocError>
    requires { count ≡ relocations moves.now }
    ensures { OnOk result (text.new.items ≡ text.old.items ++ count_line moves.now) }
{
    text.extend_from_slice(b"moves ")?;
    push_decimal(text, moves.len())?;
    text.extend_from_slice(b" relocations ")?;
    push_decimal(text, count)?;
    text.push(b'\n')?;
    Ok(())
}

// The count of a plan's moves, and its moves, with ranks as names.
fn push_plan(alloc: Global, text: &mut Vec<u8>, plan: &Plan) -> Result<(), AllocError>
    ensures { OnOk result ((more : List ℕ) × IsReplayText plan.now.problem plan.now.path more × (text.new.items ≡ text.old.items ++ more)) }
{
    let moves = plan.moves(alloc)?;
    let names = names_of_ranks(alloc, plan.problem().total())?;
    let lines = lines_of(alloc, plan, &moves, &names)?;
    push_count(text, &moves, plan.count())?;
    text.extend_from_slice(&lines)
}

// What is stated of a head.
fn report_of(alloc: Global, head: &Head) -> Result<Vec<u8>, ToolFault>
    ensures stated { IfOk result (λ report. IsHeadReport head.now report.items) }
    ensures refused { IfErr result (IsNoReport head.now) }
{
    let mut report = Vec::new(alloc);
    push_bay(&mut report, &head.bay)?;
    match &head.plan {
        None => {
            report.extend_from_slice(b"no plan\n")?;
            Ok(report)
        }
        Some(rows) => {
            let plan = Plan::from_rows(&head.problem, rows.as_slice())?;
            push_plan(alloc, &mut report, &plan)?;
            Ok(report)
        }
    }
}

/// Writes the bay of the head that a source's bytes begin with, and the moves of its plan.
pub fn replay<R: Source, W: Sink>(
    alloc: Global,
    reader: &mut R,
    writer: &mut W,
) -> Result<Status, ToolFault>
    ensures { let seen : CallSeen = record {
      given = R.remaining reader.old;
      held = W.contents writer.old;
      holds = W.contents writer.new;
      source_before = R.failures reader.old;
      source_after = R.failures reader.new;
      sink_before = W.failures writer.old;
      sink_after = W.failures writer.new;
    } in MatchResult result
        (λ status. ((status ≡ Status.Decided) × WritesReport IsTextOf IsReplay seen) × (call_failures seen ≤ most_interruptions))
        (λ fault. CallFailsWith MOST_BYTES IsReplay IsNoReplay seen fault × (call_failures seen ≤ most_call_failures fault)) }
{
    let mut interruptions = 0;
    let head = head_from(alloc, reader, &mut interruptions)?;
    let report = report_of(alloc, &head)?;
    write_all(writer, &report, &mut interruptions)?;
    Ok(Status::Decided)
}
