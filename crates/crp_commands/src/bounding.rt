//! The command `bound`: from the bytes of a certificate's head to the lower bounds of its problem.
ghost use Rattle.std.specs.Prelude.{◌≡◌, ◌≤◌, ◌++◌, IfOk, OnOk, MatchResult};
ghost use Rattle.crp_commands.specs.declared.heads.TheConstants.{MOST_BYTES};
ghost use Rattle.crp_plan.specs.Devices.{most_interruptions};
ghost use Rattle.crp_yard.specs.Reading.{IsTextOf};
ghost use Rattle.crp_commands.specs.Calls.{CallSeen, call_failures, most_call_failures, WritesReport, CallFailsWith};
ghost use Rattle.crp_commands.specs.Bound.{bound_lines, IsBoundReport, IsBound, IsNoBound};

use crate::chain_line::push_chain_line;
use crate::heads::head_from;
use crp_bounds::Bounded;
use crp_cert::{Head, push_bay, push_decimal};
use crp_jobs::ToolFault;
use crp_plan::{Sink, Source, write_all};
use crp_report::Status;
use std::alloc::{AllocError, Global};

fn push_bounds(text: &mut Vec<u8>, bounded: &Bounded) -> Result<(), AllocError>
    ensures { OnOk result (text.new.items ≡ text.old.items ++ bound_lines bounded.now.place) }
{
    text.extend_from_slice(b"blocking ")?;
    push_decimal(text, bounded.blocking())?;
    text.extend_from_slice(b"\nlook-ahead ")?;
    push_decimal(text, bounded.look_ahead())?;
    text.push(b'\n')?;
    Ok(())
}

// What is stated of a head.
fn report_of(alloc: Global, head: &Head, chains: bool) -> Result<Vec<u8>, AllocError>
    ensures { IfOk result (λ report. IsBoundReport chains head.now report.items) }
{
    let mut report = Vec::new(alloc);
    let bounded = Bounded::start(&head.problem);
    push_bay(&mut report, &head.bay)?;
    push_bounds(&mut report, &bounded)?;
    if chains {
        push_chain_line(&mut report, &bounded)?;
    }
    Ok(report)
}

/// Writes the bay of the head that a source's bytes begin with, and both lower bounds of its problem before the
/// first relocation; where chains are asked for, also one by chains that are found, with their ranks. The plan is
/// read and not replayed.
pub fn bound<R: Source, W: Sink>(
    alloc: Global,
    reader: &mut R,
    writer: &mut W,
    chains: bool,
) -> Result<Status, ToolFault>
    ensures { let seen : CallSeen = record {
      given = R.remaining reader.old;
      held = W.contents writer.old;
      holds = W.contents writer.new;
      source_before = R.failures reader.old;
      source_after = R.failures reader.new;
      sink_before = W.failures writer.old;
      sink_after = W.failures writer.new;
    } in MatchResult result
        (λ status. ((status ≡ Status.Decided) × WritesReport IsTextOf (IsBound chains) seen) × (call_failures seen ≤ most_interruptions))
        (λ fault. CallFailsWith MOST_BYTES (IsBound chains) IsNoBound seen fault × (call_failures seen ≤ most_call_failures fault)) }
{
    let mut interruptions = 0;
    let head = head_from(alloc, reader, &mut interruptions)?;
    let report = report_of(alloc, &head, chains)?;
    write_all(writer, &report, &mut interruptions)?;
    Ok(Status::Decided)
}
