//! The moves of one plan.
ghost use Rattle.std.specs.Prelude.{◌≡◌, length, map, OnOk, IfErr, MatchResult};
ghost use Rattle.crp_plan.specs.Devices.{TransfersAlone};
ghost use Rattle.crp_plan.specs.Rows.{total};
ghost use Rattle.crp_report.specs.Printing.{WritesMoves, PrintingFailsWith};
ghost use Rattle.crp_report.specs.Runs.{SinkSeen, failures_of_fault, sink_seen};

use crate::fault::{Fault, Output};
use crate::lines::plan_lines;
use crp_plan::{Plan, Sink, write_text};
use std::alloc::Global;

/// Writes the move lines of a plan to a sink, with a name for each rank. An interrupted call is tried again, at most 1,000 times.
pub fn print_moves<W: Sink>(
    alloc: Global,
    sink: &mut W,
    plan: &Plan,
    names: &[Vec<u8>],
) -> Result<(), Fault>
    requires { length names.now ≡ total plan.now.problem.stacks }
    ensures stated { let seen : SinkSeen = sink_seen W.contents W.failures sink.old sink.new in MatchResult result (λ _. WritesMoves (map (λ name. name.items) names.now) plan.now seen) (PrintingFailsWith (map (λ name. name.items) names.now) plan.now seen) }
    ensures done { OnOk result (TransfersAlone 0 (W.failures sink.old) (W.failures sink.new) (W.interrupted sink.old) (W.interrupted sink.new)) }
    ensures ended { IfErr result (λ fault. TransfersAlone (failures_of_fault fault) (W.failures sink.old) (W.failures sink.new) (W.interrupted sink.old) (W.interrupted sink.new)) }
{
    let lines = plan_lines(alloc, plan, names)?;
    match write_text(sink, &lines) {
        Ok(()) => Ok(()),
        Err(_) => Err(Fault::Write(Output::Report)),
    }
}
