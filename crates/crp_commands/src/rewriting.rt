//! The command `rewrite`: from the bytes of a report, whose moves may have been edited, to the report whose lines count its moves, and notes on those that are
//! outside the rule.
ghost use Rattle.std.specs.Prelude.{◌≡◌, ◌≤◌, MatchResult};
ghost use Rattle.crp_plan.specs.Devices.{most_interruptions};
ghost use Rattle.crp_yard.specs.Reading.{IsTextOf};
ghost use Rattle.crp_follow.specs.Rewritten.{IsRewritten};
ghost use Rattle.crp_report.specs.Watching.{ShowsMore};
ghost use Rattle.crp_commands.specs.Calls.{CallSeen, call_failures, most_call_failures, WritesReport};
ghost use Rattle.crp_commands.specs.Rewrite.{RewriteFailsWith};

use crate::following::report_from;
use crp_jobs::ToolFault;
use crp_notes::note_outside;
use crp_plan::{Sink, Source, write_all};
use crp_report::Status;
use std::alloc::Global;

/// Writes a report with its moves as they stand, each of whose lines counts them. Which moves are not of the restricted rule is noted on `errors` behind it.
#[tactic(auto, using(crate::proofs::Noted::shown_none))]
pub fn rewrite<R: Source, W: Sink, E: Sink>(
    alloc: Global,
    reader: &mut R,
    writer: &mut W,
    errors: &mut E,
) -> Result<Status, ToolFault>
    ensures done { let seen : CallSeen = record {
      given = R.remaining reader.old;
      held = W.contents writer.old;
      holds = W.contents writer.new;
      source_before = R.failures reader.old;
      source_after = R.failures reader.new;
      sink_before = W.failures writer.old;
      sink_after = W.failures writer.new;
    } in MatchResult result
        (λ status. ((status ≡ Status.Decided) × WritesReport IsTextOf IsRewritten seen) × (call_failures seen ≤ most_interruptions))
        (λ fault. RewriteFailsWith seen fault × (call_failures seen ≤ most_call_failures fault)) }
    ensures noted { ShowsMore (E.contents errors.old) (E.contents errors.new) }
{
    let mut interruptions = 0;
    let text = report_from(alloc, reader, &mut interruptions)?;
    let anew = crp_follow::rewrite(alloc, &text)?;
    write_all(writer, &anew.text, &mut interruptions)?;
    note_outside(alloc, &anew.outside, errors);
    Ok(Status::Decided)
}
