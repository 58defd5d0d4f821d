//! The command `absent`: from the bytes of a yard list and a message to the list of the ordered containers that are not in the yard.
ghost use Rattle.std.specs.Prelude.{MatchResult};
ghost use Rattle.crp_report.specs.Runs.{sink_seen, source_seen};
ghost use Rattle.crp_commands.specs.Absent.{AbsentSeen, AbsentEnds, AbsentFails};

use crate::auditing::input_from;
use crp_jobs::ToolFault;
use crp_order::absent_list;
use crp_plan::{Sink, Source, write_all};
use crp_report::{InputSettings, Status};
use crp_separated::with_separator;
use std::alloc::Global;

/// Writes the list of the ordered containers that are not in the yard: a header, and a record for each, in the order of the message,
/// whatever the order of leaving is, with this byte between its fields.
pub fn absent<Y: Source, M: Source, W: Sink>(
    alloc: Global,
    yard: &mut Y,
    movins: &mut M,
    settings: &InputSettings,
    separator: u8,
    out: &mut W,
) -> Result<Status, ToolFault>
    ensures { let seen : AbsentSeen = record {
      yard = source_seen Y.remaining Y.failures yard.old yard.new;
      movins = source_seen M.remaining M.failures movins.old movins.new;
      out = sink_seen W.contents W.failures out.old out.new;
    } in MatchResult result (AbsentEnds (record { input = settings.now; separator = separator }) seen)
        (AbsentFails (record { input = settings.now; separator = separator }) seen) }
{
    let mut interruptions = 0;
    let input = input_from(alloc, yard, movins, settings, &mut interruptions)?;
    let made = absent_list(alloc, &input.yard, input.orders.list())?;
    let text = with_separator(alloc, made, separator)?;
    write_all(out, &text, &mut interruptions)?;
    Ok(Status::Decided)
}
