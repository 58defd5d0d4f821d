//! The command `absent` over its files.
ghost use Rattle.std.specs.Prelude.{MatchResult};
ghost use Rattle.crp_report.specs.Runs.{SinkSeen, sink_seen};
ghost use Rattle.crp_jobs.specs.Opened.{FilesSeen};
ghost use Rattle.crp_commands.specs.Absent.{AbsentReportsOverFiles, AbsentFailsOverFiles};

use crate::absences::absent;
use crp_files::Files;
use crp_jobs::{AbsentFiles, ToolFault};
use crp_plan::Sink;
use crp_report::{Fault, Input, InputSettings, Status};
use crp_separated::ListInput;
use std::alloc::Global;

/// Opens the two files, before anything is read, and lists the containers that are ordered and not in the yard. The list goes to `out`.
pub fn absent_files<F: Files, W: Sink>(
    alloc: Global,
    files: &mut F,
    names: &AbsentFiles<'_>,
    settings: &InputSettings,
    out: &mut W,
) -> Result<Status, ToolFault>
    ensures { let all : FilesSeen = record { known = F.known files.old; left = F.known files.new; before = F.failures files.old; after = F.failures files.new }
        in let shown : SinkSeen = sink_seen W.contents W.failures out.old out.new
        in MatchResult result (AbsentReportsOverFiles names.now settings.now all shown) (AbsentFailsOverFiles names.now settings.now all shown) }
{
    let Ok(list) = files.open(names.yard) else {
        return Err(ToolFault::Run(Fault::Read(Input::Yard)));
    };
    let Ok(mut movins) = files.open(names.movins) else {
        return Err(ToolFault::Run(Fault::Read(Input::Movins)));
    };
    let mut yard = ListInput::with_commas(list, names.separator);
    let answer = absent(
        alloc,
        &mut yard,
        &mut movins,
        settings,
        names.separator,
        out,
    );
    files.close(yard.into_file());
    files.close(movins);
    answer
}
