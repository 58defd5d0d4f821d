//! The note on a file of certificates that holds none.
ghost use Rattle.std.specs.Prelude.{◌≡◌, ◌+◌, List, length};
ghost use Rattle.crp_plan.specs.BayNames.{YardBay};
ghost use Rattle.crp_checker.specs.declared.verdict.Verdict.{Verdict};
ghost use Rattle.crp_report.specs.Runs.{SinkSeen, sink_seen};
ghost use Rattle.crp_commands.specs.Noted.{TellsOfNone};

use crp_plan::{Sink, write_text};

const EMPTY_NOTE: &[u8] = b"crp: note: the file holds no certificate\n";

/// Says that a file holds no certificate, where the one that would come next is the first.
pub(crate) fn note_if_none<E: Sink>(errors: &mut E, number: u64)
    ensures { let seen : SinkSeen = sink_seen E.contents E.failures errors.old errors.new
        in (stated : List (YardBay × Verdict)) → number ≡ length stated + 1 → TellsOfNone stated seen }
{
    if number > 1 {
        return;
    }
    let Ok(()) = write_text(errors, EMPTY_NOTE) else {
        return;
    };
}
