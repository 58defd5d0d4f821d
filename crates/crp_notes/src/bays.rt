//! What is noted of a bay.
ghost use Rattle.std.specs.Prelude.{◌≡◌, IfOk};
ghost use Rattle.std.specs.Option.{option_map};
ghost use Rattle.crp_notes.specs.Bays.{advice_on, bay_note};

use crate::wording::{no_plan_note, open_note};
use crp_plan::BayName;
use crp_solve::{Answer, Cause};
use std::alloc::{AllocError, Global};

// Why a search ended early, and what helps.
fn advice_on(cause: Cause, stopped: bool) -> &'static [u8]
    ensures { result.now ≡ advice_on cause stopped }
{
    match cause {
        Cause::Budget =>
            b"its budget was spent: a larger --budget decides more, more --workers are faster, and --strong helps in large bays",
        Cause::Memory => b"memory ran out: close other programs, or use a machine with more memory",
        Cause::Time if stopped =>
            b"the file that --stop names ended its search: take that file away before the next run",
        Cause::Time =>
            b"its time was over: a larger --seconds or --total-seconds decides more, more --workers are faster, and --strong helps in large bays",
    }
}

/// The note on a bay with this answer, if there is one: it is left open, maybe since a file stopped the run, or has no plan.
pub(crate) fn bay_note(
    alloc: Global,
    bay: &BayName,
    answer: &Answer,
    stopped: bool,
) -> Result<Option<Vec<u8>>, AllocError>
    ensures { IfOk result (λ note. option_map (λ text. text.items) note ≡ bay_note bay.now answer.now stopped) }
{
    match answer {
        Answer::Optimal { .. } | Answer::First { .. } => Ok(None),
        Answer::NoPlan { .. } => Ok(Some(no_plan_note(alloc, bay)?)),
        Answer::Between { cause, .. } => {
            Ok(Some(open_note(alloc, bay, advice_on(*cause, stopped))?))
        }
    }
}
