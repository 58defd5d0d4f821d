//! The lines of a bay, as far as they can be looked at without its certificate.
ghost use Rattle.std.specs.Prelude.{ℕ, List, Some, map, IfOk};
ghost use Rattle.crp_plan.specs.Bay.{Problem as Statement, start};
ghost use Rattle.crp_audit.specs.Replayed.{IsReplayed};
ghost use Rattle.crp_audit.specs.Printed.{IsLookedAt};

use crate::replaying::{Replayed, replay_lines};
use crp_plan::Problem;
use std::alloc::{AllocError, Global};

/// What the lines of a bay are.
#[derive(Drop)]
pub enum Looked {
    /// No plan is said, and there are none.
    Nothing,
    /// Those of a complete plan, with as many relocations as are said: their rows.
    Plan { path: Vec<u8> },
    /// So many bytes are lines of legal moves, and the next line is that of none that is legal then.
    Stopped { read: usize },
    /// Those of no complete plan, or of one with another number of relocations; or there are some where no plan is said.
    Other,
}

/// What lines are that lead there, of which a plan with so many relocations is said.
fn of_plan(count: u32, replayed: Replayed) -> Looked
    ensures { (names : List (List ℕ)) (p : Statement) (lines : List ℕ) → IsReplayed names (start p) lines replayed
        → IsLookedAt names p (Some count) lines result }
{
    match replayed {
        Replayed::Stopped { read } => Looked::Stopped { read },
        Replayed::Through { path, finished } => {
            if finished && path.len() == count as usize {
                Looked::Plan { path }
            } else {
                Looked::Other
            }
        }
    }
}

/// Looks at the lines of a bay, of which a plan with so many relocations is said, or none.
pub fn look_at(
    alloc: Global,
    names: &[Vec<u8>],
    problem: &Problem,
    count: Option<u32>,
    lines: &[u8],
) -> Result<Looked, AllocError>
    ensures { IfOk result (IsLookedAt (map (λ name. name.items) names.now) problem.now count lines.now) }
{
    let Some(count) = count else {
        if lines.is_empty() {
            return Ok(Looked::Nothing);
        }
        return Ok(Looked::Other);
    };
    let replayed = replay_lines(alloc, names, problem, lines)?;
    Ok(of_plan(count, replayed))
}
