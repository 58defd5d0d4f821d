//! The lines of a bay, as the audit of a report comes to them.
ghost use Rattle.std.specs.Prelude.{◌≡◌, ◌++◌, IfOk, IfErr};
ghost use Rattle.crp_said.specs.Spelled.{line_behind};
ghost use Rattle.crp_said.specs.Views.{bay_as};
ghost use Rattle.crp_audit.specs.Certified.{AreRightLines, IsLinesFault};

use crate::fault::AuditFault;
use crate::looking::{Looked, look_at};
use crp_order::BayProblem;
use crp_said::{SaidBay, line_behind, names_of};
use std::alloc::{AllocError, Global};

/// The number of the line behind these bytes and those.
fn line_behind_both(alloc: Global, front: &[u8], more: &[u8]) -> Result<u64, AllocError>
    ensures { IfOk result (λ line. line ≡ line_behind (front.now ++ more.now)) }
{
    let mut text = Vec::from_slice(alloc, front)?;
    text.extend_from_slice(more)?;
    Ok(line_behind(&text))
}

/// Reads the lines of a bay, behind this front of the report: the rows of the plan that they are, if one is said.
pub(crate) fn read_lines(
    alloc: Global,
    stated: &BayProblem,
    said: &SaidBay,
    front: &[u8],
) -> Result<Vec<u8>, AuditFault>
    ensures right { IfOk result (λ rows. AreRightLines stated.now (bay_as said.now) rows.items) }
    ensures wrong { IfErr result (λ fault. IsLinesFault stated.now (bay_as said.now) front.now fault) }
{
    let names = names_of(alloc, stated.names.list())?;
    let count = said.said.count();
    match look_at(alloc, &names, &stated.problem, count, &said.lines)? {
        Looked::Nothing => Ok(Vec::new(alloc)),
        Looked::Plan { path } => Ok(path),
        Looked::Stopped { read } => {
            let line = line_behind_both(alloc, front, &said.lines[..read])?;
            Err(AuditFault::Move { line })
        }
        Looked::Other => Err(AuditFault::Plan {
            bay: stated.bay.copy(),
        }),
    }
}
