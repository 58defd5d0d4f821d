//! The sequence of the first bays alone, of which a report that ends early says something.
ghost use Rattle.std.specs.Prelude.{◌≡◌, ◌-◌, IfOk, length, map};
ghost use Rattle.crp_order.specs.BayProblems.{problems_of};
ghost use Rattle.crp_audit.specs.Part.{first_sequence};

use crp_order::{BayProblem, Sequence, of_bays, problems};
use crp_plan::BayName;
use crp_yard::Yard;
use std::alloc::{AllocError, Global};

/// What the first bays are audited by.
#[derive(Drop)]
pub struct Part {
    /// The sequence without the containers of the bays behind.
    pub sequence: Sequence,
    /// How many bays from which a container leaves are behind.
    pub behind: usize,
}

/// The names of bays.
fn names_of(alloc: Global, stated: &[BayProblem]) -> Result<Vec<BayName>, AllocError>
    ensures { IfOk result (λ names. names.items ≡ map (λ made. made.bay) stated.now) }
{
    let mut names = Vec::new(alloc);
    for made in stated {
        names.push(made.bay.copy()).map_err(AllocError::from)?;
    }
    Ok(names)
}

/// What the first so many bays of a yard from which a container of the sequence leaves are audited by. Where none is to be, all are.
pub fn first_bays(
    alloc: Global,
    yard: &Yard,
    sequence: &Sequence,
    bays: usize,
) -> Result<Part, AllocError>
    ensures sequence { IfOk result (λ part. part.sequence ≡ first_sequence bays yard.now sequence.now) }
    ensures behind { IfOk result (λ part. part.behind ≡ length (problems_of yard.now sequence.now) - bays) }
{
    let stated = problems(alloc, yard, sequence)?;
    let first = bays.min(stated.len());
    let names = names_of(alloc, &stated[..first])?;
    Ok(Part {
        sequence: of_bays(alloc, yard, &names, sequence)?,
        behind: stated.len() - first,
    })
}
