//! Whether the moves of a report fit a yard and a sequence.
ghost use Rattle.std.specs.Prelude.{◌≡◌, ◌↔◌, ℕ, List, map, IfOk, IsTrue};
ghost use Rattle.std.specs.List.{AllByRecursion};
ghost use Rattle.crp_yard.specs.Inventory.{StackedBay};
ghost use Rattle.crp_yard.specs.Naming.{FitsLine, IsNamedBay};
ghost use Rattle.crp_movins.specs.LoadOrders.{LoadOrders};
ghost use Rattle.crp_order.specs.BayProblems.{IsNamedProblem, bay_problem_of};
ghost use Rattle.crp_said.specs.Views.{bay_as};
ghost use Rattle.crp_audit.specs.Headline.{Handed, handed};
ghost use Rattle.crp_audit.specs.Fitting.{FitsBay, FitsEach, MovesFit, is_as_said};

use crate::auditing::is_named;
use crate::looking::{Looked, look_at};
use crp_order::{BayProblem, Sequence, problems};
use crp_said::{ReportFault, SaidBay, names_of, read_report};
use crp_yard::Yard;
use std::alloc::{AllocError, Global};

/// Whether lines that are so are as they are said.
fn is_as_said(looked: &Looked) -> bool
    ensures { result ≡ is_as_said looked.now }
{
    match looked {
        Looked::Nothing | Looked::Plan { .. } => true,
        Looked::Stopped { .. } | Looked::Other => false,
    }
}

/// Whether this is said of this bay, and its lines are those of a complete plan with the relocations that are said, or none where no plan
/// is said.
fn fits_bay(alloc: Global, stated: &BayProblem, said: &SaidBay) -> Result<bool, AllocError>
    requires named { AllByRecursion FitsLine stated.now.names }
    ensures { IfOk result (λ fits. (h : Handed) (bay : StackedBay) → stated.now ≡ bay_problem_of h.yard.sizes h.sequence bay
        → IsTrue fits ↔ FitsBay h bay (bay_as said.now)) }
{
    if !is_named(&said.bay, &stated.bay) {
        return Ok(false);
    }
    // Each value of Problem is one, and says so.
    let _cap = stated.problem.cap();
    let names = names_of(alloc, stated.names.list())?;
    let count = said.said.count();
    let looked = look_at(alloc, &names, &stated.problem, count, &said.lines)?;
    Ok(is_as_said(&looked))
}

/// Whether this is said of these bays, one after the other, and each fits.
fn fits_each(alloc: Global, stated: &[BayProblem], said: &[SaidBay]) -> Result<bool, AllocError>
    requires named { AllByRecursion IsNamedProblem stated.now }
    ensures { IfOk result (λ fits. (h : Handed) (bays : List StackedBay) → stated.now ≡ map (bay_problem_of h.yard.sizes h.sequence) bays
        → IsTrue fits ↔ FitsEach h bays (map bay_as said.now)) }
{
    let mut later = stated;
    let mut more = said;
    while let Some((next, behind)) = later.split_first() {
        let Some((bay, after)) = more.split_first() else {
            return Ok(false);
        };
        let fits = fits_bay(alloc, next, bay)?;
        if !fits {
            return Ok(false);
        }
        later = behind;
        more = after;
    }
    Ok(more.is_empty())
}

/// Whether the moves that a report prints fit a yard and a sequence: its bays are those from which containers leave, in the yard's order,
/// and the moves of each are legal, take all its ordered containers in order, and have as many relocations as is said; where no plan is
/// said there are none. A text that is no report does not fit. The three numbers of the report, its last line and its certificates do not
/// count.
pub fn moves_fit(
    alloc: Global,
    yard: &Yard,
    sequence: &Sequence,
    report: &[u8],
) -> Result<bool, AllocError>
    requires named { AllByRecursion IsNamedBay yard.now.bays }
    ensures { IfOk result (λ fit. (orders : LoadOrders) (certificates : List ℕ)
        → IsTrue fit ↔ MovesFit (handed yard.now orders sequence.now report.now certificates)) }
{
    let said = match read_report(alloc, report) {
        Ok(said) => said,
        Err(ReportFault::Line(_)) => return Ok(false),
        Err(ReportFault::Memory) => return Err(AllocError),
    };
    let stated = problems(alloc, yard, sequence)?;
    fits_each(alloc, &stated, &said.bays)
}
