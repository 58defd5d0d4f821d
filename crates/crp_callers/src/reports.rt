//! Reports: what is read of their bytes, and what their lines name.
ghost use Rattle.std.specs.Prelude.{◌≡◌, ◌⊎◌, ℕ, ◌++◌, ◌∷◌, [], List, Some, IfOk, IfErr, codes};
ghost use Rattle.crp_plan.specs.declared.moves.Move.{Move};
ghost use Rattle.crp_plan.specs.Bay.{IsPlan, start};
ghost use Rattle.crp_said.specs.MoveLines.{AreMoveLines};
ghost use Rattle.crp_said.specs.TakeLines.{taken_in};
ghost use Rattle.crp_said.specs.Views.{report_as};
ghost use Rattle.crp_callers.specs.SmallBay.{small};
ghost use Rattle.crp_callers.specs.SmallReport.{leaving, staying, relocation, small_report};

use crp_said::{
    Report, ReportFault, SaidMove, one_move, one_report, read_move, read_report, takes_are_in_order,
};
use std::alloc::{AllocError, Global};

/// Reads the report of the small bay: exactly what its lines say, unless memory runs out.
pub fn read_small_report(alloc: Global) -> Result<Report, ReportFault>
    ensures read { IfOk result (λ report. report_as report ≡ small_report) }
    ensures refused { IfErr result (λ fault. fault ≡ ReportFault.Memory) }
{
    one_report();
    read_report(
        alloc,
        b"orders 2 open 0 absent 0\nbay A 1: optimal 2\nshift 1.2 2.2 MSCU3\ntake 1.1 MSCU1\nshift 2.2 1.1 MSCU3\ntake 2.1 MSCU2\nbays 1 decided 1\n",
    )
}

/// A report of two lines with an empty line behind them is none: it is refused at line 3.
pub fn read_report_and_more(alloc: Global) -> ReportFault
    ensures { (result ≡ ReportFault.Line 3) ⊎ (result ≡ ReportFault.Memory) }
{
    one_report();
    match read_report(alloc, b"orders 0 open 0 absent 0\nbays 0 decided 0\n\n") {
        Ok(_) => unreachable!(),
        Err(fault) => fault,
    }
}

/// Reads the line of a relocation: exactly the move that it states.
pub fn read_relocation(alloc: Global) -> Result<Option<SaidMove>, AllocError>
    ensures { IfOk result (λ stated. stated ≡ Some relocation) }
{
    one_move();
    read_move(alloc, b"shift 1.2 2.2 MSCU3")
}

/// Whichever complete plan of the small bay is printed, its lines take MSCU1, then MSCU2, and no other.
pub fn takes_of_small_bay()
    ensures { (moves : List Move) (text : List ℕ) → IsPlan small moves → AreMoveLines (leaving ++ staying) (start small) moves text
        → taken_in text ≡ codes "MSCU1" ∷ codes "MSCU2" ∷ [] }
{
    takes_are_in_order();
}
