//! Callers of the audit of a report and its certificates.
ghost use Rattle.std.specs.Prelude.{◌≡◌, ◌≤◌, ◌∷◌, [], ℕ, List, length, map, filter, IfOk, IfSome, IfNone};
ghost use Rattle.std.specs.List.{AllByRecursion, AllZip};
ghost use Rattle.crp_sizes.specs.Sizes.{heights_at};
ghost use Rattle.crp_yard.specs.Naming.{IsNamedBay};
ghost use Rattle.crp_yard.specs.Inventory.{Inventory, IsYard};
ghost use Rattle.crp_movins.specs.LoadOrders.{LoadOrders};
ghost use Rattle.crp_order.specs.declared.bay_problem.BayProblem.{BayProblem};
ghost use Rattle.crp_order.specs.BayProblems.{is_called, problem_of, problems_of};
ghost use Rattle.crp_checker.specs.Verdicts.{Says};
ghost use Rattle.crp_checker.specs.Files.{FileShows};
ghost use Rattle.crp_said.specs.Said.{BaySaid, report_text};
ghost use Rattle.crp_said.specs.Spelled.{most, AreSmall};
ghost use Rattle.crp_audit.specs.Headline.{Handed, handed, Reported, IsHeadline, numbers_in, shown_in};
ghost use Rattle.crp_audit.specs.Part.{first_sequence};
ghost use Rattle.crp_audit.specs.BorneOut.{AreBorneOut, IsEdited};
ghost use Rattle.crp_audit.specs.Faults.{IsFirstFault};

use crp_audit::{
    AuditFault, AuditStop, AuditStopped, audit, first_bays_are_stated, headlines_are_read,
    headlines_show, one_list_of_verdicts,
};
use crp_checker::{Verdicts, verdicts_say};
use crp_movins::Orders;
use crp_order::Sequence;
use crp_yard::Yard;
use std::alloc::Global;

/// The first fault of a report and certificates, if they have one. An audit finds none exactly where they are a headline, unless memory
/// runs out, which is no fault of theirs; where the bays and the numbers are few enough for a report.
pub fn first_fault(
    alloc: Global,
    yard: &Yard,
    orders: &Orders,
    sequence: &Sequence,
    report: &[u8],
    certificates: &[u8],
) -> Option<AuditFault>
    requires named { AllByRecursion IsNamedBay yard.now.bays }
    requires few { length yard.now.bays ≤ most }
    requires small { AreSmall (numbers_in (handed yard.now orders.now sequence.now report.now certificates.now)) }
    ensures yes { IfNone result (IsHeadline (handed yard.now orders.now sequence.now report.now certificates.now)) }
    ensures first { IfSome result (λ fault. (before : List Reported)
        × IsFirstFault (handed yard.now orders.now sequence.now report.now certificates.now) before fault) }
    ensures complete { IsHeadline (handed yard.now orders.now sequence.now report.now certificates.now)
        → IfSome result (λ fault. fault ≡ AuditFault.Memory) }
{
    let mut source = certificates;
    let mut interruptions = 0;
    match audit(
        alloc,
        yard,
        orders,
        sequence,
        report,
        &mut source,
        certificates.len(),
        &mut interruptions,
    ) {
        Ok(_) => None,
        Err(AuditStopped { stop, .. }) => match stop {
            AuditStop::Fault(fault) => Some(fault),
            AuditStop::Failed | AuditStop::TooLarge => unreachable!(),
        },
    }
}

/// What an audit shows of a report and certificates that it accepts: of each bay of the yard from which a container leaves, under its name
/// and in the yard's order, what its report says, and that is so. The certificates are no others, and bear that out: they show the same
/// where of no bay it is said that its moves were edited. The report has the lines of these bays. Each headline of the same texts has the
/// same verdicts, where the bays and the numbers are few enough for a report.
pub fn shown_of_each(
    alloc: Global,
    yard: &Yard,
    orders: &Orders,
    sequence: &Sequence,
    report: &[u8],
    certificates: &[u8],
) -> Result<Verdicts, AuditStopped>
    requires { AllByRecursion IsNamedBay yard.now.bays }
    ensures says { IfOk result (AllZip (λ bay shown. (shown.0 ≡ bay.0) × Says (problem_of (heights_at yard.now.sizes bay.0) sequence.now bay.1) shown.1)
        (filter (is_called sequence.now) yard.now.bays)) }
    ensures file { IfOk result (λ shown. (is : IsHeadline (handed yard.now orders.now sequence.now report.now certificates.now))
        × AreBorneOut (handed yard.now orders.now sequence.now report.now certificates.now) is.bays
        × (AllByRecursion (λ b. ¬ IsEdited b.said) is.bays → FileShows certificates.now shown)) }
    ensures lines { IfOk result (λ shown. (said : List BaySaid)
        × (report.now ≡ report_text (numbers_in (handed yard.now orders.now sequence.now report.now certificates.now)) said)
        × (map (λ s. s.bay) said ≡ map (λ v. v.0) shown)) }
    ensures one { IfOk result (λ shown. (is : IsHeadline (handed yard.now orders.now sequence.now report.now certificates.now))
        → length yard.now.bays ≤ most → AreSmall (numbers_in (handed yard.now orders.now sequence.now report.now certificates.now))
        → shown ≡ shown_in (handed yard.now orders.now sequence.now report.now certificates.now) is) }
{
    headlines_show();
    one_list_of_verdicts();
    verdicts_say();
    let mut source = certificates;
    let mut interruptions = 0;
    audit(
        alloc,
        yard,
        orders,
        sequence,
        report,
        &mut source,
        certificates.len(),
        &mut interruptions,
    )
}

/// Of two bays the first alone has its problem, by the sequence that leaves out the containers of the other, and the numbers are the same.
pub fn first_bay_alone()
    ensures alone { (yard : Inventory) (sequence : List (List ℕ)) (first second : BayProblem) → IsYard yard → problems_of yard sequence ≡ first ∷ second ∷ []
        → problems_of yard (first_sequence 1 yard sequence) ≡ first ∷ [] }
    ensures numbers { (yard : Inventory) (orders : LoadOrders) (sequence : List (List ℕ)) (report certificates : List ℕ)
        → numbers_in (handed yard orders (first_sequence 1 yard sequence) report certificates) ≡ numbers_in (handed yard orders sequence report certificates) }
{
    first_bays_are_stated();
}

/// A headline of a yard with few bays and small numbers is refused neither for the first line of its report nor for its three numbers.
pub fn headlines_begin_right()
    ensures line { (h : Handed) (is : IsHeadline h) (before : List Reported) → AllByRecursion IsNamedBay h.yard.bays → length h.yard.bays ≤ most
        → AreSmall (numbers_in h) → IsFirstFault h before (AuditFault.Spelling 1) → ⊥ }
    ensures numbers { (h : Handed) (is : IsHeadline h) (before : List Reported) → AllByRecursion IsNamedBay h.yard.bays → length h.yard.bays ≤ most
        → AreSmall (numbers_in h) → IsFirstFault h before AuditFault.Numbers → ⊥ }
{
    headlines_are_read();
}
