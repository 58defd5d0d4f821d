//! What a run makes, as it is audited, checked and followed.
ghost use Rattle.std.specs.Prelude.{◌≡◌, ◌≤◌, ℕ, List, Some, false, length, map, IfSome, MatchResult};
ghost use Rattle.std.specs.List.{AllByRecursion, AllZip};
ghost use Rattle.crp_plan.specs.Bay.{cap};
ghost use Rattle.crp_plan.specs.BayNames.{YardBay, IsYardBay};
ghost use Rattle.crp_movins.specs.Loading.{Loading};
ghost use Rattle.crp_sizes.specs.Sizes.{YardSizes};
ghost use Rattle.crp_yard.specs.Inventory.{Inventory};
ghost use Rattle.crp_yard.specs.Naming.{IsNamedBay};
ghost use Rattle.crp_yard.specs.Reading.{IsYardListOf};
ghost use Rattle.crp_yard.specs.Text.{yard_text};
ghost use Rattle.crp_separated.specs.Inputs.{with_separator};
ghost use Rattle.crp_order.specs.declared.sequences.Mode.{Mode};
ghost use Rattle.crp_order.specs.OfBays.{IsSequenceOf};
ghost use Rattle.crp_solve.specs.declared.answer.Answer.{Answer};
ghost use Rattle.crp_solve.specs.Answers.{IsTrueAnswer};
ghost use Rattle.crp_said.specs.Spelled.{most, AreSmall};
ghost use Rattle.crp_follow.specs.declared.fault.FollowFault.{FollowFault as Fault};
ghost use Rattle.crp_follow.specs.Faults.{rows_in, is_named, IsFirstFault};
ghost use Rattle.crp_follow.specs.Views.{bay_followed};
ghost use Rattle.crp_report.specs.Answered.{said_by};
ghost use Rattle.crp_report.specs.Chosen.{RunChosen};
ghost use Rattle.crp_report.specs.Report.{text_of};
ghost use Rattle.crp_report.specs.Runs.{AreOrders, IsMade, Made, RunSeen};
ghost use Rattle.crp_audit.specs.Headline.{Handed, handed, IsHeadline, numbers_in, verdict_said};
ghost use Rattle.crp_headline.specs.Accepted.{handed_of};
ghost use Rattle.crp_planned.specs.Ends.{EndsAsPrinted};

use crate::audits::first_fault;
use crp_audit::AuditFault;
use crp_checker::{Refused, Verdict, accepted_or_refused, check_for};
use crp_follow::{FollowFault, Followed, follow, one_outcome};
use crp_headline::{answers_are_accepted, headline};
use crp_movins::Orders;
use crp_order::Sequence;
use crp_plan::Problem;
use crp_planned::{headlines_are_followed, runs_are_followed};
use crp_yard::Yard;
use std::alloc::Global;

/// What a run makes is a headline: an audit of it finds no fault, unless memory runs out.
pub fn fault_of_run(
    alloc: Global,
    yard: &Yard,
    orders: &Orders,
    sequence: &Sequence,
    report: &[u8],
    certificates: &[u8],
) -> Option<AuditFault>
    requires named { AllByRecursion IsNamedBay yard.now.bays }
    requires few { length yard.now.bays ≤ most }
    requires small { AreSmall (numbers_in (handed yard.now orders.now sequence.now report.now certificates.now)) }
    ensures { (chosen : RunChosen) (seen : RunSeen) (made : Made) → IsMade chosen seen made
        → handed yard.now orders.now sequence.now report.now certificates.now ≡ handed_of made → IfSome result (λ fault. fault ≡ AuditFault.Memory) }
{
    headline();
    first_fault(alloc, yard, orders, sequence, report, certificates)
}

/// The checker says of the certificate of a true answer what the answer says, unless memory runs out.
pub fn check_of_answer(alloc: Global, problem: &Problem, text: &[u8]) -> Result<Verdict, Refused>
    ensures { (bay : YardBay) (budget : ℕ) (found : Answer) (expanded : ℕ) → IsYardBay bay → IsTrueAnswer problem.now budget found expanded
        → text.now ≡ text_of bay problem.now found
        → MatchResult result (λ verdict. verdict ≡ verdict_said (cap problem.now) (said_by found)) (λ refused. refused ≡ Refused.Memory) }
{
    answers_are_accepted();
    accepted_or_refused();
    check_for(alloc, problem, text)
}

/// The report of a run is followed over the yard of the run, unless memory runs out, and then stands in its bays what the run writes as the
/// yard after, and in the others what stood there.
pub fn follow_of_run(alloc: Global, yard: &Yard, report: &[u8]) -> Result<Followed, FollowFault>
    ensures { (chosen : RunChosen) (seen : RunSeen) (made : Made) → IsMade chosen seen made → yard.now ≡ made.yard → report.now ≡ made.report
        → MatchResult result
        (λ followed. (after : Inventory) × (made.yard_after ≡ with_separator seen.separator (yard_text after))
        × AllByRecursion (λ b. rows_in after b.stated.bay ≡ Some b.after) (map bay_followed followed.bays.items)
        × ((bay : YardBay) → is_named (map (λ b. b.stated) (map bay_followed followed.bays.items)) bay ≡ false → rows_in after bay ≡ rows_in yard.now bay))
        (λ fault. fault ≡ Fault.Memory) }
{
    runs_are_followed();
    one_outcome();
    follow(alloc, yard, report)
}

/// The report of a headline, whoever made it, is followed over its yard, unless memory runs out, bay by bay, each to what its printed plan
/// leaves.
pub fn follow_of_headline(
    alloc: Global,
    yard: &Yard,
    report: &[u8],
) -> Result<Followed, FollowFault>
    ensures { (sizes : YardSizes) (loading : Loading) (names : List YardBay) (list message : List ℕ) (mode : Mode) (h : Handed) (is : IsHeadline h) → IsYardListOf sizes list h.yard
        → AreOrders loading message h.orders → IsSequenceOf mode names h.yard h.orders.list h.sequence → yard.now ≡ h.yard → report.now ≡ h.report
        → MatchResult result (λ followed. AllZip (EndsAsPrinted h) is.bays (map bay_followed followed.bays.items)) (λ fault. fault ≡ Fault.Memory) }
{
    headlines_are_followed();
    one_outcome();
    follow(alloc, yard, report)
}

/// No line of a run's report names a bay that its yard lacks.
pub fn runs_name_their_bays()
    ensures { (chosen : RunChosen) (seen : RunSeen) (made : Made) (line : ℕ) → IsMade chosen seen made
        → IsFirstFault made.yard made.report (Fault.NoBay line) → ⊥ }
{
    runs_are_followed();
}

/// No line of a headline's report names a bay that its yard lacks.
pub fn headlines_name_their_bays()
    ensures { (sizes : YardSizes) (loading : Loading) (names : List YardBay) (list message : List ℕ) (mode : Mode) (h : Handed) (line : ℕ) → IsHeadline h → IsYardListOf sizes list h.yard
        → AreOrders loading message h.orders → IsSequenceOf mode names h.yard h.orders.list h.sequence → IsFirstFault h.yard h.report (Fault.NoBay line) → ⊥ }
{
    headlines_are_followed();
}
