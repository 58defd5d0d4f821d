//! Laws of headlines.
ghost use Rattle.std.specs.Prelude.{◌≡◌, ◌≢◌, ◌<◌, ◌≤◌, ◌↔◌, ℕ, List, length, take};
ghost use Rattle.std.specs.List.{AllByRecursion};
ghost use Rattle.crp_plan.specs.declared.moves.Move.{Move};
ghost use Rattle.crp_plan.specs.Bay.{IsProblem, start};
ghost use Rattle.crp_yard.specs.Inventory.{Inventory, IsYard};
ghost use Rattle.crp_yard.specs.Naming.{IsNamedBay};
ghost use Rattle.crp_movins.specs.LoadOrders.{LoadOrders};
ghost use Rattle.crp_order.specs.BayProblems.{ranked, problems_of};
ghost use Rattle.crp_said.specs.MoveLines.{AreMoveLines};
ghost use Rattle.crp_said.specs.Spelled.{most, AreSmall, SpellsReport};
ghost use Rattle.crp_audit.specs.declared.fault.AuditFault.{AuditFault as Fault};
ghost use Rattle.crp_audit.specs.Faults.{IsWrongMove, IsFirstFault};
ghost use Rattle.crp_audit.specs.Readable.{report_in};
ghost use Rattle.crp_audit.specs.Part.{first_sequence};
ghost use Rattle.crp_audit.specs.Headline.{Handed, handed, Reported, numbers_in, problem_in, PrintsPlan, IsTrueOf, IsHeadline, shown_in};
ghost use Rattle.crp_audit.specs.LooksTrue.{LooksTrue};
ghost use Rattle.crp_audit.specs.BorneOut.{AreBorneOut, IsEdited};
ghost use Rattle.crp_checker.specs.Files.{FileShows};

use crate::fault::AuditFault;

/// Over the sequence of the first bays alone these have the problems that they have over the whole one, and no other bay has any; and the
/// three numbers are the same.
pub fn first_bays_are_stated()
    ensures problems { (bays : ℕ) (yard : Inventory) (sequence : List (List ℕ)) → IsYard yard → 0 < bays
        → problems_of yard (first_sequence bays yard sequence) ≡ take bays (problems_of yard sequence) }
    ensures numbers { (bays : ℕ) (yard : Inventory) (orders : LoadOrders) (sequence : List (List ℕ)) (report certificates : List ℕ)
        → numbers_in (handed yard orders (first_sequence bays yard sequence) report certificates) ≡ numbers_in (handed yard orders sequence report certificates) }
{}

/// The checker accepts the certificates of a headline, with verdicts that bear out what is said of its bays. Where of no bay it is said
/// that its moves were edited, these are the headline's own verdicts.
pub fn headlines_show()
    ensures borne_out { (h : Handed) (is : IsHeadline h) → AreBorneOut h is.bays }
    ensures exact { (h : Handed) (is : IsHeadline h) → AllByRecursion (λ b. ¬ IsEdited b.said) is.bays → FileShows h.certificates (shown_in h is) }
{}

/// What is handed in has one list of verdicts: where the bays of the yard have names, and they and the numbers are few enough to be
/// written in a report.
pub fn one_list_of_verdicts()
    ensures { (h : Handed) (is also : IsHeadline h) → AllByRecursion IsNamedBay h.yard.bays → length h.yard.bays ≤ most
        → AreSmall (numbers_in h) → shown_in h is ≡ shown_in h also }
{}

/// What is promised of a bay can be decided: it is so exactly where the printed lines are those of a plan with the relocations that
/// are said and the certificate is accepted with a verdict that bears out what is said.
pub fn true_if_it_looks_so()
    ensures { (h : Handed) (b : Reported) → LooksTrue h b ↔ IsTrueOf h b }
{}

/// The lines of a plan are not wrong: none of them is the line of no legal move.
pub fn printed_plans_are_followed()
    ensures { (h : Handed) (b : Reported) (count : ℕ) (front : List ℕ) → IsProblem (problem_in h b) → PrintsPlan h b count
        → IsWrongMove h b front → ⊥ }
{}

/// The lines of a bay are those of one list of legal moves at most, whatever they are.
pub fn one_plan_is_printed()
    ensures { (h : Handed) (b : Reported) (moves others : List Move) → IsProblem (problem_in h b)
        → AreMoveLines (ranked h.sequence b.bay.1) (start (problem_in h b)) moves b.lines
        → AreMoveLines (ranked h.sequence b.bay.1) (start (problem_in h b)) others b.lines → moves ≡ others }
{}

/// The report of a headline is read, and is refused neither for its spelling nor for its three numbers: where the bays of the yard
/// have names, and they and the numbers are few enough to be written in a report.
pub fn headlines_are_read()
    ensures spelled { (h : Handed) (is : IsHeadline h) → AllByRecursion IsNamedBay h.yard.bays → length h.yard.bays ≤ most
        → AreSmall (numbers_in h) → SpellsReport h.report (report_in h is) }
    ensures lines { (h : Handed) (is : IsHeadline h) (before : List Reported) (line : ℕ) → AllByRecursion IsNamedBay h.yard.bays
        → length h.yard.bays ≤ most → AreSmall (numbers_in h) → ¬ IsFirstFault h before (AuditFault.Spelling line) }
    ensures numbers { (h : Handed) (is : IsHeadline h) (before : List Reported) → AllByRecursion IsNamedBay h.yard.bays
        → length h.yard.bays ≤ most → AreSmall (numbers_in h) → ¬ IsFirstFault h before AuditFault.Numbers }
{}

/// A headline has no first fault, but that memory runs out: where the bays of the yard have names, and they and the numbers are few
/// enough to be written in a report.
pub fn headlines_have_no_fault()
    ensures { (h : Handed) (is : IsHeadline h) (before : List Reported) (f : Fault) → AllByRecursion IsNamedBay h.yard.bays
        → length h.yard.bays ≤ most → AreSmall (numbers_in h) → f ≢ AuditFault.Memory → ¬ IsFirstFault h before f }
{}
