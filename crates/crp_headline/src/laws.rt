//! Laws of what the program writes.
ghost use Rattle.std.specs.Prelude.{ℕ};
ghost use Rattle.crp_plan.specs.Bay.{Problem};
ghost use Rattle.crp_plan.specs.BayNames.{YardBay, IsYardBay};
ghost use Rattle.crp_solve.specs.declared.answer.Answer.{Answer};
ghost use Rattle.crp_solve.specs.Answers.{IsTrueAnswer};
ghost use Rattle.crp_report.specs.Report.{text_of};
ghost use Rattle.crp_report.specs.Chosen.{RunChosen};
ghost use Rattle.crp_report.specs.Runs.{RunSeen, Made, IsMade};
ghost use Rattle.crp_audit.specs.Headline.{IsHeadline};
ghost use Rattle.crp_headline.specs.Accepted.{IsAcceptedAs, handed_of};

/// The checker accepts what the solver writes: the certificate of a true answer, under the name of a bay, is accepted, with the
/// verdict that says the same as the answer.
pub fn answers_are_accepted()
    ensures { (bay : YardBay) (p : Problem) (budget : ℕ) (found : Answer) (expanded : ℕ) → IsYardBay bay
        → IsTrueAnswer p budget found expanded → IsAcceptedAs (text_of bay p found) bay p found }
{}

/// What a run promises, in one statement: what it makes is a headline of its yard and its load orders. So its report is a line of
/// three numbers, the lines of the bays from which an ordered container leaves, in the yard's order, and a line that counts them. Where a
/// bay is said to be optimal, its lines are those of a complete plan that takes its ordered containers in their order, no complete plan has
/// fewer relocations, and the checker accepts its certificate with that number; where the plan is said to be the first, it comes before all
/// others with as few relocations, and the checker accepts that; where it is said to have no plan, there is none, and the checker accepts
/// that; where it is left open, both numbers hold, and the checker accepts them.
pub fn headline()
    ensures { (chosen : RunChosen) (seen : RunSeen) (made : Made) → IsMade chosen seen made → IsHeadline (handed_of made) }
{}
