//! Laws of what is written. Each is the contract of a function that does nothing.
ghost use Rattle.std.specs.Prelude.{◌≡◌, List, ℕ, Contains};
ghost use Rattle.crp_solve.specs.Solved.{IsSolved};
ghost use Rattle.crp_solve.specs.Chosen.{Chosen};
ghost use Rattle.crp_report.specs.Answered.{Answered};
ghost use Rattle.crp_report.specs.Report.{AreBayLines};
ghost use Rattle.crp_report.specs.Chosen.{RunChosen};
ghost use Rattle.crp_report.specs.Runs.{RunSeen, Made, IsMade};
ghost use Rattle.crp_report.specs.Said.{IsReportedFirst, SayTheSame};

/// The first best plan of a bay is stated in one way: where two answers to one bay give it, whatever was chosen for them, and however
/// their workers took turns, the lines of the bay are the same bytes. So it is with the bays of two runs.
pub fn first_lines_are_one()
    ensures answers { (chosen other : Chosen) (bay again : Answered) (text also : List ℕ)
        → IsSolved bay.stated.problem chosen bay.solved → IsSolved again.stated.problem other again.solved
        → IsReportedFirst bay → IsReportedFirst again → bay.stated ≡ again.stated
        → AreBayLines bay text → AreBayLines again also → text ≡ also }
    ensures runs { (chosen other : RunChosen) (seen later : RunSeen) (made also : Made) (bay again : Answered) (text more : List ℕ)
        → IsMade chosen seen made → IsMade other later also → Contains made.answered bay → Contains also.answered again
        → IsReportedFirst bay → IsReportedFirst again → bay.stated ≡ again.stated
        → AreBayLines bay text → AreBayLines again more → text ≡ more }
{}

/// The bytes of a report mean one thing: two runs whose reports are the same bytes say the same.
pub fn reports_mean_one_thing()
    ensures { (chosen other : RunChosen) (seen again : RunSeen) (made also : Made) → IsMade chosen seen made → IsMade other again also
        → made.report ≡ also.report → SayTheSame made also }
{}
