//! Reports of two runs.
ghost use Rattle.std.specs.Prelude.{◌≡◌, List, ℕ, Contains};
ghost use Rattle.crp_solve.specs.Solved.{IsSolved};
ghost use Rattle.crp_solve.specs.Chosen.{Chosen};
ghost use Rattle.crp_solve.specs.declared.answer.Solved.{Solved};
ghost use Rattle.crp_report.specs.Answered.{Answered};
ghost use Rattle.crp_report.specs.Report.{AreBayLines};
ghost use Rattle.crp_report.specs.Chosen.{RunChosen};
ghost use Rattle.crp_report.specs.Runs.{RunSeen, Made, IsMade, numbers_of};
ghost use Rattle.crp_report.specs.Said.{IsReportedFirst};
ghost use Rattle.crp_callers.specs.SmallBay.{small};
ghost use Rattle.crp_callers.specs.SmallAnswers.{small_answered, said_of};

use crp_report::{first_lines_are_one, reports_mean_one_thing};

/// Whatever is chosen for two searches of the small bay, the lines of its first best plan are the same bytes.
pub fn first_lines_of_small_bay()
    ensures { (chosen other : Chosen) (one again : Solved) (text also : List ℕ) → IsSolved small chosen one → IsSolved small other again
        → IsReportedFirst (small_answered one) → IsReportedFirst (small_answered again)
        → AreBayLines (small_answered one) text → AreBayLines (small_answered again) also → text ≡ also }
{
    first_lines_are_one();
}

/// Whatever is chosen for two runs, the lines of a bay that both report with its first best plan are the same bytes.
pub fn first_lines_of_two_runs()
    ensures { (chosen other : RunChosen) (seen later : RunSeen) (made also : Made) (bay again : Answered) (text more : List ℕ)
        → IsMade chosen seen made → IsMade other later also → Contains made.answered bay → Contains also.answered again
        → IsReportedFirst bay → IsReportedFirst again → bay.stated ≡ again.stated → AreBayLines bay text → AreBayLines again more → text ≡ more }
{
    first_lines_are_one();
}

/// Two runs whose reports are the same bytes have the same numbers, and say the same of the same bays, in the same order.
pub fn same_reports_say_the_same()
    ensures numbers { (chosen other : RunChosen) (seen again : RunSeen) (made also : Made) → IsMade chosen seen made → IsMade other again also
        → made.report ≡ also.report → numbers_of made.yard made.orders made.sequence ≡ numbers_of also.yard also.orders also.sequence }
    ensures bays { (chosen other : RunChosen) (seen again : RunSeen) (made also : Made) → IsMade chosen seen made → IsMade other again also
        → made.report ≡ also.report → said_of made.answered ≡ said_of also.answered }
{
    reports_mean_one_thing();
}
