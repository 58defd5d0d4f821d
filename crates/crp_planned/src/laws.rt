//! Laws of what is printed of plans, and of reports that are followed over the yard that they were made of.
ghost use Rattle.std.specs.Prelude.{◌≡◌, ℕ, List, None};
ghost use Rattle.crp_plan.specs.declared.moves.Move.{Move};
ghost use Rattle.crp_plan.specs.Bay.{Position, IsSound, IsFinished};
ghost use Rattle.crp_plan.specs.BayNames.{YardBay};
ghost use Rattle.crp_movins.specs.Loading.{Loading};
ghost use Rattle.crp_sizes.specs.Sizes.{YardSizes};
ghost use Rattle.crp_yard.specs.Ranks.{named};
ghost use Rattle.crp_yard.specs.Reading.{IsYardListOf};
ghost use Rattle.crp_order.specs.declared.sequences.Mode.{Mode};
ghost use Rattle.crp_order.specs.OfBays.{IsSequenceOf};
ghost use Rattle.crp_said.specs.declared.moves.SaidMove.{SaidMove};
ghost use Rattle.crp_follow.specs.declared.fault.FollowFault.{FollowFault};
ghost use Rattle.crp_follow.specs.Crane.{Leads};
ghost use Rattle.crp_follow.specs.Faults.{IsFirstFault};
ghost use Rattle.crp_follow.specs.Rule.{first_outside};
ghost use Rattle.crp_follow.specs.Stated.{moves_of};
ghost use Rattle.crp_follow.specs.declared.stated.StatedMove.{StatedMove};
ghost use Rattle.crp_report.specs.Chosen.{RunChosen};
ghost use Rattle.crp_report.specs.Runs.{RunSeen, AreOrders, Made, IsMade};
ghost use Rattle.crp_audit.specs.Headline.{Handed, IsHeadline};
ghost use Rattle.crp_planned.specs.Planned.{AreSaid};
ghost use Rattle.crp_planned.specs.Ends.{IsRunFollowed, IsHeadlineFollowed};

// What a law calls are the laws below on which it rests.
use crp_audit::headlines_are_read;
use crp_follow::{one_outcome, stays_within_heights, written_is_stated};

/// The moves of a plan, as a run prints them, a crane can make, one after the other: they lead from what stands in the rows where the plan
/// begins to what stands there where it ends, the ranks read as names.
pub fn plans_are_followed()
    ensures { (names : List (List ℕ)) (s t : Position) (moves : List Move) (said : List SaidMove) → AreSaid names s moves said t
        → Leads s.heights (named names s.stacks) said (named names t.stacks) }
{}

/// The moves of a complete plan by the restricted rule, as a run prints them, are of the rule by their lines alone: so the line of its bay stays as it
/// is where the report is written anew.
pub fn plans_are_of_rule()
    ensures { (names : List (List ℕ)) (s t : Position) (moves : List Move) (stated : List StatedMove) → IsSound s → IsFinished t
        → AreSaid names s moves (moves_of stated) t → first_outside stated ≡ None }
{}

/// The report of a run is followed over the run's yard to its end, and no first fault is found in it: for every yard list, message,
/// settings and schedule. At the end stands in the yard what the run writes as the yard list after the plans.
pub fn runs_are_followed()
    ensures followed { (chosen : RunChosen) (seen : RunSeen) (made : Made) → IsMade chosen seen made → IsRunFollowed seen.separator made }
    ensures faultless { (chosen : RunChosen) (seen : RunSeen) (made : Made) (fault : FollowFault) → IsMade chosen seen made
        → ¬ IsFirstFault made.yard made.report fault }
{
    written_is_stated();
    stays_within_heights();
    one_outcome();
}

/// What an audit accepts is followed: where a report and certificates, whoever made them, are a headline of a yard list and of a message
/// that are accepted, the report is followed over the yard to its end, bay by bay, each from what stands in it to what its printed plan
/// leaves; and no first fault is found in it.
pub fn headlines_are_followed()
    ensures followed { (sizes : YardSizes) (loading : Loading) (names : List YardBay) (list message : List ℕ) (mode : Mode) (h : Handed) (is : IsHeadline h) → IsYardListOf sizes list h.yard
        → AreOrders loading message h.orders → IsSequenceOf mode names h.yard h.orders.list h.sequence → IsHeadlineFollowed h is }
    ensures faultless { (sizes : YardSizes) (loading : Loading) (names : List YardBay) (list message : List ℕ) (mode : Mode) (h : Handed) (fault : FollowFault) → IsHeadline h
        → IsYardListOf sizes list h.yard → AreOrders loading message h.orders → IsSequenceOf mode names h.yard h.orders.list h.sequence
        → ¬ IsFirstFault h.yard h.report fault }
{
    headlines_are_read();
    written_is_stated();
    stays_within_heights();
    one_outcome();
}
