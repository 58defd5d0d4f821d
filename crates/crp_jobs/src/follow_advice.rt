//! What to look at where a report cannot be followed, in plain words.
ghost use Rattle.crp_jobs.specs.Advice.{IsPlainLine};

use crate::advice::MEMORY;
use crp_follow::{FollowFault, Unstated};
use crp_loading::LoadingFault;

/// Of a report that is followed.
pub(crate) fn advice_on_follow(fault: &FollowFault) -> &'static str
    ensures { IsPlainLine result.now }
{
    match fault {
        FollowFault::TooLong => "a report may have at most 8388608 bytes",
        FollowFault::Orders { .. } => {
            "the report must begin with the line orders O open V absent A, as crp solve prints it"
        }
        FollowFault::NoLine { .. } => {
            "this line must be a bay (bay BLOCK BAY: VERDICT), a move of it (shift or take), or the last line (bays B decided D)"
        }
        FollowFault::Count { .. } => {
            "the report must end with the line bays B decided D: B and D must be the bays above and those optimal or without a plan"
        }
        FollowFault::NoBay { .. } => {
            "the yard list has no such bay: look at the block and the number, or take the yard list that was solved"
        }
        FollowFault::Again { .. } => {
            "a line before this one names the same bay: each may have one line, and all its moves below it"
        }
        FollowFault::Relocations { .. } => {
            "the line must say as many relocations as there are shift lines below it, and no moves may follow no plan or none"
        }
        FollowFault::Lift { .. } => {
            "the crane cannot lift there: FROM must be the highest container of its row, after the moves before"
        }
        FollowFault::Container { .. } => {
            "another container stands at FROM, after the moves before"
        }
        FollowFault::SetDown { .. } => {
            "the crane cannot set down there: TO must be the lowest free place of another row, and within its height"
        }
        FollowFault::Memory => MEMORY,
    }
}

/// Of a report whose takes do not load the ship in its order.
pub(crate) fn advice_on_loading(fault: &LoadingFault) -> &'static str
    ensures { IsPlainLine result.now }
{
    match fault {
        LoadingFault::OutOfOrder { .. } => {
            "the ship gets this container before one that is taken above from its bay: look at the order of the takes, and at --order"
        }
        LoadingFault::NotOrdered { .. } => {
            "the message does not order this container to be loaded: look at the message, and at --code"
        }
        LoadingFault::Memory => MEMORY,
    }
}

/// Of what is named and that a report has not.
pub(crate) fn advice_on_unstated(unstated: Unstated) -> &'static str
    ensures { IsPlainLine result.now }
{
    match unstated {
        Unstated::Bay(_) => {
            "the report has no line of this bay: --bay takes the name of a bay as its line has it, such as 'A 1'"
        }
        Unstated::Block(_) => {
            "the report has no bay of this block: --block takes what stands before the number of a bay"
        }
    }
}
