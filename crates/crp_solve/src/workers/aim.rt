//! What a search by many workers is for: the fewest relocations, or the first best plan.
ghost use Rattle.std.specs.Prelude.{◌≡◌, ◌≤◌, true, List, Option, IfSome, ℕ, min};
ghost use Rattle.crp_plan.specs.declared.running.View.{View};
ghost use Rattle.crp_plan.specs.Plans.{ProblemPath};
ghost use Rattle.crp_incumbent.specs.Seats.{Shared};
ghost use Rattle.crp_tree.specs.Parts.{ProblemPart};
ghost use Rattle.crp_solve.specs.Desks.{fixed_at, known_with, IsCountedPart, count_or};
ghost use Rattle.crp_solve.specs.Groups.{IsBetterOf, with_part};
ghost use Rattle.crp_plan.specs.Bay.{Problem as Statement};
ghost use Rattle.crp_solve.specs.Answers.{path_in, shorter, IsPlanOf};
ghost use Rattle.crp_solve.specs.Firsts.{IsPlanOfCount, IsEarlier};

use crate::workers::common::{Common, Gate, Outside};
use crate::workers::desk::{first_at_desk, search_at_desk};
use crp_incumbent::Seat;
use crp_plan::Plan;
use crp_pool::PoolSeat;
use crp_tree::{Name, Part};
use std::marker::Brand;
use std::sync::Wait;

/// What a worker has after it searched a part, and whether the gate stopped its claims. There is no part where the search ended before its
/// time.
pub struct Searched {
    pub(crate) part: Option<Part>,
    pub(crate) seat: Seat,
    pub(crate) best: Option<Plan>,
    pub(crate) place: Option<PoolSeat>,
    pub(crate) stopped: bool,
}

/// What a search is for: which plan its workers keep, and how they search a part.
pub trait Aim: Drop {
    /// What workers at these words keep of their plan and of the parts that they searched.
    ghost keeps: { Shared → View → Option ProblemPath → List ProblemPart → Type 0 };

    /// Which of two plans is the better one.
    ghost better: { Option ProblemPath → Option ProblemPath → Option ProblemPath → Type 0 };

    /// The better of two plans.
    fn better_of(plan: Option<Plan>, other: Option<Plan>) -> Option<Plan>
        ensures better { better plan other result }
        ensures kept { IsBetterOf keeps plan other result };

    /// Searches the part of the name, with this seat, the plan that is kept with it, and a place where names may be put; where the claims
    /// of the worker were stopped before, none is granted.
    fn search_part<R: Wait, G: Gate>(
        outside: &Outside<R, G>,
        common: &Common,
        worker: u32,
        name: Name,
        seat: Seat,
        best: Option<Plan>,
        place: Option<PoolSeat>,
        stopped: bool,
    ) -> Searched
        requires words { seat.of ≡ common.now.of }
        requires kept { (parts : List ProblemPart) × keeps common.now.of (known_with stopped seat.view) best parts }
        requires timely { stopped ≡ true → common.now.of.key.timed ≡ true }
        ensures words { result.seat.of ≡ common.now.of }
        ensures share { result.seat.view.share ≡ seat.view.share }
        ensures mine { result.seat.view.mine ≤ seat.view.mine }
        ensures place { fixed_at result.place ≡ fixed_at place }
        ensures counted { IfSome result.part (IsCountedPart common.now.of.key.thin (known_with stopped seat.view) (known_with result.stopped result.seat.view) place result.place name) }
        ensures kept { (parts : List ProblemPart) → keeps common.now.of (known_with stopped seat.view) best parts
            → keeps common.now.of (known_with result.stopped result.seat.view) result.best (with_part parts result.part) }
        ensures timely { result.stopped ≡ true → common.now.of.key.timed ≡ true }
        ensures stops { (stopped ≡ true → G.may_stop outside.now.gate.now) → result.stopped ≡ true → G.may_stop outside.now.gate.now };
}

/// The search for the fewest relocations.
#[derive(Drop)]
pub struct Fewest;

/// The plan with fewer relocations; where both have as many, the first.
pub(crate) fn shorter_of(plan: Option<Plan>, other: Option<Plan>) -> Option<Plan>
    ensures shorter { result ≡ shorter plan other }
    ensures fewest { (first mine others : ℕ) → mine ≡ count_or first (path_in plan) → others ≡ count_or first (path_in other) → mine ≤ first
        → others ≤ first → min mine others ≡ count_or first (path_in result) }
    ensures plan { (p : Statement) → IfSome plan (IsPlanOf p) → IfSome other (IsPlanOf p) → IfSome result (IsPlanOf p) }
{
    match (plan, other) {
        (Some(plan), Some(other)) => {
            if other.count() < plan.count() {
                Some(other)
            } else {
                Some(plan)
            }
        }
        (Some(plan), None) => Some(plan),
        (None, other) => other,
    }
}

impl Aim for Fewest {
    ghost use Rattle.std.specs.Prelude.{◌≡◌};
    ghost use Rattle.crp_solve.specs.Answers.{shorter};
    ghost use Rattle.crp_solve.specs.Groups.{IsKeptSoFar};

    ghost keeps = { IsKeptSoFar };

    ghost better = { λ plan other best. best ≡ shorter plan other };

    fn better_of(plan: Option<Plan>, other: Option<Plan>) -> Option<Plan> {
        shorter_of(plan, other)
    }

    fn search_part<R: Wait, G: Gate>(
        outside: &Outside<R, G>,
        common: &Common,
        worker: u32,
        name: Name,
        seat: Seat,
        best: Option<Plan>,
        place: Option<PoolSeat>,
        stopped: bool,
    ) -> Searched {
        search_at_desk::<R, G, Brand>(outside, common, worker, name, seat, best, place, stopped)
    }
}

/// The search for the first best plan.
#[derive(Drop)]
pub(crate) struct FirstBest;

/// The first of two plans, by their paths.
pub(crate) fn earlier_of(plan: Option<Plan>, other: Option<Plan>) -> Option<Plan>
    ensures earlier { IsEarlier plan other result }
    ensures plan { (p : Statement) (count : ℕ) → IfSome plan (IsPlanOfCount p count) → IfSome other (IsPlanOfCount p count)
        → IfSome result (IsPlanOfCount p count) }
{
    match (plan, other) {
        (Some(plan), Some(other)) => {
            if other.rows().cmp(plan.rows()).is_lt() {
                Some(other)
            } else {
                Some(plan)
            }
        }
        (Some(plan), None) => Some(plan),
        (None, other) => other,
    }
}

impl Aim for FirstBest {
    ghost use Rattle.crp_solve.specs.Firsts.{IsKeptFirst, IsEarlier};

    ghost keeps = { IsKeptFirst };

    ghost better = { IsEarlier };

    fn better_of(plan: Option<Plan>, other: Option<Plan>) -> Option<Plan> {
        earlier_of(plan, other)
    }

    fn search_part<R: Wait, G: Gate>(
        outside: &Outside<R, G>,
        common: &Common,
        worker: u32,
        name: Name,
        seat: Seat,
        best: Option<Plan>,
        place: Option<PoolSeat>,
        stopped: bool,
    ) -> Searched {
        let (found, seat, place, stopped) = first_at_desk::<R, G, Brand>(
            outside, common, worker, name, seat, place, stopped,
        );
        let Some(found) = found else {
            return Searched {
                part: None,
                seat,
                best,
                place,
                stopped,
            };
        };
        Searched {
            part: Some(found.part),
            seat,
            best: earlier_of(best, found.plan),
            place,
            stopped,
        }
    }
}
