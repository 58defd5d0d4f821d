//! What is kept of the bays that are written.
ghost use Rattle.std.specs.Prelude.{◌≡◌, ◌+◌, ◌-◌, ◌^◌, ◌<◌, ◌≤◌, List, [], ◌∷◌, ◌++◌, IfOk, OnOk, option_to_list, if◌then◌else◌};
ghost use Rattle.crp_report.specs.Answered.{Answered, plan_in, bay_plan_in, is_decided, both};
ghost use Rattle.crp_report.specs.Writing.{AreKept};

use crate::answers::status_of;
use crate::status::Status;
use crp_order::BayProblem;
use crp_plan::{Container, Plan};
use crp_solve::{Answer, Solved};
use crp_yard::{BayPlan, Containers};
use std::alloc::{AllocError, Global};

/// What is kept of the bays that are written.
#[derive(Drop)]
pub(crate) struct BaysDone {
    /// How many they are.
    pub bays: usize,
    /// The plans of those that have one.
    pub plans: Vec<BayPlan>,
    /// How many are decided.
    pub decided: usize,
    /// How their searches ended together.
    pub status: Status,
}

// How two lists of searches ended together, each of which ended so.
fn together(one: Status, other: Status) -> Status
    ensures { result ≡ both one other }
{
    match one {
        Status::Memory => Status::Memory,
        Status::Decided => other,
        Status::Budget => match other {
            Status::Memory => Status::Memory,
            Status::Budget | Status::Decided => Status::Budget,
        },
    }
}

// One more is decided, if its search ended so.
fn with_decided(decided: usize, status: Status) -> usize
    requires { decided < 2 ^ 64 - 1 }
    ensures { result ≡ decided + (if is_decided status then 1 else 0) }
{
    match status {
        Status::Decided => decided + 1,
        Status::Budget | Status::Memory => decided,
    }
}

// The plan in an answer, if there is one.
fn plan_of(answer: Answer) -> Option<Plan>
    ensures { result ≡ plan_in answer }
{
    match answer {
        Answer::Optimal { plan, cert: _cert } => Some(plan),
        Answer::First { plan, cert: _cert } => Some(plan),
        Answer::NoPlan { cert: _cert } => None,
        Answer::Between {
            plan,
            lower: _,
            cert: _cert,
            cause: _,
        } => plan,
    }
}

// The same containers once more.
fn copied(alloc: Global, list: &[Container]) -> Result<Containers, AllocError>
    ensures { IfOk result (λ copy. copy ≡ list.now) }
{
    let mut copy = Vec::new(alloc);
    for container in list {
        copy.push(Container::named(alloc, container.bytes())?)?;
    }
    Ok(Containers::from_vec(copy))
}

// One plan more, if the bay has one.
fn push_plan(
    alloc: Global,
    plans: &mut Vec<BayPlan>,
    bay: &BayProblem,
    solved: Solved,
) -> Result<(), AllocError>
    ensures { OnOk result (plans.new.items ≡ plans.old.items ++ option_to_list (bay_plan_in (record { stated = bay.now; solved = solved }))) }
{
    if let Some(plan) = plan_of(solved.answer) {
        let names = copied(alloc, bay.names.list())?;
        plans.push(BayPlan {
            bay: bay.bay.copy(),
            plan,
            names,
        })?;
    }
    Ok(())
}

impl BaysDone {
    /// No bay yet.
    pub(crate) fn none(alloc: Global) -> BaysDone
        ensures { AreKept [] result }
    {
        BaysDone {
            bays: 0,
            plans: Vec::new(alloc),
            decided: 0,
            status: Status::Decided,
        }
    }

    /// One bay more, which is answered so.
    pub(crate) fn push(
        &mut self,
        alloc: Global,
        bay: &BayProblem,
        solved: Solved,
    ) -> Result<(), AllocError>
        requires few { self.old.bays < 2 ^ 64 - 1 }
        requires within { self.old.decided ≤ self.old.bays }
        ensures { OnOk result ((answered : List Answered) → AreKept answered self.old
            → AreKept (answered ++ record { stated = bay.now; solved = solved } ∷ []) self.new) }
    {
        let status = status_of(&solved.answer);
        push_plan(alloc, &mut self.plans, bay, solved)?;
        self.bays += 1;
        self.decided = with_decided(self.decided, status);
        self.status = together(self.status, status);
        Ok(())
    }
}
