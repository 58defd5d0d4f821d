//! The yard as plans leave it.

ghost use Rattle.std.specs.Prelude.{◌≡◌, IfOk, All, MatchOption, map};
ghost use Rattle.std.specs.List.{IsDistinct};
ghost use Rattle.crp_plan.specs.BayNames.{same_bay};
ghost use Rattle.crp_yard.specs.After.{IsPlanForBay, plan_for, LeavesNamed, AreBaysAfter, IsAfter};
ghost use Rattle.crp_yard.specs.PlansByBay.{plans_in, AreByBay};

use crate::containers::Containers;
use crate::leaving::stacks_left;
use crate::stacks::Stacks;
use crate::yard::Yard;
use crp_plan::{BayName, Container, Plan};
use indexmap::IndexMap;
use std::alloc::{AllocError, Global};

/// A plan for a bay of a yard, and the containers of its ranks from 1.
#[derive(Drop)]
pub struct BayPlan {
    /// The bay.
    pub bay: BayName,
    /// A plan for it.
    pub plan: Plan,
    /// The container of each rank.
    pub names: Containers,
}

fn copied_stack(alloc: Global, stack: &[Container]) -> Result<Containers, AllocError>
    ensures { IfOk result (λ copy. copy ≡ stack.now) }
{
    let mut copy = Vec::new(alloc);
    for container in stack {
        copy.push(Container::named(alloc, container.bytes())?)?;
    }
    Ok(Containers::from_vec(copy))
}

fn copied_stacks(alloc: Global, stacks: &[Containers]) -> Result<Stacks, AllocError>
    ensures { IfOk result (λ copy. copy ≡ stacks.now) }
{
    let mut copy = Vec::new(alloc);
    for stack in stacks {
        copy.push(copied_stack(alloc, stack.list())?)?;
    }
    Ok(Stacks::from_vec(copy))
}

/// The plans by the names of their bays.
fn by_bay<'a>(
    alloc: Global,
    plans: &'a [BayPlan],
) -> Result<IndexMap<BayName, &'a BayPlan>, AllocError>
    requires { IsDistinct same_bay (map (λ plan. plan.bay) plans.now) }
    ensures all { IfOk result (λ by_bay. plans_in by_bay.entries ≡ plans.now) }
    ensures keyed { IfOk result (λ by_bay. AreByBay by_bay.entries) }
{
    let mut by_bay = IndexMap::new(alloc);
    for plan in plans {
        by_bay.insert(plan.bay.copy(), plan)?;
    }
    Ok(by_bay)
}

/// The stacks of a bay as its plan leaves them, or as they are where it has none.
fn stacks_after(
    alloc: Global,
    plans: &IndexMap<BayName, &BayPlan>,
    bay: &BayName,
    stacks: &[Containers],
) -> Result<Stacks, AllocError>
    requires { AreByBay plans.now.entries }
    ensures { IfOk result (λ left. MatchOption (plan_for (plans_in plans.now.entries) bay.now) (left ≡ stacks.now) (λ plan. LeavesNamed plan left)) }
{
    match plans.get(bay) {
        Some(plan) => stacks_left(alloc, &plan.plan, &plan.names),
        None => copied_stacks(alloc, stacks),
    }
}

/// The bays of a yard as the plans leave them.
fn bays_after(
    alloc: Global,
    yard: &Yard,
    plans: &IndexMap<BayName, &BayPlan>,
) -> Result<IndexMap<BayName, Stacks>, AllocError>
    requires { AreByBay plans.now.entries }
    ensures { IfOk result (λ bays. AreBaysAfter (plans_in plans.now.entries) yard.now.bays bays.entries) }
{
    let mut bays = IndexMap::new(alloc);
    for i in 0..yard.count() {
        let (name, stacks) = yard.bay(i);
        let left = stacks_after(alloc, plans, name, stacks)?;
        bays.insert(name.copy(), left)?;
    }
    Ok(bays)
}

/// The yard as the plans leave it: each bay with a plan as that leaves it, the others as they are.
pub fn after(alloc: Global, yard: &Yard, plans: &[BayPlan]) -> Result<Yard, AllocError>
    requires plans { All (IsPlanForBay yard.now) plans.now }
    requires once { IsDistinct same_bay (map (λ plan. plan.bay) plans.now) }
    ensures { IfOk result (λ after. IsAfter yard.now plans.now after) }
{
    let plans = by_bay(alloc, plans)?;
    let bays = bays_after(alloc, yard, &plans)?;
    Yard::new(alloc, yard.sizes().copy(alloc)?, bays)
}
