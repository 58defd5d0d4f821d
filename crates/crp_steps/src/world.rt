ghost use Rattle.std.specs.Prelude.{◌≡◌, ◌≤◌, ◌<◌, IfOk, OnOk, OnErr, IfSome, IsTrue, ◌↔◌};
ghost use Rattle.std.specs.Option.{option_copied};
ghost use Rattle.crp_plan.specs.Bay.{cap, IsProblem};
ghost use Rattle.crp_steps.specs.Worlds.{begin, start_of, IsStart, least_leaf as least_leaf_of};
ghost use Rattle.crp_steps.specs.Events.{Leads, IsNotNow, Comes, Come, ComeInPart};
ghost use Rattle.crp_steps.specs.Covered.{IsReachedWorld, IsKeptWorld, IsClosedWorld, SomeRefused, ShowsFewest};

use crate::event::{Event, Stopped};
use crate::state::State;
use crp_plan::{Plan, Problem};
use std::alloc::{AllocError, Global};
use std::marker::Model;

/// Several workers at one search of one bay, each of which takes a step where an event says so.
///
/// A world keeps that some events lead to it from the beginning of some workers. So in every world every plan is covered: its path
/// begins with a path that still waits in a deque or a hand, or with a closed leaf of at most its relocations. Workers count from 0.
#[derive(Drop)]
pub struct World {
    state: State,
}

impl Model for World {
    ghost use Rattle.crp_steps.specs.Worlds.{World as WorldValue};
    ghost use Rattle.crp_steps.specs.Own.{IsHeld};

    ghost Value = { WorldValue };

    ghost view = { λ world. world.state };

    ghost invariant = { λ world. IsHeld world.state };
}

/// The relocations of the first plan; without one, the problem's cap.
fn first_limit(problem: &Problem, first: Option<&Plan>) -> u32
    requires { IfSome first (λ plan. plan.now.problem ≡ problem.now) }
    ensures value { result ≡ start_of problem.now (option_copied first.entry) }
    ensures start { IsStart problem.now result }
    ensures problem { IsProblem problem.now }
{
    let cap = problem.cap();
    match first {
        Some(plan) => plan.count(),
        None => cap,
    }
}

impl World {
    /// The world in which so many workers begin. The limit is the first plan's relocations, or the problem's cap. The root lies in
    /// the deque of worker 0. At most `budget` claims are granted, and a path of more than `split` rows is put into no deque. The error
    /// says that there was no memory.
    pub fn start(
        alloc: Global,
        problem: &Problem,
        workers: u32,
        budget: u64,
        split: u8,
        first: Option<&Plan>,
    ) -> Result<World, AllocError>
        requires first { IfSome first (λ plan. plan.now.problem ≡ problem.now) }
        requires workers { 1 ≤ workers }
        requires budget { budget ≤ 1099511627776 }
        requires split { split ≤ 8 }
        ensures begins { IfOk result
            (λ world. world ≡ begin (record { problem = problem.now; budget = budget; split = split; start = start_of problem.now (option_copied first.entry) }) workers) }
    {
        let limit = first_limit(problem, first);
        let state = State::start(alloc, problem, workers, budget, split, u64::from(limit))?;
        Ok(World { state })
    }

    /// Follows the event, where it is allowed. `NotNow` comes exactly where it leads to no world. After either error the world is as
    /// it was before.
    pub fn apply(&mut self, event: Event<'_>) -> Result<(), Stopped>
        ensures followed { OnOk result (Leads event.entry self.old self.new) }
        ensures not_now { (result ≡ Err Stopped.NotNow) ↔ IsNotNow event.entry self.old }
        ensures same { OnErr result (self.new ≡ self.old) }
    {
        self.state.apply(event)
    }

    /// Follows each of the events where it is allowed, and passes over it where it is not. The error says that there was no memory for
    /// one that was allowed; those before it stand.
    pub fn run(&mut self, events: &[Event<'_>]) -> Result<(), AllocError>
        ensures all { OnOk result (Come events.now self.old self.new) }
        ensures part { OnErr result (ComeInPart events.now self.old self.new) }
    {
        for event in events {
            self.pass(*event)?;
        }
        Ok(())
    }

    /// Follows the event, or passes over it.
    fn pass(&mut self, event: Event<'_>) -> Result<(), AllocError>
        ensures comes { OnOk result (Comes event.entry self.old self.new) }
        ensures allowed { OnErr result (IsNotNow event.entry self.old → ⊥) }
        ensures same { OnErr result (self.new ≡ self.old) }
    {
        match self.apply(event) {
            Ok(()) => Ok(()),
            Err(Stopped::NotNow) => Ok(()),
            Err(Stopped::Memory) => Err(AllocError),
        }
    }

    /// Plans are wanted that have fewer relocations than this.
    pub fn limit(&self) -> u64
        ensures value { result ≡ self.now.limit }
        ensures reached { IsReachedWorld self.now }
        ensures kept { IsKeptWorld self.now }
    {
        self.state.limit()
    }

    /// How many expansions were claimed.
    pub fn spent(&self) -> u64
        ensures value { result ≡ self.now.spent }
        ensures kept { IsKeptWorld self.now }
    {
        self.state.spent()
    }

    /// Whether nothing waits in any deque or hand. Then no plan has fewer relocations than the least leaf; and where no worker was
    /// refused a claim, the limit is the fewest relocations, or the cap where there is no plan.
    pub fn is_closed(&self) -> bool
        ensures closed { IsTrue result ↔ IsClosedWorld self.now }
        ensures shown { IsTrue result → ShowsFewest self.now }
    {
        self.state.is_closed()
    }

    /// The least value of a closed leaf, or the problem's cap where none is below that.
    pub fn least_leaf(&self) -> u32
        ensures value { result ≡ least_leaf_of self.now }
        ensures within_cap { result ≤ cap self.now.rules.problem }
        ensures shown { IsClosedWorld self.now → ShowsFewest self.now }
    {
        self.state.least_leaf()
    }

    /// Whether some worker was refused a claim.
    pub fn was_refused(&self) -> bool
        ensures refused { IsTrue result ↔ SomeRefused self.now }
        ensures kept { IsKeptWorld self.now }
    {
        self.state.was_refused()
    }
}
