//! Workers that take the same steps twice, and events that follow one another.
ghost use Rattle.std.specs.Prelude.{◌≡◌, ◌≤◌, ℕ, List, IfOk};
ghost use Rattle.crp_plan.specs.Bay.{IsProblem};
ghost use Rattle.crp_steps.specs.Worlds.{Rules, AreRules, World as Stated, begin};
ghost use Rattle.crp_steps.specs.Events.{Leads, Come};
ghost use Rattle.crp_steps.specs.Covered.{IsKeptWorld, IsClosedWorld, ShowsFewest};

use crp_plan::Problem;
use crp_steps::{Event, World, every_plan_stays_covered, one_next_world};
use std::alloc::{AllocError, Global};

/// The world to which so many workers come by these events. It is kept: every plan is covered. Where nothing waits in it, it shows the
/// fewest relocations.
pub fn played(
    alloc: Global,
    problem: &Problem,
    workers: u32,
    events: &[Event<'_>],
) -> Result<World, AllocError>
    requires { 1 ≤ workers }
    ensures kept { IfOk result IsKeptWorld }
    ensures shown { IfOk result (λ world. IsClosedWorld world → ShowsFewest world) }
{
    every_plan_stays_covered();
    let _rows = problem.rows();
    let mut world = World::start(alloc, problem, workers, 1000, 2, None)?;
    world.run(events)?;
    Ok(world)
}

/// The same events lead the same workers to the same world.
pub fn played_twice(
    alloc: Global,
    problem: &Problem,
    workers: u32,
    events: &[Event<'_>],
) -> Result<(World, World), AllocError>
    requires { 1 ≤ workers }
    ensures { IfOk result (λ worlds. worlds.0 ≡ worlds.1) }
{
    one_next_world();
    let _rows = problem.rows();
    let mut one = World::start(alloc, problem, workers, 1000, 2, None)?;
    let mut other = World::start(alloc, problem, workers, 1000, 2, None)?;
    one.run(events)?;
    other.run(events)?;
    Ok((one, other))
}

/// Whatever events come to workers that begin, they lead to some world, and every plan is covered in it.
pub fn events_lead_on()
    ensures { (rules : Rules) (workers : ℕ) (events : List Event) → AreRules rules → 1 ≤ workers
        → (last : Stated) × Come events (begin rules workers) last × IsKeptWorld last }
{
    one_next_world();
    every_plan_stays_covered();
}

/// Two events, one after the other, lead to one world at most, and its problem is the same.
pub fn two_events()
    ensures { (one other : Event) (w next last also again : Stated) → IsProblem w.rules.problem → Leads one w next → Leads other next last
        → Leads one w also → Leads other also again → (last ≡ again) × (last.rules.problem ≡ w.rules.problem) }
{
    one_next_world();
}
