ghost use Rattle.std.specs.Prelude.{◌≡◌, ◌<◌, ◌≤◌, IfSome};

use crate::bays::{BAYS, Bay, MORE_BAYS, problem_of};
use crate::compare::assert_same;
use crp_plan::{Plan, Problem};
use crp_search::first_plan;
use crp_steps::{Bound, Event, Kind, World};
use std::alloc::{AllocError, Global};
use std::process::Abort;
use std::test::Fail;

/// Numbers from a fixed source, well enough spread for a test.
#[derive(Drop)]
struct Numbers {
    state: u64,
}

impl Numbers {
    fn below(&mut self, end: u32) -> u32
        requires { 1 ≤ end }
        ensures { result < end }
    {
        self.state = self
            .state
            .wrapping_mul(6_364_136_223_846_793_005)
            .wrapping_add(1_442_695_040_888_963_407);
        (self.state >> 40) as u32 % end
    }

    /// One more worker than there are may be named, and paths that are not in a hand.
    fn event(&mut self, workers: u32) -> Event<'static>
        requires { workers ≤ 4 }
    {
        let worker = self.below(workers + 1);
        let kind = match self.below(13) {
            0 => Kind::See,
            1 => Kind::Take,
            2 => Kind::Steal {
                victim: self.below(workers + 1),
            },
            3 => Kind::Put {
                index: self.below(4),
            },
            4 => Kind::Offer,
            5 => Kind::Finish,
            6 | 7 => Kind::Claim,
            8 => Kind::Try,
            9 | 10 => Kind::Leaf {
                bound: Bound::Blocking,
            },
            _ => Kind::Leaf {
                bound: Bound::LookAhead,
            },
        };
        Event { worker, kind }
    }
}

/// Runs events by chance until the world is closed.
fn close(
    rt: &impl Abort,
    numbers: &mut Numbers,
    world: &mut World,
    workers: u32,
) -> Result<(), AllocError>
    requires { workers ≤ 4 }
{
    for _ in 0..10_000_000u32 {
        if world.is_closed() {
            return Ok(());
        }
        world.run(&[numbers.event(workers)])?;
    }
    panic!(rt; "the world is still open")
}

/// Closes a world of so many workers, which then shows the fewest relocations.
fn shows(
    rt: &impl Abort,
    alloc: Global,
    numbers: &mut Numbers,
    problem: &Problem,
    workers: u32,
    first: Option<&Plan>,
    want: u32,
) -> Result<(), AllocError>
    requires some { 1 ≤ workers }
    requires few { workers ≤ 4 }
    requires first { IfSome first (λ plan. plan.now.problem ≡ problem.now) }
{
    let mut world = World::start(alloc, problem, workers, 1_000_000, 2, first)?;
    close(rt, numbers, &mut world, workers)?;
    assert!(rt; !world.was_refused());
    assert_same(rt, &world.limit(), &u64::from(want));
    assert_same(rt, &world.least_leaf(), &want);
    Ok(())
}

/// Closes worlds of one worker to four, which begin at the cap and at the first plan. Where there is no plan, they show the cap.
fn agrees(rt: &(impl Abort + AllocGlobal), numbers: &mut Numbers, bay: &Bay) -> Result<(), Fail> {
    let problem = problem_of(rt.alloc(), bay)?;
    let want = bay.fewest.unwrap_or(problem.cap());
    let first = first_plan(&problem);
    for workers in 1..5u32 {
        shows(rt, rt.alloc(), numbers, &problem, workers, None, want)?;
        shows(
            rt,
            rt.alloc(),
            numbers,
            &problem,
            workers,
            first.as_ref(),
            want,
        )?;
    }
    Ok(())
}

#[test]
fn events_by_chance_find_the_fewest(rt: HostRuntime) -> Result<(), Fail> {
    let mut numbers = Numbers { state: 2012 };
    for bay in &BAYS {
        agrees(&rt, &mut numbers, bay)?;
    }
    for bay in &MORE_BAYS {
        agrees(&rt, &mut numbers, bay)?;
    }
    Ok(())
}
