ghost use Rattle.std.specs.Prelude.{◌≤◌};

use crate::bays::{Bay, ONE_EMPTY, SIX, problem_of};
use crate::compare::{assert_same, assert_same_at};
use crp_plan::Plan;
use crp_steps::{Bound, Event, Kind, Stopped, World};
use std::alloc::{AllocError, Global};
use std::process::Abort;
use std::test::Fail;

/// What a world answers: the limit, how many claims are spent and the least leaf; and whether it is closed, and somebody was refused.
type Shown = ((u64, u64, u32), (bool, bool));

fn shown_by(world: &World) -> Shown {
    let numbers = (world.limit(), world.spent(), world.least_leaf());
    (numbers, (world.is_closed(), world.was_refused()))
}

/// A worker, what it does, whether that is allowed then, and what the world answers after it.
type Step = (u32, Kind<'static>, bool, Shown);

const OPEN: (bool, bool) = (false, false);

const CLOSED: (bool, bool) = (true, false);

const REFUSED: (bool, bool) = (false, true);

const REFUSED_AND_CLOSED: (bool, bool) = (true, true);

const BY_BLOCKING: Kind<'static> = Kind::Leaf {
    bound: Bound::Blocking,
};

const BY_LOOK_AHEAD: Kind<'static> = Kind::Leaf {
    bound: Bound::LookAhead,
};

/// Three relocations, and symbols that show two at the root of SIX: 4 goes to the one row where it is well placed, and 5 still blocks.
const BY_TOO_FEW: Kind<'static> = Kind::Leaf {
    bound: Bound::Reasons {
        number: 3,
        text: b"RBB",
    },
};

/// Three relocations, and symbols that break off.
const BY_HALF_A_TREE: Kind<'static> = Kind::Leaf {
    bound: Bound::Reasons {
        number: 3,
        text: b"RL",
    },
};

/// Two relocations, and symbols that show three at the root of SIX: below the one row where 4 is well placed 5 has to block again.
const BY_TWO: Kind<'static> = Kind::Leaf {
    bound: Bound::Reasons {
        number: 2,
        text: b"RLB",
    },
};

const BY_THREE: Kind<'static> = Kind::Leaf {
    bound: Bound::Reasons {
        number: 3,
        text: b"RLB",
    },
};

const BY_FOUR: Kind<'static> = Kind::Leaf {
    bound: Bound::Reasons {
        number: 4,
        text: b"RLB",
    },
};

/// A bay, the path of its first plan if one is given, how it is searched, and the steps.
#[derive(Clone, Copy)]
struct Search {
    bay: Bay,
    plan: Option<&'static [u8]>,
    workers: u32,
    budget: u64,
    split: u8,
    steps: &'static [Step],
}

const SHARED_BY_TWO: Search = Search {
    bay: SIX,
    plan: Some(&[2, 2, 1]),
    workers: 2,
    budget: 2,
    split: 1,
    steps: &[
        (0, Kind::Take, true, ((3, 0, 13), OPEN)),
        (0, Kind::Claim, true, ((3, 1, 13), OPEN)),
        (0, Kind::Put { index: 0 }, true, ((3, 1, 13), OPEN)),
        (1, Kind::Steal { victim: 0 }, true, ((3, 1, 13), OPEN)),
        (1, BY_BLOCKING, true, ((3, 1, 3), OPEN)),
        (1, Kind::Finish, true, ((3, 1, 3), OPEN)),
        (0, BY_BLOCKING, false, ((3, 1, 3), OPEN)),
        (0, BY_LOOK_AHEAD, true, ((3, 1, 3), CLOSED)),
        (0, Kind::Finish, true, ((3, 1, 3), CLOSED)),
    ],
};

const REFUSED_ONCE: Search = Search {
    bay: SIX,
    plan: None,
    workers: 1,
    budget: 0,
    split: 1,
    steps: &[
        (0, Kind::Take, true, ((13, 0, 13), OPEN)),
        (0, Kind::Claim, true, ((13, 1, 13), REFUSED)),
        (0, Kind::Claim, false, ((13, 1, 13), REFUSED)),
        (0, Kind::Try, false, ((13, 1, 13), REFUSED)),
        (0, BY_BLOCKING, true, ((13, 1, 2), REFUSED_AND_CLOSED)),
        (0, Kind::Finish, true, ((13, 1, 2), REFUSED_AND_CLOSED)),
    ],
};

const CLOSED_BY_REASONS: Search = Search {
    bay: SIX,
    plan: Some(&[2, 2, 1]),
    workers: 2,
    budget: 1,
    split: 0,
    steps: &[
        (0, Kind::Try, false, ((3, 0, 13), OPEN)),
        (0, Kind::Take, true, ((3, 0, 13), OPEN)),
        (0, Kind::Try, true, ((3, 1, 13), OPEN)),
        (0, BY_TOO_FEW, false, ((3, 1, 13), OPEN)),
        (0, BY_HALF_A_TREE, false, ((3, 1, 13), OPEN)),
        (0, BY_FOUR, false, ((3, 1, 13), OPEN)),
        (0, BY_TWO, false, ((3, 1, 13), OPEN)),
        (0, BY_THREE, true, ((3, 1, 3), CLOSED)),
        (0, Kind::Finish, true, ((3, 1, 3), CLOSED)),
    ],
};

const REFUSED_A_TRY: Search = Search {
    bay: SIX,
    plan: None,
    workers: 1,
    budget: 0,
    split: 0,
    steps: &[
        (0, Kind::Take, true, ((13, 0, 13), OPEN)),
        (0, Kind::Try, true, ((13, 1, 13), REFUSED)),
        (0, Kind::Claim, false, ((13, 1, 13), REFUSED)),
        (0, BY_FOUR, false, ((13, 1, 13), REFUSED)),
        (0, BY_TWO, true, ((13, 1, 2), REFUSED_AND_CLOSED)),
    ],
};

const OFFERED_AND_CLOSED: Search = Search {
    bay: ONE_EMPTY,
    plan: None,
    workers: 2,
    budget: 9,
    split: 0,
    steps: &[
        (0, Kind::Claim, false, ((3, 0, 3), OPEN)),
        (0, BY_LOOK_AHEAD, false, ((3, 0, 3), OPEN)),
        (0, Kind::Offer, false, ((3, 0, 3), OPEN)),
        (0, Kind::Finish, false, ((3, 0, 3), OPEN)),
        (0, Kind::Put { index: 0 }, false, ((3, 0, 3), OPEN)),
        (0, Kind::Steal { victim: 0 }, false, ((3, 0, 3), OPEN)),
        (0, Kind::Steal { victim: 2 }, false, ((3, 0, 3), OPEN)),
        (1, Kind::Take, false, ((3, 0, 3), OPEN)),
        (2, Kind::See, false, ((3, 0, 3), OPEN)),
        (0, Kind::See, true, ((3, 0, 3), OPEN)),
        (0, Kind::Take, true, ((3, 0, 3), OPEN)),
        (0, Kind::Take, false, ((3, 0, 3), OPEN)),
        (1, Kind::Steal { victim: 0 }, false, ((3, 0, 3), OPEN)),
        (0, Kind::Finish, false, ((3, 0, 3), OPEN)),
        (0, Kind::Offer, false, ((3, 0, 3), OPEN)),
        (0, BY_BLOCKING, false, ((3, 0, 3), OPEN)),
        (0, Kind::Claim, true, ((3, 1, 3), OPEN)),
        (0, Kind::Claim, false, ((3, 1, 3), OPEN)),
        (0, Kind::Try, false, ((3, 1, 3), OPEN)),
        (0, Kind::Put { index: 0 }, false, ((3, 1, 3), OPEN)),
        (0, Kind::Put { index: 1 }, false, ((3, 1, 3), OPEN)),
        (0, BY_BLOCKING, false, ((3, 1, 3), OPEN)),
        (0, Kind::Offer, true, ((1, 1, 3), OPEN)),
        (0, BY_BLOCKING, true, ((1, 1, 1), CLOSED)),
        (0, Kind::Finish, true, ((1, 1, 1), CLOSED)),
    ],
};

/// Applies the events one by one, and compares.
fn follow(rt: &impl Abort, world: &mut World, steps: &[Step]) {
    for (i, (worker, kind, allowed, after)) in steps.iter().enumerate() {
        let applied = world.apply(Event {
            worker: *worker,
            kind: *kind,
        });
        let want = if *allowed {
            Ok(())
        } else {
            Err(Stopped::NotNow)
        };
        assert_same_at(rt, &applied, &want, &i);
        assert_same_at(rt, &shown_by(world), after, &i);
    }
}

/// Runs all the events at once.
fn run_at_once(alloc: Global, world: &mut World, steps: &[Step]) -> Result<(), AllocError> {
    let mut events = Vec::new(alloc);
    for (worker, kind, _, _) in steps {
        events.push(Event {
            worker: *worker,
            kind: *kind,
        })?;
    }
    world.run(&events)
}

fn begin(alloc: Global, search: &Search) -> Result<World, Fail>
    requires workers { 1 ≤ search.now.workers }
    requires budget { search.now.budget ≤ 9 }
    requires split { search.now.split ≤ 8 }
{
    let problem = problem_of(alloc, &search.bay)?;
    let (workers, budget, split) = (search.workers, search.budget, search.split);
    let Some(rows) = search.plan else {
        return Ok(World::start(alloc, &problem, workers, budget, split, None)?);
    };
    let plan = Plan::from_rows(&problem, rows)?;
    Ok(World::start(alloc, &problem, workers, budget, split, Some(&plan))?)
}

/// The steps lead as they should, one by one and all at once.
fn assert_search(rt: &(impl Abort + AllocGlobal), search: &Search) -> Result<(), Fail> {
    assert!(rt; search.workers >= 1 && search.budget <= 9 && search.split <= 8);
    follow(rt, &mut begin(rt.alloc(), search)?, search.steps);
    let mut world = begin(rt.alloc(), search)?;
    run_at_once(rt.alloc(), &mut world, search.steps)?;
    let (_, _, _, after) = search.steps.last().ok_or("there are no events")?;
    assert_same(rt, &shown_by(&world), after);
    Ok(())
}

#[test]
fn worked_searches_step_by_step(rt: HostRuntime) -> Result<(), Fail> {
    for search in [
        SHARED_BY_TWO,
        REFUSED_ONCE,
        CLOSED_BY_REASONS,
        REFUSED_A_TRY,
        OFFERED_AND_CLOSED,
    ] {
        assert_search(&rt, &search)?;
    }
    Ok(())
}
