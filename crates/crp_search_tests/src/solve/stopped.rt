//! Searches that a gate stops.
use crate::bays::{BETTER_THAN_GREEDY, problem_of};
use crate::compare::{assert_at, assert_same_at};
use crate::solve::solving::text_of;
use crp_incumbent::Board;
use crp_solve::{Answer, Cause, Gate, Settings, Solved, TimeLimits, solve};
use crp_tree::Name;
use std::alloc::Global;
use std::sync::Wait;
use std::sync::atomic::{AtomicU64, Ordering};
use std::test::Fail;
use std::thread::Threads;

// Stops searches from the question of this number on.
#[derive(Drop)]
struct Stopping {
    asked: AtomicU64,
    from: u64,
}

impl Gate for Stopping {
    ghost use Rattle.std.specs.Prelude.{⊤};

    ghost may_stop = { λ _. ⊤ };

    fn begun(&self, _worker: u32, _task: &Name) {}

    fn stops(&self) -> bool {
        self.asked.fetch_add(1, Ordering::SeqCst) >= self.from.saturating_sub(1)
    }
}

// A limit of time, which this gate does not look at.
const TIMED: TimeLimits = TimeLimits {
    bay: Some(1),
    all: None,
    stop: false,
};

// What workers answer whom the gate stops from this question on.
fn stopped_from<R: Threads + Wait + Sync>(
    rt: &R,
    alloc: Global,
    settings: Settings,
    from: u64,
) -> Result<Solved, Fail> {
    let problem = problem_of(alloc, &BETTER_THAN_GREEDY)?;
    let board = Board::new(&problem);
    let gate = Stopping {
        asked: AtomicU64::new(0),
        from,
    };
    Ok(solve(rt, alloc, &problem, settings, &board, &gate)?)
}

// From which question on the one worker is stopped, and its answer. It asks at the root, and at the third part, which is taken before
// the second; that needs no claim once the third has its plan.
const STOPPED: [(u64, &str); 3] = [
    (
        1,
        "between from 3 at least 3, part: L, plan 2 3 1 1, time, expanded 0; not asked",
    ),
    (
        2,
        "between from 3 at least 3, part: XGG, part 2: L, part 3: B, plan 2 3 1 1, time, expanded 1; not asked",
    ),
    (
        3,
        "optimal at least 3, part: XGG, part 2: B, part 3: XXBB, plan 3 2 1, expanded 3; not asked",
    ),
];

#[test]
fn what_is_known_then_is_answered(rt: HostRuntime) -> Result<(), Fail> {
    for (from, answer) in STOPPED {
        let settings = Settings::new(1, 1000000, 1)?.with_time(TIMED);
        let solved = stopped_from(&rt, rt.alloc(), settings, from)?;
        let text = text_of(rt.alloc(), &solved)?;
        assert_same_at(&rt, &text.as_str(), &answer, &from);
    }
    Ok(())
}

// Only a timed search asks; and the search for the first best plan is stopped for itself.
#[test]
fn the_first_best_plan_is_given_up(rt: HostRuntime) -> Result<(), Fail> {
    let settings = Settings::new(1, 1000000, 1)?.with_first();
    for (settings, ended) in [(settings, "done"), (settings.with_time(TIMED), "time")] {
        let solved = stopped_from(&rt, rt.alloc(), settings, 3)?;
        let text = text_of(rt.alloc(), &solved)?;
        assert_at(&rt, text.as_str().ends_with(ended), &(ended, text.as_str()));
    }
    Ok(())
}

// Whether it is the bound of three relocations with a plan that has one more, or a best plan.
fn is_known(answer: &Answer) -> bool {
    match answer {
        Answer::Optimal { plan, .. } => plan.count() == 3,
        Answer::Between {
            lower,
            plan: Some(plan),
            cause: Cause::Time,
            ..
        } => *lower == 3 && plan.count() == 4,
        _ => false,
    }
}

#[test]
fn many_workers_are_stopped(rt: HostRuntime) -> Result<(), Fail> {
    for workers in [2, 3, 64] {
        for from in 1..6 {
            let settings = Settings::new(workers, 1000000, 8)?.with_time(TIMED);
            let solved = stopped_from(&rt, rt.alloc(), settings, from)?;
            let text = text_of(rt.alloc(), &solved)?;
            assert_at(&rt, is_known(&solved.answer), &(from, text.as_str()));
        }
    }
    Ok(())
}
