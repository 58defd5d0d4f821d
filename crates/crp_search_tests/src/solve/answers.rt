//! How searches end, for the fewest relocations and for the first of all best plans.
use crate::bays::{
    BETTER_THAN_GREEDY, Bay, FOUR, FULL, FULL_AND_LOW, IN_ORDER, LOW_IN_THE_MIDDLE, ONE_EMPTY,
    ONE_ROW, SIX, UnequalBay, problem_of, unequal_problem_of,
};
use crate::compare::assert_same_at;
use crate::solve::solving::text_of;
use crate::solve::together::solved_by;
use crp_solve::{Settings, Solved, solve_alone};
use std::alloc::Global;
use std::process::Abort;
use std::test::Fail;

// What one worker answers that shares nothing.
fn solved_alone(alloc: Global, bay: &Bay, settings: Settings) -> Result<Solved, Fail> {
    let problem = problem_of(alloc, bay)?;
    Ok(solve_alone(alloc, &problem, settings)?)
}

// A bay, a budget, whether the first best plan is asked for, what is answered where nothing is given away, and how many more expansions
// the second search takes, where it is known.
type Case = (Bay, u64, bool, &'static str, Option<u64>);

const CASES: [Case; 14] = [
    (
        ONE_EMPTY,
        1000000,
        false,
        "optimal at least 1, part: B, plan 2, expanded 0; not asked",
        Some(0),
    ),
    (
        IN_ORDER,
        1000000,
        false,
        "optimal at least 0, part: B, plan, expanded 0; not asked",
        Some(0),
    ),
    (
        ONE_ROW,
        1000000,
        false,
        "no plan at least 5, part: X, expanded 1; not asked",
        Some(0),
    ),
    (
        BETTER_THAN_GREEDY,
        0,
        false,
        "between from 3 at least 3, part: L, plan 2 3 1 1, budget, expanded 0; not asked",
        Some(0),
    ),
    (
        BETTER_THAN_GREEDY,
        1,
        false,
        "between from 3 at least 3, part: XLB, plan 2 3 1 1, budget, expanded 1; not asked",
        Some(0),
    ),
    (
        BETTER_THAN_GREEDY,
        2,
        false,
        "between from 3 at least 3, part: XLXBB, plan 2 3 1 1, budget, expanded 2; not asked",
        Some(0),
    ),
    (
        FOUR,
        2,
        true,
        "first at least 2, part: XXBBB, plan 2 1, expanded 0; done",
        Some(2),
    ),
    (
        FOUR,
        1,
        true,
        "optimal at least 2, part: L, plan 3 1, expanded 0; budget",
        Some(1),
    ),
    (
        FOUR,
        1000000,
        false,
        "optimal at least 2, part: L, plan 3 1, expanded 0; not asked",
        Some(0),
    ),
    (
        SIX,
        1000000,
        true,
        "first at least 3, part: XXXBBBB, plan 2 2 1, expanded 1; done",
        None,
    ),
    (
        SIX,
        0,
        true,
        "between from 2 at least 2, part: B, plan 2 2 1, budget, expanded 0; not asked",
        Some(0),
    ),
    (
        BETTER_THAN_GREEDY,
        1000000,
        true,
        "first at least 3, part: XLXXBB, plan 3 2 1, expanded 3; done",
        None,
    ),
    (
        BETTER_THAN_GREEDY,
        3,
        false,
        "optimal at least 3, part: XLXXBB, plan 3 2 1, expanded 3; not asked",
        Some(0),
    ),
    (
        FULL,
        1000000,
        true,
        "no plan at least 5, part: X, expanded 1; not asked",
        Some(0),
    ),
];

fn settings_of(rt: &impl Abort, workers: u32, budget: u64, split: u8, first: bool) -> Settings {
    let settings = Settings::new(workers, budget, split).expect(rt, "settings");
    if first {
        settings.with_first()
    } else {
        settings
    }
}

fn assert_solved(
    rt: &(impl Abort + AllocGlobal),
    solved: &Solved,
    answer: &str,
    more: Option<u64>,
) -> Result<(), Fail> {
    let text = text_of(rt.alloc(), solved)?;
    assert_same_at(rt, &text.as_str(), &answer, &"the answer");
    if let Some(more) = more {
        assert_same_at(rt, &solved.second_expanded, &more, &answer);
    }
    Ok(())
}

// For one worker that shares nothing, workers and split change nothing.
#[test]
fn answers_alone(rt: HostRuntime) -> Result<(), Fail> {
    for (bay, budget, first, answer, more) in CASES {
        for (workers, split) in [(1, 0), (64, 8)] {
            let settings = settings_of(&rt, workers, budget, split, first);
            let solved = solved_alone(rt.alloc(), &bay, settings)?;
            assert_solved(&rt, &solved, answer, more)?;
        }
    }
    Ok(())
}

#[test]
fn answers_of_several_workers(rt: HostRuntime) -> Result<(), Fail> {
    for (bay, budget, first, answer, more) in CASES {
        for workers in [1, 2, 64] {
            let settings = settings_of(&rt, workers, budget, 0, first);
            let solved = solved_by(&rt, rt.alloc(), &bay, settings)?;
            assert_solved(&rt, &solved, answer, more)?;
        }
    }
    Ok(())
}

// A bay whose rows have a height each, and what is answered.
const UNEQUAL: [(UnequalBay, &str); 2] = [
    (
        LOW_IN_THE_MIDDLE,
        "optimal at least 2, part: L, plan 3 1, expanded 0; not asked",
    ),
    (
        FULL_AND_LOW,
        "no plan at least 4, part: X, expanded 1; not asked",
    ),
];

// What one worker answers that shares nothing.
fn unequal_solved(alloc: Global, bay: &UnequalBay, settings: Settings) -> Result<Solved, Fail> {
    let problem = unequal_problem_of(alloc, bay)?;
    Ok(solve_alone(alloc, &problem, settings)?)
}

#[test]
fn answers_under_unequal_heights(rt: HostRuntime) -> Result<(), Fail> {
    for (bay, answer) in UNEQUAL {
        let settings = settings_of(&rt, 1, 1000000, 0, false);
        let solved = unequal_solved(rt.alloc(), &bay, settings)?;
        assert_solved(&rt, &solved, answer, Some(0))?;
    }
    Ok(())
}

// By a limit that rises: a budget, and what is answered for a bay whose look-ahead bound is three and whose greedy plan has four
// relocations.
const DEEPENED: [(u64, &str); 3] = [
    (
        0,
        "between from 3 at least 3, part: L, plan 2 3 1 1, budget, expanded 0; not asked",
    ),
    (
        2,
        "between from 3 at least 3, part: L, plan 2 3 1 1, budget, expanded 2; not asked",
    ),
    (
        1000000,
        "optimal at least 3, part: L, plan 3 2 1, expanded 3; not asked",
    ),
];

#[test]
fn answers_by_deepening(rt: HostRuntime) -> Result<(), Fail> {
    for (budget, answer) in DEEPENED {
        let settings = settings_of(&rt, 1, budget, 0, false).with_deepening(true);
        let solved = solved_alone(rt.alloc(), &BETTER_THAN_GREEDY, settings)?;
        assert_solved(&rt, &solved, answer, None)?;
        let solved = solved_by(&rt, rt.alloc(), &BETTER_THAN_GREEDY, settings)?;
        assert_solved(&rt, &solved, answer, None)?;
    }
    Ok(())
}
