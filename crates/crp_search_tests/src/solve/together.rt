//! Searches by several workers.
use crate::bays::{BAYS, BETTER_THAN_GREEDY, Bay, FOUR_ROWS, problem_of};
use crate::compare::{assert_at, assert_same, assert_same_at};
use crate::solve::solving::text_of;
use crp_incumbent::Board;
use crp_solve::{Answer, Gate, NoGate, Settings, Solved, solve};
use crp_tree::Name;
use std::alloc::Global;
use std::sync::Wait;
use std::sync::atomic::{AtomicU64, Ordering};
use std::test::Fail;
use std::thread;
use std::thread::Threads;

// What workers answer to the problem of a bay.
pub(super) fn solved_by<R: Threads + Wait + Sync>(
    rt: &R,
    alloc: Global,
    bay: &Bay,
    settings: Settings,
) -> Result<Solved, Fail> {
    let problem = problem_of(alloc, bay)?;
    let board = Board::new(&problem);
    Ok(solve(rt, alloc, &problem, settings, &board, &NoGate)?)
}

// What an answer of several workers begins with, and what it ends with.
pub(super) type Ends = (&'static str, &'static str);

// Whether the text begins and ends so.
pub(super) fn has_ends(text: &str, ends: Ends) -> bool {
    text.starts_with(ends.0) && text.ends_with(ends.1)
}

// The second part ends after the third has lowered the limit, or before; and while a worker waits, the third is given away in parts.
pub(super) const ENDED: Ends = (
    "optimal at least 3, part: XGG, part 2: ",
    ", plan 3 2 1, expanded 3; not asked",
);

// Where the budget ends before the last expansion.
pub(super) const CUT_SHORT: Ends = (
    "between from 3 at least 3, part: XGG, part 2: L, part 3: X",
    ", plan 2 3 1 1, budget, expanded 2; not asked",
);

#[test]
fn workers_end_before_or_after_others(rt: HostRuntime) -> Result<(), Fail> {
    for workers in [2, 3, 64] {
        for (budget, ends) in [(3, ENDED), (2, CUT_SHORT)] {
            let settings = Settings::new(workers, budget, 1)?;
            let solved = solved_by(&rt, rt.alloc(), &BETTER_THAN_GREEDY, settings)?;
            let text = text_of(rt.alloc(), &solved)?;
            let known = has_ends(text.as_str(), ends);
            assert_at(&rt, known, &(workers, text.as_str()));
        }
    }
    Ok(())
}

// A budget, and the one answer of one worker.
const CERTAIN: [(u64, &str); 2] = [
    (
        3,
        "optimal at least 3, part: XGG, part 2: B, part 3: XXBB, plan 3 2 1, expanded 3; not asked",
    ),
    (
        2,
        "between from 3 at least 3, part: XGG, part 2: L, part 3: XBB, plan 2 3 1 1, budget, expanded 2; not asked",
    ),
];

// One worker takes the third part first, as it was put last.
#[test]
fn some_answers_are_the_same_in_each_run(rt: HostRuntime) -> Result<(), Fail> {
    for (budget, answer) in CERTAIN {
        let settings = Settings::new(1, budget, 1)?;
        let solved = solved_by(&rt, rt.alloc(), &BETTER_THAN_GREEDY, settings)?;
        let text = text_of(rt.alloc(), &solved)?;
        assert_same_at(&rt, &text.as_str(), &answer, &budget);
    }
    Ok(())
}

// The fewest relocations, if there is a plan, where the answer is decided.
fn fewest_of(answer: &Answer) -> Option<Option<u32>> {
    match answer {
        Answer::Optimal { plan, .. } => Some(Some(plan.count())),
        Answer::NoPlan { .. } => Some(None),
        Answer::Between { .. } | Answer::First { .. } => None,
    }
}

// Numbers of workers, each with a split.
const TEAMS: [(u32, u8); 6] = [(1, 0), (2, 0), (2, 1), (3, 2), (5, 8), (64, 3)];

#[test]
fn many_workers_answer_as_one(rt: HostRuntime) -> Result<(), Fail> {
    for bay in &BAYS {
        for (workers, split) in TEAMS {
            let settings = Settings::new(workers, 1000000, split)?;
            let solved = solved_by(&rt, rt.alloc(), bay, settings)?;
            let fewest = fewest_of(&solved.answer);
            assert_same_at(&rt, &fewest, &Some(bay.fewest), &(workers, bay.name));
        }
    }
    Ok(())
}

// Counts the tasks that begin.
#[derive(Drop)]
struct Counting {
    tasks: AtomicU64,
}

impl Gate for Counting {
    fn begun(&self, _worker: u32, _task: &Name) {
        self.tasks.fetch_add(1, Ordering::SeqCst);
    }
}

// How many parts the certificate of an answer has.
fn parts_of(answer: &Answer) -> u64 {
    match answer {
        Answer::Optimal { cert, .. } | Answer::First { cert, .. } => cert.parts().len() as u64,
        Answer::NoPlan { cert } | Answer::Between { cert, .. } => cert.parts().len() as u64,
    }
}

#[test]
fn each_part_begins_once(rt: HostRuntime) -> Result<(), Fail> {
    for bay in &BAYS {
        let problem = problem_of(rt.alloc(), bay)?;
        for (workers, split) in TEAMS {
            let gate = Counting {
                tasks: AtomicU64::new(0),
            };
            let board = Board::new(&problem);
            let settings = Settings::new(workers, 1000000, split)?;
            let solved = solve(&rt, rt.alloc(), &problem, settings, &board, &gate)?;
            let parts = parts_of(&solved.answer);
            let tasks = gate.tasks.load(Ordering::SeqCst);
            assert_same_at(&rt, &tasks, &parts, &(workers, bay.name));
        }
    }
    Ok(())
}

// Holds tasks other than the root, the first ones, until so many workers have begun one.
#[derive(Drop)]
pub(super) struct Meeting {
    workers: u32,
    begun_by: AtomicU64,
    tasks: AtomicU64,
    met: AtomicU64,
}

impl Meeting {
    // So many workers are to meet.
    pub(super) fn of(workers: u32) -> Meeting {
        Meeting {
            workers,
            begun_by: AtomicU64::new(0),
            tasks: AtomicU64::new(0),
            met: AtomicU64::new(0),
        }
    }

    // Whether they met.
    pub(super) fn was_held(&self) -> bool {
        self.met.load(Ordering::SeqCst) == 1
    }
}

impl Gate for Meeting {
    fn begun(&self, worker: u32, task: &Name) {
        if task.rows().is_empty() || worker >= 64 {
            return;
        }
        let bit = 1u64 << worker;
        if self.begun_by.load(Ordering::SeqCst) & bit == 0 {
            self.begun_by.fetch_add(bit, Ordering::SeqCst);
        }
        if self.tasks.fetch_add(1, Ordering::SeqCst) >= u64::from(self.workers.saturating_sub(1)) {
            return;
        }
        for _ in 0..1_000_000_000u64 {
            if self.begun_by.load(Ordering::SeqCst).count_ones() >= self.workers {
                self.met.store(1, Ordering::SeqCst);
                return;
            }
            thread::yield_now();
        }
    }
}

// Each of three subtrees is a part of its own.
pub(super) const FOUR_ROWS_IN_PARTS: &str =
    "optimal at least 3, part: XGGG, part 2: L, part 3: B, part 4: B, plan 2 2 1, expanded 1; not asked";

#[test]
fn three_workers_meet(rt: HostRuntime) -> Result<(), Fail> {
    let problem = problem_of(rt.alloc(), &FOUR_ROWS)?;
    let gate = Meeting::of(3);
    let board = Board::new(&problem);
    let settings = Settings::new(3, 1000000, 1)?;
    let solved = solve(&rt, rt.alloc(), &problem, settings, &board, &gate)?;
    assert_same(
        &rt,
        &text_of(rt.alloc(), &solved)?.as_str(),
        &FOUR_ROWS_IN_PARTS,
    );
    assert!(rt; gate.was_held());
    Ok(())
}
