//! What the board shows while workers search.
ghost use Rattle.std.specs.Prelude.{◌≡◌};

use crate::bays::{BETTER_THAN_GREEDY, problem_of};
use crate::compare::assert_same;
use crp_incumbent::Board;
use crp_plan::Problem;
use crp_solve::{Gate, Settings, solve};
use crp_tree::Name;
use std::alloc::Global;
use std::sync::Wait;
use std::sync::atomic::{AtomicU64, Ordering};
use std::test::Fail;
use std::thread;
use std::thread::Threads;

// Waits until the flag is set, for a bounded number of turns.
fn wait_for(flag: &AtomicU64) {
    for _ in 0..10_000_000u64 {
        if flag.load(Ordering::SeqCst) != 0 {
            return;
        }
        thread::yield_now();
    }
}

// Holds the first task until the board was looked at.
#[derive(Drop)]
struct Holding {
    begun: AtomicU64,
    looked: AtomicU64,
}

impl Gate for Holding {
    fn begun(&self, _worker: u32, task: &Name) {
        if task.rows().is_empty() {
            self.begun.store(1, Ordering::SeqCst);
            wait_for(&self.looked);
        }
    }
}

// The relocations of the plan that the board shows once the first task has begun.
fn shown_meanwhile<R: Wait>(rt: &R, board: &Board, gate: &Holding) -> Option<u32> {
    wait_for(&gate.begun);
    let count = board.show(rt).map(|plan| plan.count());
    gate.looked.store(1, Ordering::SeqCst);
    count
}

// Searches, and answers whether that ended.
fn is_solved<R: Threads + Wait + Sync>(
    rt: &R,
    alloc: Global,
    problem: &Problem,
    settings: Settings,
    board: &Board,
    gate: &Holding,
) -> bool
    requires { board.now ≡ problem.now }
{
    solve(rt, alloc, problem, settings, board, gate).is_ok()
}

// Searches while another thread looks at the board.
fn look_and_solve<R: Threads + Wait + Sync>(
    rt: &R,
    alloc: Global,
    problem: &Problem,
    settings: Settings,
    board: &Board,
    gate: &Holding,
) -> (Option<u32>, bool)
    requires { board.now ≡ problem.now }
{
    thread::join(
        rt,
        || shown_meanwhile(rt, board, gate),
        || -> bool
            requires { board.now ≡ problem.now }
        { is_solved(rt, alloc, problem, settings, board, gate) },
    )
}

#[test]
fn a_plan_is_shown_while_the_first_task_is_held(rt: HostRuntime) -> Result<(), Fail> {
    let problem = problem_of(rt.alloc(), &BETTER_THAN_GREEDY)?;
    let board = Board::new(&problem);
    let gate = Holding {
        begun: AtomicU64::new(0),
        looked: AtomicU64::new(0),
    };
    let settings = Settings::new(2, 1000000, 1)?;
    let (shown, solved) = look_and_solve(&rt, rt.alloc(), &problem, settings, &board, &gate);
    assert_same(&rt, &(shown, solved), &(Some(4), true));
    let after = board.show(&rt).map(|plan| plan.count());
    assert_same(&rt, &after, &Some(3));
    Ok(())
}
