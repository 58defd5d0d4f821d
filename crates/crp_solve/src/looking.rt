//! A look at a problem: the answer that one worker finds, where it finds one within so many expansions.
ghost use Rattle.std.specs.Prelude.{◌≡◌, ◌≤◌, true, IfSome};
ghost use Rattle.crp_solve.specs.Solved.{IsSolved, SpendsWithin, WasStopped};

use crate::answer::{Answer, Cause, Second, Solved};
use crate::settings::Settings;
use crate::solver::solve;
use crate::workers::common::{Gate, Quiet};
use crp_incumbent::Board;
use crp_plan::Problem;
use std::alloc::Global;
use std::sync::Wait;
use std::thread::Threads;

/// Whether an answer within the first budget is one within the second: they are one, or no search spent all of the first.
fn serves(solved: &Solved, few: u64, budget: u64) -> bool
    requires { few ≤ budget }
    ensures { result ≡ true → SpendsWithin few budget solved.now.expanded × SpendsWithin few budget solved.now.second_expanded }
{
    few == budget || (solved.expanded < few && solved.second_expanded < few)
}

/// Whether memory ran out in a search.
fn ran_short(solved: &Solved) -> bool {
    let of_first = matches!(
        solved.answer,
        Answer::Between {
            cause: Cause::Memory,
            ..
        }
    );
    of_first || solved.second == Second::Memory
}

/// What one worker answers within so many expansions a search, where that is an answer for the whole budget; none where it takes more, or
/// memory ran out. So a caller with many problems may have a worker look at each. The gate hears nothing, but may stop it.
pub fn look<R: Threads + Wait + Sync, G: Gate + Sync>(
    rt: &R,
    alloc: Global,
    problem: &Problem,
    settings: Settings,
    most: u64,
    gate: &G,
) -> Option<Solved>
    ensures solved { IfSome result (IsSolved problem.now settings) }
    ensures stops { IfSome result (λ solved. WasStopped solved → G.may_stop gate.now) }
{
    let few = settings.for_one(settings.budget().min(most));
    let board = Board::new(problem);
    let quiet = Quiet::of(gate);
    let Ok(solved) = solve(rt, alloc, problem, few, &board, &quiet) else {
        return None;
    };
    if ran_short(&solved) || !serves(&solved, few.budget(), settings.budget()) {
        return None;
    }
    Some(solved)
}
