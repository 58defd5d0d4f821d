//! What a board shows.
use super::plan_of;
use crate::bays::{BETTER_THAN_GREEDY, SIX, problem_of};
use crate::compare::assert_same;
use crp_incumbent::Board;
use crp_plan::{Plan, Problem};
use std::process::Abort;
use std::sync::Wait;
use std::test::Fail;

fn rows_of(plan: &Option<Plan>) -> Option<&[u8]> {
    match plan {
        Some(plan) => Some(plan.rows()),
        None => None,
    }
}

/// Posts the plan with these rows; the board then shows that with those.
fn posts(
    rt: &(impl Wait + Abort),
    board: &Board,
    problem: &Problem,
    rows: &[u8],
    shown: Option<&[u8]>,
) {
    board.post(rt, &plan_of(rt, problem, rows));
    assert_same(rt, &rows_of(&board.show(rt)), &shown);
}

#[test]
fn the_plan_with_fewer_relocations_is_shown(rt: HostRuntime) -> Result<(), Fail> {
    let six = problem_of(rt.alloc(), &SIX)?;
    let others = problem_of(rt.alloc(), &BETTER_THAN_GREEDY)?;
    let four: &[u8] = &[2, 3, 2, 1];
    let three: &[u8] = &[2, 2, 1];
    let three_too: &[u8] = &[3, 2, 1];
    let foreign: &[u8] = &[2, 3, 1, 1];
    let posted = [
        (&others, foreign, None),
        (&six, four, Some(four)),
        (&six, three, Some(three)),
        (&six, three_too, Some(three)),
        (&six, four, Some(three)),
        (&others, foreign, Some(three)),
    ];
    let board = Board::new(&six);
    assert_same(&rt, &rows_of(&board.show(&rt)), &None);
    for (problem, rows, shown) in posted {
        posts(&rt, &board, problem, rows, shown);
    }
    assert_same(&rt, &board.problem().tiers(), &3);
    Ok(())
}
