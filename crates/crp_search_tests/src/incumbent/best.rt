//! Which plans are kept, handed out and handed back.
use super::plan_of;
use crate::bays::{BETTER_THAN_GREEDY, SIX, problem_of};
use crate::compare::assert_same_at;
use crp_incumbent::Best;
use crp_plan::Plan;
use std::test::Fail;

fn taken_by(best: &mut Best, plan: Plan) -> Option<Plan> {
    best.take_if_better(plan)
}

fn rows_of(plan: &Option<Plan>) -> Option<&[u8]> {
    match plan {
        Some(plan) => Some(plan.rows()),
        None => None,
    }
}

#[test]
fn the_shorter_plan_is_kept_and_the_other_handed_out(rt: HostRuntime) -> Result<(), Fail> {
    let six = problem_of(rt.alloc(), &SIX)?;
    let others = problem_of(rt.alloc(), &BETTER_THAN_GREEDY)?;
    let four: &[u8] = &[2, 3, 2, 1];
    let three: &[u8] = &[2, 2, 1];
    let three_too: &[u8] = &[3, 2, 1];
    // Whose plan is handed in, its rows, those of the plan that comes out, and those of the plan that is kept.
    let steps = [
        (&others, three_too, Some(three_too), None),
        (&six, four, None, Some(four)),
        (&others, three_too, Some(three_too), Some(four)),
        (&six, three, Some(four), Some(three)),
        (&six, three_too, Some(three_too), Some(three)),
        (&others, three_too, Some(three_too), Some(three)),
    ];
    let mut best = Best::new(&six);
    for (i, (problem, rows, out, kept)) in steps.iter().enumerate() {
        let plan = taken_by(&mut best, plan_of(&rt, problem, rows));
        assert_same_at(&rt, &rows_of(&plan), out, &i);
        assert_same_at(&rt, &rows_of(&best.show(&six)), kept, &i);
    }
    Ok(())
}
