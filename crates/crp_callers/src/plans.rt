//! Which of two plans is kept, and for whom.
ghost use Rattle.std.specs.Prelude.{◌≡◌, ◌≢◌, ◌<◌, ◌≤◌, Some, None, length};

use crp_incumbent::Best;
use crp_plan::{Plan, Problem};

/// Two plans of one problem, the shorter one first. Of two that are as short each stays where it is.
pub fn shorter_first(one: Plan, other: Plan) -> (Plan, Plan)
    requires { one.problem ≡ other.problem }
    ensures turned { length other.path < length one.path → (result.0 ≡ other) × (result.1 ≡ one) }
    ensures stays { length one.path ≤ length other.path → (result.0 ≡ one) × (result.1 ≡ other) }
{
    let problem = one.problem().copy();
    let mut best = Best::new(&problem);
    let _none = best.take_if_better(one);
    let Some(longer) = best.take_if_better(other) else {
        unreachable!()
    };
    let Some(shorter) = best.show(&problem) else {
        unreachable!()
    };
    (shorter, longer)
}

/// What is handed back where a plan is offered for a problem, and what is shown for it then. A plan of another problem is handed back,
/// and nothing is shown.
pub fn offered_and_shown(problem: &Problem, plan: Plan) -> (Option<Plan>, Option<Plan>)
    ensures own { plan.problem ≡ problem.now → (result.0 ≡ None) × (result.1 ≡ Some plan) }
    ensures foreign { plan.problem ≢ problem.now → (result.0 ≡ Some plan) × (result.1 ≡ None) }
{
    let mut best = Best::new(problem);
    let back = best.take_if_better(plan);
    let shown = best.show(problem);
    (back, shown)
}

/// A plan that is kept for one problem is not shown for another.
pub fn shown_for_another(plan: Plan, problem: &Problem) -> Option<Plan>
    requires { plan.problem ≢ problem.now }
    ensures { result ≡ None }
{
    let mut best = Best::new(plan.problem());
    let _none = best.take_if_better(plan);
    best.show(problem)
}

/// A plan of another problem does not stand in the way of a plan of this one.
pub fn shown_after_another(problem: &Problem, another: Plan, own: Plan) -> Option<Plan>
    requires another { another.problem ≢ problem.now }
    requires own { own.problem ≡ problem.now }
    ensures { result ≡ Some own }
{
    let mut best = Best::new(problem);
    let _back = best.take_if_better(another);
    let _none = best.take_if_better(own);
    best.show(problem)
}
