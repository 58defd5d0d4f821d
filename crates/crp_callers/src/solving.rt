//! What the answers of one worker say, and that there are answers.
ghost use Rattle.std.specs.Prelude.{◌≡◌, ℕ, ◌≤◌, ◌<◌, List, All, Option, false, IfOk, IfSome, None, length};
ghost use Rattle.crp_plan.specs.Bay.{Problem as Statement, IsProblem, IsFinished, IsPlan, IsBest, relocations};
ghost use Rattle.crp_plan.specs.Plans.{ProblemPath};
ghost use Rattle.crp_plan.specs.declared.moves.Move.{Move as Step};
ghost use Rattle.crp_tree.specs.Trees.{value, least_through};
ghost use Rattle.crp_tree.specs.Parts.{Certificate, cuts_in, branches_in};
ghost use Rattle.crp_search.specs.Greedy.{IsGreedyPath};
ghost use Rattle.crp_solve.specs.Chosen.{Chosen};
ghost use Rattle.crp_solve.specs.Answers.{path_in, plan_of, best_of, cert_of, count_of, IsPlanOf, SaysTrue, IsTrueAnswer, EachIsBranch};

use crp_plan::{Move, Plan, Problem};
use crp_solve::{
    Answer, Cause, Settings, Solved, answers_agree, each_has_an_answer, one_first_limit,
    solve_alone,
};
use std::alloc::{AllocError, Global};

/// The plan that is known to be a best one, if one is.
fn best_plan(answer: Answer) -> Option<Plan>
    ensures { (p : Statement) → SaysTrue p answer → IfSome result (λ plan. IsPlanOf p plan × IsBest p (length plan.path)) }
{
    match answer {
        Answer::Optimal { plan, cert: _cert } => Some(plan),
        Answer::First { plan, cert: _cert } => Some(plan),
        Answer::NoPlan { cert: _cert } => None,
        Answer::Between {
            lower: _,
            cert: _cert,
            plan: _plan,
            cause: _,
        } => None,
    }
}

/// The moves of a best plan, where one worker knows one: they are legal from the start until all have left that are to leave, and no
/// such moves have fewer relocations.
pub fn best_moves(
    alloc: Global,
    problem: &Problem,
    settings: Settings,
) -> Result<Option<Vec<Move>>, AllocError>
    ensures complete { IfOk result (λ found. IfSome found (λ moves. IsPlan problem.now moves.items)) }
    ensures fewest { IfOk result (λ found. IfSome found (λ moves. (others : List Step) → IsPlan problem.now others
        → relocations moves.items ≤ relocations others)) }
{
    let solved = solve_alone(alloc, problem, settings)?;
    let Some(plan) = best_plan(solved.answer) else {
        return Ok(None);
    };
    let _count = plan.count();
    let moves = plan.moves(alloc)?;
    Ok(Some(moves))
}

/// How many parts the certificate of one worker's answer has.
pub fn parts_of_one(
    alloc: Global,
    problem: &Problem,
    settings: Settings,
) -> Result<usize, AllocError>
    ensures { IfOk result (λ count. count ≡ 1) }
{
    let solved = solve_alone(alloc, problem, settings)?;
    let (Answer::Optimal { cert, .. }
    | Answer::First { cert, .. }
    | Answer::NoPlan { cert }
    | Answer::Between { cert, .. }) = &solved.answer;
    Ok(cert.parts().len())
}

/// Two searches of one problem, whatever is chosen for each. No bound that one shows is above the relocations of a plan that the other
/// gives, and they agree on the fewest relocations, on whether there is a plan, and on the first best plan.
pub fn searched_twice(
    alloc: Global,
    problem: &Problem,
    one: Settings,
    other: Settings,
) -> Result<(Solved, Solved), AllocError>
    ensures bounds { IfOk result (λ r. IfSome (plan_of r.1.answer) (λ path. (cert_of r.0.answer).lower ≤ length path)) }
    ensures one_count { IfOk result
        (λ r. IfSome (best_of r.0.answer) (λ path. IfSome (best_of r.1.answer) (λ other. length path ≡ length other))) }
    ensures no_plan { IfOk result (λ r. (cert : Certificate) → r.0.answer ≡ Answer.NoPlan cert → plan_of r.1.answer ≡ None) }
    ensures one_first { IfOk result (λ r. (plan plan' : ProblemPath) (cert cert' : Certificate) → r.0.answer ≡ Answer.First plan cert
        → r.1.answer ≡ Answer.First plan' cert' → plan ≡ plan') }
{
    answers_agree();
    let first = solve_alone(alloc, problem, one)?;
    let second = solve_alone(alloc, problem, other)?;
    Ok((first, second))
}

/// Where there is a greedy plan, no branch of a certificate that shows a best plan stands where the look-ahead bound reaches the
/// relocations of the greedy one.
pub fn branches_below_greedy()
    ensures { (p : Statement) (budget expanded : ℕ) (plan : ProblemPath) (cert : Certificate) (path : List ℕ) → IsProblem p
        → IsTrueAnswer p budget (Answer.Optimal plan cert) expanded → IsGreedyPath p path
        → All (λ part. All (λ node. least_through node < length path) (branches_in part)) cert.parts }
{
    one_first_limit();
}

/// Where one search ended with its budget, its plan is the best that it met: no leaf of its certificate at which all have left that are to
/// leave has a value below the relocations of the plan.
pub fn best_met(alloc: Global, problem: &Problem, settings: Settings) -> Result<Solved, AllocError>
    requires { settings.deepen ≡ false }
    ensures { IfOk result (λ solved. (lower : ℕ) (cert : Certificate) (plan : Option ProblemPath)
        → solved.answer ≡ Answer.Between lower cert plan Cause.Budget
        → All (λ part. All (λ cut. IsFinished cut.place → count_of problem.now (path_in plan) ≤ value cut) (cuts_in part)) cert.parts) }
{
    solve_alone(alloc, problem, settings)
}

/// Where one search is made, without thinned branches, each expansion is a branch of the certificate.
pub fn each_is_branch(
    alloc: Global,
    problem: &Problem,
    settings: Settings,
) -> Result<Solved, AllocError>
    requires one_search { settings.deepen ≡ false }
    requires plain { settings.thin ≡ 0 }
    ensures { IfOk result (λ solved. EachIsBranch solved.answer solved.expanded) }
{
    solve_alone(alloc, problem, settings)
}

/// Whatever is chosen for a search, the problem has a true answer within that budget: no choice asks for what cannot be.
pub fn some_answer()
    ensures { (p : Statement) (chosen : Chosen) → IsProblem p → (answer : Answer) × (expanded : ℕ) × IsTrueAnswer p chosen.budget answer expanded }
{
    each_has_an_answer();
}
