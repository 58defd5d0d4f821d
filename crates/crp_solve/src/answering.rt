//! The answer that searches show.
ghost use Rattle.std.specs.Prelude.{◌≡◌, ℕ, ◌≤◌, true, false, [], IfOk, IfErr, Option, min, length};
ghost use Rattle.std.specs.Result.{IsOkAnd};
ghost use Rattle.crp_plan.specs.Plans.{ProblemPath};
ghost use Rattle.crp_plan.specs.Bay.{IsProblem, start, cap};
ghost use Rattle.crp_bay.specs.Positions.{settled};
ghost use Rattle.crp_bounds.specs.Bounds.{look_ahead as look_ahead_bound};
ghost use Rattle.crp_tree.specs.Parts.{given_of, IsKeptPart};
ghost use Rattle.crp_solve.specs.Answers.{path_in, plan_of, cert_of, branches_of, count_of as count_or_cap, IsCut, IsOneCut, IsTrueAnswer, EachIsBranch, cause_by, IsOfFirstPart, IsOutOfMemory, HasNoSecond};
ghost use Rattle.crp_solve.specs.Chosen.{Chosen};
ghost use Rattle.crp_solve.specs.Desks.{count_or as count_or_limit};
ghost use Rattle.crp_solve.specs.Rounds.{AreSearched};
ghost use Rattle.crp_solve.specs.Solved.{known_by, ComesOf, IsFirstPart};
ghost use Rattle.crp_solve.specs.Searches.{IsBestMet, IsShown, AreEnded, IsLost};

use crate::answer::{Answer, Cause, Second, Solved};
use crate::end::{Lost, Together};
use crp_bay::Position;
use crp_bounds::look_ahead;
use crp_plan::{Plan, Problem};
use crp_row::{Kind, Row};
use crp_tree::{Cert, Name, Part, Tree};
use std::alloc::{AllocError, Global};

/// The relocations of the plan; where there is none, the cap.
pub fn count_of(problem: &Problem, best: &Option<Plan>) -> u32
    ensures value { result ≡ count_or_cap problem.now (path_in best.now) }
    ensures problem { IsProblem problem.now }
{
    let cap = problem.cap();
    match best {
        Some(plan) => plan.count(),
        None => cap,
    }
}

/// The relocations of the plan; where there is none, this limit.
pub(crate) fn count_or(first: u32, best: &Option<Plan>) -> u32
    ensures { result ≡ count_or_limit first (path_in best.now) }
{
    match best {
        Some(plan) => plan.count(),
        None => first,
    }
}

/// Why searches ended before the bound reached the plan.
fn cause_by(stopped: bool) -> Cause
    ensures { result ≡ cause_by stopped }
{
    if stopped { Cause::Time } else { Cause::Budget }
}

/// The answer where searches have ended with this certificate, and this is the best plan that is known.
fn answer_of_ended(problem: &Problem, cert: Cert, best: Option<Plan>, stopped: bool) -> Answer
    ensures cert { cert_of result ≡ cert }
    ensures first_part { IsOfFirstPart result }
    ensures true_answer { (budget expanded : ℕ) → AreEnded problem.now budget cert best expanded stopped → IsTrueAnswer problem.now budget result expanded }
    ensures comes { (c : Chosen) (expanded : ℕ) → AreSearched problem.now c (known_by cert best expanded stopped) → ComesOf problem.now c result expanded stopped }
    ensures plan { plan_of result ≡ path_in best }
    ensures one_search { (expanded : ℕ) → expanded ≡ branches_of cert → EachIsBranch result expanded }
{
    let lower = cert.lower();
    if lower < count_of(problem, &best) {
        return Answer::Between {
            lower,
            cert,
            plan: best,
            cause: cause_by(stopped),
        };
    }
    match best {
        Some(plan) => Answer::Optimal { plan, cert },
        None => Answer::NoPlan { cert },
    }
}

/// The part that is one cut at the empty path, by the look-ahead bound.
fn root_cut(alloc: Global, problem: &Problem) -> Result<Part, AllocError>
    ensures problem { IfOk result (λ part. part.problem ≡ problem.now) }
    ensures root { IfOk result (λ part. part.name ≡ []) }
    ensures cut { IfOk result (λ part. IsCut part.tree) }
    ensures floor { IfOk result (λ part. part.floor ≡ min (cap problem.now) (look_ahead_bound (settled (start problem.now)))) }
    ensures alone { IfOk result (λ part. given_of part ≡ []) }
    ensures kept { IfOk result IsKeptPart }
{
    let ahead = look_ahead(&Position::start(problem));
    let mut row = Row::new(alloc);
    row.push(Kind::CutL, &[])?;
    let tree = Tree::from_row(row);
    Part::new(alloc, problem, Name::root(), tree, ahead.min(problem.cap()))
}

/// The certificate of that part alone.
pub(crate) fn root_cert(alloc: Global, problem: &Problem) -> Result<Cert, AllocError>
    ensures one_part { IfOk result (λ cert. length cert.parts ≡ 1) }
    ensures cut { IfOk result IsOneCut }
    ensures bound { IfOk result (λ cert. cert.lower ≡ min (cap problem.now) (look_ahead_bound (settled (start problem.now)))) }
    ensures shown { IfOk result
        (λ cert. (budget expanded : ℕ) (plan : Option ProblemPath) → IsBestMet problem.now plan → expanded ≤ budget → IsShown problem.now budget cert plan expanded) }
{
    let part = root_cut(alloc, problem)?;
    Cert::whole(alloc, part)
}

/// The answer where memory ran out, and this is the best plan that is known.
fn answer_without_memory(
    alloc: Global,
    problem: &Problem,
    best: Option<Plan>,
) -> Result<Answer, AllocError>
    ensures one_part { IfOk result (λ answer. length (cert_of answer).parts ≡ 1) }
    ensures first_part { IfOk result IsOfFirstPart }
    ensures out_of_memory { IfOk result (IsOutOfMemory best) }
    ensures plan { IfOk result (λ answer. plan_of answer ≡ path_in best) }
    ensures comes { IfOk result (λ answer. (c : Chosen) (expanded : ℕ) → ComesOf problem.now c answer expanded false) }
    ensures is_branch { IfOk result (λ answer. (expanded : ℕ) → EachIsBranch answer expanded) }
    ensures true_answer { IfOk result (λ answer. (budget expanded : ℕ) → IsLost problem.now budget best expanded → IsTrueAnswer problem.now budget answer expanded) }
{
    let cert = root_cert(alloc, problem)?;
    Ok(Answer::Between {
        lower: cert.lower(),
        cert,
        plan: best,
        cause: Cause::Memory,
    })
}

/// An answer to a search for the fewest relocations, after so many expansions.
fn without_second(answer: Answer, expanded: u64, stopped: bool) -> Solved
    requires { IsOfFirstPart answer }
    ensures answer { result.answer ≡ answer }
    ensures expanded { result.expanded ≡ expanded }
    ensures stopped { result.stopped ≡ stopped }
    ensures no_second { HasNoSecond result }
{
    Solved {
        answer,
        expanded,
        stopped,
        second: Second::NotAsked,
        second_expanded: 0,
    }
}

/// The answer to what searches found. Where memory ran out, it is the bound of the first position with the best plan that is known.
pub fn answer_to(
    alloc: Global,
    problem: &Problem,
    found: Result<Together, Lost>,
) -> Result<Solved, AllocError>
    ensures one_part { IfOk found (λ r. length r.cert.parts ≡ 1) → IfOk result (λ solved. length (cert_of solved.answer).parts ≡ 1) }
    ensures no_second { IfOk result HasNoSecond }
    ensures stopped { IfOk result (λ solved. solved.stopped ≡ true → IsOkAnd found (λ r. r.stopped ≡ true)) }
    ensures out_of_memory { IfErr found (λ lost. IfOk result (λ solved. IsOutOfMemory lost.best solved.answer)) }
    ensures plan { IfOk found (λ r. IfOk result (λ solved. plan_of solved.answer ≡ path_in r.best)) }
    ensures plan_left { IfErr found (λ lost. IfOk result (λ solved. plan_of solved.answer ≡ path_in lost.best)) }
    ensures answered { (c : Chosen) → IfOk found (AreSearched problem.now c) → IfErr found (λ lost. IsLost problem.now c.budget lost.best lost.expanded)
        → IfOk result (IsFirstPart problem.now c) }
{
    match found {
        Ok(found) => {
            let answer = answer_of_ended(problem, found.cert, found.best, found.stopped);
            Ok(without_second(answer, found.expanded, found.stopped))
        }
        Err(lost) => {
            let answer = answer_without_memory(alloc, problem, lost.best)?;
            Ok(without_second(answer, lost.expanded, false))
        }
    }
}
