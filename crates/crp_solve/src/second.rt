//! The second part of a solver: the search for the first of all best plans, once it is known how many relocations these have.
ghost use Rattle.std.specs.Prelude.{◌≡◌, length, true, IfOk, IfErr, min, ◌≤◌};
ghost use Rattle.std.specs.Result.{IsErrAnd};
ghost use Rattle.crp_plan.specs.Bay.{Problem as Statement, IsBest, IsProblem};
ghost use Rattle.crp_solve.specs.Answers.{cert_of, HasNoSecond, IsPlanOf};
ghost use Rattle.crp_solve.specs.Chosen.{Chosen, is_timed};
ghost use Rattle.crp_solve.specs.Firsts.{IsFoundFirst, IsGivenUp, IsKeptFirst};
ghost use Rattle.crp_solve.specs.Seconds.{cert_before, IsKnownBest, IsAsked, IsAskedOf, second_by};
ghost use Rattle.crp_solve.specs.Solved.{IsFirstPart, IsSolved};
ghost use Rattle.crp_solve.specs.Rests.{AreDone};
ghost use Rattle.crp_solve.specs.declared.answer.Cause.{Cause};
ghost use Rattle.crp_solve.specs.declared.answer.Second.{Second};

use crate::alone::{Alone, Begun};
use crate::answer::{Answer, Cause, Second, Solved};
use crate::end::Done;
use crate::settings::Settings;
use crate::workers::aim::FirstBest;
use crate::workers::common::{Gate, Outside, Quiet};
use crate::workers::{look_of, work_together};
use crp_gather::{GatherFault, gather, settle};
use crp_incumbent::Shared;
use crp_plan::{Plan, Problem};
use crp_search::{FirstPart, WalkEnd, search_first};
use crp_tree::{Cert, Name};
use std::alloc::Global;
use std::sync::Wait;
use std::thread::Threads;

/// A best plan and the certificate that shows that none has fewer relocations, after so many expansions, and whether the gate stopped the
/// search meanwhile.
#[derive(Drop)]
pub(crate) struct Optimum {
    pub(crate) plan: Plan,
    pub(crate) cert: Cert,
    pub(crate) expanded: u64,
    pub(crate) stopped: bool,
}

/// What is asked after the first part: nothing, or the first best plan, where a best one is known.
#[derive(Drop)]
pub(crate) enum Asked {
    Nothing(Solved),
    First(Optimum),
}

/// What these settings ask where the first part answers this.
pub(crate) fn asked_for(settings: Settings, solved: Solved) -> Asked
    requires { HasNoSecond solved }
    ensures cert { cert_before result ≡ cert_of solved.answer }
    ensures same { IsAskedOf solved result }
    ensures asked { (p : Statement) → IsFirstPart p settings solved → IsAsked p settings result }
{
    if !settings.first() {
        return Asked::Nothing(solved);
    }
    let expanded = solved.expanded;
    let stopped = solved.stopped;
    match solved.answer {
        Answer::Optimal { plan, cert } => Asked::First(Optimum {
            plan,
            cert,
            expanded,
            stopped,
        }),
        answer => Asked::Nothing(Solved { answer, ..solved }),
    }
}

/// How the second part ended that was given up for this cause.
fn given_up_for(cause: Cause) -> Second
    ensures { result ≡ second_by cause }
{
    match cause {
        Cause::Budget => Second::Budget,
        Cause::Memory => Second::Memory,
        Cause::Time => Second::Time,
    }
}

/// The answer after the second part: the first best plan, or the best plan that was known.
pub(crate) fn answer_with_second(best: Optimum, found: Result<First, GivenUp>) -> Solved
    ensures one_part { length best.cert.parts ≡ 1 → IfOk found (λ first. length first.cert.parts ≡ 1) → length (cert_of result.answer).parts ≡ 1 }
    ensures solved { (p : Statement) (c : Chosen) → c.first ≡ true → IsKnownBest p c best
        → IfOk found (λ first. IsFoundFirst p c.budget (length best.plan.path) first.plan first.cert first.expanded)
        → IfErr found (λ end. IsGivenUp c.budget (is_timed c.time) end.cause end.expanded) → IsSolved p c result }
    ensures stopped { result.stopped ≡ best.stopped }
    ensures time { result.second ≡ Second.Time → IsErrAnd found (λ end. end.cause ≡ Cause.Time) }
{
    match found {
        Ok(first) => Solved {
            answer: Answer::First {
                plan: first.plan,
                cert: first.cert,
            },
            expanded: best.expanded,
            stopped: best.stopped,
            second: Second::Done,
            second_expanded: first.expanded,
        },
        Err(end) => Solved {
            answer: Answer::Optimal {
                plan: best.plan,
                cert: best.cert,
            },
            expanded: best.expanded,
            stopped: best.stopped,
            second: given_up_for(end.cause),
            second_expanded: end.expanded,
        },
    }
}

/// The first best plan, the certificate that shows it, and how many expansions were granted for them.
#[derive(Drop)]
pub(crate) struct First {
    pub(crate) plan: Plan,
    pub(crate) cert: Cert,
    pub(crate) expanded: u64,
}

/// Why the search for the first best plan was given up, and how many expansions were granted to it.
#[derive(Drop)]
pub(crate) struct GivenUp {
    pub(crate) cause: Cause,
    pub(crate) expanded: u64,
}

/// Why a part was lost where so many claims were made: one was refused where there were more than the budget, or where the gate stopped
/// them, and else memory was short.
fn lost(spent: u64, budget: u64, stopped: bool) -> GivenUp
    ensures given_up { IsGivenUp budget stopped result.cause result.expanded }
    ensures time { result.cause ≡ Cause.Time → stopped ≡ true }
    ensures expanded { result.expanded ≡ min spent budget }
{
    let expanded = spent.min(budget);
    let cause = if spent > budget {
        Cause::Budget
    } else if !stopped {
        Cause::Memory
    } else if spent < budget {
        Cause::Time
    } else {
        Cause::Budget
    };
    GivenUp { cause, expanded }
}

/// Closes the words, makes one certificate of the parts, and settles it on the plan that is kept.
fn first_ended(
    alloc: Global,
    problem: &Problem,
    shared: Shared,
    budget: u64,
    done: Done,
) -> Result<First, GivenUp>
    requires best { IsBest problem.now shared.key.start }
    requires done { AreDone IsKeptFirst (record { problem = problem.now; start = shared.key.start; budget = budget; thin = shared.key.thin; timed = shared.key.timed }) shared done }
    ensures found { IfOk result (λ first. IsFoundFirst problem.now budget shared.key.start first.plan first.cert first.expanded) }
    ensures given_up { IfErr result (λ end. IsGivenUp budget shared.key.timed end.cause end.expanded) }
    ensures time { IfErr result (λ end. end.cause ≡ Cause.Time → done.stopped ≡ true) }
{
    let totals = shared.close(done.seat);
    if done.short {
        return Err(lost(totals.spent, budget, done.stopped));
    }
    let expanded = totals.spent.min(budget);
    let memory = GivenUp {
        cause: Cause::Memory,
        expanded,
    };
    let cert = match gather(alloc, problem, done.parts) {
        Ok(cert) => cert,
        Err(fault) => match fault {
            GatherFault::Memory => return Err(memory),
            _ => unreachable!(),
        },
    };
    let best = done.best;
    let Some(plan) = best else { unreachable!() };
    let Ok(cert) = settle(alloc, cert, &plan) else {
        return Err(memory);
    };
    Ok(First {
        plan,
        cert,
        expanded,
    })
}

/// The first best plan, which has `count` relocations, searched by the workers that the settings ask for.
fn first_with<R: Threads + Wait + Sync, G: Gate + Sync>(
    outside: &Outside<R, G>,
    alloc: Global,
    problem: &Problem,
    settings: Settings,
    count: u32,
) -> Result<First, GivenUp>
    requires best { IsBest problem.now count }
    ensures found { IfOk result (λ first. IsFoundFirst problem.now settings.budget count first.plan first.cert first.expanded) }
    ensures given_up { IfErr result (λ end. IsGivenUp settings.budget (is_timed settings.time) end.cause end.expanded) }
    ensures time { IfErr result (λ end. end.cause ≡ Cause.Time → G.may_stop outside.now.gate.now) }
{
    let budget = settings.budget();
    let worked = work_together::<R, G, FirstBest>(outside, alloc, problem, settings, count);
    let Some((shared, done)) = worked else {
        return Err(GivenUp {
            cause: Cause::Memory,
            expanded: 0,
        });
    };
    first_ended(alloc, problem, shared, budget, done)
}

/// The first best plan, searched by many workers; where the gate has it so, behind a look of one of them.
pub(crate) fn first_together<R: Threads + Wait + Sync, G: Gate + Sync>(
    outside: &Outside<R, G>,
    alloc: Global,
    problem: &Problem,
    settings: Settings,
    count: u32,
) -> Result<First, GivenUp>
    requires { IsBest problem.now count }
    ensures found { IfOk result (λ first. IsFoundFirst problem.now settings.budget count first.plan first.cert first.expanded) }
    ensures given_up { IfErr result (λ end. IsGivenUp settings.budget (is_timed settings.time) end.cause end.expanded) }
    ensures time { IfErr result (λ end. end.cause ≡ Cause.Time → G.may_stop outside.now.gate.now) }
{
    let Some(look) = look_of(outside.gate, settings) else {
        return first_with(outside, alloc, problem, settings, count);
    };
    let quiet = Quiet::of(outside.gate);
    let unheard = Outside {
        rt: outside.rt,
        gate: &quiet,
        board: outside.board,
    };
    match first_with(&unheard, alloc, problem, look, count) {
        Err(
            GivenUp {
                cause: Cause::Budget,
                ..
            },
        ) => first_with(outside, alloc, problem, settings, count),
        found => found,
    }
}

/// The first best plan, searched by one worker that shares nothing. `known` is one of the best plans.
pub(crate) fn first_alone<K: Begun>(
    alloc: Global,
    problem: &Problem,
    settings: Settings,
    known: &Plan,
) -> Result<First, GivenUp>
    requires begun { K.first ≡ length known.now.path }
    requires problem { IsProblem problem.now }
    requires plan { IsPlanOf problem.now known.now }
    requires best { IsBest problem.now (length known.now.path) }
    ensures found { IfOk result (λ first. IsFoundFirst problem.now settings.budget (length known.now.path) first.plan first.cert first.expanded) }
    ensures given_up { IfErr result (λ end. IsGivenUp settings.budget (is_timed settings.time) end.cause end.expanded) }
    ensures never_stopped { IfErr result (λ end. end.cause ≡ Cause.Time → ⊥) }
    ensures one_part { IfOk result (λ first. length first.cert.parts ≡ 1) }
{
    let count = known.count();
    let mut worker: Alone<'_, K> = Alone::new(problem, settings.budget(), count);
    let found = search_first(
        alloc,
        problem,
        Name::root(),
        count,
        &mut worker,
        settings.split(),
        settings.thinning(),
    );
    let expanded = worker.granted();
    let memory = GivenUp {
        cause: Cause::Memory,
        expanded,
    };
    let FirstPart { part, plan } = match found {
        Ok(found) => found,
        Err(WalkEnd::Refused) => {
            return Err(GivenUp {
                cause: Cause::Budget,
                expanded,
            });
        }
        Err(WalkEnd::Memory) => return Err(memory),
    };
    let Ok(cert) = Cert::whole(alloc, part) else {
        return Err(memory);
    };
    let Some(plan) = plan else { unreachable!() };
    let Ok(cert) = settle(alloc, cert, &plan) else {
        return Err(memory);
    };
    Ok(First {
        plan,
        cert,
        expanded,
    })
}
