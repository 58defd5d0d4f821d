//! One search, or many (iterative deepening): these have a limit that rises, until the bound reaches the plan that is known or the budget
//! is spent.
ghost use Rattle.std.specs.Prelude.{◌≡◌, ◌↔◌, ℕ, length, IsOk, IfOk, IfErr, ◌+◌, ◌-◌, false, IfSome, IfNone};
ghost use Rattle.std.specs.Result.{IsOkAnd};
ghost use Rattle.crp_plan.specs.Bay.{Problem as Statement};
ghost use Rattle.crp_solve.specs.Answers.{path_in, shorter, count_of as count_or_cap};
ghost use Rattle.crp_solve.specs.Searches.{met_or_known, IsBestMet, IsLost, BeginsWithin, IsShown, IsOpen};
ghost use Rattle.crp_solve.specs.Rounds.{IsOneSearch, behind, Round, IsNextRound, IsKnownBefore};
ghost use Rattle.crp_solve.specs.Rests.{IsFoundTogether, IsCutShort};
ghost use Rattle.crp_solve.specs.Deepening.{higher, IsNearer};

use crate::answering::{count_of, root_cert};
use crate::end::{Lost, Together};
use crate::settings::Settings;
use crate::workers::aim::shorter_of;
use crp_plan::{Plan, Problem};
use crp_tree::Cert;
use std::alloc::Global;

/// The first plan, or where there is none the other.
pub(crate) fn first_of(best: Option<Plan>, other: Option<Plan>) -> Option<Plan>
    ensures { result ≡ met_or_known best other }
{
    match best {
        Some(plan) => Some(plan),
        None => other,
    }
}

/// What is known after the search, which began with the relocations of this plan or, where there is none, with the cap: the plan that
/// it met, or else this one. Where memory ran out it is the better of both, of two that are as good the first.
pub fn with_known(found: Result<Together, Lost>, known: Option<Plan>) -> Result<Together, Lost>
    ensures kind { IsOk result ↔ IsOk found }
    ensures met { IfOk found (λ f. IfOk result (λ r. r ≡ record f { best = met_or_known f.best known })) }
    ensures better { IfErr found (λ lost. IfErr result (λ r. r ≡ record lost { best = shorter lost.best known })) }
    ensures one_search { (thin : ℕ) (p : Statement) (budget : ℕ) → IfOk found (λ r. IsFoundTogether thin p budget (count_or_cap p (path_in known)) r.cert r.best r.expanded r.stopped)
        → IfOk result (IsOneSearch thin p budget known) }
    ensures one_part { IfOk found (λ r. length r.cert.parts ≡ 1) → IfOk result (λ r. length r.cert.parts ≡ 1) }
    ensures stopped { IfOk result (λ r. IsOkAnd found (λ f. r.stopped ≡ f.stopped)) }
    ensures lost { (p : Statement) (budget : ℕ) → IsBestMet p known → IfErr found (λ lost. IsCutShort p budget lost.best lost.expanded)
        → IfErr result (λ lost. IsLost p budget lost.best lost.expanded) }
{
    match found {
        Ok(found) => Ok(Together {
            best: first_of(found.best, known),
            ..found
        }),
        Err(lost) => Err(Lost {
            best: shorter_of(lost.best, known),
            ..lost
        }),
    }
}

/// What is known before the first search of a deepening: the look-ahead bound of the first position, and this plan.
pub(crate) fn known_before(
    alloc: Global,
    problem: &Problem,
    best: Option<Plan>,
) -> Result<Together, Lost>
    requires { IsBestMet problem.now best }
    ensures shown { IfOk result (λ known. (budget : ℕ) → IsShown problem.now budget known.cert known.best known.expanded) }
    ensures before { IfOk result (IsKnownBefore problem.now best) }
    ensures one_part { IfOk result (λ known. length known.cert.parts ≡ 1) }
    ensures lost { IfErr result (λ lost. (budget : ℕ) → IsLost problem.now budget lost.best lost.expanded) }
{
    match root_cert(alloc, problem) {
        Ok(cert) => Ok(Together {
            cert,
            best,
            expanded: 0,
            stopped: false,
        }),
        Err(_) => Err(Lost { best, expanded: 0 }),
    }
}

/// What a search more may do, if there is one, and none was stopped: the settings with what is left of the budget, and its limit, one relocation more than the
/// bound.
pub(crate) fn next_round(
    problem: &Problem,
    settings: Settings,
    known: &Together,
) -> Option<(Settings, u32)>
    requires { IsShown problem.now settings.budget known.now.cert known.now.best known.now.expanded }
    ensures goes_on { IfSome result (λ _. known.now.stopped ≡ false) }
    ensures undecided { IfSome result (λ _. IsOpen problem.now settings.budget known.now.cert known.now.best known.now.expanded) }
    ensures settings { IfSome result (λ next. next.0 ≡ record settings { budget = settings.budget - known.now.expanded }) }
    ensures limit { IfSome result (λ next. next.1 ≡ known.now.cert.lower + 1) }
    ensures begins { IfSome result (λ next. BeginsWithin problem.now next.1) }
    ensures decided { IfNone result (known.now.stopped ≡ false → ¬ IsOpen problem.now settings.budget known.now.cert known.now.best known.now.expanded) }
{
    let budget = settings.budget();
    let lower = known.cert.lower();
    if !known.stopped && lower < count_of(problem, &known.best) && known.expanded < budget {
        Some((settings.with_left(budget - known.expanded), lower + 1))
    } else {
        None
    }
}

/// The certificate that shows the higher bound; where both show the same, the first. So it is the one of the last search that ended
/// with none of its claims refused and no plan met, whose branches are the same however many workers searched.
fn higher_of(cert: Cert, other: Cert) -> Cert
    ensures { result ≡ higher cert other }
{
    if cert.lower() < other.lower() {
        other
    } else {
        cert
    }
}

/// What is known behind a search more, which found this, or in which memory ran out.
pub(crate) fn known_behind(
    problem: &Problem,
    settings: Settings,
    known: Together,
    found: Result<Together, Lost>,
) -> Result<Together, Lost>
    requires known { IsShown problem.now settings.budget known.cert known.best known.expanded }
    requires goes_on { known.stopped ≡ false }
    requires undecided { IsOpen problem.now settings.budget known.cert known.best known.expanded }
    requires found { IfOk found (λ f. IsFoundTogether settings.thin problem.now (settings.budget - known.expanded) (known.cert.lower + 1) f.cert f.best f.expanded f.stopped) }
    requires lost { IfErr found (λ lost. IsCutShort problem.now (settings.budget - known.expanded) lost.best lost.expanded) }
    ensures round { IfOk result (λ next. (round : Round) × IsNextRound settings.thin problem.now settings.budget known round × (next ≡ behind known round.found)) }
    ensures shown { IfOk result (λ next. IsShown problem.now settings.budget next.cert next.best next.expanded) }
    ensures nearer { IfOk result (IsNearer problem.now settings.budget known) }
    ensures stopped { IfOk result (λ next. IsOkAnd found (λ f. next.stopped ≡ f.stopped)) }
    ensures one_part { length known.cert.parts ≡ 1 → IfOk found (λ f. length f.cert.parts ≡ 1) → IfOk result (λ next. length next.cert.parts ≡ 1) }
    ensures lost { IfErr result (λ lost. IsLost problem.now settings.budget lost.best lost.expanded) }
{
    let Together {
        cert,
        best,
        expanded,
        stopped: _,
    } = known;
    match found {
        Ok(found) => Ok(Together {
            cert: higher_of(cert, found.cert),
            best: shorter_of(best, found.best),
            expanded: expanded + found.expanded,
            stopped: found.stopped,
        }),
        Err(lost) => Err(Lost {
            best: shorter_of(lost.best, best),
            expanded: expanded + lost.expanded,
        }),
    }
}
