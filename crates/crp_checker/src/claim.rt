//! What a certificate shows, once its text is read.
ghost use Rattle.std.specs.Prelude.{◌≡◌, ◌⊎◌, ℕ, List, Option, IfOk, IfErr};
ghost use Rattle.crp_plan.specs.Bay.{Problem as Statement};
ghost use Rattle.crp_checker.specs.Verdicts.{IsVerdictOf, IsVerdictUnder};
ghost use Rattle.crp_checker.specs.Shown.{TextStates};
ghost use Rattle.crp_checker.specs.Stages.{HasEnded};
ghost use Rattle.crp_checker.specs.Refusals.{IsRefusal};

use crate::accepted::Accepted;
use crate::findings::Findings;
use crate::needed::hold_names;
use crate::refused::Refused;
use crate::verdict::Verdict;
use crp_cert::Claim;
use std::alloc::Global;

/// What is shown by a bound, the cap, and the relocations of a plan, if there is one.
fn verdict_of(lower: u32, cap: u32, upper: Option<u32>) -> Verdict
    ensures { IsVerdictOf lower cap upper result }
{
    if upper == Some(lower) {
        return Verdict::Optimal(lower);
    }
    if lower == cap {
        return Verdict::NoPlan;
    }
    Verdict::Bounds { lower, upper }
}

/// What is shown under a claim, by the cap, and the relocations of the plan, if there is one.
fn verdict_under(claim: Claim, cap: u32, count: Option<u32>) -> Verdict
    ensures { IsVerdictUnder claim cap count result }
{
    match claim {
        Claim::AtLeast(lower) => verdict_of(lower, cap, count),
        Claim::First(least) => Verdict::First(least),
    }
}

/// What the text of a certificate states and shows, of which this is kept.
pub fn conclude(alloc: Global, findings: Findings) -> Result<Accepted, Refused>
    ensures states { IfOk result (λ found. (wanted : Option Statement) (bytes : List ℕ) → HasEnded wanted bytes findings
        → TextStates wanted bytes found.bay found.plan found.verdict) }
    ensures refused { IfErr result (λ refused. (refused ≡ Refused.Memory)
        ⊎ ((wanted : Option Statement) (bytes : List ℕ) → HasEnded wanted bytes findings → IsRefusal wanted bytes refused)) }
{
    let Findings {
        bay,
        problem,
        need,
        count,
        line: _,
        names,
        given,
        wrong,
    } = findings;
    if let Some(refused) = wrong {
        return Err(refused);
    }
    hold_names(alloc, names.into_vec(), given)?;
    let verdict = verdict_under(need.claim, problem.cap(), count);
    Ok(Accepted {
        bay,
        plan: need.plan,
        verdict,
    })
}
