//! The certificate of a bay, and whether it bears out what the report says.
ghost use Rattle.std.specs.Prelude.{◌≡◌, ◌↔◌, ◌⊎◌, ◌≤◌, ℕ, List, Some, IfOk, IfErr, OnOk, IsErrOf, IsTrue, MatchResult};
ghost use Rattle.std.specs.Option.{option_copied};
ghost use Rattle.crp_plan.specs.Bay.{cap};
ghost use Rattle.crp_plan.specs.Devices.{Transfers, failures_of_read, most_interruptions};
ghost use Rattle.crp_cert.specs.declared.script.Script.{Script};
ghost use Rattle.crp_checker.specs.AcceptedTexts.{IsAcceptedText};
ghost use Rattle.crp_checker.specs.Reading.{HasMore, IsLeft, IsTaken, IsTooLong};
ghost use Rattle.crp_checker.specs.Refusals.{IsRefusal};
ghost use Rattle.crp_checker.specs.Shown.{TextStates};
ghost use Rattle.crp_audit.specs.Headline.{shown_by, verdict_said, lower_shown, BearsOut};
ghost use Rattle.crp_audit.specs.Certified.{IsPlanSaid, SaysThis, IsCertificateFault};
ghost use Rattle.crp_audit.specs.Stops.{StopsAt, failures_of_stop};

use crate::fault::{AuditFault, AuditStop};
use crp_cert::Rows;
use crp_checker::{Accepted, Checker, Refused, Unread, Verdict, feed_next};
use crp_order::BayProblem;
use crp_plan::{BayName, Problem, ReadFault, Source};
use crp_said::{Said, SaidCause};
use std::alloc::Global;

/// What a lower bound, the cap and the relocations of a plan, if there is one, show.
fn shown_by(lower: u32, most: u32, upper: Option<u32>) -> Verdict
    ensures { result ≡ shown_by lower most upper }
{
    if upper == Some(lower) {
        return Verdict::Optimal(lower);
    }
    if lower == most {
        return Verdict::NoPlan;
    }
    Verdict::Bounds { lower, upper }
}

/// The verdict on a problem with this cap that says the same as the report.
fn verdict_said(most: u32, said: Said) -> Verdict
    ensures { result ≡ verdict_said most said }
{
    match said {
        Said::Optimal(count) => Verdict::Optimal(count),
        Said::First(count) => Verdict::First(count),
        Said::NoPlan => Verdict::NoPlan,
        Said::Between {
            lower,
            upper,
            cause: SaidCause::Budget,
        } => Verdict::Bounds { lower, upper },
        Said::Between {
            lower,
            upper,
            cause: SaidCause::Memory,
        } => shown_by(lower, most, upper),
        Said::Between {
            lower,
            upper,
            cause: SaidCause::Time,
        } => Verdict::Bounds { lower, upper },
        Said::Between {
            lower,
            upper,
            cause: SaidCause::Edited,
        } => Verdict::Bounds { lower, upper },
        Said::Outside(count) => Verdict::Bounds {
            lower: 0,
            upper: Some(count),
        },
    }
}

/// The lower bound that a verdict has.
fn lower_shown(verdict: Verdict) -> Option<u32>
    ensures { result ≡ lower_shown verdict }
{
    match verdict {
        Verdict::Optimal(count) | Verdict::First(count) => Some(count),
        Verdict::Bounds { lower, .. } => Some(lower),
        Verdict::NoPlan => None,
    }
}

/// Whether a certificate with this verdict bears out what is said on a problem with this cap.
fn bears_out(most: u32, said: Said, verdict: Verdict) -> bool
    ensures { IsTrue result ↔ BearsOut most said verdict }
{
    match said {
        Said::Between {
            lower,
            cause: SaidCause::Edited,
            ..
        } => lower_shown(verdict) == Some(lower),
        Said::Outside(_) => false,
        _ => verdict == verdict_said(most, said),
    }
}

/// Whether the plan of a certificate is the printed one, where the first best plan is said.
fn is_plan_said(said: Said, plan: Option<&Rows>, rows: &[u8]) -> bool
    ensures { IsTrue result ↔ IsPlanSaid said (option_copied plan.entry) rows.now }
{
    let Said::First(_) = said else {
        return true;
    };
    match plan {
        Some(plan) => plan.as_slice() == rows,
        None => false,
    }
}

/// Whether an accepted certificate is the bay's, bears out what is said on a problem with this cap, and has the plan that is said.
fn says_this(bay: &BayName, most: u32, said: Said, rows: &[u8], found: &Accepted) -> bool
    ensures { IsTrue result ↔ ((found.now.bay ≡ bay.now) × BearsOut most said found.now.verdict × IsPlanSaid said found.now.plan rows.now) }
{
    found.bay == *bay
        && bears_out(most, said, found.verdict)
        && is_plan_said(said, found.plan.as_ref(), rows)
}

/// What the next certificate of a file states and shows, which is of this problem, or why it is refused.
fn accept_next<R: Source>(
    alloc: Global,
    problem: &Problem,
    source: &mut R,
    unread: Unread,
    interruptions: &mut u32,
) -> Result<(Result<Accepted, Refused>, Unread), ReadFault>
    requires some { (left : List ℕ) × IsLeft (R.remaining source.old) unread left }
    requires more { HasMore unread }
    requires passed { interruptions.old ≤ most_interruptions }
    ensures read { IfOk result (λ answer. (text : List ℕ) × IsTaken (R.remaining source.old) unread text (R.remaining source.new) answer.1
        × MatchResult answer.0 (λ found. TextStates (Some problem.now) text found.bay found.plan found.verdict)
        (λ refused. (refused ≡ Refused.Memory) ⊎ IsRefusal (Some problem.now) text refused)) }
    ensures large { IsErrOf result ReadFault.TooLarge → IsTooLong (R.remaining source.old) unread }
    ensures done { OnOk result (Transfers 0 interruptions.old interruptions.new (R.failures source.old) (R.failures source.new) (R.interrupted source.old) (R.interrupted source.new)) }
    ensures stopped { IfErr result (λ fault. Transfers (failures_of_read fault) interruptions.old interruptions.new (R.failures source.old) (R.failures source.new) (R.interrupted source.old) (R.interrupted source.new)) }
{
    let checker = Checker::new(alloc, Some(problem));
    let (checker, unread) = feed_next(checker, source, unread, interruptions)?;
    Ok((checker.accept(), unread))
}

/// The verdict that says the same as the report, whose plan goes to these rows, if the next certificate of a file is the bay's and bears
/// that out.
pub(crate) fn read_certificate<R: Source>(
    alloc: Global,
    stated: &BayProblem,
    said: Said,
    rows: &[u8],
    source: &mut R,
    unread: Unread,
    interruptions: &mut u32,
) -> Result<(Verdict, Unread), AuditStop>
    requires some { (left : List ℕ) × IsLeft (R.remaining source.old) unread left }
    requires passed { interruptions.old ≤ most_interruptions }
    ensures right { IfOk result (λ found. (text : List ℕ) × (script : Script) × IsTaken (R.remaining source.old) unread text (R.remaining source.new) found.1
        × IsAcceptedText (Some stated.now.problem) text script × SaysThis stated.now said rows.now script
        × (found.0 ≡ verdict_said (cap stated.now.problem) said)) }
    ensures wrong { IfErr result (StopsAt (R.remaining source.old) unread (IsCertificateFault stated.now said rows.now)) }
    ensures done { OnOk result (Transfers 0 interruptions.old interruptions.new (R.failures source.old) (R.failures source.new) (R.interrupted source.old) (R.interrupted source.new)) }
    ensures stopped { IfErr result (λ stop. Transfers (failures_of_stop stop) interruptions.old interruptions.new (R.failures source.old) (R.failures source.new) (R.interrupted source.old) (R.interrupted source.new)) }
{
    let mut unread = unread;
    if !unread.fill(source, interruptions)? {
        return Err(AuditStop::Fault(AuditFault::Lacking {
            bay: stated.bay.copy(),
        }));
    }
    let (answer, unread) = accept_next(alloc, &stated.problem, source, unread, interruptions)?;
    let found = match answer {
        Ok(found) => found,
        Err(Refused::Memory) => return Err(AuditStop::Fault(AuditFault::Memory)),
        Err(refused) => {
            return Err(AuditStop::Fault(AuditFault::Certificate {
                bay: stated.bay.copy(),
                refused,
            }));
        }
    };
    let most = stated.problem.cap();
    if !says_this(&stated.bay, most, said, rows, &found) {
        return Err(AuditStop::Fault(AuditFault::Other {
            bay: stated.bay.copy(),
        }));
    }
    Ok((verdict_said(most, said), unread))
}
