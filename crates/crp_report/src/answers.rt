//! Answers to the problems of bays.
ghost use Rattle.std.specs.Prelude.{◌≡◌, IfOk};
ghost use Rattle.std.specs.List.{flat_map};
ghost use Rattle.crp_report.specs.Answered.{said_by, status_of};
ghost use Rattle.crp_report.specs.Report.{text_of};

use crate::by_workers::text_by;
use crate::status::Status;
use crp_cert::{Claim, cert_text, first_text};
use crp_plan::{BayName, Problem};
use crp_said::{Said, SaidCause};
use crp_solve::{Answer, Cause};
use std::alloc::{AllocError, Global};
use std::thread::Threads;

/// How a search ended.
pub fn status_of(answer: &Answer) -> Status
    ensures { result ≡ status_of answer.now }
{
    match answer {
        Answer::Optimal { .. } | Answer::First { .. } | Answer::NoPlan { .. } => Status::Decided,
        Answer::Between {
            cause: Cause::Budget | Cause::Time,
            ..
        } => Status::Budget,
        Answer::Between {
            cause: Cause::Memory,
            ..
        } => Status::Memory,
    }
}

/// What an answer says.
pub fn said_of(answer: &Answer) -> Said
    ensures { result ≡ said_by answer.now }
{
    match answer {
        Answer::Optimal { plan, .. } => Said::Optimal(plan.count()),
        Answer::First { plan, .. } => Said::First(plan.count()),
        Answer::NoPlan { .. } => Said::NoPlan,
        Answer::Between {
            lower,
            plan,
            cause,
            ..
        } => {
            let upper = plan.as_ref().map(|plan| plan.count());
            let cause = match cause {
                Cause::Budget => SaidCause::Budget,
                Cause::Memory => SaidCause::Memory,
                Cause::Time => SaidCause::Time,
            };
            Said::Between {
                lower: *lower,
                upper,
                cause,
            }
        }
    }
}

/// The text of the certificate of an answer to a problem, under the name of a bay. That of a first best plan claims it to be that.
pub fn certificate_of(
    alloc: Global,
    bay: &BayName,
    problem: &Problem,
    answer: &Answer,
) -> Result<Vec<u8>, AllocError>
    ensures { IfOk result (λ text. text.items ≡ text_of bay.now problem.now answer.now) }
{
    match answer {
        Answer::Optimal { plan, cert } => cert_text(alloc, bay, problem, cert, Some(plan)),
        Answer::First { plan, cert } => first_text(alloc, bay, problem, cert, plan),
        Answer::NoPlan { cert } => cert_text(alloc, bay, problem, cert, None),
        Answer::Between { cert, plan, .. } => {
            cert_text(alloc, bay, problem, cert, plan.as_ref())
        }
    }
}

/// The shares of the same text, which so many workers write, or one of them where it is short.
pub fn certificate_by<T: Threads + Sync>(
    rt: &T,
    alloc: Global,
    workers: u32,
    bay: &BayName,
    problem: &Problem,
    answer: &Answer,
) -> Result<Vec<Vec<u8>>, AllocError>
    ensures { IfOk result (λ shares. flat_map (λ share. share.items) shares.items ≡ text_of bay.now problem.now answer.now) }
{
    let workers = workers as usize;
    match answer {
        Answer::Optimal { plan, cert } => {
            let claim = Claim::AtLeast(cert.lower());
            text_by(rt, alloc, workers, bay, problem, cert, claim, Some(plan))
        }
        Answer::First { plan, cert } => {
            let claim = Claim::First(cert.lower());
            text_by(rt, alloc, workers, bay, problem, cert, claim, Some(plan))
        }
        Answer::NoPlan { cert } => {
            let claim = Claim::AtLeast(cert.lower());
            text_by(rt, alloc, workers, bay, problem, cert, claim, None)
        }
        Answer::Between { cert, plan, .. } => {
            let claim = Claim::AtLeast(cert.lower());
            text_by(rt, alloc, workers, bay, problem, cert, claim, plan.as_ref())
        }
    }
}
