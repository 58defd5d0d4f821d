//! What is stated of a bay.
ghost use Rattle.std.specs.Prelude.{IfOk};
ghost use Rattle.crp_report.specs.Report.{AreBayLines};
ghost use Rattle.crp_report.specs.BayTexts.{AreTextsOfBay};

use crate::answers::{certificate_by, certificate_of, said_of};
use crate::by_workers::as_share;
use crate::lines::answer_lines;
use crp_order::BayProblem;
use crp_said::{names_of, push_bay_line};
use crp_solve::Solved;
use std::alloc::{AllocError, Global};
use std::thread::Threads;

/// What is stated of a bay.
#[derive(Drop)]
pub(crate) struct BayTexts {
    /// Its lines of the report.
    pub report: Vec<u8>,
    /// The shares of its certificate.
    pub certificate: Vec<Vec<u8>>,
}

// The lines of a bay.
fn bay_lines(alloc: Global, bay: &BayProblem, solved: &Solved) -> Result<Vec<u8>, AllocError>
    ensures { IfOk result (λ text. AreBayLines (record { stated = bay.now; solved = solved.now }) text.items) }
{
    let answer = &solved.answer;
    let names = names_of(alloc, bay.names.list())?;
    let lines = answer_lines(alloc, answer, &names)?;
    let mut text = Vec::new(alloc);
    push_bay_line(&mut text, &bay.bay, said_of(answer))?;
    text.extend_from_slice(&lines)?;
    Ok(text)
}

/// States the answer to the problem of a bay.
pub(crate) fn texts_of_bay(
    alloc: Global,
    bay: &BayProblem,
    solved: &Solved,
) -> Result<BayTexts, AllocError>
    ensures { IfOk result (AreTextsOfBay (record { stated = bay.now; solved = solved.now })) }
{
    let report = bay_lines(alloc, bay, solved)?;
    let text = certificate_of(alloc, &bay.bay, &bay.problem, &solved.answer)?;
    let certificate = as_share(alloc, text)?;
    Ok(BayTexts {
        report,
        certificate,
    })
}

/// States the same, where so many workers write the certificate.
pub(crate) fn texts_by<T: Threads + Sync>(
    rt: &T,
    alloc: Global,
    workers: u32,
    bay: &BayProblem,
    solved: &Solved,
) -> Result<BayTexts, AllocError>
    ensures { IfOk result (AreTextsOfBay (record { stated = bay.now; solved = solved.now })) }
{
    let report = bay_lines(alloc, bay, solved)?;
    let certificate = certificate_by(rt, alloc, workers, &bay.bay, &bay.problem, &solved.answer)?;
    Ok(BayTexts {
        report,
        certificate,
    })
}
