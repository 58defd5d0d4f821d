//! A report that may end early is read again.
ghost use Rattle.std.specs.Prelude.{◌≡◌, IfOk, IfSome};
ghost use Rattle.crp_jobs.specs.Partial.{IsReportIn, part_of};
ghost use Rattle.crp_jobs.specs.Placed.{IsOfFront};

use crate::report_lines::MOST_REPORT;
use crp_audit::first_bays;
use crp_files::Files;
use crp_order::Sequence;
use crp_said::{Completed, complete};
use crp_yard::Yard;
use std::alloc::{AllocError, Global};

// The report that a text is; one that may end early with its last line.
fn whole_of(alloc: Global, text: Vec<u8>, partial: bool) -> Result<Completed, AllocError>
    ensures { IfOk result (λ whole. IsReportIn partial text.items whole.text.items whole.bays) }
{
    if partial {
        complete(alloc, text)
    } else {
        Ok(Completed { text, bays: None })
    }
}

/// The report that this file has.
pub(crate) fn report_again<F: Files>(
    alloc: Global,
    files: &F,
    name: &str,
    partial: bool,
) -> Option<Completed>
    ensures { IfSome result (λ whole. IsOfFront ((F.known files.now).given name.now) (λ text. IsReportIn partial text whole.text.items whole.bays)) }
{
    let text = files.begins(alloc, name, MOST_REPORT)?;
    whole_of(alloc, text, partial).ok()
}

/// The sequence by which it is audited: that of the bays that stand there, where it ends early.
pub(crate) fn part_of(
    alloc: Global,
    yard: &Yard,
    sequence: Sequence,
    bays: Option<usize>,
) -> Result<Sequence, AllocError>
    ensures { IfOk result (λ part. part ≡ part_of bays yard.now sequence) }
{
    match bays {
        None => Ok(sequence),
        Some(bays) => Ok(first_bays(alloc, yard, &sequence, bays)?.sequence),
    }
}
