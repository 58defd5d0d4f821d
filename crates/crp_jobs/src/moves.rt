//! What stands in a bay before a move that a crane cannot make: the yard and the report are read again.
ghost use Rattle.std.specs.Prelude.{IfSome};
ghost use Rattle.std.specs.List.{AllByRecursion};
ghost use Rattle.crp_yard.specs.Naming.{IsNamedBay};
ghost use Rattle.crp_yard.specs.Reading.{IsYardListOf};
ghost use Rattle.crp_separated.specs.Inputs.{comma_list};
ghost use Rattle.crp_jobs.specs.Found.{IsPlainText};
ghost use Rattle.crp_jobs.specs.Moves.{HasYard, IsMoveLine, IsMoveLineIn, IsMoveLineOf};
ghost use Rattle.crp_jobs.specs.Placed.{IsOfFront};

use crate::commas::comma_list;
use crate::job::Job;
use crate::list_lines::sizes_again;
use crate::move_words::{Wrong, line_on_stopping};
use crate::named::{sizes_named, sizes_of, yard_named};
use crate::partial::report_again;
use crate::plain::FoundLine;
use crp_files::Files;
use crp_follow::stopping_at_line;
use crp_sizes::Sizes;
use crp_yard::{MAX_BYTES, Yard, yard_of_sizes};
use std::alloc::Global;

/// The yard of this list, with this byte between its fields, whose bays have these sizes.
pub(crate) fn yard_again<F: Files>(
    alloc: Global,
    files: &F,
    separator: u8,
    name: &str,
    sizes: &Sizes,
) -> Option<Yard>
    ensures named { IfSome result (λ yard. AllByRecursion IsNamedBay yard.bays) }
    ensures listed { IfSome result (λ yard. IsOfFront ((F.known files.now).given name.now) (λ text. IsYardListOf sizes.now (comma_list separator text) yard)) }
{
    let text = files.begins(alloc, name, MAX_BYTES)?;
    let Ok(list) = comma_list(alloc, text.as_slice(), separator) else {
        return None;
    };
    yard_of_sizes(alloc, list.as_slice(), sizes).ok()
}

/// The same of a job with these sizes, unless it names a list of sizes.
pub(crate) fn yard_of_job<F: Files>(
    alloc: Global,
    files: &F,
    job: &Job<'_>,
    name: &str,
    chosen: &Sizes,
) -> Option<Yard>
    ensures named { IfSome result (λ yard. AllByRecursion IsNamedBay yard.bays) }
    ensures listed { IfSome result (λ yard. HasYard (F.known files.now) job.now chosen.now name.now yard) }
{
    let separator = job.separator();
    let Some(list) = sizes_named(job) else {
        return yard_again(alloc, files, separator, name, chosen);
    };
    let sizes = sizes_again(alloc, files, separator, list, chosen.common())?;
    yard_again(alloc, files, separator, name, &sizes)
}

// The line on the move at this line of a report over this yard.
fn line_in_yard(
    alloc: Global,
    report: &[u8],
    yard: &Yard,
    what: Wrong,
    number: u64,
) -> Option<FoundLine>
    ensures plain { IfSome result (λ line. IsPlainText line.items) }
    ensures said { IfSome result (λ line. IsMoveLineIn report.now yard.now what number line.items) }
{
    let stopping = stopping_at_line(alloc, yard, report, number)?;
    line_on_stopping(alloc, number, what, &stopping).ok()
}

// The line on the move at this line of a report over the yard of a job.
fn line_over_yard<F: Files>(
    alloc: Global,
    files: &F,
    job: &Job<'_>,
    report: &[u8],
    what: Wrong,
    number: u64,
) -> Option<FoundLine>
    ensures plain { IfSome result (λ line. IsPlainText line.items) }
    ensures said { IfSome result (λ line. IsMoveLineOf (F.known files.now) job.now report.now what number line.items) }
{
    let chosen = sizes_of(job)?;
    let yard = yard_of_job(alloc, files, job, yard_named(job)?, chosen)?;
    line_in_yard(alloc, report, &yard, what, number)
}

/// The line on the move at this line of a report, of which this is wrong.
pub(crate) fn line_on_move<F: Files>(
    alloc: Global,
    files: &F,
    job: &Job<'_>,
    name: &str,
    what: Wrong,
    number: u64,
) -> Option<FoundLine>
    ensures plain { IfSome result (λ line. IsPlainText line.items) }
    ensures said { IfSome result (λ line. IsMoveLine (F.known files.now) job.now ((F.known files.now).given name.now) what number line.items) }
{
    let report = report_again(alloc, files, name, job.is_partial())?;
    line_over_yard(alloc, files, job, report.text.as_slice(), what, number)
}
