//! What is said of a fault of a yard list, and of one of a list of sizes.
ghost use Rattle.std.specs.Prelude.{IfSome};
ghost use Rattle.crp_sizes.specs.Heights.{CanBeHeights};
ghost use Rattle.crp_sizes.specs.Records.{IsSizesListOf};
ghost use Rattle.crp_separated.specs.Inputs.{comma_list};
ghost use Rattle.crp_jobs.specs.Found.{IsPlainText};
ghost use Rattle.crp_jobs.specs.ListLines.{IsAgainLine, IsHeaderLine, IsOutsideLine, IsRecordLineOf, IsSizedLine, IsSizesLine, IsYardLine};
ghost use Rattle.crp_jobs.specs.Placed.{IsOfFront};

use crate::bay_words::words_on_bay;
use crate::commas::comma_list;
use crate::detailed::line_with;
use crate::firsts::{Alike, words_on_first};
use crate::headers::{ListKind, line_on_header};
use crate::job::Job;
use crate::named::{sizes_named, sizes_of};
use crate::placed::line_on_record;
use crate::plain::{FRONT, FoundLine};
use crp_files::Files;
use crp_places::without_mark;
use crp_sizes::{Sizes, SizesFault, read_sizes};
use crp_yard::{MAX_BYTES, YardFault};
use std::alloc::Global;

// The line on a list without its header.
fn line_without_header<F: Files>(
    alloc: Global,
    files: &F,
    separator: u8,
    name: &str,
    kind: ListKind,
) -> Option<FoundLine>
    ensures plain { IfSome result (λ line. IsPlainText line.items) }
    ensures said { IfSome result (λ line. IsHeaderLine kind separator ((F.known files.now).given name.now) line.items) }
{
    let front = files.begins(alloc, name, FRONT)?;
    Some(line_on_header(kind, separator, without_mark(front.as_slice())))
}

// The line on the record with this number.
fn line_on_record_of<F: Files>(
    alloc: Global,
    files: &F,
    separator: u8,
    name: &str,
    number: usize,
) -> Option<FoundLine>
    ensures plain { IfSome result (λ line. IsPlainText line.items) }
    ensures said { IfSome result (λ line. IsRecordLineOf separator ((F.known files.now).given name.now) number line.items) }
{
    let text = files.begins(alloc, name, MAX_BYTES)?;
    line_on_record(alloc, separator, number, text.as_slice()).ok()
}

// The line on the record with this number, with which record is the first that is like it in this.
fn line_on_again<F: Files>(
    alloc: Global,
    files: &F,
    separator: u8,
    name: &str,
    how: Alike,
    number: usize,
) -> Option<FoundLine>
    ensures plain { IfSome result (λ line. IsPlainText line.items) }
    ensures said { IfSome result (λ line. IsAgainLine how separator ((F.known files.now).given name.now) number line.items) }
{
    let text = files.begins(alloc, name, MAX_BYTES)?;
    let Ok(words) = words_on_first(alloc, how, separator, text.as_slice(), number) else {
        return None;
    };
    line_with(alloc, separator, number, text.as_slice(), &words).ok()
}

// The line on the record with this number, with the size of its bay, where bays have these sizes.
fn line_with_size<F: Files>(
    alloc: Global,
    files: &F,
    separator: u8,
    name: &str,
    sizes: &Sizes,
    number: usize,
) -> Option<FoundLine>
    ensures plain { IfSome result (λ line. IsPlainText line.items) }
    ensures said { IfSome result (λ line. IsSizedLine sizes.now separator ((F.known files.now).given name.now) number line.items) }
{
    let text = files.begins(alloc, name, MAX_BYTES)?;
    let Ok(list) = comma_list(alloc, text.as_slice(), separator) else {
        return None;
    };
    let Ok(words) = words_on_bay(alloc, sizes, list.as_slice(), number) else {
        return None;
    };
    line_with(alloc, separator, number, text.as_slice(), &words).ok()
}

/// The sizes that this list gives, with this byte between its fields, with the common ones.
pub(crate) fn sizes_again<F: Files>(
    alloc: Global,
    files: &F,
    separator: u8,
    name: &str,
    common: &[u8],
) -> Option<Sizes>
    requires { CanBeHeights common.now }
    ensures { IfSome result (λ sizes. IsOfFront ((F.known files.now).given name.now) (λ text. IsSizesListOf common.now (comma_list separator text) sizes)) }
{
    let text = files.begins(alloc, name, MAX_BYTES)?;
    let Ok(list) = comma_list(alloc, text.as_slice(), separator) else {
        return None;
    };
    read_sizes(alloc, list.as_slice(), common).ok()
}

// The line on a record that names a place which its bay has not.
fn line_outside<F: Files>(
    alloc: Global,
    files: &F,
    job: &Job<'_>,
    name: &str,
    number: usize,
) -> Option<FoundLine>
    ensures plain { IfSome result (λ line. IsPlainText line.items) }
    ensures said { IfSome result (λ line. IsOutsideLine (F.known files.now) job.now ((F.known files.now).given name.now) number line.items) }
{
    let separator = job.separator();
    let chosen = sizes_of(job)?;
    let Some(list) = sizes_named(job) else {
        return line_with_size(alloc, files, separator, name, chosen, number);
    };
    match sizes_again(alloc, files, separator, list, chosen.common()) {
        Some(sizes) => line_with_size(alloc, files, separator, name, &sizes, number),
        None => line_on_record_of(alloc, files, separator, name, number),
    }
}

/// The line on a fault of the yard list of a job.
pub(crate) fn line_on_yard<F: Files>(
    alloc: Global,
    files: &F,
    job: &Job<'_>,
    name: &str,
    fault: &YardFault,
) -> Option<FoundLine>
    ensures plain { IfSome result (λ line. IsPlainText line.items) }
    ensures said { IfSome result (λ line. IsYardLine (F.known files.now) job.now ((F.known files.now).given name.now) fault.now line.items) }
{
    let separator = job.separator();
    match fault {
        YardFault::Header { .. } => {
            line_without_header(alloc, files, separator, name, ListKind::Yard)
        }
        YardFault::Fields { record }
        | YardFault::Digits { record }
        | YardFault::Floating { record }
        | YardFault::TooMany { record } => {
            line_on_record_of(alloc, files, separator, name, *record)
        }
        YardFault::Outside { record } => line_outside(alloc, files, job, name, *record),
        YardFault::PlaceTaken { record } => {
            line_on_again(alloc, files, separator, name, Alike::Place, *record)
        }
        YardFault::StandsAlready { record } => {
            line_on_again(alloc, files, separator, name, Alike::Container, *record)
        }
        YardFault::Read | YardFault::TooLarge | YardFault::Memory => None,
    }
}

/// The line on a fault of a list of sizes, with this byte between its fields.
pub(crate) fn line_on_sizes<F: Files>(
    alloc: Global,
    files: &F,
    separator: u8,
    name: &str,
    fault: &SizesFault,
) -> Option<FoundLine>
    ensures plain { IfSome result (λ line. IsPlainText line.items) }
    ensures said { IfSome result (λ line. IsSizesLine separator ((F.known files.now).given name.now) fault.now line.items) }
{
    match fault {
        SizesFault::Header { .. } => {
            line_without_header(alloc, files, separator, name, ListKind::Sizes)
        }
        SizesFault::Fields { record }
        | SizesFault::Digits { record }
        | SizesFault::Heights { record }
        | SizesFault::Twice { record } => {
            line_on_record_of(alloc, files, separator, name, *record)
        }
        SizesFault::TooLarge | SizesFault::Read | SizesFault::Memory => None,
    }
}
