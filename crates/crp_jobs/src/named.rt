//! What a fault of a message names of its text, an offset or a segment; and the files of a job, by their names.
ghost use Rattle.std.specs.Prelude.{◌≡◌, option_map};
ghost use Rattle.crp_jobs.specs.Names.{report_name};
ghost use Rattle.crp_jobs.specs.Placed.{again_named, message_named, offset_named, report_named, second_named, segment_named, sizes_named, sizes_of, yard_named};

use crate::job::{FileCommand, Job};
use crp_movins::MovinsFault;
use crp_sizes::Sizes;
use edi_text::EdiFault;

/// The offset that is named, in bytes from 0.
pub(crate) fn offset_named(fault: &EdiFault) -> Option<usize>
    ensures { result ≡ offset_named fault.now }
{
    match fault {
        EdiFault::NoSegment { offset }
        | EdiFault::Advice { offset }
        | EdiFault::Unfinished { offset }
        | EdiFault::Tag { offset }
        | EdiFault::Release { offset }
        | EdiFault::Control { offset }
        | EdiFault::TooLong { offset } => Some(*offset),
        EdiFault::Memory => None,
    }
}

/// The segment that is named, from 1; one past the last where the list ends too early.
pub(crate) fn segment_named(fault: &MovinsFault) -> Option<usize>
    ensures { result ≡ segment_named fault.now }
{
    match fault {
        MovinsFault::NoInterchangeHeader { segment }
        | MovinsFault::InterchangeHeader { segment }
        | MovinsFault::FunctionalGroup { segment }
        | MovinsFault::OutOfPlace { segment }
        | MovinsFault::MessageCount { segment }
        | MovinsFault::MessageReference { segment }
        | MovinsFault::InterchangeCount { segment }
        | MovinsFault::InterchangeReference { segment }
        | MovinsFault::AfterTrailer { segment }
        | MovinsFault::MessageType { segment }
        | MovinsFault::SlotNumber { segment }
        | MovinsFault::OrderedTwice { segment, .. }
        | MovinsFault::TooManyOrders { segment } => Some(*segment),
        MovinsFault::Memory => None,
    }
}

/// The segment of one that orders a container again, with the one that orders it first.
pub(crate) fn again_named(fault: &MovinsFault) -> Option<(usize, usize)>
    ensures { result ≡ again_named fault.now }
{
    match fault {
        MovinsFault::OrderedTwice { segment, first } => Some((*segment, *first)),
        MovinsFault::NoInterchangeHeader { .. }
        | MovinsFault::InterchangeHeader { .. }
        | MovinsFault::FunctionalGroup { .. }
        | MovinsFault::OutOfPlace { .. }
        | MovinsFault::MessageCount { .. }
        | MovinsFault::MessageReference { .. }
        | MovinsFault::InterchangeCount { .. }
        | MovinsFault::InterchangeReference { .. }
        | MovinsFault::AfterTrailer { .. }
        | MovinsFault::MessageType { .. }
        | MovinsFault::SlotNumber { .. }
        | MovinsFault::TooManyOrders { .. }
        | MovinsFault::Memory => None,
    }
}

/// The yard list of a job, by its name.
pub(crate) fn yard_named<'a>(job: &Job<'a>) -> Option<&'a str>
    ensures { option_map (λ name. name.now) result ≡ yard_named job.now }
{
    match job {
        Job::Solve { files, .. } => Some(files.yard),
        Job::Absent { files, .. } => Some(files.yard),
        Job::Audit { files, .. } => Some(files.yard),
        Job::Follow { files, .. } => Some(files.yard),
        Job::Compare { files, .. } => Some(files.yard),
        Job::OneFile { .. } => None,
    }
}

/// Its list of sizes.
pub(crate) fn sizes_named<'a>(job: &Job<'a>) -> Option<&'a str>
    ensures { option_map (λ name. name.now) result ≡ sizes_named job.now }
{
    match job {
        Job::Solve { files, .. } => files.sizes,
        Job::Absent { files, .. } => files.sizes,
        Job::Audit { files, .. } => files.sizes,
        Job::Follow { files, .. } => files.sizes,
        Job::Compare { files, .. } => files.sizes,
        Job::OneFile { .. } => None,
    }
}

/// The sizes of bays that it was given: those of all, where it names no list.
pub(crate) fn sizes_of<'a>(job: &'a Job<'_>) -> Option<&'a Sizes>
    ensures { option_map (λ sizes. sizes.now) result ≡ sizes_of job.now }
{
    match job {
        Job::Solve { settings, .. } => Some(settings.input().sizes()),
        Job::Absent { settings, .. } => Some(settings.sizes()),
        Job::Audit { settings, .. } => Some(settings.sizes()),
        Job::Follow { settings, .. } => Some(settings.sizes()),
        Job::Compare { settings, .. } => Some(settings.sizes()),
        Job::OneFile { .. } => None,
    }
}

/// Its message.
pub(crate) fn message_named<'a>(job: &Job<'a>) -> Option<&'a str>
    ensures { option_map (λ name. name.now) result ≡ message_named job.now }
{
    match job {
        Job::Solve { files, .. } => Some(files.movins),
        Job::Absent { files, .. } => Some(files.movins),
        Job::Audit { files, .. } => Some(files.movins),
        Job::Follow { files, .. } => files.movins,
        Job::Compare { .. } | Job::OneFile { .. } => None,
    }
}

/// A file of this name, unless it is read from the standard input.
pub(crate) fn report_name(report: &str) -> Option<&str>
    ensures { option_map (λ name. name.now) result ≡ report_name report.now }
{
    if report == "-" { None } else { Some(report) }
}

/// Its report.
pub(crate) fn report_named<'a>(job: &Job<'a>) -> Option<&'a str>
    ensures { option_map (λ name. name.now) result ≡ report_named job.now }
{
    match job {
        Job::Audit { files, .. } => Some(files.report),
        Job::Follow { files, .. } => report_name(files.report),
        Job::Compare { files, .. } => report_name(files.report),
        Job::OneFile { file, command, .. } => match command {
            FileCommand::Rewrite => report_name(file),
            FileCommand::Replay
            | FileCommand::Bound { .. }
            | FileCommand::Check { .. }
            | FileCommand::Prove(_) => None,
        },
        Job::Absent { .. } | Job::Solve { .. } => None,
    }
}

/// Its second report.
pub(crate) fn second_named<'a>(job: &Job<'a>) -> Option<&'a str>
    ensures { option_map (λ name. name.now) result ≡ second_named job.now }
{
    match job {
        Job::Compare { files, .. } => report_name(files.second),
        Job::OneFile { .. }
        | Job::Absent { .. }
        | Job::Audit { .. }
        | Job::Follow { .. }
        | Job::Solve { .. } => None,
    }
}
