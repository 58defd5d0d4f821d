//! What is said of a fault of a report.
ghost use Rattle.std.specs.Prelude.{IfSome};
ghost use Rattle.crp_jobs.specs.Found.{IsPlainText};
ghost use Rattle.crp_jobs.specs.ReportFaults.{IsAuditLine, IsFollowLine, IsLoadingLine, IsSpellingLine, IsWrongLine};

use crate::job::Job;
use crate::move_words::Wrong;
use crate::moves::line_on_move;
use crate::other_settings::{line_on_misfit, line_on_numbers};
use crate::plain::FoundLine;
use crate::report_lines::{line_on_audited, line_on_followed, line_on_no_report};
use crp_audit::AuditFault;
use crp_files::Files;
use crp_follow::FollowFault;
use crp_loading::LoadingFault;
use std::alloc::Global;

// The line on a move that a crane cannot make, of which this is wrong.
fn line_on_wrong<F: Files>(
    alloc: Global,
    files: &F,
    job: &Job<'_>,
    name: &str,
    what: Wrong,
    number: u64,
) -> Option<FoundLine>
    ensures plain { IfSome result (λ line. IsPlainText line.items) }
    ensures said { IfSome result (λ line. IsWrongLine (F.known files.now) job.now ((F.known files.now).given name.now) what number line.items) }
{
    match line_on_move(alloc, files, job, name, what, number) {
        Some(line) => Some(line),
        None => line_on_followed(alloc, files, name, number),
    }
}

/// The line on a report that cannot be followed.
pub(crate) fn line_on_follow<F: Files>(
    alloc: Global,
    files: &F,
    job: &Job<'_>,
    name: &str,
    fault: &FollowFault,
) -> Option<FoundLine>
    ensures plain { IfSome result (λ line. IsPlainText line.items) }
    ensures said { IfSome result (λ line. IsFollowLine (F.known files.now) job.now ((F.known files.now).given name.now) fault.now line.items) }
{
    match fault {
        FollowFault::Orders { line } => match line_on_no_report(alloc, files, name) {
            Some(found) => Some(found),
            None => line_on_followed(alloc, files, name, *line),
        },
        FollowFault::NoLine { line }
        | FollowFault::Count { line }
        | FollowFault::NoBay { line }
        | FollowFault::Again { line }
        | FollowFault::Relocations { line } => line_on_followed(alloc, files, name, *line),
        FollowFault::Lift { line } => line_on_wrong(alloc, files, job, name, Wrong::Lift, *line),
        FollowFault::Container { line } => {
            line_on_wrong(alloc, files, job, name, Wrong::Container, *line)
        }
        FollowFault::SetDown { line } => {
            line_on_wrong(alloc, files, job, name, Wrong::SetDown, *line)
        }
        FollowFault::TooLong | FollowFault::Memory => None,
    }
}

/// The line on one that does not load the ship in its order.
pub(crate) fn line_on_loading<F: Files>(
    alloc: Global,
    files: &F,
    name: &str,
    fault: &LoadingFault,
) -> Option<FoundLine>
    ensures plain { IfSome result (λ line. IsPlainText line.items) }
    ensures said { IfSome result (λ line. IsLoadingLine ((F.known files.now).given name.now) fault.now line.items) }
{
    match fault {
        LoadingFault::OutOfOrder { line } | LoadingFault::NotOrdered { line } => {
            line_on_followed(alloc, files, name, *line)
        }
        LoadingFault::Memory => None,
    }
}

// The line on one of which this line is none of a report.
fn line_on_spelling<F: Files>(alloc: Global, files: &F, name: &str, line: u64) -> Option<FoundLine>
    ensures plain { IfSome result (λ found. IsPlainText found.items) }
    ensures said { IfSome result (λ found. IsSpellingLine ((F.known files.now).given name.now) line found.items) }
{
    if line == 1 {
        match line_on_no_report(alloc, files, name) {
            Some(found) => return Some(found),
            None => {}
        }
    }
    line_on_audited(alloc, files, name, line)
}

// The line on one whose three numbers are not those of the input.
fn line_on_other_numbers<F: Files>(
    alloc: Global,
    files: &F,
    job: &Job<'_>,
    name: &str,
) -> Option<FoundLine>
    ensures plain { IfSome result (λ line. IsPlainText line.items) }
    ensures said { IfSome result (λ line. IsAuditLine (F.known files.now) job.now ((F.known files.now).given name.now) AuditFault.Numbers line.items) }
{
    match line_on_numbers(alloc, files, job, name) {
        Some(line) => Some(line),
        None => line_on_audited(alloc, files, name, 1),
    }
}

// The line on one with a move at this line that is not legal there.
fn line_on_illegal<F: Files>(
    alloc: Global,
    files: &F,
    job: &Job<'_>,
    name: &str,
    line: u64,
) -> Option<FoundLine>
    ensures plain { IfSome result (λ found. IsPlainText found.items) }
    ensures said { IfSome result (λ found. IsAuditLine (F.known files.now) job.now ((F.known files.now).given name.now) (AuditFault.Move line) found.items) }
{
    match line_on_misfit(alloc, files, job, name, line) {
        Some(found) => Some(found),
        None => line_on_audited(alloc, files, name, line),
    }
}

/// The line on one that is audited.
pub(crate) fn line_on_audit<F: Files>(
    alloc: Global,
    files: &F,
    job: &Job<'_>,
    name: &str,
    fault: &AuditFault,
) -> Option<FoundLine>
    ensures plain { IfSome result (λ line. IsPlainText line.items) }
    ensures said { IfSome result (λ line. IsAuditLine (F.known files.now) job.now ((F.known files.now).given name.now) fault.now line.items) }
{
    match fault {
        AuditFault::Spelling { line } => line_on_spelling(alloc, files, name, *line),
        AuditFault::Numbers => line_on_other_numbers(alloc, files, job, name),
        AuditFault::Bay { line, .. } => line_on_audited(alloc, files, name, *line),
        AuditFault::Move { line } => line_on_illegal(alloc, files, job, name, *line),
        AuditFault::Plan { .. }
        | AuditFault::Certificate { .. }
        | AuditFault::Other { .. }
        | AuditFault::Lacking { .. }
        | AuditFault::LeftOver
        | AuditFault::Closing
        | AuditFault::Outside { .. }
        | AuditFault::Memory => None,
    }
}
