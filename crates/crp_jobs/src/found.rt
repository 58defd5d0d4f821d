//! What a file looks like that was refused in the place of another, or where in it the fault stands: a line behind the advice.
ghost use Rattle.std.specs.Prelude.{IfSome};
ghost use Rattle.crp_jobs.specs.Found.{IsPlainText};
ghost use Rattle.crp_jobs.specs.FaultLines.{IsPlacedLine};

use crate::certificate_lines::{certificates_named, line_on_certificate};
use crate::job::Job;
use crate::list_lines::{line_on_sizes, line_on_yard};
use crate::message_lines::{line_on_interchange, line_on_message};
use crate::named::{message_named, report_named, second_named, sizes_named, yard_named};
use crate::outcome::ToolFault;
use crate::plain::FoundLine;
use crate::report_faults::{line_on_audit, line_on_follow, line_on_loading};
use crp_files::Files;
use crp_report::Fault;
use std::alloc::Global;

/// What the fault of an input is about, in a line. Of a list without its header, and of a message or a report that is none, what the
/// file looks like where that may tell more than the fault; otherwise the line of the file in which the record, the segment or the offset
/// stands that the fault names, and what stands there. Of a certificate behind others of its file, where it begins, and whose it is.
pub fn found_line<F: Files>(
    alloc: Global,
    files: &F,
    job: &Job<'_>,
    fault: &ToolFault,
) -> Option<FoundLine>
    ensures plain { IfSome result (λ line. IsPlainText line.items) }
    ensures placed { IfSome result (λ line. IsPlacedLine (F.known files.now) job.now fault.now line.items) }
{
    match fault {
        ToolFault::Run(Fault::Yard(fault)) => {
            line_on_yard(alloc, files, job, yard_named(job)?, fault)
        }
        ToolFault::Sizes(fault) => {
            line_on_sizes(alloc, files, job.separator(), sizes_named(job)?, fault)
        }
        ToolFault::Run(Fault::Interchange(fault)) => {
            line_on_interchange(alloc, files, message_named(job)?, fault)
        }
        ToolFault::Run(Fault::Message(fault)) => {
            line_on_message(alloc, files, message_named(job)?, fault)
        }
        ToolFault::Checked { number, .. } => {
            line_on_certificate(alloc, files, certificates_named(job)?, *number)
        }
        ToolFault::Followed(fault) => line_on_follow(alloc, files, job, report_named(job)?, fault),
        ToolFault::Second(fault) => line_on_follow(alloc, files, job, second_named(job)?, fault),
        ToolFault::Loaded(fault) => line_on_loading(alloc, files, report_named(job)?, fault),
        ToolFault::Audited(fault) => {
            line_on_audit(alloc, files, job, report_named(job)?, fault)
        },
        _ => None,
    }
}
