//! What to look at after a fault, in plain words: a line for each fault.
ghost use Rattle.crp_jobs.specs.Advice.{IsPlainLine};

use crate::certificate_advice::{advice_on_certificate, advice_on_plan, advice_on_refused};
use crate::follow_advice::{advice_on_follow, advice_on_loading, advice_on_unstated};
use crate::outcome::{Statement, ToolFault};
use crate::run_advice::advice_on_run;
use crate::sizes_advice::{SIZES_NOT_READ, advice_on_sizes};
use crp_audit::AuditFault;

pub(crate) const MEMORY: &str =
    "close other programs, or use a machine with more memory; solve and prove need less with a smaller --budget";

const CERTIFICATE_NOT_READ: &str =
    "the certificate could not be read: it must be there, be a file and no folder, and you must be allowed to read it";

// Of a report and its certificates.
fn advice_on_audit(fault: &AuditFault) -> &'static str
    ensures { IsPlainLine result.now }
{
    match fault {
        AuditFault::Spelling { .. } => {
            "this line is none of a report as crp solve prints it: a wrong word, blank, number or line end, or it is cut off"
        }
        AuditFault::Numbers => {
            "the report is about other orders or another yard: take the yard list, the message, --order and --code of its run"
        }
        AuditFault::Bay {
            wanted: Some(_),
            ..
        } =>
            "the line of this bay must stand here: bays from which containers leave, each once, in the yard's order",
        AuditFault::Bay { wanted: None, .. } => {
            "the last line must stand here: no container leaves from another bay"
        }
        AuditFault::Move { .. } => {
            "this move is not legal there, or names another row, tier or container than the one that moves"
        }
        AuditFault::Plan { .. } => {
            "the moves must take all ordered containers, with as many relocations as the line says; without a plan none may stand"
        }
        AuditFault::Certificate { .. } => {
            "the certificate of this bay does not prove it: K1 is one about another bay; crp check says more of the others"
        }
        AuditFault::Other { .. } => {
            "the certificate is accepted, but it is another bay's, or shows something else than the report says of this bay"
        }
        AuditFault::Lacking { .. } =>
            "the certificates end before that of this bay: one must be there for each bay",
        AuditFault::LeftOver =>
            "certificates are left over behind that of the last bay: one must be there for each bay",
        AuditFault::Closing =>
            "the last line must count the bays of the report, and those that are optimal or have no plan",
        AuditFault::Outside { .. } => {
            "nothing is claimed of this bay, whose moves are outside the rule: crp follow says whether a crane can make them"
        }
        AuditFault::Memory => MEMORY,
    }
}

/// What is wrong, or what must be, where a command ended with this fault: one line, which says the limit that was passed, or what to
/// look at.
pub fn advice_on(fault: &ToolFault) -> &'static str
    ensures { IsPlainLine result.now }
{
    match fault {
        ToolFault::Cert(fault) => advice_on_certificate(fault),
        ToolFault::Plan(fault) => advice_on_plan(fault),
        ToolFault::Checked { refused, .. } => advice_on_refused(refused),
        ToolFault::Audited(fault) => advice_on_audit(fault),
        ToolFault::Followed(fault) | ToolFault::Second(fault) => advice_on_follow(fault),
        ToolFault::Loaded(fault) => advice_on_loading(fault),
        ToolFault::Unstated(unstated) => advice_on_unstated(*unstated),
        ToolFault::Sizes(fault) => advice_on_sizes(fault),
        ToolFault::Run(fault) => advice_on_run(fault),
        ToolFault::ReadOf(Statement::Report) => {
            "the report could not be read: it must be there, be a file and no folder, and you must be allowed to read it"
        }
        ToolFault::ReadOf(Statement::Certificates) => CERTIFICATE_NOT_READ,
        ToolFault::ReadSizes => SIZES_NOT_READ,
        ToolFault::ReadSecond => {
            "the second report could not be read: it must be there, be a file and no folder, and you must be allowed to read it"
        }
        ToolFault::TooLargeOf(Statement::Report) => "a report may have at most 16777216 bytes",
        ToolFault::TooLargeOf(Statement::Certificates) => {
            "certificates may have at most 9223372036854775808 bytes"
        }
        ToolFault::Read => CERTIFICATE_NOT_READ,
        ToolFault::Write => {
            "the output could not be written: its disk must not be full, and the program that reads it must not have ended"
        }
        ToolFault::WriteTable => {
            "the table could not be written: its disk must not be full, and the program that reads it must not have ended"
        }
        ToolFault::WritePage => {
            "the page could not be written: the folder must be there and let you write, and its disk must not be full"
        }
        ToolFault::TooLarge => {
            "a file of certificates may have at most 268435456 bytes; crp check takes a larger one with --any-size"
        }
        ToolFault::OneFile(_) => {
            "each file needs a name of its own, since what is written is emptied first"
        }
        ToolFault::Memory => MEMORY,
    }
}
