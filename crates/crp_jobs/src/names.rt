//! The names of the files of a job, by what they are to it.
ghost use Rattle.std.specs.Prelude.{◌≡◌, option_map};
ghost use Rattle.crp_jobs.specs.Names.{after_name, input_name, report_name};

use crate::job::{AfterFile, FollowFiles, RunFiles};
use crp_files::{JobNames, Role, STANDARD_ERROR, STANDARD_INPUT, STANDARD_OUTPUT};

// The file of a report that is followed. One named `-` is none.
fn report_name(report: &str) -> Option<&str>
    ensures { option_map (λ name. name.now) result ≡ report_name report.now }
{
    if report == "-" { None } else { Some(report) }
}

// The standard input, where a report of this name is read from it.
fn input_name(report: &str) -> Option<&'static str>
    ensures { option_map (λ name. name.now) result ≡ input_name report.now }
{
    if report == "-" {
        Some(STANDARD_INPUT)
    } else {
        None
    }
}

/// The file of the yard after the moves of a report, if it is wanted.
pub(crate) fn after_name(after: Option<AfterFile<'_>>) -> Option<&str>
    ensures { option_map (λ name. name.now) result ≡ after_name after.entry }
{
    match after {
        Some(after) => Some(after.name),
        None => None,
    }
}

impl JobNames for RunFiles<'_> {
    ghost use Rattle.crp_jobs.specs.Names.{named_in_run};

    ghost named = { named_in_run };

    fn name_of(&self, role: Role) -> Option<&str> {
        match role {
            Role::YardList => Some(self.yard),
            Role::Sizes => self.sizes,
            Role::Message => Some(self.movins),
            Role::Certificates => self.cert,
            Role::YardAfter => self.after,
            Role::StandardOutput => Some(STANDARD_OUTPUT),
            Role::StandardError => Some(STANDARD_ERROR),
            Role::Report | Role::Page | Role::StandardInput => None,
        }
    }
}

impl JobNames for FollowFiles<'_> {
    ghost use Rattle.crp_jobs.specs.Names.{named_in_follow};

    ghost named = { named_in_follow };

    fn name_of(&self, role: Role) -> Option<&str> {
        match role {
            Role::YardList => Some(self.yard),
            Role::Sizes => self.sizes,
            Role::Report => report_name(self.report),
            Role::Message => self.movins,
            Role::Page => self.page,
            Role::YardAfter => after_name(self.after),
            Role::StandardInput => input_name(self.report),
            Role::StandardOutput => Some(STANDARD_OUTPUT),
            Role::StandardError => Some(STANDARD_ERROR),
            Role::Certificates => None,
        }
    }
}
