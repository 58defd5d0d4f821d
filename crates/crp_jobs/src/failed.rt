//! Where a read or a write of a job failed, the file by its name or the standard input or output; and which of its files are one.
ghost use Rattle.std.specs.Prelude.{◌≡◌, Some, option_map};
ghost use Rattle.crp_jobs.specs.Advice.{failed_in_absent, failed_in_audit, failed_in_compare, failed_in_file, failed_in_follow, failed_in_run, failed_words, place_words, shared_words, source_words, stream_words};

use crate::job::{AbsentFiles, AuditFiles, CompareFiles, FollowFiles, Job, RunFiles};
use crate::names::after_name;
use crate::outcome::{Statement, ToolFault};
use crp_files::{JobNames, Role, Shared};
use crp_report::{Fault, Input, Output};
use std::fmt::{self, Display, Formatter, Write};

/// Where a read or a write failed, or which files are one, as the line of advice begins.
#[derive(Clone, Copy, Debug)]
pub enum Place<'a> {
    /// A file, by its name.
    File(&'a str),
    /// The standard input.
    StandardInput,
    /// The standard output.
    StandardOutput,
    /// One file, by two names.
    Names(&'a str, &'a str),
    /// One file, by a name, and as what stands behind a stream, in words.
    NameAndStream(&'a str, &'a str),
}

impl Display for Place<'_> {
    ghost output = { λ place. Some (place_words place) };

    fn fmt<W: Write>(&self, f: &mut Formatter<W>) -> fmt::Result {
        match self {
            Place::File(name) => write!(f, "look at the file {name}"),
            Place::StandardInput => f.write_str("look at the standard input"),
            Place::StandardOutput => f.write_str("look at the standard output"),
            Place::Names(name, other) => {
                write!(f, "the names {name} and {other} are of one file")
            }
            Place::NameAndStream(name, stream) => {
                write!(f, "the name {name} and {stream} are of one file")
            }
        }
    }
}

// What a job reads that is over this file, or follows this report.
fn source_of(file: &str) -> Place<'_>
    ensures { place_words result ≡ source_words file.now }
{
    if file == "-" {
        return Place::StandardInput;
    }
    Place::File(file)
}

// What a job over this file could not read or write.
fn place_in_file<'a>(file: &'a str, fault: &ToolFault) -> Option<Place<'a>>
    ensures { option_map place_words result ≡ failed_in_file file.now fault.now }
{
    match fault {
        ToolFault::Read | ToolFault::ReadOf(_) => Some(source_of(file)),
        ToolFault::Write => Some(Place::StandardOutput),
        ToolFault::Cert(_)
        | ToolFault::Plan(_)
        | ToolFault::Checked { .. }
        | ToolFault::Audited(_)
        | ToolFault::Followed(_)
        | ToolFault::Second(_)
        | ToolFault::Loaded(_)
        | ToolFault::Unstated(_)
        | ToolFault::Sizes(_)
        | ToolFault::ReadSizes
        | ToolFault::ReadSecond
        | ToolFault::Run(_)
        | ToolFault::WriteTable
        | ToolFault::WritePage
        | ToolFault::TooLargeOf(_)
        | ToolFault::TooLarge
        | ToolFault::OneFile(_)
        | ToolFault::Memory => None,
    }
}

// A standard stream, in words.
fn stream_words(role: Role) -> Option<&'static str>
    ensures { option_map (λ words. words.now) result ≡ stream_words role }
{
    match role {
        Role::StandardInput => Some("the standard input"),
        Role::StandardOutput => Some("the standard output"),
        Role::StandardError => Some("the standard error"),
        _ => None,
    }
}

// The two names of one file, or its name and the stream behind which it stands.
fn place_shared<'a, N: JobNames>(names: &'a N, shared: &Shared) -> Option<Place<'a>>
    ensures { option_map place_words result ≡ shared_words (N.named names.now) shared.now }
{
    let name = names.name_of(shared.written)?;
    if let Some(stream) = stream_words(shared.other) {
        return Some(Place::NameAndStream(name, stream));
    }
    let other = names.name_of(shared.other)?;
    Some(Place::Names(name, other))
}

// What a run over these files could not read or write.
fn place_in_run<'a>(names: &RunFiles<'a>, fault: &Fault) -> Option<Place<'a>>
    ensures { option_map place_words result ≡ failed_in_run names.now fault.now }
{
    match fault {
        Fault::Read(Input::Yard) => Some(Place::File(names.yard)),
        Fault::Read(Input::Movins) => Some(Place::File(names.movins)),
        Fault::Write(Output::Report) => Some(Place::StandardOutput),
        Fault::Write(Output::Certificates) => names.cert.map(Place::File),
        Fault::Write(Output::YardAfter) => names.after.map(Place::File),
        Fault::Yard(_) | Fault::Interchange(_) | Fault::Message(_) | Fault::Memory => None,
    }
}

// What an audit of these files could not read or write.
fn place_in_audit<'a>(names: &AuditFiles<'a>, fault: &ToolFault) -> Option<Place<'a>>
    ensures { option_map place_words result ≡ failed_in_audit names.now fault.now }
{
    match fault {
        ToolFault::Run(Fault::Read(Input::Yard)) => Some(Place::File(names.yard)),
        ToolFault::Run(Fault::Read(Input::Movins)) => Some(Place::File(names.movins)),
        ToolFault::ReadOf(Statement::Report) => Some(Place::File(names.report)),
        ToolFault::ReadOf(Statement::Certificates) => Some(Place::File(names.certificates)),
        ToolFault::ReadSizes => names.sizes.map(Place::File),
        ToolFault::Write => Some(Place::StandardOutput),
        _ => None,
    }
}

// What a list of the absent containers of these files could not read or write.
fn place_in_absent<'a>(names: &AbsentFiles<'a>, fault: &ToolFault) -> Option<Place<'a>>
    ensures { option_map place_words result ≡ failed_in_absent names.now fault.now }
{
    match fault {
        ToolFault::Run(Fault::Read(Input::Yard)) => Some(Place::File(names.yard)),
        ToolFault::Run(Fault::Read(Input::Movins)) => Some(Place::File(names.movins)),
        ToolFault::ReadSizes => names.sizes.map(Place::File),
        ToolFault::Write => Some(Place::StandardOutput),
        _ => None,
    }
}

// What could not be read or written where these files are followed.
fn place_in_follow<'a>(names: &FollowFiles<'a>, fault: &ToolFault) -> Option<Place<'a>>
    ensures { option_map place_words result ≡ failed_in_follow names.now fault.now }
{
    match fault {
        ToolFault::Run(Fault::Read(Input::Yard)) => Some(Place::File(names.yard)),
        ToolFault::Run(Fault::Read(Input::Movins)) => names.movins.map(Place::File),
        ToolFault::Run(Fault::Write(Output::YardAfter)) => after_name(names.after).map(Place::File),
        ToolFault::ReadOf(Statement::Report) => Some(source_of(names.report)),
        ToolFault::ReadSizes => names.sizes.map(Place::File),
        ToolFault::WriteTable => Some(Place::StandardOutput),
        ToolFault::WritePage => names.page.map(Place::File),
        _ => None,
    }
}

// What could not be read or written where these files are compared.
fn place_in_compare<'a>(names: &CompareFiles<'a>, fault: &ToolFault) -> Option<Place<'a>>
    ensures { option_map place_words result ≡ failed_in_compare names.now fault.now }
{
    match fault {
        ToolFault::Run(Fault::Read(Input::Yard)) => Some(Place::File(names.yard)),
        ToolFault::ReadOf(Statement::Report) => Some(source_of(names.report)),
        ToolFault::ReadSecond => Some(source_of(names.second)),
        ToolFault::ReadSizes => names.sizes.map(Place::File),
        ToolFault::WriteTable => Some(Place::StandardOutput),
        _ => None,
    }
}

/// What the job could not read or write, where the fault is that a read or a write failed, or that a file could not be opened; or which of
/// its files are one, where that is the fault.
pub fn place_of<'a>(job: &'a Job<'_>, fault: &ToolFault) -> Option<Place<'a>>
    ensures { option_map place_words result ≡ failed_words job.now fault.now }
{
    match job {
        Job::OneFile { file, .. } => place_in_file(file, fault),
        Job::Absent { files, .. } => place_in_absent(files, fault),
        Job::Audit { files, .. } => place_in_audit(files, fault),
        Job::Follow { files, .. } => match fault {
            ToolFault::OneFile(shared) => place_shared(files, shared),
            _ => place_in_follow(files, fault),
        },
        Job::Compare { files, .. } => place_in_compare(files, fault),
        Job::Solve { files, .. } => match fault {
            ToolFault::Run(fault) => place_in_run(files, fault),
            ToolFault::OneFile(shared) => place_shared(files, shared),
            ToolFault::ReadSizes => files.sizes.map(Place::File),
            _ => None,
        },
    }
}
