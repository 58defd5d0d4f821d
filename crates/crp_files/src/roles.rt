//! What files and streams are to a job, and two of them that are one file.
ghost use Rattle.std.specs.Prelude.{◌≡◌, IsTrue, IfNone, IfSome, option_map};
ghost use Rattle.crp_files.specs.declared.roles.Role.{Role};
ghost use Rattle.crp_files.specs.Roles.{AreOne, IsShared, MayBeOne, Share, must_differ};

use crate::files::Files;

/// The name that leads to what stands behind the standard input.
pub const STANDARD_INPUT: &str = "/dev/stdin";

/// The name that leads to what stands behind the standard output.
pub const STANDARD_OUTPUT: &str = "/dev/stdout";

/// The name that leads to what stands behind the standard error.
pub const STANDARD_ERROR: &str = "/dev/stderr";

/// What a file or a stream is to a job.
#[derive(Clone, Copy, Debug, PartialEq, Eq)]
pub enum Role {
    /// The yard list, which is read.
    YardList,
    /// The list of sizes, which is read.
    Sizes,
    /// The report, which is read.
    Report,
    /// The message, which is read.
    Message,
    /// The certificates, which are written.
    Certificates,
    /// The yard after the plans, or after the moves of a report, which is written.
    YardAfter,
    /// The page, which is written.
    Page,
    /// The standard input.
    StandardInput,
    /// The standard output.
    StandardOutput,
    /// The standard error.
    StandardError,
}

const ROLES: [Role; 10] = [
    Role::YardList,
    Role::Sizes,
    Role::Report,
    Role::Message,
    Role::Certificates,
    Role::YardAfter,
    Role::Page,
    Role::StandardInput,
    Role::StandardOutput,
    Role::StandardError,
];

/// Two roles, the first of which is one of a file that is written.
#[derive(Clone, Copy, Debug, PartialEq, Eq)]
pub struct Shared {
    /// That of the file that is written.
    pub written: Role,
    /// The other one.
    pub other: Role,
}

/// The names of what a job reads and writes.
pub trait JobNames {
    ghost use Rattle.std.specs.Prelude.{List, ℕ, Option};

    // The name of what has this role, if the job has such a file or uses such a stream.
    ghost named: { Self → Role → Option (List ℕ) };

    /// The name of what has this role, if the job has such a file or uses such a stream.
    fn name_of(&self, role: Role) -> Option<&str>
        ensures { option_map (λ name. name.now) result ≡ named self.now role };
}

// Whether the first file is written, and must be another than the second: one that is read, what stands behind a stream, or the other one
// that is written.
fn must_differ(written: Role, other: Role) -> bool
    ensures { result ≡ must_differ written other }
{
    match (written, other) {
        (Role::YardAfter, Role::Certificates | Role::Page) => true,
        (_, Role::Certificates | Role::YardAfter | Role::Page) => false,
        (Role::Certificates | Role::YardAfter | Role::Page, _) => true,
        _ => false,
    }
}

// Whether both names are given and lead to one file.
fn is_one<F: Files>(files: &F, name: Option<&str>, other: Option<&str>) -> bool
    ensures may { IsTrue result → MayBeOne (F.known files.now) (option_map (λ name. name.now) name.entry) (option_map (λ name. name.now) other.entry) }
    ensures must { AreOne (F.known files.now) (option_map (λ name. name.now) name.entry) (option_map (λ name. name.now) other.entry) → IsTrue result }
{
    match (name, other) {
        (Some(name), Some(other)) => files.is_one_file(name, other),
        _ => false,
    }
}

// Whether what has these roles must be two files, and is one.
fn is_shared<F: Files, N: JobNames>(files: &F, names: &N, written: Role, other: Role) -> bool
    ensures may { IsTrue result → Share (MayBeOne (F.known files.now)) (N.named names.now) written other }
    ensures must { Share (AreOne (F.known files.now)) (N.named names.now) written other → IsTrue result }
{
    must_differ(written, other) && is_one(files, names.name_of(written), names.name_of(other))
}

// What else the file is that is written in this role.
fn other_role<F: Files, N: JobNames>(files: &F, names: &N, written: Role) -> Option<Role>
    ensures some { IfSome result (Share (MayBeOne (F.known files.now)) (N.named names.now) written) }
    ensures none { IfNone result ((other : Role) → Share (AreOne (F.known files.now)) (N.named names.now) written other → ⊥) }
{
    for other in ROLES {
        if is_shared(files, names, written, other) {
            return Some(other);
        }
    }
    None
}

/// Two roles of one file, which is written in the first of them, where the names that the job has for them lead to one.
pub fn first_shared<F: Files, N: JobNames>(files: &F, names: &N) -> Option<Shared>
    ensures some { IfSome result (λ s. Share (MayBeOne (F.known files.now)) (N.named names.now) s.written s.other) }
    ensures none { IfNone result (IsShared (F.known files.now) (N.named names.now) → ⊥) }
{
    for written in ROLES {
        if let Some(other) = other_role(files, names, written) {
            return Some(Shared { written, other });
        }
    }
    None
}
