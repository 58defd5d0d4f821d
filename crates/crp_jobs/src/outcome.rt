//! How a command ends.
ghost use Rattle.std.specs.Prelude.{◌≡◌, Err, Some};
ghost use Rattle.crp_jobs.specs.declared.outcome.ToolFault.TheVariants.{Run};
ghost use Rattle.crp_jobs.specs.Advice.{statement_words};
ghost use Rattle.crp_jobs.specs.Outcomes.{exit_code};

use crp_audit::AuditFault;
use crp_cert::CertFault;
use crp_checker::Refused;
use crp_files::Shared;
use crp_follow::{FollowFault, Unstated};
use crp_loading::LoadingFault;
use crp_plan::{PlanFault, ReadFailed, ReadFault, WriteFailed};
use crp_report::{Fault, Status};
use crp_sizes::SizesFault;
use std::alloc::AllocError;
use std::fmt::{self, Display, Formatter, Write};
use thiserror::Error;

/// What an audit is about: what somebody's run states.
#[derive(Clone, Copy, Debug, PartialEq, Eq)]
pub enum Statement {
    /// The report.
    Report,
    /// The certificates.
    Certificates,
}

impl Display for Statement {
    ghost output = { λ which. Some (statement_words which) };

    fn fmt<W: Write>(&self, f: &mut Formatter<W>) -> fmt::Result {
        match self {
            Statement::Report => f.write_str("the report"),
            Statement::Certificates => f.write_str("the certificates"),
        }
    }
}

/// Why a command did not do what it was asked for.
#[derive(Debug, Drop, PartialEq, Eq, Error)]
pub enum ToolFault {
    /// The bytes begin with no certificate's head.
    #[error("{0}")]
    Cert(CertFault),
    /// The rows of a head's plan are the path of no complete plan.
    #[error("{0}")]
    Plan(PlanFault),
    /// A certificate of a file is refused, by its number from 1.
    #[error("certificate {number}: {refused}")]
    Checked { number: u64, refused: Refused },
    /// A report and its certificates are refused, with their first fault.
    #[error("{0}")]
    Audited(AuditFault),
    /// A report cannot be followed, with its first fault.
    #[error("{0}")]
    Followed(FollowFault),
    /// The second of two reports that are compared cannot be followed, with its first fault.
    #[error("the second report: {0}")]
    Second(FollowFault),
    /// The takes of a report that is followed do not load the ship in its order, with the first fault.
    #[error("{0}")]
    Loaded(LoadingFault),
    /// A report that is followed has not what is named as the part of it that is wanted.
    #[error("{0}")]
    Unstated(Unstated),
    /// A run over a yard did not do what it was asked for.
    #[error("{0}")]
    Run(Fault),
    /// A list of sizes is refused, with its first fault.
    #[error("{0}")]
    Sizes(SizesFault),
    /// A read of a list of sizes failed, or was interrupted once too often; also a file that cannot be opened.
    #[error("a read of the list of sizes failed")]
    ReadSizes,
    /// A read failed, or was interrupted once too often; also a file that cannot be opened.
    #[error("a read failed")]
    Read,
    /// A write failed, took nothing, or was interrupted once too often.
    #[error("a write failed")]
    Write,
    /// A write of the table of a report's moves failed, took nothing, or was interrupted once too often.
    #[error("a write of the table failed")]
    WriteTable,
    /// A write of the page of a report's moves failed, took nothing, or was interrupted once too often; also a file that cannot be made.
    #[error("a write of the page failed")]
    WritePage,
    /// A read of what is audited or followed failed, or was interrupted once too often; also a file that cannot be opened.
    #[error("a read of {0} failed")]
    ReadOf(Statement),
    /// A read of the second of two reports failed, or was interrupted once too often; also a file that cannot be opened.
    #[error("a read of the second report failed")]
    ReadSecond,
    /// What is audited has more bytes than are allowed.
    #[error("{0}: too many bytes")]
    TooLargeOf(Statement),
    /// The input has more bytes than are allowed.
    #[error("the input is too large")]
    TooLarge,
    /// A file that is written is another one of the job's files, or stands behind a standard stream. It was not emptied.
    #[error("S8")]
    OneFile(Shared),
    /// No memory is left.
    #[error("no memory is left")]
    Memory,
}

impl From<AllocError> for ToolFault {
    ghost use Rattle.crp_jobs.specs.declared.outcome.ToolFault.TheVariants.{Memory};

    ghost from_gives = { λ _ fault. fault ≡ Memory };

    fn from(_error: AllocError) -> ToolFault {
        ToolFault::Memory
    }
}

impl From<ReadFault> for ToolFault {
    ghost use Rattle.crp_jobs.specs.Outcomes.{fault_of_read};

    ghost from_gives = { λ error fault. fault ≡ fault_of_read error };

    fn from(error: ReadFault) -> ToolFault {
        match error {
            ReadFault::Failed => ToolFault::Read,
            ReadFault::TooLarge => ToolFault::TooLarge,
            ReadFault::Memory => ToolFault::Memory,
        }
    }
}

impl From<ReadFailed> for ToolFault {
    ghost use Rattle.crp_jobs.specs.declared.outcome.ToolFault.TheVariants.{Read};

    ghost from_gives = { λ _ fault. fault ≡ Read };

    fn from(_error: ReadFailed) -> ToolFault {
        ToolFault::Read
    }
}

impl From<WriteFailed> for ToolFault {
    ghost use Rattle.crp_jobs.specs.declared.outcome.ToolFault.TheVariants.{Write};

    ghost from_gives = { λ _ fault. fault ≡ Write };

    fn from(_error: WriteFailed) -> ToolFault {
        ToolFault::Write
    }
}

impl From<CertFault> for ToolFault {
    ghost use Rattle.crp_jobs.specs.Outcomes.{fault_of_cert};

    ghost from_gives = { λ error fault. fault ≡ fault_of_cert error };

    fn from(error: CertFault) -> ToolFault {
        match error {
            CertFault::Memory => ToolFault::Memory,
            other => ToolFault::Cert(other),
        }
    }
}

impl From<AuditFault> for ToolFault {
    ghost use Rattle.crp_jobs.specs.Outcomes.{fault_of_audit};

    ghost from_gives = { λ error fault. fault ≡ fault_of_audit error };

    fn from(error: AuditFault) -> ToolFault {
        match error {
            AuditFault::Memory => ToolFault::Memory,
            other => ToolFault::Audited(other),
        }
    }
}

impl From<FollowFault> for ToolFault {
    ghost use Rattle.crp_jobs.specs.Outcomes.{fault_of_follow};

    ghost from_gives = { λ error fault. fault ≡ fault_of_follow error };

    fn from(error: FollowFault) -> ToolFault {
        match error {
            FollowFault::Memory => ToolFault::Memory,
            other => ToolFault::Followed(other),
        }
    }
}

impl From<LoadingFault> for ToolFault {
    ghost use Rattle.crp_jobs.specs.Outcomes.{fault_of_loading};

    ghost from_gives = { λ error fault. fault ≡ fault_of_loading error };

    fn from(error: LoadingFault) -> ToolFault {
        match error {
            LoadingFault::Memory => ToolFault::Memory,
            other => ToolFault::Loaded(other),
        }
    }
}

impl From<SizesFault> for ToolFault {
    ghost use Rattle.crp_jobs.specs.Outcomes.{fault_of_sizes};

    ghost from_gives = { λ error fault. fault ≡ fault_of_sizes error };

    fn from(error: SizesFault) -> ToolFault {
        match error {
            SizesFault::Memory => ToolFault::Memory,
            SizesFault::Read => ToolFault::ReadSizes,
            other => ToolFault::Sizes(other),
        }
    }
}

impl From<PlanFault> for ToolFault {
    ghost use Rattle.crp_jobs.specs.declared.outcome.ToolFault.TheVariants.{Plan};

    ghost from_gives = { λ error fault. fault ≡ Plan error };

    fn from(error: PlanFault) -> ToolFault {
        ToolFault::Plan(error)
    }
}

impl From<Fault> for ToolFault {
    ghost use Rattle.crp_jobs.specs.declared.outcome.ToolFault.TheVariants.{Run};

    ghost from_gives = { λ error fault. fault ≡ Run error };

    fn from(error: Fault) -> ToolFault {
        ToolFault::Run(error)
    }
}

// The exit status where a run over a yard has not done what it was asked for.
fn exit_of_run(fault: &Fault) -> u8
    ensures { result ≡ exit_code (Err (Run fault.now)) }
{
    match fault {
        Fault::Yard(_) | Fault::Interchange(_) | Fault::Message(_) => 3,
        Fault::Memory => 4,
        Fault::Read(_) | Fault::Write(_) => 5,
    }
}

/// The exit status of the program.
pub fn exit_of(answer: &Result<Status, ToolFault>) -> u8
    ensures { result ≡ exit_code answer.now }
{
    match answer {
        Ok(Status::Decided) => 0,
        Ok(Status::Budget) => 1,
        Err(ToolFault::OneFile(_)) => 2,
        Err(
            ToolFault::TooLarge
            | ToolFault::TooLargeOf(_)
            | ToolFault::Followed(_)
            | ToolFault::Second(_)
            | ToolFault::Loaded(_)
            | ToolFault::Unstated(_)
            | ToolFault::Sizes(_),
        ) => 3,
        Ok(Status::Memory) | Err(ToolFault::Memory) => 4,
        Err(
            ToolFault::Read
            | ToolFault::ReadOf(_)
            | ToolFault::ReadSecond
            | ToolFault::ReadSizes
            | ToolFault::Write
            | ToolFault::WriteTable
            | ToolFault::WritePage,
        ) => 5,
        Err(ToolFault::Run(fault)) => exit_of_run(fault),
        Err(
            ToolFault::Cert(_)
            | ToolFault::Plan(_)
            | ToolFault::Checked { .. }
            | ToolFault::Audited(_),
        ) => 6,
    }
}
