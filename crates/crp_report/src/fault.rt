//! Why a run did not do what it was asked for.
ghost use Rattle.std.specs.Prelude.{◌≡◌, Some};
ghost use Rattle.crp_report.specs.Words.{input_words, output_words};
ghost use Rattle.crp_report.specs.BayTexts.{fault_of_yard, fault_of_interchange, fault_of_message};
ghost use Rattle.crp_report.specs.declared.fault.Fault.TheVariants.{Memory};

use crp_movins::MovinsFault;
use crp_yard::YardFault;
use edi_text::EdiFault;
use std::alloc::AllocError;
use std::fmt::{self, Display, Formatter, Write};
use thiserror::Error;

/// What a run reads.
#[derive(Clone, Copy, Debug, PartialEq, Eq)]
pub enum Input {
    /// The yard list.
    Yard,
    /// The message with the load orders.
    Movins,
}

impl Display for Input {
    ghost output = { λ source. Some (input_words source) };

    fn fmt<W: Write>(&self, f: &mut Formatter<W>) -> fmt::Result {
        match self {
            Input::Yard => f.write_str("the yard list"),
            Input::Movins => f.write_str("the message"),
        }
    }
}

/// What a run writes.
#[derive(Clone, Copy, Debug, PartialEq, Eq)]
pub enum Output {
    /// The report.
    Report,
    /// The certificates.
    Certificates,
    /// The yard list after the plans.
    YardAfter,
}

impl Display for Output {
    ghost output = { λ sink. Some (output_words sink) };

    fn fmt<W: Write>(&self, f: &mut Formatter<W>) -> fmt::Result {
        match self {
            Output::Report => f.write_str("the report"),
            Output::Certificates => f.write_str("the certificates"),
            Output::YardAfter => f.write_str("the yard after the plans"),
        }
    }
}

/// Why a run did not do what it was asked for.
#[derive(Clone, Copy, Debug, PartialEq, Eq, Error)]
pub enum Fault {
    /// The yard list is refused, with its first fault.
    #[error("{0}")]
    Yard(YardFault),
    /// The message is no interchange (ISO 9735), with its first fault.
    #[error("{0}")]
    Interchange(EdiFault),
    /// The message gives no load orders (UN/EDIFACT D.95B MOVINS), with its first fault.
    #[error("{0}")]
    Message(MovinsFault),
    /// A read failed, or was interrupted once too often.
    #[error("a read of {0} failed")]
    Read(Input),
    /// A write failed, took nothing, or was interrupted once too often.
    #[error("a write of {0} failed")]
    Write(Output),
    /// No memory is left.
    #[error("no memory is left")]
    Memory,
}

impl From<AllocError> for Fault {
    ghost from_gives = { λ _ fault. fault ≡ Memory };

    fn from(_error: AllocError) -> Fault {
        Fault::Memory
    }
}

impl From<YardFault> for Fault {
    ghost from_gives = { λ error fault. fault ≡ fault_of_yard error };

    fn from(error: YardFault) -> Fault {
        match error {
            YardFault::Read => Fault::Read(Input::Yard),
            YardFault::Memory => Fault::Memory,
            other => Fault::Yard(other),
        }
    }
}

impl From<EdiFault> for Fault {
    ghost from_gives = { λ error fault. fault ≡ fault_of_interchange error };

    fn from(error: EdiFault) -> Fault {
        match error {
            EdiFault::Memory => Fault::Memory,
            other => Fault::Interchange(other),
        }
    }
}

impl From<MovinsFault> for Fault {
    ghost from_gives = { λ error fault. fault ≡ fault_of_message error };

    fn from(error: MovinsFault) -> Fault {
        match error {
            MovinsFault::Memory => Fault::Memory,
            other => Fault::Message(other),
        }
    }
}
