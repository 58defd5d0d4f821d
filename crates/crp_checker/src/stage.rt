use crate::findings::Findings;
use crate::line::SymbolLine;
use crp_cert::{CertFault, OpenHead};
use crp_plan::BayName;
use crp_tree::Name;

/// How far a checker that is fed has come in a certificate, and what it keeps for that.
#[derive(Drop)]
pub enum Stage {
    /// In the head.
    Head {
        head: OpenHead,
    },
    /// In the line after the head and some parts, of which these bytes came.
    Line {
        findings: Findings,
        begun: Vec<u8>,
    },
    /// In the symbols of a part of this name.
    Part {
        findings: Findings,
        name: Name,
        line: SymbolLine,
    },
    /// After the last line.
    Ended {
        findings: Findings,
    },
    /// After a fault that no further byte changes.
    Faulty {
        bay: Option<BayName>,
        fault: CertFault,
    },
}
