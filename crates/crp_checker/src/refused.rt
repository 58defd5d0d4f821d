ghost use Rattle.std.specs.Prelude.{◌≡◌, ◌⊎◌, IfOk};

use crate::path::Path;
use crp_cert::CertFault;
use crp_plan::PlanFault;
use std::alloc::{AllocError, Global};
use thiserror::Error;

/// Why a certificate is refused: the first fault, in this order. Symbols of a part count from 1.
#[derive(Debug, Drop, PartialEq, Eq, Error)]
pub enum Refused {
    /// The text is not as said.
    #[error("{0}")]
    Cert(CertFault),
    /// The problem is another than the one that was asked for.
    #[error("K1")]
    OtherProblem,
    /// The plan is refused.
    #[error("K2 ({0})")]
    Plan(PlanFault),
    /// The first best plan is claimed, and there is no plan, or one of another count than the bound.
    #[error("K2")]
    NoFirstPlan,
    /// The length of a cut's path and its bound are below what the cut needs: the claimed bound, and one more where the
    /// first best plan is claimed and the path comes before the plan's. Of this fault and the next two the first symbol
    /// decides, part by part.
    #[error("K3 at part {part} symbol {symbol}")]
    Low { part: Path, symbol: u64 },
    /// A branch stands at a finished position.
    #[error("K4 at part {part} symbol {symbol}")]
    Finished { part: Path, symbol: u64 },
    /// The reasons of a cut do not show what they are to show.
    #[error("K8 at part {part} symbol {symbol}")]
    Unshown { part: Path, symbol: u64 },
    /// The least name that is needed and has no part: the root is needed, and so is each name that a part gives.
    #[error("K5 at {name}")]
    Missing { name: Path },
    /// The least name of a part that is not needed.
    #[error("K6 at {name}")]
    Unneeded { name: Path },
    /// No memory is left.
    #[error("no memory is left")]
    Memory,
}

impl From<AllocError> for Refused {
    ghost use Rattle.crp_checker.specs.declared.refused.Refused.TheVariants.{Memory};

    ghost from_gives = { λ _ refused. refused ≡ Memory };

    fn from(_error: AllocError) -> Refused {
        Refused::Memory
    }
}

impl Refused {
    /// The same, in memory of its own.
    fn copied(&self, alloc: Global) -> Result<Refused, AllocError>
        ensures { IfOk result (λ refused. refused ≡ self.now) }
    {
        match self {
            Refused::Cert(fault) => Ok(Refused::Cert(*fault)),
            Refused::OtherProblem => Ok(Refused::OtherProblem),
            Refused::Plan(fault) => Ok(Refused::Plan(*fault)),
            Refused::NoFirstPlan => Ok(Refused::NoFirstPlan),
            Refused::Low { part, symbol } => {
                let part = Path::from_rows(alloc, part.rows())?;
                Ok(Refused::Low {
                    part,
                    symbol: *symbol,
                })
            }
            Refused::Finished { part, symbol } => {
                let part = Path::from_rows(alloc, part.rows())?;
                Ok(Refused::Finished {
                    part,
                    symbol: *symbol,
                })
            }
            Refused::Unshown { part, symbol } => {
                let part = Path::from_rows(alloc, part.rows())?;
                Ok(Refused::Unshown {
                    part,
                    symbol: *symbol,
                })
            }
            Refused::Missing { name } => {
                let name = Path::from_rows(alloc, name.rows())?;
                Ok(Refused::Missing { name })
            }
            Refused::Unneeded { name } => {
                let name = Path::from_rows(alloc, name.rows())?;
                Ok(Refused::Unneeded { name })
            }
            Refused::Memory => Ok(Refused::Memory),
        }
    }

    /// The same once more; or that no memory is left, where there is none for it.
    pub(crate) fn again(&self, alloc: Global) -> Refused
        ensures { (result ≡ self.now) ⊎ (result ≡ Refused.Memory) }
    {
        match self.copied(alloc) {
            Ok(refused) => refused,
            Err(_) => Refused::Memory,
        }
    }
}
