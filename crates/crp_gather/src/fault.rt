use crp_tree::Name;
use std::alloc::AllocError;
use thiserror::Error;

/// Why parts make no certificate: the first of these faults that there is, each with the least name that has it.
#[derive(Debug, Drop, PartialEq, Eq, Error)]
pub enum GatherFault {
    /// Two parts have this name.
    #[error("G2 at {0}")]
    Double(Name),
    /// This name is needed, and no part has it: the root is needed, and so is each name that a part gives.
    #[error("G1 at {0}")]
    Missing(Name),
    /// The part of this name is not needed, or is about another problem.
    #[error("G3 at {0}")]
    Stranger(Name),
    /// No memory is left.
    #[error("no memory is left")]
    Memory,
}

impl From<AllocError> for GatherFault {
    ghost use Rattle.crp_gather.specs.declared.fault.GatherFault.TheVariants.{Memory};
    ghost use Rattle.std.specs.Prelude.{◌≡◌};

    ghost from_gives = { λ _ fault. fault ≡ Memory };

    fn from(_error: AllocError) -> GatherFault {
        GatherFault::Memory
    }
}
