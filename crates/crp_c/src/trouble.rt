ghost use Rattle.std.specs.Prelude.{◌≡◌};
ghost use Rattle.crp_c.specs.Asked.{problem_number, search_number, number_of};

use crate::status::MEMORY;
use crp_plan::ProblemFault;
use crp_solve::SettingsFault;
use std::alloc::AllocError;

/// Why a bay is not solved.
#[derive(Clone, Copy, Debug, Drop)]
pub enum Trouble {
    /// No memory is left.
    Memory,
    /// The rows do not have the ranks that are counted, or some are left.
    Ranks,
    /// What is stated is no problem.
    Problem(ProblemFault),
    /// The bay has no such name.
    Bay,
    /// A flag is none of those that there are.
    Flags,
    /// What is chosen for the search is refused.
    Search(SettingsFault),
}

impl From<AllocError> for Trouble {
    ghost use Rattle.crp_c.specs.declared.trouble.Trouble.TheVariants.{Memory};

    ghost from_gives = { λ _ trouble. trouble ≡ Memory };

    fn from(_error: AllocError) -> Trouble {
        Trouble::Memory
    }
}

fn problem_number(fault: ProblemFault) -> u32
    ensures { result ≡ problem_number fault }
{
    match fault {
        ProblemFault::Rows => 11,
        ProblemFault::Tiers => 12,
        ProblemFault::TooHigh => 13,
        ProblemFault::Ranks => 14,
        ProblemFault::Ordered => 15,
    }
}

fn search_number(fault: SettingsFault) -> u32
    ensures { result ≡ search_number fault }
{
    match fault {
        SettingsFault::Workers => 21,
        SettingsFault::Budget => 22,
        SettingsFault::Split => 23,
        SettingsFault::Beam => 27,
        SettingsFault::Thin => 29,
    }
}

/// The number that a call returns for it.
pub(crate) fn number_of(trouble: Trouble) -> u32
    ensures { result ≡ number_of trouble }
{
    match trouble {
        Trouble::Memory => MEMORY,
        Trouble::Ranks => 3,
        Trouble::Bay => 4,
        Trouble::Flags => 5,
        Trouble::Problem(fault) => problem_number(fault),
        Trouble::Search(fault) => search_number(fault),
    }
}
