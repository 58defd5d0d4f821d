//! What is said of a bay.

use crp_plan::BayName;

/// Why a bay is left open.
#[derive(Clone, Copy, Debug, PartialEq, Eq)]
pub enum SaidCause {
    /// The budget of its search was spent.
    Budget,
    /// Memory ran out in its search.
    Memory,
    /// The time of its search was over.
    Time,
    /// Its moves were edited, so no search ended with this plan.
    Edited,
}

/// What is said of the fewest relocations of a bay.
#[derive(Clone, Copy, Debug, PartialEq, Eq)]
pub enum Said {
    /// So many.
    Optimal(u32),
    /// So many, and that the printed plan is the first of those with as many.
    First(u32),
    /// That there is no plan.
    NoPlan,
    /// At least so many, and no more than the printed plan has, if there is one; and why the bay is left open.
    Between {
        lower: u32,
        upper: Option<u32>,
        cause: SaidCause,
    },
    /// That the printed moves, of which so many are relocations, were edited and are no plan by the restricted rule: nothing is said of the fewest.
    Outside(u32),
}

impl Said {
    ghost use Rattle.std.specs.Prelude.{◌≡◌};
    ghost use Rattle.crp_said.specs.Said.{is_settled, count_said};

    /// Whether it settles the bay.
    pub fn is_settled(self) -> bool
        ensures { result ≡ is_settled self }
    {
        !matches!(self, Said::Between { .. } | Said::Outside(_))
    }

    /// The relocations of the moves that are said to be printed, if any are.
    pub fn count(self) -> Option<u32>
        ensures { result ≡ count_said self }
    {
        match self {
            Said::Optimal(count) | Said::First(count) | Said::Outside(count) => Some(count),
            Said::NoPlan => None,
            Said::Between { upper, .. } => upper,
        }
    }
}

/// What is said of a bay: its name, its fewest relocations, and the lines of its moves.
#[derive(Drop)]
pub struct SaidBay {
    pub bay: BayName,
    pub said: Said,
    pub lines: Vec<u8>,
}
