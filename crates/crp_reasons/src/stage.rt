ghost use Rattle.std.specs.Prelude.{◌≡◌};

use crate::step::Step;
use crp_thinning::{Follower, Thinned};

/// What comes next of reasons that are read byte by byte.
#[derive(Drop)]
pub enum Stage {
    /// The first digit of the number. The reasons are to close this position.
    Number { place: Thinned },
    /// More digits of the number, or the colon behind it.
    Digits { place: Thinned, number: u8 },
    /// The rest of the text, and the last bracket.
    Text { number: u8, follower: Follower },
    /// Nothing: the reasons are whole, and `shown` is whether they close the position.
    Whole { number: u8, shown: bool },
    /// Nothing: no reasons begin so.
    Refused,
}

impl Stage {
    ghost use Rattle.crp_reasons.specs.Rests.{step_of};
    ghost use Rattle.crp_reasons.specs.Stages.{left_at};

    /// What the last byte led to.
    pub fn step(&self) -> Step
        ensures { result ≡ step_of (left_at self.now) }
    {
        match self {
            Stage::Number { .. } | Stage::Digits { .. } | Stage::Text { .. } => Step::On,
            Stage::Whole { number, shown } => Step::Ended {
                number: *number,
                shown: *shown,
            },
            Stage::Refused => Step::Wrong,
        }
    }
}
