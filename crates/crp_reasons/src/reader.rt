//! A reader of reasons that is fed byte by byte.
ghost use Rattle.std.specs.Prelude.{◌≡◌, ℕ, List, [], ◌∷◌, ◌++◌};
ghost use Rattle.crp_plan.specs.Bay.{Position};
ghost use Rattle.crp_reasons.specs.Rests.{IsReading, Means};

use crate::feeding::go_on;
use crate::stage::Stage;
use crate::step::Step;
use crp_thinning::Thinned;
use std::marker::Model;

/// Reads reasons as they come, and takes no memory. Contracts see what is still to come: a caller that knows which bytes it fed so far
/// keeps `IsReading`, which says that the reader stands behind them.
#[derive(Drop)]
pub struct ReasonsReader {
    stage: Stage,
}

impl Model for ReasonsReader {
    ghost use Rattle.crp_reasons.specs.Rests.{Left};

    ghost Value = { Left };

    ghost use Rattle.crp_reasons.specs.Stages.{left_at};

    ghost view = { λ r. left_at r.stage };
}

impl ReasonsReader {
    /// Behind the first bracket of reasons, which are to show as many relocations at this position as their number says.
    pub fn begin(place: Thinned) -> ReasonsReader
        ensures { IsReading place.place [] result }
    {
        ReasonsReader {
            stage: Stage::Number { place },
        }
    }

    /// Reads one more byte. Behind the last bracket, and behind a byte with which no reasons begin, every byte is wrong.
    pub fn feed(&mut self, byte: u8) -> Step
        ensures reading { (place : Position) (front : List ℕ) → IsReading place front self.old → IsReading place (front ++ byte ∷ []) self.new }
        ensures means { (place : Position) (front : List ℕ) → IsReading place front self.old → Means place (front ++ byte ∷ []) result }
    {
        go_on(&mut self.stage, byte);
        self.stage.step()
    }
}
