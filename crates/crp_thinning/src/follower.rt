//! A follower of the symbols of thinned branches, which is fed in pieces.
ghost use Rattle.std.specs.Prelude.{◌≡◌, ℕ, ◌↔◌, ◌∷◌, ◌++◌, [], List, IsTrue};
ghost use Rattle.std.specs.Bool.{OnTrue, OnFalse};
ghost use Rattle.crp_thinning.specs.Symbols.{Closes};
ghost use Rattle.crp_thinning.specs.Owed.{Trees, Refused, Takes};

use crate::follow::{follow_family, follow_tree};
use crate::path::Path;
use crate::reading::{Reading, begin_family};
use crate::stage::Stage;
use crate::thinned::Thinned;
use arrayvec::ArrayVec;
use std::marker::Model;

/// Follows the symbols of a tree with thinned branches as they come, and takes no memory. Contracts see what is still to come.
#[derive(Drop)]
pub struct Follower {
    path: Path,
    reading: Reading,
    stage: Stage,
}

impl Model for Follower {
    ghost use Rattle.crp_thinning.specs.Owed.{Following};
    ghost use Rattle.crp_thinning.specs.Branches.{following, IsKept};

    ghost Value = { Following };

    ghost view = { λ f. following f.stage f.path f.reading };

    ghost invariant = { λ f. IsKept f.stage f.path f.reading };
}

impl Follower {
    /// Before the symbols of a tree that has to show so much at a thinned position.
    pub fn new(place: Thinned, need: u32) -> Follower
        ensures { result ≡ Trees (record { place = place.place; need = need } ∷ []) }
    {
        Follower {
            path: Path {
                place,
                need,
                frames: ArrayVec::new(),
            },
            reading: begin_family(0),
            stage: Stage::Tree,
        }
    }

    /// Follows one more symbol. `false` where no tree goes on so that fits and shows what is needed; from then on none does.
    pub fn follow(&mut self, symbol: u8) -> bool
        ensures takes { (text : List ℕ) → Takes self.new text ↔ Takes self.old (symbol ∷ text) }
        ensures goes_on { OnTrue result (self.new ≡ Refused → ⊥) }
        ensures refused { OnFalse result (self.new ≡ Refused) }
    {
        self.stage = match self.stage {
            Stage::Tree => follow_tree(&mut self.path, &mut self.reading, symbol),
            Stage::Family => follow_family(&mut self.path, &mut self.reading, symbol),
            Stage::Done => Stage::Refused,
            Stage::Refused => Stage::Refused,
        };
        !self.stage.is_refused()
    }

    /// Follows more symbols. `false` where no tree goes on so that fits and shows what is needed; from then on none does.
    pub fn follow_all(&mut self, symbols: &[u8]) -> bool
        ensures takes { (text : List ℕ) → Takes self.new text ↔ Takes self.old (symbols.now ++ text) }
        ensures goes_on { OnTrue result (self.new ≡ Refused → ⊥) }
        ensures refused { OnFalse result (self.new ≡ Refused) }
    {
        for symbol in symbols {
            if !self.follow(*symbol) {
                return false;
            }
        }
        !self.stage.is_refused()
    }

    /// Whether nothing is still to come.
    pub fn is_done(&self) -> bool
        ensures { IsTrue result ↔ Takes self.now [] }
    {
        self.stage.is_done()
    }
}

/// Whether the symbols are those of a tree with thinned branches that fits at the position and shows at least what is needed.
pub fn follows_thinned(symbols: &[u8], place: Thinned, need: u32) -> bool
    ensures { IsTrue result ↔ Closes place.place need symbols.now }
{
    let mut follower = Follower::new(place, need);
    follower.follow_all(symbols) && follower.is_done()
}
