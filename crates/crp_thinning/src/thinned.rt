//! A thinned position that is changed in place.
ghost use Rattle.std.specs.Prelude.{◌≡◌, ℕ, ◌≤◌, ◌<◌, ◌-◌, ◌∷◌, [], ◌↔◌, List, length, Contains, IsTrue};
ghost use Rattle.std.specs.Bool.{OnTrue, OnFalse};
ghost use Rattle.crp_bay.specs.Reached.{IsReached};
ghost use Rattle.crp_bay.specs.Positions.{source, stack_at};
ghost use Rattle.crp_bounds.specs.Bounds.{blocking as blocking_bound, look_ahead as look_ahead_bound};
ghost use Rattle.crp_thinned.specs.Thinned.{blocker as blocker_of, good_rows as rows_of, free_row as first_free, child_at, child_without};
ghost use Rattle.crp_thinned.specs.Missing.{IsSoundlyThin};
ghost use Rattle.crp_thinning.specs.Owed.{Task, EndsFamily};
ghost use Rattle.crp_thinning.specs.OneChain.{IsFair, GoesOn, StaysFair};
ghost use Rattle.crp_thinning.specs.EachRow.{AreGood};

use crate::counting::blocking;
use crate::reading::{Reading, Reads, read_symbol};
use crate::rows::{best_fit, blocker, free_row, good_rows};
use crate::scanning::stuck_reaches;
use crate::seeking::{MAX_FAMILY, find_family};
use crate::settling::{go_back, settle};
use crate::track::Track;
use arrayvec::ArrayVec;
use crp_bay::Position;
use crp_plan::MAX_ROWS;
use std::marker::Model;

/// A bay from which containers may have been lifted out for good, in which all that leaves by itself has left and each missing rank was
/// passed over. It is changed in place, and no call takes memory.
///
/// Contracts see where it stands, and its trail: the positions before each relocation and each lift that is not undone, the
/// latest first. Rows count from 1.
#[derive(Drop)]
pub struct Thinned {
    track: Track,
    // How many relocations and lifts are not undone.
    depth: u8,
    // How many containers block: each relocation and each lift frees one.
    blocking: u32,
}

impl Model for Thinned {
    ghost use Rattle.std.specs.Prelude.{length};
    ghost use Rattle.crp_bay.specs.Back.{PlaceAndTrail};
    ghost use Rattle.crp_thinning.specs.Steps.{trail_of, IsThinTrack};

    ghost Value = { PlaceAndTrail };

    ghost view = { λ t. record { place = t.track.place; trail = trail_of t.track.steps t.track.place } };

    ghost invariant = { λ t. IsThinTrack t.depth t.blocking t.track };
}

impl Thinned {
    /// A real position, with nothing to undo.
    pub fn of(position: &Position) -> Thinned
        ensures value { result ≡ record { place = position.now.place; trail = [] } }
        ensures reached { IsReached position.now.place }
    {
        let track = Track::start(position);
        let blocking = blocking(&track);
        Thinned {
            track,
            depth: 0,
            blocking,
        }
    }

    /// Whether every container that is to leave has left, or is missing.
    #[inline]
    pub fn is_done(&self) -> bool
        ensures done { IsTrue result ↔ (self.now.place.ordered < self.now.place.next) }
        ensures thin { IsSoundlyThin self.now.place }
    {
        self.track.next() > self.track.ordered()
    }

    /// Relocates the blocker to a row where it is well placed, one of `good_rows`.
    pub fn put(&mut self, row: u8)
        requires { Contains (rows_of self.old.place) row }
        ensures value { self.new ≡ record { place = child_at self.old.place row; trail = self.old.place ∷ self.old.trail } }
        ensures depth { length self.new.trail ≤ 193 }
    {
        self.track.put(row);
        settle(&mut self.track);
        self.depth += 1;
        self.blocking -= 1;
    }

    /// Lifts the blocker out.
    pub fn lift(&mut self)
        requires { self.old.place.next ≤ self.old.place.ordered }
        ensures value { self.new ≡ record { place = child_without self.old.place; trail = self.old.place ∷ self.old.trail } }
        ensures depth { length self.new.trail ≤ 193 }
    {
        self.track.lift();
        settle(&mut self.track);
        self.depth += 1;
        self.blocking -= 1;
    }

    /// Undoes the last relocation or lift that is not undone. Where there is none it changes nothing.
    pub fn undo(&mut self) -> bool
        ensures undone { OnTrue result (self.old.trail ≡ self.new.place ∷ self.new.trail) }
        ensures none { OnFalse result (self.old.trail ≡ []) }
        ensures refused { OnFalse result (self.new ≡ self.old) }
    {
        if self.depth == 0 {
            return false;
        }
        go_back(&mut self.track);
        self.depth -= 1;
        self.blocking += 1;
        true
    }

    /// The container that has to make way.
    pub fn blocker(&self) -> u8
        requires { self.now.place.next ≤ self.now.place.ordered }
        ensures { result ≡ blocker_of self.now.place }
    {
        blocker(&self.track)
    }

    /// The legal rows where the blocker is well placed, rising; none where nothing is left to leave.
    pub fn good_rows(&self) -> ArrayVec<u8, MAX_ROWS>
        ensures { result.items ≡ rows_of self.now.place }
    {
        good_rows(&self.track)
    }

    /// The first legal row where the blocker hinders nobody; 0 where there is none.
    pub fn free_row(&self) -> u8
        ensures value { result ≡ first_free self.now.place }
        ensures good { 1 ≤ result → Contains (rows_of self.now.place) result }
    {
        free_row(&self.track)
    }

    /// At which place among some of these rows, from 0, the one stands where the blocker fits best; 0 where there are none.
    pub(crate) fn best_fit(&self, rows: &[u8]) -> usize
        requires { AreGood self.now.place rows.now }
        ensures { result ≤ length rows.now }
    {
        best_fit(&self.track, rows)
    }

    /// Reads one symbol of a family.
    pub(crate) fn read_family(&self, reading: &mut Reading, symbol: u8) -> Reads
        requires { IsFair reading.old }
        ensures goes_on { (tasks : List Task) (text : List ℕ) → EndsFamily self.now.place reading.old tasks (symbol ∷ text) ↔ GoesOn result self.now.place reading.new tasks text }
        ensures fair { StaysFair result reading.new }
    {
        read_symbol(&self.track, reading, symbol)
    }

    /// Looks for a family whose chains gain so much, each with at most so many rows that are open to any of it, and writes its text.
    pub(crate) fn find_family(
        &self,
        wanted: u32,
        rows: u8,
        text: &mut ArrayVec<u8, MAX_FAMILY>,
    ) -> bool {
        find_family(&self.track, wanted, rows, text)
    }

    /// The blocking bound.
    pub fn blocking(&self) -> u32
        ensures value { result ≡ blocking_bound self.now.place }
        ensures few { result ≤ 96 }
    {
        self.blocking
    }

    /// Whether the look-ahead bound reaches a number.
    pub fn look_ahead_reaches(&self, need: u32) -> bool
        ensures { IsTrue result ↔ (need ≤ look_ahead_bound self.now.place) }
    {
        let stuck = need.saturating_sub(self.blocking);
        stuck_reaches(&self.track, self.blocking, stuck)
    }
}
