//! From a relocation to the next one: what leaves by itself, and what is passed over; and back.
ghost use Rattle.std.specs.Prelude.{◌≡◌, ℕ, suc, ◌≤◌, ◌<◌, ◌∷◌, length, IsTrue};
ghost use Rattle.std.specs.Bool.{OnTrue, OnFalse};
ghost use Rattle.crp_thinned.specs.Thinned.{settled_over};
ghost use Rattle.crp_thinned.specs.Missing.{IsSoundlyThin};
ghost use Rattle.crp_thinning.specs.Steps.{trail_of};

use crate::moving::is_on_top;
use crate::step::{Step, is_move};
use crate::track::Track;

/// One retrieval that is legal, or one rank that is missing and passed over; `false` where there is neither.
fn advance(track: &mut Track) -> bool
    ensures on { OnTrue result (settled_over track.new.place ≡ settled_over track.old.place) }
    ensures next { OnTrue result (track.new.place.next ≡ suc track.old.place.next) }
    ensures ordered { OnTrue result (track.new.place.ordered ≡ track.old.place.ordered) }
    ensures within { OnTrue result (track.old.place.next ≤ track.old.place.ordered) }
    ensures trail { OnTrue result (trail_of track.new.steps track.new.place ≡ trail_of track.old.steps track.old.place) }
    ensures over { OnFalse result (settled_over track.old.place ≡ track.old.place) }
    ensures same { OnFalse result (track.new ≡ track.old) }
    ensures few { OnFalse result (length track.old.steps ≤ 193) }
{
    let next = track.next();
    if next > track.ordered() {
        return false;
    }
    let row = track.source();
    let stacks = track.stacks();
    if row == stacks.len() {
        track.pass();
        return true;
    }
    if !is_on_top(next, stacks[row].ranks()) {
        return false;
    }
    track.take();
    true
}

/// Every retrieval that is legal, with each missing rank passed over.
pub fn settle(track: &mut Track)
    ensures place { track.new.place ≡ settled_over track.old.place }
    ensures few { length track.new.steps ≤ 193 }
    ensures trail { trail_of track.new.steps track.new.place ≡ trail_of track.old.steps track.old.place }
{
    while advance(track) {}
}

/// Goes back by one step; whether that was a relocation or a lift.
fn back_by_one(track: &mut Track) -> bool
    requires { 1 ≤ length (trail_of track.old.steps track.old.place) }
    ensures moved { OnTrue result (trail_of track.old.steps track.old.place ≡ track.new.place ∷ trail_of track.new.steps track.new.place) }
    ensures thin { OnTrue result (IsSoundlyThin track.new.place) }
    ensures settled { OnFalse result (trail_of track.old.steps track.old.place ≡ trail_of track.new.steps track.new.place) }
    ensures shorter { length track.new.steps < length track.old.steps }
{
    let Some(step) = track.back() else {
        unreachable!()
    };
    is_move(step)
}

/// Goes back to before the last relocation or lift.
pub fn go_back(track: &mut Track)
    requires { 1 ≤ length (trail_of track.old.steps track.old.place) }
    ensures before { trail_of track.old.steps track.old.place ≡ track.new.place ∷ trail_of track.new.steps track.new.place }
    ensures thin { IsSoundlyThin track.new.place }
{
    while !back_by_one(track) {}
}
