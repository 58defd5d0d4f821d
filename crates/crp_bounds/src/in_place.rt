//! A position that is changed in place, with its bounds.
ghost use Rattle.std.specs.Prelude.{◌≡◌, ◌+◌, ◌-◌, ◌*◌, ◌<◌, ◌≤◌, ◌↔◌, ℕ, List, [], ◌∷◌, ◌++◌, IsTrue, IfSome, IfNone, Contains};
ghost use Rattle.std.specs.Bool.{OnTrue, OnFalse};
ghost use Rattle.crp_plan.specs.declared.moves.Move.{Move};
ghost use Rattle.crp_plan.specs.Bay.{Problem as Statement, start, IsProblem, IsAt, IsLegalRow, Completes, relocations};
ghost use Rattle.crp_bay.specs.Positions.{settled, child, targets, can_shift, stack_at};
ghost use Rattle.crp_bounds.specs.Bounds.{blocking as blocking_bound, look_ahead as look_ahead_bound};
ghost use Rattle.crp_bounds.specs.Leasts.{least_ordered};
ghost use Rattle.crp_bounds.specs.Moving.{IsMover};

use crate::blockers::blocking;
use crate::known::{least_of, leasts_of, mover_of, with_top};
use crate::mover::Mover;
use crate::scanning::{again_from, again_reaching};
use crate::undo::Undo;
use arrayvec::ArrayVec;
use crp_bay::Position;
use crp_plan::{MAX_RELOCATIONS, Problem};
use std::marker::Model;

/// A position that is changed in place, with its bounds. No call takes memory.
///
/// Of each container that stands it keeps the least ordered rank at or below it, and it keeps the blocking bound: a push
/// changes both by the container that it moves alone.
#[derive(Drop)]
pub struct Bounded {
    position: Position,
    // By rank, of what stands: the least ordered rank at or below it in its row.
    leasts: [u8; 97],
    blocking: u8,
    undos: ArrayVec<Undo, MAX_RELOCATIONS>,
}

impl Model for Bounded {
    ghost use Rattle.std.specs.Prelude.{reverse};
    ghost use Rattle.crp_bay.specs.Back.{PlaceAndTrail};

    ghost Value = { PlaceAndTrail };

    ghost use Rattle.crp_bounds.specs.Undoing.{KnowsAll};

    ghost view = { λ b. b.position };

    ghost invariant = { λ b. KnowsAll (reverse b.undos.items) b.position.trail b.leasts b.blocking b.position.place };
}

/// The blocking bound after a container that blocks went onto a stack with this least ordered rank.
#[inline]
fn blocking_with(blocking: u8, rank: u8, onto: u8) -> u8
    requires { rank ≤ onto → 1 ≤ blocking }
    ensures freed { rank ≤ onto → result + 1 ≡ blocking }
    ensures blocked { onto < rank → result ≡ blocking }
{
    if rank <= onto { blocking - 1 } else { blocking }
}

impl Bounded {
    /// The position before the first relocation, with nothing to undo.
    pub fn start(problem: &Problem) -> Bounded
        ensures at { IsAt problem.now [] result.place }
        ensures value { result ≡ record { place = settled (start problem.now); trail = [] } }
        ensures problem { IsProblem problem.now }
    {
        let position = Position::start(problem);
        let leasts = leasts_of(&position);
        let blocking = blocking(&position) as u8;
        Bounded {
            position,
            leasts,
            blocking,
            undos: ArrayVec::new(),
        }
    }

    /// The position as it is now.
    #[inline]
    pub fn position(&self) -> &Position
        ensures { result.now ≡ self.now }
    {
        &self.position
    }

    /// The container that every legal relocation moves, where one is left to leave.
    #[inline]
    pub fn mover(&self) -> Mover
        ensures { self.now.place.next ≤ self.now.place.ordered → IsMover result self.now.place }
    {
        mover_of(&self.position)
    }

    /// The least ordered rank of the stack that a legal relocation to the row goes to.
    #[inline]
    fn onto(&self, row: u8) -> u8
        requires { IsTrue (can_shift self.now.place row) }
        ensures { result ≡ least_ordered self.now.place.ordered (stack_at self.now.place (row - 1)) }
    {
        let position = &self.position;
        least_of(position.ordered(), &self.leasts, position.stack(row))
    }

    /// Relocates to the row and makes every retrieval that is legal then, where the relocation is legal; else it changes nothing.
    #[inline]
    pub fn push(&mut self, row: u8) -> bool
        ensures legal { (p : Statement) (path : List ℕ) → IsProblem p → IsAt p path self.old.place
            → (IsTrue result ↔ IsLegalRow p path row) }
        ensures at { OnTrue result ((p : Statement) (path : List ℕ) → IsProblem p
            → IsAt p path self.old.place → IsAt p (path ++ row ∷ []) self.new.place) }

        // What the definitions compute.
        ensures target { IsTrue result ↔ Contains (targets self.old.place) row }
        ensures pushed { OnTrue result (self.new ≡ record { place = child self.old.place row; trail = self.old.place ∷ self.old.trail }) }
        ensures refused { OnFalse result (self.new ≡ self.old) }
    {
        if !self.position.is_target(row) {
            return false;
        }
        let mover = self.mover();
        self.push_legal(mover, row);
        true
    }

    /// Relocates the container that every legal relocation moves to the row, where that is legal, and makes every retrieval that is
    /// legal then.
    #[inline]
    pub fn push_legal(&mut self, mover: Mover, row: u8)
        requires legal { IsTrue (can_shift self.old.place row) }
        requires mover { IsMover mover self.old.place }
        ensures { self.new ≡ record { place = child self.old.place row; trail = self.old.place ∷ self.old.trail } }
    {
        let rank = mover.rank;
        let onto = self.onto(row);
        let undo = Undo {
            rank,
            least: self.leasts[rank as usize],
            blocking: self.blocking,
        };
        let least = with_top(self.position.ordered(), rank, onto);
        let blocking = blocking_with(self.blocking, rank, onto);
        self.position.push_legal(mover.row, row);
        self.leasts[rank as usize] = least;
        self.blocking = blocking;
        self.undos.push(undo);
    }

    /// Undoes the last push that is not undone. Where there is none it changes nothing.
    #[inline]
    pub fn pop(&mut self) -> bool
        ensures popped { OnTrue result (self.old.trail ≡ self.new.place ∷ self.new.trail) }
        ensures none { OnFalse result (self.old.trail ≡ []) }
        ensures refused { OnFalse result (self.new ≡ self.old) }
    {
        let Some(undo) = self.undos.pop() else {
            return false;
        };
        let _popped = self.position.pop();
        self.leasts[undo.rank as usize] = undo.least;
        self.blocking = undo.blocking;
        true
    }

    /// The blocking bound of the position.
    #[inline]
    pub fn blocking(&self) -> u32
        ensures value { result ≡ blocking_bound self.now.place }
        ensures below_every_run { (moves : List Move) → Completes self.now.place moves → result ≤ relocations moves }
        ensures few { result ≤ 96 }
    {
        u32::from(self.blocking)
    }

    /// The blocking bound after a push of the container that moves to the row, which must be legal and is not made.
    #[inline]
    pub fn blocking_after(&self, mover: Mover, row: u8) -> u32
        requires legal { IsTrue (can_shift self.now.place row) }
        requires mover { IsMover mover self.now.place }
        ensures { result ≡ blocking_bound (child self.now.place row) }
    {
        u32::from(blocking_with(self.blocking, mover.rank, self.onto(row)))
    }

    /// The look-ahead bound of the position.
    pub fn look_ahead(&self) -> u32
        ensures value { result ≡ look_ahead_bound self.now.place }
        ensures below_every_run { (moves : List Move) → Completes self.now.place moves → result ≤ relocations moves }
        ensures few { result ≤ 96 + 96 * 96 }
    {
        let blocking = self.blocking();
        blocking + again_from(&self.position, &self.leasts, blocking)
    }

    /// The look-ahead bound of the position, or as much of it as is `enough`, where it reaches `need`. It stops counting as soon as
    /// it is known which.
    #[inline]
    pub fn look_ahead_reaching(&self, need: u32, enough: u32) -> Option<u32>
        ensures most { IfSome result (λ bound. bound ≤ look_ahead_bound self.now.place) }
        ensures all { IfSome result (λ bound. bound < enough → bound ≡ look_ahead_bound self.now.place) }
        ensures reached { IfSome result (λ bound. need ≤ bound) }
        ensures below { IfNone result (look_ahead_bound self.now.place < need) }
        ensures few { IfSome result (λ bound. bound ≤ 96 + 96 * 96) }
    {
        let blocking = self.blocking();
        let again = again_reaching(
            &self.position,
            &self.leasts,
            blocking,
            need.saturating_sub(blocking),
            enough.max(need).saturating_sub(blocking),
        )?;
        Some(blocking + again)
    }
}
