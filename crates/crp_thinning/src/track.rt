//! A thinned position that is changed in place by single steps.
ghost use Rattle.std.specs.Prelude.{◌≡◌, ℕ, ◌≤◌, ◌<◌, ◌↔◌, true, ◌-◌, List, [], ◌∷◌, ◌++◌, All, Contains, IsTrue, IsSome, IfSome, IfNone, Some, length, slice_get, slice_index_or};
ghost use Rattle.std.specs.Bool.{OnTrue, OnFalse};
ghost use Rattle.crp_plan.specs.Bay.{Position as Place};
ghost use Rattle.crp_bay.specs.Positions.{place, source, can_take, can_shift, taken, shifted, stack_at, top};
ghost use Rattle.crp_bay.specs.Located.{AreRowsOf};
ghost use Rattle.crp_bay.specs.Reached.{IsReached};
ghost use Rattle.crp_thinned.specs.Thinned.{is_missing, passed, lifted, good_rows};
ghost use Rattle.crp_thinned.specs.Missing.{IsSoundlyThin};
ghost use Rattle.crp_thinning.specs.Steps.{before, is_move, trail_of, IsFine};
ghost use Rattle.crp_thinning.specs.declared.step.Step.TheVariants.{Took, Passed, Put, Lifted};

use crate::stacks::Stacks;
use crate::starting::heights_of;
use crate::step::Step;
use arrayvec::ArrayVec;
use crp_bay::Position;
use crp_plan::{MAX_ROWS, Stack};
use std::marker::Model;

/// The most steps: each advances the turn, or frees a container that blocks.
pub const MAX_STEPS: usize = 256;

/// A thinned position on the way from one relocation to the next, and the steps that led to it.
#[derive(Drop)]
pub struct Track {
    heights: ArrayVec<u8, MAX_ROWS>,
    stacks: Stacks,
    ordered: u8,
    next: u8,
    steps: ArrayVec<Step, MAX_STEPS>,
}

impl Model for Track {
    ghost use Rattle.std.specs.Prelude.{reverse};
    ghost use Rattle.crp_bay.specs.Back.{place_of};
    ghost use Rattle.crp_thinning.specs.Steps.{PlaceAndSteps, AreKept};

    ghost Value = { PlaceAndSteps };

    ghost view = { λ t. record { place = place_of t.heights.items t.ordered t.next t.stacks; steps = reverse t.steps.items } };

    ghost invariant = { λ t. AreKept (reverse t.steps.items) (place_of t.heights.items t.ordered t.next t.stacks) };
}

impl Track {
    /// A position of a bay, with no steps to undo.
    pub fn start(position: &Position) -> Track
        ensures value { result ≡ record { place = position.now.place; steps = [] } }
        ensures reached { IsReached position.now.place }
    {
        Track {
            heights: heights_of(position),
            stacks: Stacks::of(position),
            ordered: position.ordered(),
            next: position.next(),
            steps: ArrayVec::new(),
        }
    }

    /// The rank whose turn it is; one more than `ordered` where none is left.
    #[inline]
    pub fn next(&self) -> u8
        ensures value { result ≡ self.now.place.next }
        ensures fine { IsFine (length self.now.steps) self.now.place }
    {
        self.next
    }

    /// How many ranks are to leave in all, those that are missing too.
    #[inline]
    pub fn ordered(&self) -> u8
        ensures value { result ≡ self.now.place.ordered }
        ensures fine { IsFine (length self.now.steps) self.now.place }
    {
        self.ordered
    }

    /// How high the rows may be.
    #[inline]
    pub fn heights(&self) -> &[u8]
        ensures value { result.now ≡ self.now.place.heights }
        ensures fine { IsFine (length self.now.steps) self.now.place }
    {
        self.heights.as_slice()
    }

    /// The stacks of the rows.
    #[inline]
    pub fn stacks(&self) -> &[Stack]
        ensures value { result.now ≡ self.now.place.stacks }
        ensures fine { IsFine (length self.now.steps) self.now.place }
    {
        self.stacks.as_slice()
    }

    /// By rank, of what stands: its row, from 0.
    #[inline]
    pub fn row_of(&self) -> &[u8; 256]
        ensures { AreRowsOf (length self.now.place.stacks) self.now.place.stacks result.now }
    {
        self.stacks.row_of()
    }

    /// The row, from 0, in which a rank stands; how many rows there are where it stands in none.
    #[inline]
    pub fn place_of_rank(&self, rank: u8) -> usize
        ensures value { result ≡ place rank self.now.place.stacks }
        ensures within { result ≤ length self.now.place.stacks }
        ensures few { result ≤ 12 }
    {
        self.stacks.place_of_rank(rank)
    }

    /// The row, from 0, in which the container stands whose turn it is; how many rows there are where it is missing.
    pub fn source(&self) -> usize
        ensures value { result ≡ source self.now.place }
        ensures within { result ≤ length self.now.place.stacks }
    {
        self.stacks.place_of_rank(self.next)
    }

    /// The container whose turn it is leaves.
    pub fn take(&mut self)
        requires { can_take self.old.place ≡ true }
        ensures value { self.new ≡ record { place = taken self.old.place; steps = Took (source self.old.place) ∷ self.old.steps } }
        ensures trail { trail_of self.new.steps self.new.place ≡ trail_of self.old.steps self.old.place }
    {
        let row = self.stacks.place_of_rank(self.next);
        let _rank = self.stacks.lift(row);
        self.next += 1;
        self.steps.push(Step::Took { row: row as u8 });
    }

    /// The turn goes to the rank after one that is missing.
    pub fn pass(&mut self)
        requires { is_missing self.old.place ≡ true }
        ensures value { self.new ≡ record { place = passed self.old.place; steps = Passed ∷ self.old.steps } }
        ensures trail { trail_of self.new.steps self.new.place ≡ trail_of self.old.steps self.old.place }
    {
        self.next += 1;
        self.steps.push(Step::Passed);
    }

    /// The blocker goes to a row, from 1, where it is well placed.
    pub fn put(&mut self, row: u8)
        requires thin { IsSoundlyThin self.old.place }
        requires good { Contains (good_rows self.old.place) row }
        ensures trail { trail_of self.new.steps self.new.place ≡ self.old.place ∷ trail_of self.old.steps self.old.place }
        ensures value { self.new ≡ record { place = shifted self.old.place row; steps = Put (source self.old.place) (row - 1) ∷ self.old.steps } }
    {
        let from = self.stacks.place_of_rank(self.next);
        let to = row - 1;
        let rank = self.stacks.lift(from);
        self.stacks.land(to, rank);
        self.steps.push(Step::Put {
            from: from as u8,
            to,
        });
    }

    /// The blocker is lifted out.
    pub fn lift(&mut self)
        requires thin { IsSoundlyThin self.old.place }
        requires left { self.old.place.next ≤ self.old.place.ordered }
        ensures trail { trail_of self.new.steps self.new.place ≡ self.old.place ∷ trail_of self.old.steps self.old.place }
        ensures value { self.new ≡ record { place = lifted self.old.place; steps = Lifted (source self.old.place) (top (stack_at self.old.place (source self.old.place))) ∷ self.old.steps } }
    {
        let from = self.stacks.place_of_rank(self.next);
        let rank = self.stacks.lift(from);
        self.steps.push(Step::Lifted {
            from: from as u8,
            rank,
        });
    }

    /// Goes back by one step.
    pub fn back(&mut self) -> Option<Step>
        ensures step { IfSome result (λ step. self.old.steps ≡ step ∷ self.new.steps) }
        ensures place { IfSome result (λ step. self.new.place ≡ before step self.old.place) }
        ensures thin { IfSome result (λ step. is_move step ≡ true → IsSoundlyThin self.new.place) }
        ensures none { IfNone result (self.old.steps ≡ []) }
        ensures same { IfNone result (self.new ≡ self.old) }
    {
        let step = self.steps.pop()?;
        match step {
            Step::Took { row } => {
                self.next -= 1;
                self.stacks.land(row, self.next);
            }
            Step::Passed => self.next -= 1,
            Step::Put { from, to } => {
                let rank = self.stacks.lift(to as usize);
                self.stacks.land(from, rank);
            }
            Step::Lifted { from, rank } => self.stacks.land(from, rank),
        }
        Some(step)
    }
}
