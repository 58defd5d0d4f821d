ghost use Rattle.std.specs.Prelude.{◌≡◌, ℕ, ◌-◌, ◌+◌, ◌<◌, ◌≤◌, ◌↔◌, List, [], ◌∷◌, ◌++◌, All, Contains, IsTrue, IsSome, IfSome, Some, length, slice_get};
ghost use Rattle.std.specs.Bool.{OnTrue, OnFalse};
ghost use Rattle.std.specs.List.Sorted.{IsStrictlyIncreasing};
ghost use Rattle.crp_plan.specs.Bay.{Problem as Statement, IsProblem, IsAt, IsFinished, start, IsLegalRow};
ghost use Rattle.crp_bay.specs.Positions.{place, source, settled, child, targets, can_shift};
ghost use Rattle.crp_bay.specs.Reached.{IsReached, HasRoom};

use crate::moving::{go_back, land, lift, settle};
use crate::push::Push;
use crate::starting::rows_of;
use arrayvec::ArrayVec;
use crp_plan::{MAX_RELOCATIONS, MAX_ROWS, Problem, Stack, heights_again, stacks_again};
use std::marker::Model;

/// A position of a bay in which every retrieval that is legal has been made. It is changed in place, and no call takes memory.
///
/// Contracts see where it stands, and its trail: the positions before each push that is not undone, the latest first. Rows count
/// from 1, and so do ranks; a stack is read from bottom to top.
#[derive(Drop)]
pub struct Position {
    heights: ArrayVec<u8, MAX_ROWS>,
    stacks: ArrayVec<Stack, MAX_ROWS>,
    ordered: u8,
    next: u8,
    // By rank: the row, from 0, in which it stands, or stood when it left.
    row_of: [u8; 97],
    pushes: ArrayVec<Push, MAX_RELOCATIONS>,
}

impl Model for Position {
    ghost use Rattle.std.specs.Prelude.{reverse};
    ghost use Rattle.crp_bay.specs.Back.{PlaceAndTrail, trail_of, place_of};
    ghost use Rattle.crp_bay.specs.Located.{IsKeptPosition};

    ghost Value = { PlaceAndTrail };

    ghost view = { λ p. record {
      place = place_of p.heights.items p.ordered p.next p.stacks.items;
      trail = trail_of (reverse p.pushes.items) p.row_of (place_of p.heights.items p.ordered p.next p.stacks.items);
    } };

    ghost invariant = { λ p. IsKeptPosition p.pushes.items p.row_of (place_of p.heights.items p.ordered p.next p.stacks.items) };
}

impl Position {
    /// The position at the empty path: before the first relocation, with nothing to undo.
    pub fn start(problem: &Problem) -> Position
        ensures at { IsAt problem.now [] result.place }
        ensures value { result ≡ record { place = settled (start problem.now); trail = [] } }
        ensures problem { IsProblem problem.now }
    {
        let ordered = problem.ordered();
        let heights = heights_again(problem.heights());
        let mut stacks = stacks_again(problem.stacks());
        let row_of = rows_of(stacks.as_slice());
        let next = settle(
            heights.as_slice(),
            ordered,
            1,
            &row_of,
            stacks.as_mut_slice(),
        );
        Position {
            heights,
            stacks,
            ordered,
            next,
            row_of,
            pushes: ArrayVec::new(),
        }
    }

    /// The position after one relocation to the row, and the retrievals that are legal then, with nothing to undo. `None`
    /// exactly where that relocation is not legal.
    pub fn child(&self, row: u8) -> Option<Position>
        ensures legal { (p : Statement) (path : List ℕ) → IsProblem p → IsAt p path self.now.place
            → (IsSome result ↔ IsLegalRow p path row) }
        ensures at { IfSome result (λ t. (p : Statement) (path : List ℕ) → IsProblem p
            → IsAt p path self.now.place → IsAt p (path ++ row ∷ []) t.place) }

        // What the definitions compute.
        ensures target { IsSome result ↔ Contains (targets self.now.place) row }
        ensures value { IfSome result (λ t. t ≡ record { place = child self.now.place row; trail = [] }) }
    {
        let mut copy = self.copy();
        if !copy.push(row) {
            return None;
        }
        copy.forget();
        Some(copy)
    }

    /// The same position with nothing to undo.
    fn copy(&self) -> Position
        ensures { result ≡ record { place = self.now.place; trail = [] } }
    {
        Position {
            heights: heights_again(self.heights.as_slice()),
            stacks: stacks_again(self.stacks.as_slice()),
            ordered: self.ordered,
            next: self.next,
            row_of: self.row_of,
            pushes: ArrayVec::new(),
        }
    }

    /// Leaves nothing to undo.
    fn forget(&mut self)
        ensures { self.new ≡ record { place = self.old.place; trail = [] } }
    {
        self.pushes.clear();
    }

    /// Relocates to the row and makes every retrieval that is legal then, where the relocation is legal; else it changes nothing.
    #[inline]
    pub fn push(&mut self, row: u8) -> bool
        ensures legal { (p : Statement) (path : List ℕ) → IsProblem p → IsAt p path self.old.place
            → (IsTrue result ↔ IsLegalRow p path row) }
        ensures at { OnTrue result ((p : Statement) (path : List ℕ) → IsProblem p
            → IsAt p path self.old.place → IsAt p (path ++ row ∷ []) self.new.place) }

        // What the definitions compute.
        ensures target { IsTrue result ↔ Contains (targets self.old.place) row }
        ensures pushed { OnTrue result (self.new ≡ record { place = child self.old.place row; trail = self.old.place ∷ self.old.trail }) }
        ensures refused { OnFalse result (self.new ≡ self.old) }
    {
        if !self.is_target(row) {
            return false;
        }
        let from = self.row_of(self.next());
        self.push_legal(from, row);
        true
    }

    /// Relocates from the row in which the next container stands to the other, where that is legal, and makes every retrieval that is
    /// legal then.
    #[inline]
    pub fn push_legal(&mut self, from: u8, row: u8)
        requires legal { IsTrue (can_shift self.old.place row) }
        requires from { from ≡ source self.old.place + 1 }
        ensures pushed { self.new ≡ record { place = child self.old.place row; trail = self.old.place ∷ self.old.trail } }
        ensures few { length self.new.trail ≤ 672 }
    {
        let next = self.next;
        let left = from - 1;
        let to = row - 1;
        let stacks = self.stacks.as_mut_slice();
        let rank = lift(left as usize, stacks);
        land(to as usize, rank, stacks);
        self.row_of[rank as usize] = to;
        self.next = settle(
            self.heights.as_slice(),
            self.ordered,
            next,
            &self.row_of,
            stacks,
        );
        self.pushes.push(Push {
            from: left,
            to,
            next,
        });
    }

    /// Undoes the last push that is not undone. Where there is none it changes nothing.
    #[inline]
    pub fn pop(&mut self) -> bool
        ensures popped { OnTrue result (self.old.trail ≡ self.new.place ∷ self.new.trail) }
        ensures none { OnFalse result (self.old.trail ≡ []) }
        ensures refused { OnFalse result (self.new ≡ self.old) }
    {
        let Some(push) = self.pushes.pop() else {
            return false;
        };
        let stacks = self.stacks.as_mut_slice();
        go_back(
            self.heights.as_slice(),
            self.ordered,
            push.next,
            self.next,
            &self.row_of,
            stacks,
        );
        let rank = lift(push.to as usize, stacks);
        land(push.from as usize, rank, stacks);
        self.row_of[rank as usize] = push.from;
        self.next = push.next;
        true
    }

    /// Whether every container that is to leave has left.
    #[inline]
    pub fn is_done(&self) -> bool
        ensures done { IsTrue result ↔ IsFinished self.now.place }
    {
        self.next > self.ordered
    }

    /// The rank of the container whose turn it is; one more than `ordered` where none is left.
    #[inline]
    pub fn next(&self) -> u8
        ensures value { result ≡ self.now.place.next }
        ensures reached { IsReached self.now.place }
    {
        self.next
    }

    /// How many containers are to leave in all.
    #[inline]
    pub fn ordered(&self) -> u8
        ensures value { result ≡ self.now.place.ordered }
        ensures reached { IsReached self.now.place }
    {
        self.ordered
    }

    /// How many rows the bay has.
    #[inline]
    pub fn rows(&self) -> u8
        ensures value { result ≡ length self.now.place.heights }
        ensures few { result ≤ 12 }
        ensures reached { IsReached self.now.place }
    {
        self.heights.len() as u8
    }

    /// How many containers the row can hold. The row must be there.
    #[inline]
    pub fn height(&self, row: u8) -> u8
        requires counts { 1 ≤ row }
        requires there { row ≤ length self.now.place.heights }
        ensures value { slice_get self.now.place.heights (row - 1) ≡ Some result }
        ensures reached { IsReached self.now.place }
    {
        self.heights[row as usize - 1]
    }

    /// The ranks of the row from bottom to top. The row must be there.
    #[inline]
    pub fn stack(&self, row: u8) -> &[u8]
        requires counts { 1 ≤ row }
        requires there { row ≤ length self.now.place.heights }
        ensures value { slice_get self.now.place.stacks (row - 1) ≡ Some result.now }
        ensures low { length result.now ≤ 8 }
        ensures ranks { All (λ rank. rank ≤ 96) result.now }
        ensures reached { IsReached self.now.place }
    {
        self.stacks[row as usize - 1].ranks()
    }

    /// The row in which a container stands that has not left yet and is to leave.
    #[inline]
    pub fn row_of(&self, rank: u8) -> u8
        requires waits { self.now.place.next ≤ rank }
        requires leaves { rank ≤ self.now.place.ordered }
        ensures value { result ≡ place rank self.now.place.stacks + 1 }
        ensures there { result ≤ length self.now.place.heights }
    {
        self.row_of[rank as usize] + 1
    }

    /// The index of the row, from 0, in which a container stands that has not left yet and is to leave, and the ranks of that row from
    /// bottom to top.
    #[inline]
    pub fn stack_of(&self, rank: u8) -> (usize, &[u8])
        requires waits { self.now.place.next ≤ rank }
        requires leaves { rank ≤ self.now.place.ordered }
        ensures index { result.0 ≡ place rank self.now.place.stacks }
        ensures there { result.0 < length self.now.place.heights }
        ensures value { slice_get self.now.place.stacks result.0 ≡ Some result.1.now }
        ensures low { length result.1.now ≤ 8 }
        ensures ranks { All (λ rank. rank ≤ 96) result.1.now }
    {
        let index = self.row_of[rank as usize] as usize;
        (index, self.stacks[index].ranks())
    }

    /// Whether the row is there and has room.
    #[inline]
    pub fn fits(&self, row: u8) -> bool
        ensures room { IsTrue result ↔ HasRoom self.now.place row }
    {
        row >= 1 && row <= self.rows() && self.stack(row).len() < self.height(row) as usize
    }

    /// Whether a relocation to the row is legal.
    #[inline]
    pub fn is_target(&self, row: u8) -> bool
        ensures { result ≡ can_shift self.now.place row }
    {
        if self.next > self.ordered || row == 0 || row as usize > self.heights.len() {
            return false;
        }
        self.takes_from(self.row_of[self.next as usize] + 1, row)
    }

    /// Whether a relocation to a row that is there is legal, where the next container is to leave and stands in the row `from`.
    #[inline]
    pub fn takes_from(&self, from: u8, row: u8) -> bool
        requires leaves { self.now.place.next ≤ self.now.place.ordered }
        requires from { from ≡ source self.now.place + 1 }
        requires counts { 1 ≤ row }
        requires there { row ≤ length self.now.place.heights }
        ensures { result ≡ can_shift self.now.place row }
    {
        if row == from {
            return false;
        }
        let index = row as usize - 1;
        self.stacks[index].height() < self.heights[index] as usize
    }

    /// The rows to which a relocation is legal, rising; none where the position is finished or dead.
    #[inline]
    pub fn targets(&self) -> ArrayVec<u8, MAX_ROWS>
        ensures legal { (p : Statement) (path : List ℕ) (row : ℕ) → IsProblem p → IsAt p path self.now.place
            → (Contains result.items row ↔ IsLegalRow p path row) }
        ensures rising { IsStrictlyIncreasing result.items }
        ensures done { IsFinished self.now.place → result.items ≡ [] }

        // What the definitions compute.
        ensures value { result.items ≡ targets self.now.place }
    {
        let mut targets = ArrayVec::new();
        for row in 1..self.rows() + 1 {
            if self.is_target(row) {
                targets.push(row);
            }
        }
        targets
    }
}
