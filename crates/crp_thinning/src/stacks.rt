//! The stacks of a bay, with the row of each container. Rows are counted from 0.
ghost use Rattle.std.specs.Prelude.{ℕ, ◌≡◌, ◌≤◌, ◌<◌, ◌++◌, ◌∷◌, [], length, slice_set, slice_index_or};
ghost use Rattle.crp_plan.specs.Rows.{occurrences};
ghost use Rattle.crp_bay.specs.Positions.{top, without_top, place};
ghost use Rattle.crp_bay.specs.Located.{AreRowsOf};
ghost use Rattle.crp_bay.specs.Reached.{IsReached};

use crate::moving::{is_in, land, lift};
use crate::scanning::rows_of;
use crate::starting::stacks_of;
use arrayvec::ArrayVec;
use crp_bay::Position;
use crp_plan::{MAX_ROWS, Stack};
use std::marker::Model;

/// The stacks of the rows. Of each container that stands it keeps the row.
#[derive(Drop)]
pub struct Stacks {
    stacks: ArrayVec<Stack, MAX_ROWS>,
    // By rank, of what stands.
    row_of: [u8; 256],
}

impl Model for Stacks {
    ghost use Rattle.std.specs.Prelude.{List, ℕ, length};
    ghost use Rattle.crp_bay.specs.Located.{AreRowsOf};

    ghost Value = { List (List ℕ) };

    ghost view = { λ s. s.stacks.items };

    ghost invariant = { λ s. AreRowsOf (length s.stacks.items) s.stacks.items s.row_of };
}

impl Stacks {
    /// Those of a position.
    pub fn of(position: &Position) -> Stacks
        ensures value { result ≡ position.now.place.stacks }
        ensures reached { IsReached position.now.place }
    {
        let _rows = position.rows();
        let stacks = stacks_of(position);
        let row_of = rows_of(stacks.as_slice());
        Stacks { stacks, row_of }
    }

    /// The stacks.
    #[inline]
    pub fn as_slice(&self) -> &[Stack]
        ensures { result.now ≡ self.now }
    {
        self.stacks.as_slice()
    }

    /// By rank, of what stands: its row.
    #[inline]
    pub fn row_of(&self) -> &[u8; 256]
        ensures { AreRowsOf (length self.now) self.now result.now }
    {
        &self.row_of
    }

    /// The row in which a rank stands; how many rows there are where it stands in none.
    #[inline]
    pub fn place_of_rank(&self, rank: u8) -> usize
        ensures value { result ≡ place rank self.now }
        ensures within { result ≤ length self.now }
        ensures few { result ≤ 12 }
    {
        let row = self.row_of[rank as usize] as usize;
        let stacks = self.stacks.as_slice();
        if row >= stacks.len() {
            return stacks.len();
        }
        if is_in(rank, stacks[row].ranks()) {
            row
        } else {
            stacks.len()
        }
    }

    /// Takes the top off a row that has one.
    #[inline]
    pub fn lift(&mut self, row: usize) -> u8
        requires there { row < length self.old }
        requires some { 0 < length (slice_index_or self.old row []) }
        ensures value { result ≡ top (slice_index_or self.old row []) }
        ensures rest { self.new ≡ slice_set self.old row (without_top (slice_index_or self.old row [])) }
    {
        lift(row, &mut self.stacks)
    }

    /// Puts a rank that stands nowhere on top of a row that has room.
    #[inline]
    pub fn land(&mut self, row: u8, rank: u8)
        requires there { row < length self.old }
        requires room { length (slice_index_or self.old row []) < 8 }
        requires once { occurrences rank (slice_set self.old row (slice_index_or self.old row [] ++ rank ∷ [])) ≤ 1 }
        ensures { self.new ≡ slice_set self.old row (slice_index_or self.old row [] ++ rank ∷ []) }
    {
        land(row as usize, rank, &mut self.stacks);
        self.row_of[rank as usize] = row;
    }
}
