//! The branches that a search is in.
ghost use Rattle.std.specs.Prelude.{◌≡◌, ◌+◌, ◌≤◌, [], length, IfSome, IfNone};
ghost use Rattle.crp_bay.specs.Positions.{source, targets};
ghost use Rattle.crp_bounds.specs.Moving.{IsMover};
ghost use Rattle.crp_search.specs.Frames.{TakesTurn, digits};

use crp_bay::Position;
use crp_bounds::{Bounded, Mover};
use crp_row::Kind;
use crp_tree::{Name, Tree};
use std::marker::Model;

/// A tree, the least value of its cuts, or the problem's cap where none is below that, and the names that it gives to other parts.
#[derive(Drop)]
pub struct Found {
    pub tree: Tree,
    pub floor: u32,
    pub given: Vec<Name>,
}

/// What is found where a node is not a branch: what its symbol is, and the floor of the walk with it, which the value of a cut may lower. The text of a cut by reasons is the one that was given last.
#[derive(Drop)]
pub struct Closed {
    pub kind: Kind,
    pub floor: u32,
}

/// A branch whose legal rows are searched in turn. A contract sees the container that moves there, the rows that had no turn yet, rising,
/// and how many rows are legal in all.
///
/// The rows are the digits of one number to the base 16, since a frame is moved at each node.
#[derive(Drop)]
pub struct Frame {
    mover: Mover,
    count: u8,
    rows: u64,
}

impl Model for Frame {
    ghost use Rattle.crp_search.specs.Frames.{Branching, digits};

    ghost Value = { Branching };

    ghost view = { λ f. record { mover = f.mover; left = digits 16 f.rows; count = f.count } };
}

/// The legal rows of a position as the digits of a number, and how many they are. The next container stands in the row `from`.
#[inline(always)]
fn legal_rows(position: &Position, from: u8) -> (u64, u8)
    requires from { position.now.place.next ≤ position.now.place.ordered → from ≡ source position.now.place + 1 }
    ensures rows { digits 16 result.0 ≡ targets position.now.place }
    ensures count { result.1 ≡ length (targets position.now.place) }
    ensures few { result.1 ≤ 12 }
{
    let mut rows: u64 = 0;
    let mut count: u8 = 0;
    if position.is_done() {
        return (rows, count);
    }
    let mut row = position.rows();
    while row > 0 {
        if position.takes_from(from, row) {
            rows = rows * 16 + row as u64;
            count += 1;
        }
        row -= 1;
    }
    (rows, count)
}

impl Frame {
    /// The branch at a position before its first row.
    #[inline(always)]
    pub fn at(place: &Bounded) -> Frame
        ensures mover { place.now.place.next ≤ place.now.place.ordered → IsMover result.mover place.now.place }
        ensures rows { result.left ≡ targets place.now.place }
        ensures count { result.count ≡ length (targets place.now.place) }
        ensures few { length result.left ≤ 12 }
    {
        let mover = place.mover();
        let (rows, count) = legal_rows(place.position(), mover.row);
        Frame { mover, count, rows }
    }

    /// The container that moves there.
    #[inline]
    pub fn mover(&self) -> Mover
        ensures { result ≡ self.now.mover }
    {
        self.mover
    }

    /// What the symbol of the branch is.
    #[inline]
    pub fn kind(&self) -> Kind
        ensures { result ≡ Kind.Branch self.now.count }
    {
        Kind::Branch(self.count)
    }

    /// The row whose turn it is. `None` where each row had its turn.
    #[inline]
    pub fn turn(&mut self) -> Option<u8>
        ensures turn { IfSome result (TakesTurn self.old self.new) }
        ensures none { IfNone result (self.old.left ≡ []) }
        ensures same { IfNone result (self.new ≡ self.old) }
    {
        if self.rows == 0 {
            return None;
        }
        let row = (self.rows % 16) as u8;
        self.rows /= 16;
        Some(row)
    }
}
