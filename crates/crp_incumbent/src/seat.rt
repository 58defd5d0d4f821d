//! What one worker has of a `Shared`.

use crate::rule::KeyedView;
use std::marker::Model;

/// A worker's seat: by it the worker steps on the shared words. Contracts see at which `Shared` it is, and its view.
///
/// Claims are lent to it, and those that it used count as granted in its view, though the table does not know of them yet.
#[derive(Drop)]
pub struct Seat {
    pub(crate) token: atomic_table::Seat<(), KeyedView>,
    pub(crate) share: u64,
    pub(crate) refused: u64,
    pub(crate) loan: u64,
    pub(crate) used: u64,
}

impl Model for Seat {
    ghost use Rattle.std.specs.Prelude.{◌≡◌, []};
    ghost use Rattle.crp_incumbent.specs.Seats.{Seat as Seated, IsSeat, seat_at};

    ghost Value = { Seated };

    ghost view = { λ a. seat_at a.token.table_id a.token.me.0 a.used };

    ghost invariant = { λ a. IsSeat a.token.me.0 a.share a.refused a.loan a.used × (a.token.me.1 ≡ []) };
}

/// Why a seat cannot be split.
#[derive(Clone, Copy, PartialEq, Eq, Debug)]
pub enum Why {
    /// It has one share, or as many shares as refused claims.
    NoneLeft,
    /// There is no memory. No split refuses so: a seat takes none.
    Memory,
}

/// A refused split. The seat comes back as it was.
#[derive(Drop)]
pub struct SplitRefused {
    /// The seat.
    pub seat: Seat,
    /// Why it is not split.
    pub why: Why,
}
