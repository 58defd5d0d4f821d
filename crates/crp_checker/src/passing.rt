//! From one child of a branch to the next that symbols have to look at.
ghost use Rattle.std.specs.Prelude.{◌≡◌, ◌+◌, ◌<◌, ◌≤◌, true, length, take, slice_index, IfSome};
ghost use Rattle.crp_bay.specs.Positions.{source, child, can_shift};
ghost use Rattle.crp_bounds.specs.Bounds.{blocking as blocking_bound};
ghost use Rattle.crp_bounds.specs.Moving.{IsMover};
ghost use Rattle.crp_checker.specs.Pending.{rows_behind};
ghost use Rattle.crp_checker.specs.Passed.{is_cut_letter, ArePassed, rows_from};

use crp_bay::Position;
use crp_bounds::{Bounded, Mover};

/// Where symbols were passed over.
pub struct Passed {
    /// How many of the piece came until then.
    pub taken: usize,
    /// The legal row whose tree is owed next, if one is left.
    pub next: Option<u8>,
}

/// Whether a relocation to a row is legal, where one is left to leave, which stands in the row `from`.
#[inline]
fn is_legal(position: &Position, from: u8, row: u8) -> bool
    requires unfinished { position.now.place.next ≤ position.now.place.ordered }
    requires from { from ≡ source position.now.place + 1 }
    requires counts { 1 ≤ row }
    requires there { row ≤ length position.now.place.heights }
    ensures { result ≡ can_shift position.now.place row }
{
    row != from && position.stack(row).len() < position.height(row) as usize
}

/// Whether a byte is the letter of a cut.
#[inline]
fn is_cut(byte: u8) -> bool
    ensures { result ≡ is_cut_letter byte }
{
    byte == b'B' || byte == b'L'
}

/// Whether the next byte of a piece is a cut at a legal row, and the blocking bound there is at least this: the look-ahead bound is
/// no lower.
#[inline]
fn is_right(place: &Bounded, least: usize, mover: Mover, row: u8, piece: &[u8], at: usize) -> bool
    requires legal { can_shift place.now.place row ≡ true }
    requires mover { IsMover mover place.now.place }
    ensures there { result ≡ true → at < length piece.now }
    ensures cut { result ≡ true → is_cut_letter (slice_index piece.now at) ≡ true }
    ensures right { result ≡ true → least ≤ blocking_bound (child place.now.place row) }
{
    at < piece.len() && is_cut(piece[at]) && least <= place.blocking_after(mover, row) as usize
}

/// Goes on behind a row of the branch at the position, over cuts as long as the blocking bound is at least this, to the next legal row.
#[inline]
pub fn pass(place: &Bounded, least: usize, row: u8, piece: &[u8], taken: usize) -> Passed
    requires { taken ≤ length piece.now }
    ensures within { result.taken ≤ length piece.now }
    ensures legal { IfSome result.next (λ next. can_shift place.now.place next ≡ true) }
    ensures first { IfSome result.next (λ next. 1 ≤ next) }
    ensures there { IfSome result.next (λ next. next ≤ length place.now.place.heights) }
    ensures passed { ArePassed least place.now.place (rows_behind row place.now.place) (rows_from result.next place.now.place)
        (take taken piece.now) (take result.taken piece.now) }
{
    let position = place.position();
    let turn = position.next();
    if turn > position.ordered() {
        return Passed { taken, next: None };
    }
    let from = position.row_of(turn);
    let mover = place.mover();
    let rows = position.rows();
    let mut taken = taken;
    let mut next = row;
    while next < rows {
        next += 1;
        if is_legal(position, from, next) {
            if !is_right(place, least, mover, next, piece, taken) {
                return Passed {
                    taken,
                    next: Some(next),
                };
            }
            taken += 1;
        }
    }
    Passed { taken, next: None }
}
