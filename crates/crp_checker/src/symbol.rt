//! Single symbols, and what is wrong with the nodes that they stand for.
ghost use Rattle.std.specs.Prelude.{◌≡◌, ◌+◌, ◌-◌, ◌≤◌, ◌∷◌, ℕ, List, suc, ◌==◌, true, length, nat_lt, if◌then◌else◌, Some, None, OnOk, option_map};
ghost use Rattle.std.specs.Option.{option_or};
ghost use Rattle.crp_bay.specs.Positions.{can_shift};
ghost use Rattle.crp_bounds.specs.Bounds.{blocking as blocking_bound, look_ahead as look_ahead_bound};
ghost use Rattle.crp_tree.specs.Spots.{owed_behind};
ghost use Rattle.crp_checker.specs.Symbols.{mark_of, symbol_at, wrong_at};
ghost use Rattle.crp_checker.specs.Pending.{back, below, spot_at, pending};
ghost use Rattle.crp_checker.specs.Kept.{need_by};

use crate::letter::Letter;
use crate::need::Need;
use crate::wrong::Wrong;
use crp_bounds::Bounded;
use std::alloc::AllocError;

/// The symbol that a byte is behind so many others of its part, which does not begin with `G`.
#[inline]
pub fn symbol_of(count: u64, byte: u8) -> Option<Letter>
    ensures { option_map mark_of result ≡ symbol_at count byte }
{
    match byte {
        b'B' => Some(Letter::B),
        b'L' => Some(Letter::L),
        b'X' => Some(Letter::X),
        b'G' if count > 0 => Some(Letter::G),
        _ => None,
    }
}

/// Whether a cut at a path, with this bound, is below what it needs.
#[inline]
pub fn is_low(need: &Need, path: &[u8], bound: u32) -> bool
    ensures { result ≡ nat_lt (length path.now + bound) (need_by need.now path.now) }
{
    path.len() + (bound as usize) < need.at(path)
}

/// The same of a cut by the look-ahead bound, which is counted only as far as the cut needs it.
#[inline]
fn is_low_ahead(need: &Need, path: &[u8], place: &Bounded) -> bool
    ensures { result ≡ nat_lt (length path.now + look_ahead_bound place.now.place) (need_by need.now path.now) }
{
    let short = need.at(path).saturating_sub(path.len());
    let short = short.min(u32::MAX as usize) as u32;
    match place.look_ahead_reaching(short, short) {
        Some(_) => false,
        None => true,
    }
}

/// The blocking bound where a tree is owed next. The position is not changed for that.
#[inline]
fn blocking_at(place: &Bounded, row: Option<u8>) -> u32
    requires { (next : ℕ) → row ≡ Some next → can_shift place.now.place next ≡ true }
    ensures { result ≡ blocking_bound (below row place.now.place) }
{
    match row {
        Some(row) => place.blocking_after(place.mover(), row),
        None => place.blocking(),
    }
}

/// Makes the position that where a tree is owed next.
#[inline]
pub fn enter(place: &mut Bounded, row: Option<u8>)
    requires { (next : ℕ) → row ≡ Some next → can_shift place.old.place next ≡ true }
    ensures place { place.new.place ≡ below row place.old.place }
    ensures back { (next : ℕ) → row ≡ Some next → back place.new ≡ place.old }
{
    if let Some(row) = row {
        let _pushed = place.push(row);
    }
}

/// Whether a cut by the look-ahead bound is below what it needs where a tree is owed next.
#[inline]
fn is_low_at(need: &Need, path: &[u8], place: &mut Bounded, row: Option<u8>) -> bool
    requires { (next : ℕ) → row ≡ Some next → can_shift place.old.place next ≡ true }
    ensures found { result ≡ nat_lt (length path.now + look_ahead_bound (below row place.old.place)) (need_by need.now path.now) }
    ensures same { place.new ≡ place.old }
{
    let Some(row) = row else {
        return is_low_ahead(need, path, place);
    };
    let _pushed = place.push(row);
    let is_low = is_low_ahead(need, path, place);
    let _popped = place.pop();
    is_low
}

/// Whether a position is finished, where no branch may stand.
#[inline]
fn is_at_end(place: &Bounded) -> bool
    ensures { result ≡ (place.now.place.next == suc place.now.place.ordered) }
{
    place.position().is_done()
}

/// Notes what is wrong with a node, if it is wrong and none before it was.
#[inline]
pub fn note(first: &mut Option<Wrong>, is_wrong: bool, wrong: Wrong)
    ensures { first.new ≡ option_or first.old (if is_wrong then Some wrong else None) }
{
    if is_wrong && first.is_none() {
        *first = Some(wrong);
    }
}

/// A symbol with this number comes where a tree is owed next. It notes what is wrong with its node, if that is the first wrong one;
/// what it leaves to be owed stands behind the last row of the path.
#[inline(always)]
pub fn judge(
    need: &Need,
    number: u64,
    symbol: Letter,
    row: Option<u8>,
    path: &mut Vec<u8>,
    place: &mut Bounded,
    first: &mut Option<Wrong>,
) -> Result<(), AllocError>
    requires { (next : ℕ) → row ≡ Some next → can_shift place.old.place next ≡ true }
    ensures first { OnOk result (first.new
        ≡ option_or first.old (wrong_at (need_by need.now) number (mark_of symbol) (spot_at row path.old.items place.old.place))) }
    ensures owed { OnOk result ((above : ℕ) → above ≤ length path.old.items → (row ≡ None → length path.old.items ≤ above)
        → pending (length path.new.items - above) path.new.items place.new
        ≡ owed_behind (mark_of symbol) (spot_at row path.old.items place.old.place) (pending (length path.old.items - above) path.old.items place.old)) }
    ensures longer { OnOk result (length path.old.items ≤ length path.new.items) }
    ensures little { OnOk result (length path.new.items ≤ length path.old.items + 1) }
{
    match symbol {
        Letter::B => {
            let is_low = is_low(need, path, blocking_at(place, row));
            note(first, is_low, Wrong::Low { symbol: number });
        }
        Letter::L => {
            let is_low = is_low_at(need, path, place, row);
            note(first, is_low, Wrong::Low { symbol: number });
        }
        Letter::X => {
            path.push(0)?;
            enter(place, row);
            note(first, is_at_end(place), Wrong::AtEnd { symbol: number });
        }
        Letter::G => {}
    }
    Ok(())
}
