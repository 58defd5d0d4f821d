//! From symbol to symbol of a part, below its first one.
ghost use Rattle.std.specs.Prelude.{◌≡◌, ◌⊎◌, ◌+◌, ◌-◌, ◌≤◌, ◌<◌, ◌∷◌, [], ◌++◌, true, ℕ, length, take, slice_index, Some, None, IfOk, OnOk, IfSome, IfNone};
ghost use Rattle.std.specs.Option.{option_or};
ghost use Rattle.crp_tree.specs.Trees.{given_names};
ghost use Rattle.crp_bay.specs.Positions.{can_shift};
ghost use Rattle.crp_tree.specs.Spots.{Spot, node_at, owed_behind};
ghost use Rattle.crp_checker.specs.Gathered.{gathered, joined};
ghost use Rattle.crp_checker.specs.Symbols.{mark_of, symbol_at, wrong_at};
ghost use Rattle.crp_checker.specs.Pending.{up, back, pending, spot_at, owed_by, IsSound};
ghost use Rattle.crp_checker.specs.Kept.{need_by};
ghost use Rattle.crp_checker.specs.Walks.{IsWalk};

use crate::found::Found;
use crate::given_names::GivenNames;
use crate::letter::Letter;
use crate::need::Need;
use crate::next::Next;
use crate::passing::{Passed, pass};
use crate::symbol::{judge, symbol_of};
use crp_bounds::Bounded;
use std::alloc::{AllocError, Global};

/// How far a walk came.
pub struct Walk {
    /// How many symbols it took.
    pub taken: usize,
    /// Where trees are owed then.
    pub next: Next,
}

/// Adds the path to where a tree is owed, if the symbol gives it to a part of its own.
#[inline]
fn give(
    alloc: Global,
    given: &mut GivenNames,
    path: &[u8],
    symbol: Letter,
) -> Result<(), AllocError>
    ensures { OnOk result ((spot : Spot) → spot.path ≡ path.now
        → given.new ≡ joined given.old (gathered (given_names (node_at spot (mark_of symbol) ∷ [])))) }
{
    match symbol {
        Letter::G => given.push(alloc, path),
        Letter::B | Letter::L | Letter::X => Ok(()),
    }
}

/// The symbol that stands in a piece behind so many others of its part: none at the end of the piece, and where the byte is none.
#[inline]
fn symbol_in(piece: &[u8], at: usize, count: u64) -> Option<Letter>
    requires { at ≤ length piece.now }
    ensures there { IfSome result (λ symbol. at < length piece.now) }
    ensures some { IfSome result (λ symbol. symbol_at count (slice_index piece.now at) ≡ Some (mark_of symbol)) }
    ensures none { IfNone result (at < length piece.now → symbol_at count (slice_index piece.now at) ≡ None) }
{
    if at == piece.len() {
        return None;
    }
    symbol_of(count, piece[at])
}

/// A symbol with this number comes where a tree is owed: at the position, or where a legal row leads from it.
#[inline(always)]
fn meet(
    alloc: Global,
    need: &Need,
    number: u64,
    symbol: Letter,
    row: Option<u8>,
    path: &mut Vec<u8>,
    place: &mut Bounded,
    found: &mut Found,
) -> Result<(), AllocError>
    requires { (next : ℕ) → row ≡ Some next → can_shift place.old.place next ≡ true }
    ensures wrong { OnOk result (found.new.wrong
        ≡ option_or found.old.wrong (wrong_at (need_by need.now) number (mark_of symbol) (spot_at row path.old.items place.old.place))) }
    ensures given { OnOk result (found.new.given
        ≡ joined found.old.given (gathered (given_names (node_at (spot_at row path.old.items place.old.place) (mark_of symbol) ∷ [])))) }
    ensures owed { OnOk result ((above : ℕ) → above ≤ length path.old.items → (row ≡ None → length path.old.items ≤ above)
        → pending (length path.new.items - above) path.new.items place.new
        ≡ owed_behind (mark_of symbol) (spot_at row path.old.items place.old.place) (pending (length path.old.items - above) path.old.items place.old)) }
    ensures longer { OnOk result (length path.old.items ≤ length path.new.items) }
    ensures little { OnOk result (length path.new.items ≤ length path.old.items + 1) }
{
    give(alloc, &mut found.given, path, symbol)?;
    judge(need, number, symbol, row, path, place, &mut found.wrong)
}

/// Leaves the last open branch, all of whose trees came.
#[inline]
pub fn leave(path: &mut Vec<u8>, place: &mut Bounded)
    requires { 1 ≤ length path.old.items }
    ensures path { path.new.items ≡ up path.old.items }
    ensures place { place.new ≡ back place.old }
{
    let _row = path.pop();
    let _popped = place.pop();
}

/// Walks on behind the child to which the path leads.
fn walk_on(
    alloc: Global,
    need: &Need,
    path: &mut Vec<u8>,
    above: usize,
    place: &mut Bounded,
    found: &mut Found,
    piece: &[u8],
) -> Result<Walk, AllocError>
    requires { above ≤ length path.old.items }
    ensures walk { IfOk result (λ walk. IsWalk (need_by need.now) (pending (length path.old.items - above) path.old.items place.old) found.old piece.now
        (owed_by walk.next (length path.new.items - above) path.new.items place.new) found.new walk.taken) }
    ensures sound { IfOk result (λ walk. IsSound walk.next above path.new.items place.new) }
{
    let before = found.count;
    let Some(_end) = before.checked_add(piece.len() as u64) else {
        return Err(AllocError);
    };
    let most = need.most();
    let mut taken = 0;
    'open: while path.len() > above {
        let last = path.len() - 1;
        let least = most.saturating_sub(path.len());
        let Passed {
            taken: reached,
            next,
        } = pass(place, least, path[last], piece, taken);
        taken = reached;
        let Some(row) = next else {
            leave(path, place);
            continue 'open;
        };
        let count = before + taken as u64;
        let Some(symbol) = symbol_in(piece, taken, count) else {
            // The row is looked for again, behind the one before it.
            path[last] = row - 1;
            found.count = count;
            return Ok(Walk {
                taken,
                next: Next::Behind,
            });
        };
        path[last] = row;
        taken += 1;
        meet(
            alloc,
            need,
            count + 1,
            symbol,
            Some(row),
            path,
            place,
            found,
        )?;
    }
    found.count = before + taken as u64;
    Ok(Walk {
        taken,
        next: Next::Nowhere,
    })
}

/// Walks on where no symbol came yet.
fn walk_first(
    alloc: Global,
    need: &Need,
    path: &mut Vec<u8>,
    above: usize,
    place: &mut Bounded,
    found: &mut Found,
    piece: &[u8],
) -> Result<Walk, AllocError>
    requires { length path.old.items ≡ above }
    ensures walk { IfOk result (λ walk. IsWalk (need_by need.now) (spot_at None path.old.items place.old.place ∷ []) found.old piece.now
        (owed_by walk.next (length path.new.items - above) path.new.items place.new) found.new walk.taken) }
    ensures sound { IfOk result (λ walk. IsSound walk.next above path.new.items place.new) }
{
    let Some(number) = found.count.checked_add(1) else {
        return Err(AllocError);
    };
    let Some(symbol) = symbol_in(piece, 0, found.count) else {
        return Ok(Walk {
            taken: 0,
            next: Next::Here,
        });
    };
    meet(alloc, need, number, symbol, None, path, place, found)?;
    found.count = number;
    let Walk { taken, next } = walk_on(alloc, need, path, above, place, found, &piece[1..])?;
    Ok(Walk {
        taken: taken + 1,
        next,
    })
}

/// Walks on as long as trees are owed and symbols stand in the piece.
pub fn walk_from(
    alloc: Global,
    need: &Need,
    next: Next,
    path: &mut Vec<u8>,
    above: usize,
    place: &mut Bounded,
    found: &mut Found,
    piece: &[u8],
) -> Result<Walk, AllocError>
    requires { IsSound next above path.old.items place.old }
    ensures walk { IfOk result (λ walk. IsWalk (need_by need.now) (owed_by next (length path.old.items - above) path.old.items place.old) found.old piece.now
        (owed_by walk.next (length path.new.items - above) path.new.items place.new) found.new walk.taken) }
    ensures sound { IfOk result (λ walk. IsSound walk.next above path.new.items place.new) }
{
    match next {
        Next::Nowhere => Ok(Walk { taken: 0, next }),
        Next::Here => walk_first(alloc, need, path, above, place, found, piece),
        Next::Behind => walk_on(alloc, need, path, above, place, found, piece),
    }
}
