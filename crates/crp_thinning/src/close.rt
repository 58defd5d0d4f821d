//! Closing a position by thinned branches alone.
ghost use Rattle.std.specs.Prelude.{◌≡◌, ℕ, ◌≤◌, Contains, List, ◌++◌, length, IfOk, IfErr, OnErr};
ghost use Rattle.crp_thinned.specs.Thinned.{good_rows, free_row};
ghost use Rattle.crp_thinning.specs.Symbols.{Closes};
ghost use Rattle.crp_thinning.specs.Claiming.{Granted, Claimed};
ghost use Rattle.crp_thinning.specs.EachRow.{AreGood, CloseEach};

use crate::claims::{Claims, Unclosed};
use crate::cutting::cut;
use crate::thinned::Thinned;

/// Two parts at the end change places: what stands from `start` on, and what stands from `middle` on.
fn swap_parts(symbols: &mut Vec<u8>, start: usize, middle: usize)
    requires order { start ≤ middle }
    requires within { middle ≤ length symbols.old.items }
    ensures swapped { (before one other : List ℕ) → symbols.old.items ≡ before ++ (one ++ other) → length before ≡ start → length (before ++ one) ≡ middle → symbols.new.items ≡ before ++ (other ++ one) }
{
    symbols[start..].rotate_left(middle - start);
}

/// Goes on as `close_thinned`; where it closes nothing, some symbols may be left behind those that were there.
#[cycle(closing)]
fn close<C: Claims>(
    place: &mut Thinned,
    need: u32,
    most: u32,
    rows: u8,
    claims: &mut C,
    symbols: &mut Vec<u8>,
) -> Result<u32, Unclosed>
    ensures same { place.new ≡ place.old }
    ensures closed { IfOk result (λ spent. (text : List ℕ) × Closes place.old.place need text × (symbols.new.items ≡ symbols.old.items ++ text)) }
    ensures granted { IfOk result (λ spent. (spent ≤ most) × Granted C.claims spent claims.old claims.new) }
    ensures claimed { IfErr result (λ why. Claimed C.claims most why claims.old claims.new) }
    ensures grown { (text : List ℕ) × (symbols.new.items ≡ symbols.old.items ++ text) }
{
    if cut(place, need, rows, symbols)? {
        return Ok(0);
    }
    if most == 0 || place.is_done() {
        return Err(Unclosed::Open);
    }
    let free = place.free_row();
    if free > 0 {
        return close_free(place, need, most, rows, free, claims, symbols);
    }
    close_thin(place, need, most, rows, claims, symbols)
}

/// By a branch with one tree, that of the first row where the blocker hinders nobody.
#[cycle(closing)]
fn close_free<C: Claims>(
    place: &mut Thinned,
    need: u32,
    most: u32,
    rows: u8,
    row: u8,
    claims: &mut C,
    symbols: &mut Vec<u8>,
) -> Result<u32, Unclosed>
    requires some { 1 ≤ most }
    requires row { row ≡ free_row place.old.place }
    requires counts { 1 ≤ row }
    requires good { Contains (good_rows place.old.place) row }
    ensures same { place.new ≡ place.old }
    ensures closed { IfOk result (λ spent. (text : List ℕ) × Closes place.old.place need text × (symbols.new.items ≡ symbols.old.items ++ text)) }
    ensures granted { IfOk result (λ spent. (spent ≤ most) × Granted C.claims spent claims.old claims.new) }
    ensures claimed { IfErr result (λ why. Claimed C.claims most why claims.old claims.new) }
    ensures grown { (text : List ℕ) × (symbols.new.items ≡ symbols.old.items ++ text) }
{
    if !claims.claim() {
        return Err(Unclosed::Refused);
    }
    symbols.push(b'F')?;
    place.put(row);
    let below = close(
        place,
        need.saturating_sub(1),
        most - 1,
        rows,
        claims,
        symbols,
    );
    let _undone = place.undo();
    let more = below?;
    Ok(more + 1)
}

/// The trees below these rows, one after the other; how many branches they have.
#[cycle(closing)]
fn close_each<C: Claims>(
    place: &mut Thinned,
    need: u32,
    most: u32,
    rows: u8,
    good: &[u8],
    claims: &mut C,
    symbols: &mut Vec<u8>,
) -> Result<u32, Unclosed>
    requires good { AreGood place.old.place good.now }
    ensures same { place.new ≡ place.old }
    ensures closed { IfOk result (λ spent. (text : List ℕ) × CloseEach place.old.place need good.now text × (symbols.new.items ≡ symbols.old.items ++ text)) }
    ensures granted { IfOk result (λ spent. (spent ≤ most) × Granted C.claims spent claims.old claims.new) }
    ensures claimed { IfErr result (λ why. Claimed C.claims most why claims.old claims.new) }
    ensures grown { (text : List ℕ) × (symbols.new.items ≡ symbols.old.items ++ text) }
{
    let mut spent = 0;
    for i in 0..good.len() {
        place.put(good[i]);
        let below = close(
            place,
            need.saturating_sub(1),
            most - spent,
            rows,
            claims,
            symbols,
        );
        let _undone = place.undo();
        let more = below?;
        spent += more;
    }
    Ok(spent)
}

/// The trees below all rows where the blocker is well placed, rising; how many branches they have. The tree below the row where
/// it fits best is made first, since no other is so likely to be none.
#[cycle(closing)]
fn close_rows<C: Claims>(
    place: &mut Thinned,
    need: u32,
    most: u32,
    rows: u8,
    claims: &mut C,
    symbols: &mut Vec<u8>,
) -> Result<u32, Unclosed>
    ensures same { place.new ≡ place.old }
    ensures closed { IfOk result (λ spent. (text : List ℕ) × CloseEach place.old.place need (good_rows place.old.place) text × (symbols.new.items ≡ symbols.old.items ++ text)) }
    ensures granted { IfOk result (λ spent. (spent ≤ most) × Granted C.claims spent claims.old claims.new) }
    ensures claimed { IfErr result (λ why. Claimed C.claims most why claims.old claims.new) }
    ensures grown { (text : List ℕ) × (symbols.new.items ≡ symbols.old.items ++ text) }
{
    let all = place.good_rows();
    let good = all.as_slice();
    let best = place.best_fit(good);
    let next = (best + 1).min(good.len());
    let start = symbols.len();
    let first = close_each(place, need, most, rows, &good[best..next], claims, symbols)?;
    let middle = symbols.len();
    let left = most - first;
    let below = close_each(place, need, left, rows, &good[..best], claims, symbols)?;
    swap_parts(symbols, start, middle);
    let left = left - below;
    let above = close_each(place, need, left, rows, &good[next..], claims, symbols)?;
    Ok(first + below + above)
}

/// By a thinned branch.
#[cycle(closing)]
fn close_thin<C: Claims>(
    place: &mut Thinned,
    need: u32,
    most: u32,
    rows: u8,
    claims: &mut C,
    symbols: &mut Vec<u8>,
) -> Result<u32, Unclosed>
    requires some { 1 ≤ most }
    requires left { place.old.place.next ≤ place.old.place.ordered }
    ensures same { place.new ≡ place.old }
    ensures closed { IfOk result (λ spent. (text : List ℕ) × Closes place.old.place need text × (symbols.new.items ≡ symbols.old.items ++ text)) }
    ensures granted { IfOk result (λ spent. (spent ≤ most) × Granted C.claims spent claims.old claims.new) }
    ensures claimed { IfErr result (λ why. Claimed C.claims most why claims.old claims.new) }
    ensures grown { (text : List ℕ) × (symbols.new.items ≡ symbols.old.items ++ text) }
{
    if !claims.claim() {
        return Err(Unclosed::Refused);
    }
    symbols.push(b'R')?;
    let spent = close_rows(place, need, most - 1, rows, claims, symbols)?;
    place.lift();
    let below = close(
        place,
        need.saturating_sub(2),
        most - 1 - spent,
        rows,
        claims,
        symbols,
    );
    let _undone = place.undo();
    let more = below?;
    Ok(1 + spent + more)
}

/// Closes a position by thinned branches and branches with one tree alone, depth first, at most so many, each of which is claimed
/// before. Cuts are by the blocking bound, by the look-ahead bound, and by chains that are found, each with at most so many rows that are open to any of it (with
/// 0 by none). Where it succeeds the symbols of a tree stand behind those that were there, a tree that shows at least what is
/// needed, and it returns how many branches the tree has; otherwise the symbols are as they were, and the error says why. No more claims
/// are granted than branches may be made. The position is as it was. No tree may be found where there is one.
pub fn close_thinned<C: Claims>(
    place: &mut Thinned,
    need: u32,
    most: u32,
    rows: u8,
    claims: &mut C,
    symbols: &mut Vec<u8>,
) -> Result<u32, Unclosed>
    ensures same { place.new ≡ place.old }
    ensures closed { IfOk result (λ spent. (text : List ℕ) × Closes place.old.place need text × (symbols.new.items ≡ symbols.old.items ++ text)) }
    ensures granted { IfOk result (λ spent. (spent ≤ most) × Granted C.claims spent claims.old claims.new) }
    ensures claimed { IfErr result (λ why. Claimed C.claims most why claims.old claims.new) }
    ensures open { OnErr result (symbols.new.items ≡ symbols.old.items) }
{
    let before = symbols.len();
    let outcome = close(place, need, most, rows, claims, symbols);
    if outcome.is_err() {
        symbols.truncate(before);
    }
    outcome
}
