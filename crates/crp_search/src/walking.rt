//! The walk over a part: branch and bound over the paths of a problem.
ghost use Rattle.std.specs.Prelude.{◌≡◌, ℕ, ◌+◌, ◌<◌, ◌≤◌, List, [], ◌∷◌, ◌++◌, length, min, IfOk, IfErr, OnOk, IfSome, IfNone, IsTrue, IsFalse, Contains, vec_len, vec_capacity};
ghost use Rattle.crp_plan.specs.Bay.{IsAt, IsProblem, Position as Place, cap};
ghost use Rattle.crp_plan.specs.Faults.{IsPlanPath};
ghost use Rattle.crp_bay.specs.Positions.{child, targets};
ghost use Rattle.crp_bounds.specs.Bounds.{blocking as blocking_bound, look_ahead as look_ahead_bound};
ghost use Rattle.crp_bounds.specs.Moving.{IsMover};
ghost use Rattle.crp_tree.specs.Mark.{B};
ghost use Rattle.crp_tree.specs.Trees.{IsGivenAway, Fits, Node, nodes, least_value, given_names};
ghost use Rattle.crp_tree.specs.Parts.{IsKeptPart, nodes_of};
ghost use Rattle.crp_search.specs.Limits.{dealt};
ghost use Rattle.crp_search.specs.Searched.{AreFirstNodes};
ghost use Rattle.crp_search.specs.Walked.{Closes, met_at};

use crate::frames::{Closed, Found, Frame};
use crate::limit::Limit;
use crate::reasons::Way;
use crate::seeking::Seek;
use crate::walk_end::WalkEnd;
use arrayvec::ArrayVec;
use crp_bounds::{Bounded, Mover};
use crp_plan::{MAX_RELOCATIONS, Plan, Problem};
use crp_row::{Kind, Row};
use crp_tree::{MAX_NAME, Name, Part, Tree};
use std::alloc::{AllocError, Global};
use std::mem;

/// A node that is closed by a cut of the value, below a floor.
#[inline]
fn cut(kind: Kind, value: u32, floor: u32) -> Closed
    ensures { result ≡ record { kind = kind; floor = min value floor } }
{
    Closed {
        kind,
        floor: value.min(floor),
    }
}

/// The cut by the look-ahead bound, where length plus that bound suffices. It counts no further than the floor.
#[inline(always)]
fn reaching_cut(place: &Bounded, path: &[u8], bar: u64, floor: u32) -> Option<Closed>
    requires { length path.now ≤ 672 }
    ensures value { IfSome result (λ closed. closed ≡ record { kind = Kind.CutL; floor = min (length path.now + look_ahead_bound place.now.place) floor }) }
    ensures reached { IfSome result (λ closed. bar ≤ length path.now + look_ahead_bound place.now.place) }
    ensures below { IfNone result (length path.now + look_ahead_bound place.now.place < bar) }
{
    let length = path.len() as u32;
    let need = bar
        .saturating_sub(u64::from(length))
        .min(u64::from(u32::MAX)) as u32;
    let bound = place.look_ahead_reaching(need, floor.saturating_sub(length))?;
    Some(cut(Kind::CutL, length + bound, floor))
}

/// The cut where a claim was refused: by the blocking bound where the look-ahead bound is no higher.
fn refused_cut(place: &Bounded, length: u32, low: u32, floor: u32) -> Closed
    requires length { length ≤ 672 }
    requires low { low ≡ length + blocking_bound place.now.place }
    ensures equal { low ≡ length + look_ahead_bound place.now.place → result ≡ record { kind = Kind.CutB; floor = min low floor } }
    ensures higher { (low ≡ length + look_ahead_bound place.now.place → ⊥)
        → result ≡ record { kind = Kind.CutL; floor = min (length + look_ahead_bound place.now.place) floor } }
{
    let high = length + place.look_ahead();
    if low == high {
        cut(Kind::CutB, low, floor)
    } else {
        cut(Kind::CutL, high, floor)
    }
}

/// Takes the plan whose path this is. It stands apart from the other steps, which have no room for a plan to set up.
#[inline(never)]
fn take_plan<S: Seek, L: Limit>(problem: &Problem, path: &[u8], seek: &mut S, limit: &mut L)
    requires problem { problem.now ≡ L.problem limit.old }
    requires ready { S.ready problem.now seek.old }
    requires plan { IsPlanPath problem.now path.now }
    requires below { length path.now < S.bar seek.old (L.view limit.old) }
    ensures met { (split : ℕ) (s : Place) → S.meets problem.now split seek.old (dealt (L.view limit.old) (L.puts limit.old)) seek.new (dealt (L.view limit.new) (L.puts limit.new))
        (record { path = path.now; place = s; mark = B } ∷ []) }
    ensures same { (L.problem limit.new ≡ L.problem limit.old) × (L.budget limit.new ≡ L.budget limit.old) }
{
    let Ok(plan) = Plan::from_rows(problem, path) else {
        unreachable!()
    };
    seek.finish(plan, limit);
}

/// Closes the node at the path, or is granted an expansion for it: `None` exactly then. Length plus blocking bound, `low`, does
/// not suffice.
///
/// A finished node is a cut by the blocking bound, once its plan is taken; another is one by the look-ahead bound, where length plus
/// that bound suffices or where a claim is refused, unless the blocking bound is as high; or one by reasons.
#[inline(always)]
fn close_below<S: Seek, L: Limit>(
    problem: &Problem,
    place: &Bounded,
    path: &[u8],
    low: u32,
    bar: u64,
    floor: u32,
    seek: &mut S,
    limit: &mut L,
) -> Result<Option<Closed>, WalkEnd>
    requires problem { problem.now ≡ L.problem limit.old }
    requires is_problem { IsProblem problem.now }
    requires ready { S.ready problem.now seek.old }
    requires path { IsAt problem.now path.now place.now.place }
    requires low { low ≡ length path.now + blocking_bound place.now.place }
    requires bar { (low < bar) × (bar ≡ S.bar seek.old (L.view limit.old)) }
    ensures closes { Closes (S.meets problem.now) (S.ends problem.now) seek.old (dealt (L.view limit.old) (L.puts limit.old)) seek.new (dealt (L.view limit.new) (L.puts limit.new))
        0 floor path.now place.now.place (S.text seek.new) result }
    ensures same { (L.problem limit.new ≡ L.problem limit.old) × (L.budget limit.new ≡ L.budget limit.old) }
{
    if place.position().is_done() {
        take_plan(problem, path, seek, limit);
        return Ok(Some(cut(Kind::CutB, low, floor)));
    }
    if let Some(closed) = reaching_cut(place, path, bar, floor) {
        return Ok(Some(closed));
    }
    let length = path.len() as u32;
    match seek.go_on(place.position(), bar - u64::from(length), limit)? {
        Way::Granted => Ok(None),
        Way::Closed(bound) => Ok(Some(cut(Kind::CutR(bound), length + u32::from(bound), floor))),
        Way::Refused => Ok(Some(refused_cut(place, length, low, floor))),
    }
}

/// The same where nothing is known of the node: it is closed as well where length plus blocking bound suffices.
fn close<S: Seek, L: Limit>(
    problem: &Problem,
    place: &Bounded,
    path: &[u8],
    floor: u32,
    seek: &mut S,
    limit: &mut L,
) -> Result<Option<Closed>, WalkEnd>
    requires problem { problem.now ≡ L.problem limit.old }
    requires is_problem { IsProblem problem.now }
    requires ready { S.ready problem.now seek.old }
    requires path { IsAt problem.now path.now place.now.place }
    ensures closes { Closes (S.meets problem.now) (S.ends problem.now) seek.old (dealt (L.view limit.old) (L.puts limit.old)) seek.new (dealt (L.view limit.new) (L.puts limit.new))
        0 floor path.now place.now.place (S.text seek.new) result }
    ensures same { (L.problem limit.new ≡ L.problem limit.old) × (L.budget limit.new ≡ L.budget limit.old) }
{
    let low = path.len() as u32 + place.blocking();
    let bar = seek.enough(limit);
    if u64::from(low) >= bar {
        return Ok(Some(cut(Kind::CutB, low, floor)));
    }
    close_below(problem, place, path, low, bar, floor, seek, limit)
}

/// Puts the name of a path, adds it to those that were given where it is accepted, and answers whether it was. It stands apart from the
/// other steps, which have no room for a name to set up.
#[inline(never)]
fn put_name<L: Limit>(path: &[u8], limit: &mut L, given: &mut Vec<Name>) -> Result<bool, AllocError>
    requires { length path.now ≤ 8 }
    ensures given { IfOk result (λ put. IsTrue put → (L.puts limit.new ≡ L.puts limit.old ++ path.now ∷ []) × (given.new.items ≡ given.old.items ++ path.now ∷ [])) }
    ensures kept { IfOk result (λ put. IsFalse put → (L.puts limit.new ≡ L.puts limit.old) × (given.new.items ≡ given.old.items)) }
    ensures untried { IfErr result (λ _. L.puts limit.new ≡ L.puts limit.old) }
    ensures same { (L.problem limit.new ≡ L.problem limit.old) × (L.budget limit.new ≡ L.budget limit.old) × (L.view limit.new ≡ L.view limit.old) }
{
    given.reserve(1)?;
    let Some(name) = Name::from_rows(path) else {
        unreachable!()
    };
    if limit.put(name.copy()).is_err() {
        return Ok(false);
    }
    given.push_reserved(name);
    Ok(true)
}

/// Puts the name of the path where it has at most `split` rows, and answers whether it was accepted.
#[inline(always)]
fn give<L: Limit>(
    path: &[u8],
    split: u8,
    limit: &mut L,
    given: &mut Vec<Name>,
) -> Result<bool, AllocError>
    requires { split ≤ 8 }
    ensures short { IfOk result (λ put. IsTrue put → length path.now ≤ split) }
    ensures given { IfOk result (λ put. IsTrue put → (L.puts limit.new ≡ L.puts limit.old ++ path.now ∷ []) × (given.new.items ≡ given.old.items ++ path.now ∷ [])) }
    ensures kept { IfOk result (λ put. IsFalse put → (L.puts limit.new ≡ L.puts limit.old) × (given.new.items ≡ given.old.items)) }
    ensures untried { IfErr result (λ _. L.puts limit.new ≡ L.puts limit.old) }
    ensures same { (L.problem limit.new ≡ L.problem limit.old) × (L.budget limit.new ≡ L.budget limit.old) × (L.view limit.new ≡ L.view limit.old) }
{
    if path.len() > split as usize {
        return Ok(false);
    }
    put_name(path, limit, given)
}

/// Closes the child at a legal row, whose path this is. `None` exactly where an expansion was granted for it: then the relocation
/// to the row is made.
///
/// A child for which the blocking bound suffices is closed before the relocation: a finished one has no blocking, so its plan is
/// not one that is looked for.
#[inline(always)]
fn close_child<S: Seek, L: Limit>(
    problem: &Problem,
    place: &mut Bounded,
    path: &[u8],
    mover: Mover,
    row: u8,
    floor: u32,
    seek: &mut S,
    limit: &mut L,
) -> Result<Option<Closed>, WalkEnd>
    requires problem { problem.now ≡ L.problem limit.old }
    requires is_problem { IsProblem problem.now }
    requires ready { S.ready problem.now seek.old }
    requires path { IsAt problem.now path.now (child place.old.place row) }
    requires mover { IsMover mover place.old.place }
    requires row { Contains (targets place.old.place) row }
    ensures closes { Closes (S.meets problem.now) (S.ends problem.now) seek.old (dealt (L.view limit.old) (L.puts limit.old)) seek.new (dealt (L.view limit.new) (L.puts limit.new))
        0 floor path.now (child place.old.place row) (S.text seek.new) result }
    ensures back { IfOk result (λ found. IfSome found (λ closed. place.new ≡ place.old)) }
    ensures down { IfOk result (λ found. IfNone found (place.new ≡ record { place = child place.old.place row; trail = place.old.place ∷ place.old.trail })) }
    ensures same { (L.problem limit.new ≡ L.problem limit.old) × (L.budget limit.new ≡ L.budget limit.old) }
{
    let bar = seek.enough(limit);
    let below = path.len() as u32 + place.blocking_after(mover, row);
    if u64::from(below) >= bar {
        return Ok(Some(cut(Kind::CutB, below, floor)));
    }
    place.push_legal(mover, row);
    let found = close_below(problem, place, path, below, bar, floor, seek, limit)?;
    if found.is_some() {
        let _popped = place.pop();
    }
    Ok(found)
}

/// Gives away or closes the child at a legal row, whose path this is: gives it away where its path has at most `split` rows and its
/// name is accepted.
#[inline(always)]
fn walk_child<S: Seek, L: Limit>(
    problem: &Problem,
    place: &mut Bounded,
    path: &[u8],
    mover: Mover,
    row: u8,
    floor: u32,
    seek: &mut S,
    limit: &mut L,
    split: u8,
    given: &mut Vec<Name>,
) -> Result<Option<Closed>, WalkEnd>
    requires problem { problem.now ≡ L.problem limit.old }
    requires is_problem { IsProblem problem.now }
    requires ready { S.ready problem.now seek.old }
    requires path { IsAt problem.now path.now (child place.old.place row) }
    requires mover { IsMover mover place.old.place }
    requires row { Contains (targets place.old.place) row }
    requires split { split ≤ 8 }
    ensures closes { Closes (S.meets problem.now) (S.ends problem.now) seek.old (dealt (L.view limit.old) (L.puts limit.old)) seek.new (dealt (L.view limit.new) (L.puts limit.new))
        (split + 1) floor path.now (child place.old.place row) (S.text seek.new) result }
    ensures given { IfOk result (λ found. given.new.items ≡ given.old.items ++ given_names (met_at path.now (child place.old.place row) (S.text seek.new) found)) }
    ensures back { IfOk result (λ found. IfSome found (λ closed. place.new ≡ place.old)) }
    ensures down { IfOk result (λ found. IfNone found (place.new ≡ record { place = child place.old.place row; trail = place.old.place ∷ place.old.trail })) }
    ensures same { (L.problem limit.new ≡ L.problem limit.old) × (L.budget limit.new ≡ L.budget limit.old) }
{
    let put = give(path, split, limit, given)?;
    if put {
        return Ok(Some(Closed {
            kind: Kind::Given,
            floor,
        }));
    }
    close_child(problem, place, path, mover, row, floor, seek, limit)
}

/// Makes room for one more, where there is none.
#[inline]
fn make_room<T: Drop>(list: &mut Vec<T>) -> Result<(), AllocError>
    ensures items { list.new.items ≡ list.old.items }
    ensures room { OnOk result (vec_len list.new < vec_capacity list.new) }
{
    if list.len() < list.capacity() {
        return Ok(());
    }
    list.reserve(1)
}

/// Walks over the node at the path: closes it, or branches over its legal rows, rising. Where it ends before its time, position
/// and path are those of some node below.
fn walk_from<S: Seek, L: Limit>(
    alloc: Global,
    problem: &Problem,
    place: &mut Bounded,
    path: &mut ArrayVec<u8, MAX_RELOCATIONS>,
    seek: &mut S,
    limit: &mut L,
    split: u8,
) -> Result<Found, WalkEnd>
    requires problem { problem.now ≡ L.problem limit.old }
    requires ready { S.ready problem.now seek.old }
    requires path { IsAt problem.now path.old.items place.old.place }
    requires split { split ≤ 8 }
    ensures fits { IfOk result (λ found. Fits place.old.place found.tree) }
    ensures own { IfOk result (λ found. IsGivenAway found.tree → ⊥) }
    ensures floor { IfOk result (λ found. found.floor ≡ least_value (cap problem.now) (nodes path.old.items place.old.place found.tree)) }
    ensures given { IfOk result (λ found. found.given.items ≡ given_names (nodes path.old.items place.old.place found.tree)) }
    ensures met { IfOk result (λ found. S.meets problem.now split seek.old (dealt (L.view limit.old) (L.puts limit.old)) seek.new (dealt (L.view limit.new) (L.puts limit.new))
        (nodes path.old.items place.old.place found.tree)) }
    ensures end { IfErr result (λ end. (met : List Node) × AreFirstNodes path.old.items place.old.place met
        × S.ends problem.now split seek.old (dealt (L.view limit.old) (L.puts limit.old)) seek.new (dealt (L.view limit.new) (L.puts limit.new)) met end) }
    ensures same { (L.problem limit.new ≡ L.problem limit.old) × (L.budget limit.new ≡ L.budget limit.old) }
{
    let mut floor = problem.cap();
    let mut list = Row::new(alloc);
    let mut given = Vec::new(alloc);
    list.make_room()?;
    let first = close(problem, place, path.as_slice(), floor, seek, limit)?;
    if let Some(closed) = first {
        list.push(closed.kind, seek.text())?;
        return Ok(Found {
            tree: Tree::from_row(list),
            floor: closed.floor,
            given,
        });
    }
    let mut above = Vec::new(alloc);
    let mut frame = Frame::at(place);
    list.push_reserved(frame.kind());
    loop {
        let Some(row) = frame.turn() else {
            let Some(upper) = above.pop() else {
                return Ok(Found {
                    tree: Tree::from_row(list),
                    floor,
                    given,
                });
            };
            frame = upper;
            let _row = path.pop();
            let _popped = place.pop();
            continue;
        };
        list.make_room()?;
        make_room(&mut above)?;
        path.push(row);
        let found = walk_child(
            problem,
            place,
            path.as_slice(),
            frame.mover(),
            row,
            floor,
            seek,
            limit,
            split,
            &mut given,
        )?;
        let Some(closed) = found else {
            let below = Frame::at(place);
            list.push_reserved(below.kind());
            above.push_reserved(mem::replace(&mut frame, below));
            continue;
        };
        let _row = path.pop();
        list.push(closed.kind, seek.text())?;
        floor = closed.floor;
    }
}

/// Walks over the part of this name, which must be a path of the problem; the limit must be of the problem.
///
/// At a path a cut by the blocking bound stands where length plus that bound suffices. A finished path of fewer relocations is
/// taken, and is such a cut too. Else the node is a cut by the look-ahead bound where length plus that one suffices. Else it asks
/// for an expansion. If that is granted the node branches, rows rising; where the path has fewer than `split` rows, and fewer
/// than 8, each child is put and given away, and one whose put is refused is walked over at once.
pub fn walk<S: Seek, L: Limit>(
    alloc: Global,
    problem: &Problem,
    name: Name,
    seek: &mut S,
    limit: &mut L,
    split: u8,
) -> Result<Part, WalkEnd>
    requires problem { problem.now ≡ L.problem limit.old }
    requires ready { S.ready problem.now seek.old }
    requires path { (s : Place) × IsAt problem.now name s }
    ensures is_problem { IsProblem problem.now }
    ensures problem { IfOk result (λ part. part.problem ≡ problem.now) }
    ensures name { IfOk result (λ part. part.name ≡ name) }
    ensures part { IfOk result IsKeptPart }
    ensures met { IfOk result (λ part. S.meets problem.now (min split 8) seek.old (dealt (L.view limit.old) (L.puts limit.old)) seek.new (dealt (L.view limit.new) (L.puts limit.new))
        (nodes_of part)) }
    ensures end { IfErr result (λ end. (s : Place) × IsAt problem.now name s × ((met : List Node) × AreFirstNodes name s met
        × S.ends problem.now (min split 8) seek.old (dealt (L.view limit.old) (L.puts limit.old)) seek.new (dealt (L.view limit.new) (L.puts limit.new)) met end)) }
    ensures same { (L.problem limit.new ≡ L.problem limit.old) × (L.budget limit.new ≡ L.budget limit.old) }
{
    let Some(mut place) = name.bounded(problem) else {
        unreachable!()
    };
    let mut path = ArrayVec::new();
    let Ok(()) = path.try_extend_from_slice(name.rows()) else {
        unreachable!()
    };
    let found = walk_from(
        alloc,
        problem,
        &mut place,
        &mut path,
        seek,
        limit,
        split.min(MAX_NAME as u8),
    )?;
    Ok(Part::giving(problem, name, found.tree, found.floor, found.given))
}
