//! A wider pool for more workers: each has a seat that is split off and a place, and the first worker moves there from a pool of its own,
//! with the names that wait.
ghost use Rattle.std.specs.Prelude.{◌≡◌, ◌<◌, [], ◌∷◌, Bool, false, true, IsTrue, length, ◌+◌, ◌≤◌, List, All, IfOk, map, None, vec_len, vec_capacity};
ghost use Rattle.crp_pool.specs.Weigh.{SameNames};
ghost use Rattle.crp_pool.specs.Seats.{SameSeat, all_takes};
ghost use Rattle.crp_solve.specs.Groups.{IsRoom, IsUnused, place_key, keys, StopsBy, IsRoomFor, IsUnusedSeat, KeepsUnused, AreAllPlaces, AreSeated};
ghost use Rattle.crp_solve.specs.Begins.{IsStart, AreAllWorkers};

use crate::workers::aim::Aim;
use crate::workers::common::Common;
use crate::workers::group::Crew;
use crp_incumbent::{Seat, Shared};
use crp_pool::{Pool, PoolSeat, Rest};
use std::alloc::{AllocError, Global};
use std::marker::PhantomData;
use std::sync::Wait;

/// Puts the names that are left at the place, and answers whether there was room for all of them.
fn put_all<R: Wait>(rt: &R, rest: &mut Rest, place: &mut PoolSeat) -> bool
    requires none_taken { SameNames rest.old.takes [] }
    requires none_put { place.old.puts ≡ [] }
    ensures same { SameSeat place.old place.new × (place.new.takes ≡ place.old.takes) }
    ensures all { IsTrue result → SameNames place.new.puts rest.old.puts }
{
    for _ in rt.forever() {
        let Some(name) = rest.next() else {
            return true;
        };
        let Ok(()) = place.put(name) else {
            return false;
        };
    }
    false
}

/// The only worker of the pool, at the first place of another; the names that wait go with it. It is marked where there is no
/// room for them there.
fn moved<R: Wait, A: Aim>(
    rt: &R,
    pool: Pool,
    worker: Crew<A>,
    mut place: PoolSeat,
    mut room: Vec<PoolSeat>,
) -> Crew<A>
    requires every { AreAllPlaces pool worker.places }
    requires whole { worker.short ≡ false }
    requires none_taken { all_takes worker.places ≡ [] }
    requires unused { IsUnused place }
    requires first { place.number ≡ 0 }
    requires room { IsRoom room }
    ensures of { result.of ≡ worker.of }
    ensures view { result.view ≡ worker.view }
    ensures stopped { result.stopped ≡ worker.stopped }
    ensures places { keys result ≡ place_key place ∷ [] }
{
    let Crew {
        seat,
        best,
        parts,
        places,
        short: _,
        stopped,
        aim: _,
    } = worker;
    let mut rest = pool.finish(places);
    let all = put_all(rt, &mut rest, &mut place);
    room.push_reserved(place);
    Crew {
        seat,
        best,
        parts,
        places: room,
        short: !all,
        stopped,
        aim: PhantomData,
    }
}

/// How many names each worker's deque holds.
pub(crate) const CAPACITY: usize = 64;

/// What several workers need before they begin: a pool, with a place for each, and lists with room for their places and states.
#[derive(Drop)]
pub(crate) struct Room<A: Aim> {
    pool: Pool,
    places: Vec<PoolSeat>,
    lists: Vec<Vec<PoolSeat>>,
    groups: Vec<Crew<A>>,
}

/// Lists with room for one place each.
fn lists_of(alloc: Global, count: usize) -> Result<Vec<Vec<PoolSeat>>, AllocError>
    ensures count { IfOk result (λ lists. length lists.items ≡ count) }
    ensures lists { IfOk result (λ lists. All IsRoom lists.items) }
{
    let mut lists = Vec::new(alloc);
    for _number in 0..count {
        lists.push(Vec::with_capacity(alloc, 1)?)?;
    }
    Ok(lists)
}

impl<A: Aim> Room<A> {
    /// Room for so many workers.
    pub(crate) fn new(alloc: Global, count: usize) -> Result<Room<A>, AllocError>
        requires { (0 < count) × (count ≤ 64) }
        ensures { IfOk result (λ room. IsRoomFor count room.pool room.places.items room.lists.items room.groups) }
    {
        let (pool, places) = Pool::new(alloc, count, CAPACITY)?;
        Ok(Room {
            pool,
            places,
            lists: lists_of(alloc, count)?,
            groups: Vec::with_capacity(alloc, count)?,
        })
    }
}

/// A worker more for each place, with a share of the seat: what is left of the seat, and the groups with these.
fn seated<A: Aim>(
    alloc: Global,
    shared: &Shared,
    seat: Seat,
    places: Vec<PoolSeat>,
    mut lists: Vec<Vec<PoolSeat>>,
    mut groups: Vec<Crew<A>>,
) -> (Seat, Vec<Crew<A>>)
    requires seat { IsUnusedSeat shared.now seat }
    requires begins { KeepsUnused A.keeps shared.now }
    requires shares { length places.items < seat.view.share }
    requires places { All IsUnused places.items }
    requires numbers { All (λ place. 1 ≤ place.number) places.items }
    requires lists { (length lists.items ≡ length places.items) × All IsRoom lists.items }
    requires room { vec_len groups + length places.items ≤ vec_capacity groups }
    requires words { All (λ group. group.of ≡ shared.now) groups.items }
    ensures seated { AreSeated shared.now seat places.items groups.items result.0 result.1.items }
    ensures stops { (may : Bool) → All (StopsBy (may ≡ true)) groups.items → All (StopsBy (may ≡ true)) result.1.items }
{
    let mut left = seat;
    for place in places {
        let Ok((kept, given)) = shared.split(left) else {
            unreachable!()
        };
        let Some(list) = lists.pop() else {
            unreachable!()
        };
        left = kept;
        groups.push_reserved(Crew::new(alloc, given, place, list));
    }
    (left, groups)
}

/// The first worker moved to a wider pool, and the others: what is left of the seat, the wider pool, and the workers.
pub(crate) fn joined<R: Wait, A: Aim>(
    rt: &R,
    common: &Common,
    room: Room<A>,
    left: Seat,
    pool: Pool,
    first: Crew<A>,
) -> (Seat, Pool, Vec<Crew<A>>)
    requires room { IsRoomFor (length room.places.items) room.pool room.places.items room.lists.items room.groups }
    requires several { (2 ≤ length room.places.items) × (length room.places.items ≤ 64) }
    requires start { IsStart common.now.of.key common.now.of left pool first }
    requires whole { first.short ≡ false }
    requires begins { KeepsUnused A.keeps common.now.of }
    ensures all { AreAllWorkers common.now.of result.0 result.1 result.2.items }
    ensures count { length result.2.items ≡ length room.places.items }
    ensures stops { All (StopsBy (first.stopped ≡ true)) result.2.items }
{
    let Room {
        pool: wider,
        mut places,
        mut lists,
        mut groups,
    } = room;
    let place = places.remove(0);
    common.open.expect(places.len());
    let Some(list) = lists.pop() else {
        unreachable!()
    };
    let first = moved(rt, pool, first, place, list);
    if first.short {
        // A name has no room in the wider pool: nobody waits for it.
        common.open.lose();
    }
    groups.push_reserved(first);
    let (left, groups) = seated(common.alloc, &common.shared, left, places, lists, groups);
    (left, wider, groups)
}
