//! Workers as they run: each searches parts, one after the other, as the pool gives their names. Many start by halves, and are put
//! together two by two.
ghost use Rattle.std.specs.Prelude.{◌≡◌, All};
ghost use Rattle.crp_solve.specs.Groups.{SameWorkers, StopsBy, AreReady, AreTogether};
ghost use Rattle.std.specs.Thread.{IsSync};

use crate::workers::aim::{Aim, Searched};
use crate::workers::common::{Common, Gate, Outside};
use crate::workers::group::Crew;
use crp_incumbent::Board;
use std::sync::Wait;
use std::thread;
use std::thread::Threads;

/// What a worker did when its turn came.
enum Turn {
    /// It searched a part.
    Searched,
    /// It found no name.
    Idle,
    /// It is done: it has no room for a part more, or a part was lost.
    Done,
}

/// Searches the part that the pool gives. Where no part is found the group is marked.
fn task<R: Wait, G: Gate, A: Aim>(
    outside: &Outside<R, G>,
    common: &Common,
    worker: u32,
    mut group: Crew<A>,
) -> (Turn, Crew<A>)
    requires { group.of ≡ common.now.of }
    ensures same { SameWorkers group result.1 }
    ensures stops { StopsBy (G.may_stop outside.now.gate.now) group → StopsBy (G.may_stop outside.now.gate.now) result.1 }
{
    if group.parts.reserve(1).is_err() {
        return (Turn::Done, group);
    }
    let Some(mut place) = group.places.pop() else {
        return (Turn::Done, group);
    };
    let Some(name) = place.take() else {
        group.places.push_reserved(place);
        return (Turn::Idle, group);
    };
    common.open.take_one();
    let Searched {
        part,
        seat,
        best,
        place,
        stopped,
    } = A::search_part(
        outside,
        common,
        worker,
        name,
        group.seat,
        group.best,
        Some(place),
        group.stopped,
    );
    common.open.close_one();
    group.seat = seat;
    group.best = best;
    group.stopped = stopped;
    group.places.push_reserved(place.unwrap());
    let Some(part) = part else {
        common.open.lose();
        group.short = true;
        return (Turn::Done, group);
    };
    group.parts.push_reserved(part);
    (Turn::Searched, group)
}

/// Searches parts until no work is open, or a part is lost. All workers but the first, whose number is 0, were expected.
pub(crate) fn work<R: Wait, G: Gate, A: Aim>(
    outside: &Outside<R, G>,
    common: &Common,
    worker: u32,
    mut group: Crew<A>,
) -> Crew<A>
    requires { group.of ≡ common.now.of }
    ensures same { SameWorkers group result }
    ensures stops { StopsBy (G.may_stop outside.now.gate.now) group → StopsBy (G.may_stop outside.now.gate.now) result }
{
    if worker != 0 {
        common.open.arrive();
    }
    let mut idle = 0;
    for _ in outside.rt.forever() {
        let called = common.open.calls();
        if common.open.is_over() {
            break;
        }
        let (turn, after) = task(outside, common, worker, group);
        group = after;
        match turn {
            Turn::Searched => idle = 0,
            Turn::Idle => {
                common.open.wait(outside.rt, called, idle);
                idle = idle.saturating_add(1);
            }
            Turn::Done => break,
        }
    }
    group
}

/// The state of all these workers when they are done, of which there is one at least; the first has the number `first`.
/// Of more than one, one half runs on a new thread.
pub(crate) fn run_all<R: Threads + Wait + Sync, G: Gate + Sync, A: Aim + Send>(
    rt: &R,
    gate: &G,
    board: &Board,
    common: &Common,
    first: u32,
    mut groups: Vec<Crew<A>>,
) -> Crew<A>
    requires { AreReady common.now.of groups.items }
    ensures together { AreTogether groups.items result }
    ensures stops { All (StopsBy (G.may_stop gate.now)) groups.items → StopsBy (G.may_stop gate.now) result }
{
    let outside = Outside { rt, gate, board };
    let count = groups.len();
    if count < 2 {
        let Some(only) = groups.pop() else {
            unreachable!()
        };
        return work(&outside, common, first, only);
    }
    let half = count / 2;
    let Ok(others) = groups.split_off(half) else {
        let Some(last) = groups.pop() else {
            unreachable!()
        };
        let number = first.wrapping_add((count - 1) as u32);
        let before = run_all(rt, gate, board, common, first, groups);
        return before.merge(&common.shared, work(&outside, common, number, last));
    };
    let next = first.wrapping_add(half as u32);
    let (right, left) = thread::join(
        rt,
        move || -> Crew<A>
            requires sync { IsSync R.row × IsSync G.row }
            requires ready { AreReady common.now.of others.items }
            ensures together { AreTogether others.items result }
            ensures stops { All (StopsBy (G.may_stop gate.entry.now)) others.items → StopsBy (G.may_stop gate.entry.now) result }
        { run_all(rt, gate, board, common, next, others) },
        move || -> Crew<A>
            requires sync { IsSync R.row × IsSync G.row }
            requires ready { AreReady common.now.of groups.items }
            ensures together { AreTogether groups.items result }
            ensures stops { All (StopsBy (G.may_stop gate.entry.now)) groups.items → StopsBy (G.may_stop gate.entry.now) result }
        { run_all(rt, gate, board, common, first, groups) },
    );
    left.merge(&common.shared, right)
}
