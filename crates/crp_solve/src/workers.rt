//! Many workers at one search: as many as are of use, each with a seat at the words that all share and a place in the pool.
ghost use Rattle.std.specs.Prelude.{◌≡◌, ◌≤◌, min, ◌+◌, true, false, [], IfSome};
ghost use Rattle.crp_solve.specs.Chosen.{is_timed};
ghost use Rattle.crp_solve.specs.Rests.{AreDone};
ghost use Rattle.crp_incumbent.specs.Seats.{Shared as Words};
ghost use Rattle.crp_solve.specs.Groups.{IsUnusedSeat, KeepsUnused, AreAllPlaces, StopsBy};
ghost use Rattle.crp_solve.specs.Begins.{IsStart};
ghost use Rattle.crp_incumbent.specs.Rule.{all_shares};

pub(crate) mod aim;
pub(crate) mod common;
mod desk;
pub(crate) mod group;
pub(crate) mod open_work;
pub(crate) mod running;
pub(crate) mod wider;

use crate::end::{Done, put_together, shared_of};
use crate::settings::Settings;
use crate::start::{Start, begin};
use crate::workers::aim::Aim;
use crate::workers::common::{Common, Gate, Outside};
use crate::workers::group::Crew;
use crate::workers::running::{run_all, work};
use crate::workers::wider::{Room, joined};
use crp_incumbent::{Seat, Shared};
use crp_plan::Problem;
use crp_pool::Pool;
use std::alloc::Global;
use std::sync::Wait;
use std::thread::Threads;

/// The most expansions of the worker that looks first.
const LOOK: u64 = 4096;

/// The settings with which one worker looks first; none where the gate asks for no look, or one worker is all there is.
pub(crate) fn look_of<G: Gate>(gate: &G, settings: Settings) -> Option<Settings>
    ensures { IfSome result (λ look. look ≡ record settings { workers = 1; budget = min settings.budget 4096 }) }
{
    if settings.workers() == 1 || !gate.looks_first() {
        return None;
    }
    Some(settings.for_one(settings.budget().min(LOOK)))
}

/// How many workers are of use, of so many at most, where so many names wait: all of them, since a part gives more names away while a
/// worker waits for one.
pub(crate) fn useful(names: u64, most: u32) -> usize
    ensures { result ≤ most }
{
    if names == 0 { 0 } else { most as usize }
}

/// The first worker goes on, and others with it where names wait for them: what is left of the seat, the pool, and the state of all.
/// Where there is no memory for others, it goes on alone.
fn work_on<R: Threads + Wait + Sync, G: Gate + Sync, A: Aim + Send>(
    outside: &Outside<R, G>,
    common: &Common,
    most: u32,
    left: Seat,
    pool: Pool,
    first: Crew<A>,
) -> (Seat, Pool, Crew<A>)
    requires most { most ≤ 64 }
    requires start { IsStart common.now.of.key common.now.of left pool first }
    requires begins { KeepsUnused A.keeps common.now.of }
    ensures left { IsUnusedSeat common.now.of result.0 }
    ensures words { result.2.of ≡ common.now.of }
    ensures share { result.0.view.share + result.2.view.share ≡ all_shares }
    ensures places { result.2.short ≡ false → AreAllPlaces result.1 result.2.places }
    ensures stops { StopsBy (G.may_stop outside.now.gate.now) first → StopsBy (G.may_stop outside.now.gate.now) result.2 }
{
    let count = useful(common.open.names(), most);
    if first.short || count < 2 {
        return (left, pool, work(outside, common, 0, first));
    }
    let Ok(room) = Room::new(common.alloc, count) else {
        return (left, pool, work(outside, common, 0, first));
    };
    let (left, pool, groups) = joined(outside.rt, common, room, left, pool, first);
    let all = run_all(outside.rt, outside.gate, outside.board, common, 0, groups);
    (left, pool, all)
}

/// Searches the problem with the workers that the settings ask for, which begin with the limit `first`: their words, and what they did.
///
/// The calling thread searches the part of the root before any other begins.
pub(crate) fn work_together<R: Threads + Wait + Sync, G: Gate + Sync, A: Aim + Send>(
    outside: &Outside<R, G>,
    alloc: Global,
    problem: &Problem,
    settings: Settings,
    first: u32,
) -> Option<(Shared, Done)>
    requires begins { (of : Words) → of.key ≡ record { problem = problem.now; start = first; budget = settings.budget; thin = settings.thin; timed = is_timed settings.time } → KeepsUnused A.keeps of }
    ensures done { IfSome result (λ r. AreDone A.keeps (record { problem = problem.now; start = first; budget = settings.budget; thin = settings.thin; timed = is_timed settings.time }) r.0 r.1) }
    ensures stops { IfSome result (λ r. r.1.stopped ≡ true → G.may_stop outside.now.gate.now) }
{
    let Start {
        common,
        left,
        pool,
        worker,
    } = begin::<R, G, A>(outside, alloc, problem, settings, first)?;
    let most = settings.workers();
    let (left, pool, all) = work_on(outside, &common, most, left, pool, worker);
    let done = put_together(outside, &common, pool, left, all);
    Some((shared_of(common), done))
}
