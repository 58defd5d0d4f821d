//! Looks ahead: workers search a bay of the yard each, before its turn comes.
ghost use Rattle.std.specs.Prelude.{◌≡◌, Some, IfSome, slice_get};
ghost use Rattle.std.specs.Thread.{IsSync};
ghost use Rattle.crp_order.specs.declared.bay_problem.BayProblem.{BayProblem as Stated};
ghost use Rattle.crp_report.specs.Looks.{IsReady};

use crate::bay_texts::texts_of_bay;
use crate::look::{Look, Posed};
use crate::ready::Ready;
use crate::shelf::Shelf;
use crate::timing::{Clock, Timer};
use crp_order::BayProblem;
use crp_solve::{NoGate, Settings, look};
use std::alloc::Global;
use std::sync::Wait;
use std::thread;
use std::thread::Threads;

// The most expansions of one worker in a search of a bay that it has for itself: so many for the bay and for each behind it, so that no
// worker is long behind the others when none is left, and no more than so many.
const EACH: u64 = 1 << 12;

const MOST: u64 = 1 << 20;

// What one worker answers within so many expansions.
fn ready_of<T: Threads + Wait + Sync, K: Clock + Sync>(
    rt: &T,
    alloc: Global,
    timer: &Timer<'_, K>,
    bay: &BayProblem,
    settings: Settings,
    most: u64,
) -> Option<Ready>
    ensures { IfSome result (IsReady settings bay.now) }
{
    let gate = timer.gate(&NoGate, settings.time());
    let solved = look(rt, alloc, &bay.problem, settings, most, &gate)?;
    let Ok(texts) = texts_of_bay(alloc, bay, &solved) else {
        return None;
    };
    Some(Ready { solved, texts })
}

// Looks at the bay at this place.
fn look_at<T: Threads + Wait + Sync, K: Clock + Sync, Y: Posed>(
    rt: &T,
    alloc: Global,
    timer: &Timer<'_, K>,
    bays: &[BayProblem],
    settings: Settings,
    place: usize,
) -> Option<Look<Y>>
    requires bays { Y.bays ≡ bays.now }
    requires chosen { Y.chosen ≡ settings }
    ensures { IfSome result (λ look. look ≡ place) }
{
    let bay = bays.get(place)?;
    let behind = bays.len() - place;
    let most = EACH.saturating_mul(behind as u64).min(MOST);
    let ready = ready_of(rt, alloc, timer, bay, settings, most)?;
    Some(Look::new(place, ready))
}

// Looks at one bay after the other that nobody else takes.
fn look_on<T: Threads + Wait + Sync, K: Clock + Sync, Y: Posed>(
    rt: &T,
    alloc: Global,
    timer: &Timer<'_, K>,
    bays: &[BayProblem],
    settings: Settings,
    shelf: &Shelf<Y>,
    worker: usize,
)
    requires bays { Y.bays ≡ bays.now }
    requires chosen { Y.chosen ≡ settings }
{
    for _ in 0..bays.len() {
        let Some(place) = shelf.take(rt, worker) else {
            break;
        };
        let found = look_at(rt, alloc, timer, bays, settings, place);
        shelf.put(rt, worker, found);
    }
}

/// So many workers look at bays until none is left.
pub(crate) fn look_together<T: Threads + Wait + Sync, K: Clock + Sync, Y: Posed + Send + Sync>(
    rt: &T,
    alloc: Global,
    timer: &Timer<'_, K>,
    bays: &[BayProblem],
    settings: Settings,
    shelf: &Shelf<Y>,
    workers: usize,
)
    requires bays { Y.bays ≡ bays.now }
    requires chosen { Y.chosen ≡ settings }
{
    let _looked = thread::map_indices(
        rt,
        alloc,
        workers,
        &|worker: usize|
            requires { IsSync T.row × IsSync K.row × (Y.bays ≡ bays.now) × (Y.chosen ≡ settings) }
        { look_on(rt, alloc, timer, bays, settings, shelf, worker) },
    );
}

/// What is found of the bay at this place by one worker, when its turn comes: by the one that has taken it or, where none has, by the caller.
pub(crate) fn ready_at<T: Threads + Wait + Sync, K: Clock + Sync, Y: Posed>(
    rt: &T,
    alloc: Global,
    timer: &Timer<'_, K>,
    bays: &[BayProblem],
    settings: Settings,
    shelf: &Shelf<Y>,
    place: usize,
) -> Option<Ready>
    requires bays { Y.bays ≡ bays.now }
    requires chosen { Y.chosen ≡ settings }
    ensures { (bay : Stated) → slice_get bays.now place ≡ Some bay → IfSome result (IsReady settings bay) }
{
    let found = if shelf.begin_turn(rt, place) {
        look_at(rt, alloc, timer, bays, settings, place)
    } else {
        shelf.give(rt, place)
    };
    Some(found?.into_ready())
}
