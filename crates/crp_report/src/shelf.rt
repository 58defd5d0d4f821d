//! A shelf, from which workers take bays that nobody has looked at, and on which their answers wait for the turn of their bays.
//!
//! Nothing is proved of who looks at which bay, nor that anybody does, nor that each wait ends. It does: a worker waits only while the shelf is
//! full, and holds no bay then; whoever has a turn waits only for a bay at which a worker looks, takes one that nobody has, and says when no turn
//! comes any more. So of those who wait one is never the reason of the other, and where no thread is had nobody waits.
ghost use Rattle.std.specs.Prelude.{◌≡◌, IfSome};

use crate::look::{Look, Posed};
use std::alloc::Global;
use std::sync::{Condvar, Mutex, Wait};

// The most bays for each worker that are taken before their turn.
const AHEAD: usize = 64;

// No more bays are taken while the certificates that wait have so many bytes.
const WAITING: usize = 1 << 26;

// The place of no bay.
const NOWHERE: usize = usize::MAX;

#[derive(Drop)]
struct Held<Y: Posed> {
    // How many bays may be taken.
    bays: usize,
    // The place of the first that nobody has taken.
    next: usize,
    // The place of the one whose turn it is.
    turn: usize,
    // Where each worker looks.
    looking: Vec<usize>,
    // The answers that wait, and how many bytes their certificates have.
    found: Vec<Look<Y>>,
    bytes: usize,
}

impl<Y: Posed> Held<Y> {
    fn is_full(&self) -> bool {
        let most = self.looking.len().saturating_mul(AHEAD);
        self.next < self.bays
            && (self.next.saturating_sub(self.turn) >= most || self.bytes >= WAITING)
    }

    fn is_looked_at(&self, place: usize) -> bool {
        self.looking.contains(&place)
    }

    fn take(&mut self, worker: usize) -> Option<usize> {
        let place = self.next;
        if place >= self.bays || worker >= self.looking.len() {
            return None;
        }
        self.looking[worker] = place;
        self.next = place + 1;
        Some(place)
    }

    fn put(&mut self, worker: usize, look: Option<Look<Y>>) {
        if worker < self.looking.len() {
            self.looking[worker] = NOWHERE;
        }
        if let Some(look) = look {
            let bytes = look.bytes();
            if self.found.push(look).is_ok() {
                self.bytes = self.bytes.saturating_add(bytes);
            }
        }
    }

    fn begin_turn(&mut self, place: usize) -> bool {
        self.turn = place;
        if self.next != place || place >= self.bays {
            return false;
        }
        self.next = place + 1;
        true
    }

    fn give(&mut self, place: usize) -> Option<Look<Y>>
        ensures { IfSome result (λ look. look ≡ place) }
    {
        for i in 0..self.found.len() {
            if self.found[i].place() == place {
                let look = self.found.swap_remove(i);
                self.bytes = self.bytes.saturating_sub(look.bytes());
                return Some(look);
            }
        }
        None
    }
}

/// The shelf of so many bays.
#[derive(Drop)]
pub(crate) struct Shelf<Y: Posed> {
    held: Mutex<Held<Y>>,
    // Somebody who waits may go on.
    changed: Condvar,
}

impl<Y: Posed> Shelf<Y> {
    /// A shelf of so many bays for so many workers, or for fewer where memory is short.
    pub(crate) fn new(alloc: Global, workers: usize, bays: usize) -> Shelf<Y> {
        let mut looking = Vec::new(alloc);
        for _ in 0..workers {
            let _seated = looking.push(NOWHERE);
        }
        let held = Held {
            bays,
            next: 0,
            turn: 0,
            looking,
            found: Vec::new(alloc),
            bytes: 0,
        };
        Shelf {
            held: Mutex::new(held),
            changed: Condvar::new(),
        }
    }

    /// The place of a bay that nobody has taken, for this worker to look at, as soon as the shelf has room; `None` where none is left.
    pub(crate) fn take(&self, rt: &impl Wait, worker: usize) -> Option<usize> {
        let mut held = self.changed.wait_while(
            rt,
            self.held.lock(rt),
            |held: &mut Held<Y>| held.is_full(),
        );
        held.take(worker)
    }

    /// The worker has looked at the bay that it took, and found this.
    pub(crate) fn put(&self, rt: &impl Wait, worker: usize, look: Option<Look<Y>>) {
        self.held.lock(rt).put(worker, look);
        self.changed.notify_all();
    }

    /// The turn of the bay at this place begins. Says whether nobody has taken it, and that nobody else does from then on.
    pub(crate) fn begin_turn(&self, rt: &impl Wait, place: usize) -> bool {
        let is_free = self.held.lock(rt).begin_turn(place);
        self.changed.notify_all();
        is_free
    }

    /// The answer to the bay at this place, if a look found it, as soon as no worker looks at it. It is given once.
    pub(crate) fn give(&self, rt: &impl Wait, place: usize) -> Option<Look<Y>>
        ensures { IfSome result (λ look. look ≡ place) }
    {
        let mut held = self
            .changed
            .wait_while(rt, self.held.lock(rt), |held: &mut Held<Y>| {
                held.is_looked_at(place)
            });
        held.give(place)
    }

    /// No turn comes any more, and no bay is left to be taken.
    pub(crate) fn end(&self, rt: &impl Wait) {
        let mut held = self.held.lock(rt);
        held.next = held.bays;
        drop(held);
        self.changed.notify_all();
    }
}
