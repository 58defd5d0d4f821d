//! How much work of a search is open. Nothing rests on it but that idle workers sleep, wake and end.
use std::sync::Wait;
use std::sync::atomic::{AtomicBool, AtomicU64, Ordering};
use std::thread;
use std::time::Duration;

/// How often a worker that waits looks again at once, before it sleeps.
const LOOKS: u64 = 16;

/// The longest sleep of a worker, in microseconds.
const MAX_SLEEP: u64 = 1000;

/// How many names are to lie ready for each worker that waits: one that is below paths of 8 rows gives none away for long, and another may
/// take the name that was put for this one.
const READY: u64 = 4;

/// The names that were put and not searched yet, how many of them nobody took, whether a part was lost, how often an idle worker had
/// reason to look again, and how many workers wait now or are about to begin.
#[derive(Drop)]
pub(crate) struct OpenWork {
    names: AtomicU64,
    untaken: AtomicU64,
    lost: AtomicBool,
    calls: AtomicU64,
    waiting: AtomicU64,
}

impl OpenWork {
    /// One name is open, that of the whole search, which the first worker has.
    pub(crate) fn new() -> OpenWork {
        OpenWork {
            names: AtomicU64::new(1),
            untaken: AtomicU64::new(0),
            lost: AtomicBool::new(false),
            calls: AtomicU64::new(0),
            waiting: AtomicU64::new(0),
        }
    }

    /// How many names are open.
    pub(crate) fn names(&self) -> u64 {
        self.names.load(Ordering::SeqCst)
    }

    /// How often idle workers were called. An idle worker reads this before it looks for a name, and sleeps only while nobody called
    /// since: so it misses no name that is put meanwhile, and no end.
    pub(crate) fn calls(&self) -> u64 {
        self.calls.load(Ordering::SeqCst)
    }

    /// Whether a worker waits for a name, and fewer lie ready than are to lie ready for it.
    pub(crate) fn is_awaited(&self) -> bool {
        let wanted = self.waiting.load(Ordering::Relaxed).saturating_mul(READY);
        wanted > self.untaken.load(Ordering::Relaxed)
    }

    /// So many workers are about to begin, and wait until they do.
    pub(crate) fn expect(&self, workers: usize) {
        self.waiting.fetch_add(workers as u64, Ordering::Relaxed);
    }

    /// A worker that was expected begins.
    pub(crate) fn arrive(&self) {
        self.waiting.fetch_sub(1, Ordering::Relaxed);
    }

    /// Counts a name that is about to be put.
    pub(crate) fn begin_put(&self) {
        self.untaken.fetch_add(1, Ordering::Relaxed);
        self.names.fetch_add(1, Ordering::SeqCst);
    }

    /// A name was taken, or was not put.
    pub(crate) fn take_one(&self) {
        self.untaken.fetch_sub(1, Ordering::Relaxed);
    }

    /// The name was put, and a worker that sleeps may take it.
    pub(crate) fn end_put(&self) {
        self.calls.fetch_add(1, Ordering::SeqCst);
        self.calls.wake_one();
    }

    /// All workers that sleep look again.
    fn call_all(&self) {
        self.calls.fetch_add(1, Ordering::SeqCst);
        self.calls.wake_all();
    }

    /// A name was searched, or was not put. After the last one no worker sleeps any more.
    pub(crate) fn close_one(&self) {
        if self.names.fetch_sub(1, Ordering::SeqCst) == 1 {
            self.call_all();
        }
    }

    /// A part or a name was lost: every worker ends at its next task.
    pub(crate) fn lose(&self) {
        self.lost.store(true, Ordering::SeqCst);
        self.call_all();
    }

    /// Whether workers end, since no name is open or a part was lost.
    pub(crate) fn is_over(&self) -> bool {
        self.lost.load(Ordering::SeqCst) || self.names() == 0
    }

    /// An idle worker waits, which has waited so many times before in a row, and was called so often before it found no name.
    pub(crate) fn wait<R: Wait>(&self, rt: &R, called: u64, times: u64) {
        self.waiting.fetch_add(1, Ordering::SeqCst);
        self.pause_since(rt, called, times);
        self.waiting.fetch_sub(1, Ordering::SeqCst);
    }

    /// A worker that has work pauses, which has paused so many times before in a row, until it may go on.
    pub(crate) fn pause<R: Wait>(&self, rt: &R, times: u64) {
        self.pause_since(rt, self.calls(), times);
    }

    /// At first for the next turn, then asleep until somebody calls, and longer each time.
    fn pause_since<R: Wait>(&self, rt: &R, called: u64, times: u64) {
        if times < LOOKS {
            thread::yield_now();
        } else {
            let sleep = Duration::from_micros(times.min(MAX_SLEEP));
            self.calls
                .park_timeout(rt, (called & 0xffff_ffff) as u32, sleep);
        }
    }
}
