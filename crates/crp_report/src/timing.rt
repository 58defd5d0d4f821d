//! Limits of time: a clock, and the gate that stops a search when its time is over, or somebody asks for it.
//!
//! Nothing is proved of a clock, nor of how soon a search ends. What is found until then is an answer all the same.
ghost use Rattle.std.specs.Prelude.{◌≡◌, ℕ};
ghost use Rattle.std.specs.Option.{option_map};
ghost use Rattle.crp_report.specs.Timing.{later, first_of, end_of};

use crp_solve::{Gate, TimeLimits};
use crp_tree::Name;
use std::sync::atomic::{AtomicBool, AtomicU64, Ordering};

// The milliseconds in which the clock is asked at most once whether somebody wants a stop.
const SECOND: u64 = 1000;

/// A clock, and who may ask for a stop.
pub trait Clock {
    /// The milliseconds that have passed since some moment.
    fn millis(&self) -> u64;

    /// Whether somebody has asked for a stop.
    fn is_stopped(&self) -> bool {
        false
    }
}

/// The clock that stands still: with it no limit of time above 0 is ever reached.
#[derive(Clone, Copy)]
pub struct NoClock;

impl Clock for NoClock {
    fn millis(&self) -> u64 {
        0
    }
}

// The moment that is as much later as the limit says, if there is one.
fn end_behind(moment: u64, limit: Option<u64>) -> Option<u64>
    ensures { result ≡ option_map (later moment) limit }
{
    match limit {
        Some(limit) => Some(moment.saturating_add(limit)),
        None => None,
    }
}

// The first of two moments that may be missing.
fn first_of(one: Option<u64>, other: Option<u64>) -> Option<u64>
    ensures { result ≡ first_of one other }
{
    match (one, other) {
        (Some(one), Some(other)) => Some(one.min(other)),
        (Some(one), None) => Some(one),
        (None, other) => other,
    }
}

/// When a search ends at the latest that begins now, in a run that began then, in milliseconds; `None` where it has no limit.
pub fn end_of(limits: TimeLimits, begun: u64, now: u64) -> Option<u64>
    ensures { result ≡ end_of limits begun now }
{
    let of_bay = end_behind(now, limits.bay);
    let of_all = end_behind(begun, limits.all);
    first_of(of_bay, of_all)
}

/// A gate that is another one, and besides stops a timed search at this moment of a clock, or when somebody asks for it.
#[derive(Drop)]
pub struct Timed<'a, 'k, G, K> {
    /// The other gate.
    pub gate: &'a G,
    /// The clock of the run.
    pub timer: &'a Timer<'k, K>,
    /// The moment, in milliseconds; `None` where the time is never over.
    pub end: Option<u64>,
    /// Whether somebody may ask for a stop.
    pub stop: bool,
}

impl<'a, 'k, G: Gate, K: Clock> Gate for Timed<'a, 'k, G, K> {
    ghost use Rattle.std.specs.Prelude.{◌≡◌, ◌⊎◌, true, is_some};

    ghost may_stop = { λ timed. (is_some timed.end ≡ true) ⊎ ((timed.stop ≡ true) ⊎ G.may_stop timed.gate.now) };

    fn begun(&self, worker: u32, task: &Name) {
        self.gate.begun(worker, task);
    }

    fn planned(&self, relocations: u32) {
        self.gate.planned(relocations);
    }

    fn claimed(&self, positions: u32) {
        self.gate.claimed(positions);
    }

    fn stops(&self) -> bool {
        let is_over = match self.end {
            Some(end) => self.timer.clock.millis() >= end,
            None => false,
        };
        is_over || (self.stop && self.timer.is_stopped()) || self.gate.stops()
    }

    fn looks_first(&self) -> bool {
        self.gate.looks_first()
    }
}

/// A clock, and the moment at which a run began.
#[derive(Drop)]
pub struct Timer<'a, K> {
    /// The clock.
    pub clock: &'a K,
    /// The moment, in milliseconds.
    pub begun: u64,
    // The second in which the clock was asked last for a stop, and whether somebody wanted one.
    asked: AtomicU64,
    stopped: AtomicBool,
}

impl<'a, K: Clock> Timer<'a, K> {
    /// A run begins now.
    pub fn start(clock: &'a K) -> Timer<'a, K>
        ensures { result.clock.now ≡ clock.now }
    {
        Timer {
            clock,
            begun: clock.millis(),
            asked: AtomicU64::new(u64::MAX),
            stopped: AtomicBool::new(false),
        }
    }

    /// Whether somebody has asked for a stop. The clock is asked at most once in a second, and no more once it has said so.
    fn is_stopped(&self) -> bool {
        if self.stopped.load(Ordering::Relaxed) {
            return true;
        }
        let second = self.clock.millis() / SECOND;
        if self.asked.swap(second, Ordering::Relaxed) == second || !self.clock.is_stopped() {
            return false;
        }
        self.stopped.store(true, Ordering::Relaxed);
        true
    }

    /// The gate of a search that begins now with these limits: this one, and besides it stops the search when its time is over, or somebody
    /// asks for a stop where the limits have it so.
    pub fn gate<'b, G>(&'b self, gate: &'b G, limits: TimeLimits) -> Timed<'b, 'a, G, K>
        ensures gate { result.gate.now ≡ gate.now }
        ensures clock { result.timer.now ≡ self.now }
        ensures end { (now : ℕ) × (result.end ≡ end_of limits self.now.begun now) }
        ensures stop { result.stop ≡ limits.stop }
    {
        Timed {
            gate,
            timer: self,
            end: end_of(limits, self.begun, self.clock.millis()),
            stop: limits.stop,
        }
    }
}
