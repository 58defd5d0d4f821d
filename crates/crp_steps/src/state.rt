//! The state of a world, and what each event does to it.
ghost use Rattle.std.specs.Prelude.{◌≡◌, ℕ, [], ◌∷◌, ◌++◌, ◌+◌, ◌<◌, ◌≤◌, length, List, IfOk, OnOk, OnErr, IfErr, IfSome, IfNone, IsTrue, IsFalse, ◌↔◌, Contains};
ghost use Rattle.crp_plan.specs.Bay.{IsProblem, Position as Place};
ghost use Rattle.crp_bay.specs.Positions.{targets};
ghost use Rattle.crp_steps.specs.Worlds.{World as WorldValue, Worker as WorkerValue, IsWorker};
ghost use Rattle.crp_steps.specs.Events.{words_of, after_words, MayClose};
ghost use Rattle.crp_steps.specs.Events.{Steps, Sees, Takes, Steals, Claims, Tries, Puts, Closes, Offers, Finishes, Leads};
ghost use Rattle.crp_plan.specs.Bay.{cap};
ghost use Rattle.crp_steps.specs.Worlds.{begin, least_leaf as least_leaf_of};
ghost use Rattle.crp_steps.specs.Covered.{IsClosedWorld, SomeRefused};
ghost use Rattle.crp_steps.specs.Own.{IsStopped, HoldsCurrent, BranchesAt, ClosesAs, CanCount};

use crate::current::Current;
use crate::event::{Bound, Event, Kind, Stopped};
use crate::leaf::{Leaf, Offered};
use crate::path::Path;
use crate::worker::Worker;
use crp_plan::{Problem, Words};
use std::alloc::{AllocError, Global};
use std::marker::Model;

/// The state of a world: its rules, what the workers share, and the workers.
#[derive(Drop)]
pub(crate) struct State {
    alloc: Global,
    problem: Problem,
    budget: u64,
    split: u8,
    start: u64,
    limit: u64,
    spent: u64,
    workers: Vec<Worker>,
    leaves: Vec<Leaf>,
    offered: Vec<Offered>,
}

impl Model for State {
    ghost use Rattle.crp_steps.specs.Worlds.{World as WorldValue};

    ghost Value = { WorldValue };

    ghost view = { λ state. record {
      rules = record { problem = state.problem; budget = state.budget; split = state.split; start = state.start };
      limit = state.limit;
      spent = state.spent;
      workers = state.workers.items;
      leaves = state.leaves.items;
      offered = state.offered.items;
    } };
}

impl State {
    /// The state in which so many workers begin, with this limit.
    pub(crate) fn start(
        alloc: Global,
        problem: &Problem,
        workers: u32,
        budget: u64,
        split: u8,
        start: u64,
    ) -> Result<State, AllocError>
        requires { 1 ≤ workers }
        ensures { IfOk result (λ state. state ≡ begin (record { problem = problem.now; budget = budget; split = split; start = start }) workers) }
    {
        let mut all = Vec::new(alloc);
        all.push(Worker::at_root(alloc, start)?)?;
        for other in 0..workers - 1 {
            all.push(Worker::idle(alloc, start))?;
        }
        Ok(State {
            alloc,
            problem: problem.copy(),
            budget,
            split,
            start,
            limit: start,
            spent: 0,
            workers: all,
            leaves: Vec::new(alloc),
            offered: Vec::new(alloc),
        })
    }

    /// The limit.
    pub(crate) fn limit(&self) -> u64
        ensures { result ≡ self.now.limit }
    {
        self.limit
    }

    /// How many expansions were claimed.
    pub(crate) fn spent(&self) -> u64
        ensures { result ≡ self.now.spent }
    {
        self.spent
    }

    /// Whether nothing waits in any deque or hand.
    pub(crate) fn is_closed(&self) -> bool
        ensures { IsTrue result ↔ IsClosedWorld self.now }
    {
        for worker in &self.workers {
            if !worker.is_empty() {
                return false;
            }
        }
        true
    }

    /// The least value of a closed leaf, or the problem's cap where none is below that.
    pub(crate) fn least_leaf(&self) -> u32
        ensures value { result ≡ least_leaf_of self.now }
        ensures within_cap { result ≤ cap self.now.rules.problem }
    {
        let mut least = self.problem.cap();
        for leaf in &self.leaves {
            least = least.min(leaf.value);
        }
        least
    }

    /// Whether some worker was refused a claim.
    pub(crate) fn was_refused(&self) -> bool
        ensures { IsTrue result ↔ SomeRefused self.now }
    {
        for worker in &self.workers {
            if worker.view().refused > 0 {
                return true;
            }
        }
        false
    }

    /// The limit and the claims, and the view of the worker, which must be there.
    fn words(&self, k: usize) -> Words
        requires there { k < length self.now.workers }
        ensures { (worker : WorkerValue) → IsWorker self.now k worker → result ≡ words_of self.now worker }
    {
        Words {
            limit: self.limit,
            spent: self.spent,
            view: self.workers[k].view(),
        }
    }

    /// The worker has met the limit and the claims, which are these now.
    fn meet(&mut self, k: usize, words: Words)
        requires there { k < length self.old.workers }
        ensures { (worker : WorkerValue) → IsWorker self.old k worker → self.new ≡ after_words self.old k worker words }
    {
        self.limit = words.limit;
        self.spent = words.spent;
        self.workers[k].know(words.view);
    }

    /// The worker sees the limit.
    fn see(&mut self, k: usize)
        requires there { k < length self.old.workers }
        ensures { Sees k self.old self.new }
    {
        let mut words = self.words(k);
        let _limit = words.see();
        self.meet(k, words);
    }

    /// The worker takes a name of its own deque.
    fn take(&mut self, k: usize) -> Result<(), Stopped>
        requires there { k < length self.old.workers }
        ensures done { OnOk result (Steps Takes k self.old self.new) }
        ensures stopped { IfErr result (IsStopped (Steps Takes k self.old)) }
        ensures same { OnErr result (self.new ≡ self.old) }
    {
        self.workers[k].take()
    }

    /// The worker puts a path of its hand into its deque.
    fn put(&mut self, k: usize, index: usize) -> Result<(), Stopped>
        requires there { k < length self.old.workers }
        ensures done { OnOk result (Steps (Puts self.old.rules.split index) k self.old self.new) }
        ensures stopped { IfErr result (IsStopped (Steps (Puts self.old.rules.split index) k self.old)) }
        ensures same { OnErr result (self.new ≡ self.old) }
    {
        self.workers[k].put(self.split, index)
    }

    /// The worker ends its task.
    fn finish(&mut self, k: usize) -> Result<(), Stopped>
        requires there { k < length self.old.workers }
        ensures done { OnOk result (Steps Finishes k self.old self.new) }
        ensures stopped { IfErr result (IsStopped (Steps Finishes k self.old)) }
        ensures same { OnErr result (self.new ≡ self.old) }
    {
        self.workers[k].finish()
    }

    /// The current path of the worker. `None` exactly where its hand is empty, or the path is none of the problem.
    fn current(&self, k: usize) -> Option<Current>
        requires there { k < length self.now.workers }
        ensures current { IfSome result (λ current. HoldsCurrent self.now k current.path current.place.place) }
        ensures none { IfNone result ((path : List ℕ) (place : Place) → HoldsCurrent self.now k path place → ⊥) }
        ensures problem { IfSome result (λ current. IsProblem self.now.rules.problem) }
    {
        let Some(path) = self.workers[k].current() else {
            return None;
        };
        let path = path.copy();
        let Some(place) = path.place(&self.problem) else {
            return None;
        };
        Some(Current { path, place })
    }

    /// The worker takes the first name of another worker's deque. It is copied first, so that lack of memory changes nothing.
    fn steal(&mut self, k: usize, victim: usize) -> Result<(), Stopped>
        requires there { k < length self.old.workers }
        ensures done { OnOk result (Steals k victim self.old self.new) }
        ensures stopped { IfErr result (IsStopped (Steals k victim self.old)) }
        ensures same { OnErr result (self.new ≡ self.old) }
    {
        if victim == k || victim >= self.workers.len() || self.workers[k].has_task() {
            return Err(Stopped::NotNow);
        }
        let Some(name) = self.workers[victim].first_name() else {
            return Err(Stopped::NotNow);
        };
        let Ok(()) = self.workers[k].receive(name) else {
            return Err(Stopped::Memory);
        };
        self.workers[victim].lose_first();
        Ok(())
    }

    /// The worker's current path is this leaf, and is closed.
    fn close(&mut self, k: usize, leaf: Leaf) -> Result<(), AllocError>
        requires there { k < length self.old.workers }
        ensures done { OnOk result (ClosesAs k leaf self.old self.new) }
        ensures same { OnErr result (self.new ≡ self.old) }
    {
        self.leaves.push(leaf)?;
        self.workers[k].drop_current();
        Ok(())
    }

    /// Whether the worker has offered the path.
    fn has_offered(&self, k: usize, path: &Path) -> bool
        ensures { IsTrue result ↔ Contains self.now.offered (record { worker = k; path = path.now }) }
    {
        for offer in &self.offered {
            if offer.is_by(k, path) {
                return true;
            }
        }
        false
    }

    /// Whether the worker may close its current path as a leaf of this value.
    fn may_close(&self, k: usize, current: &Current, value: u32) -> bool
        requires there { k < length self.now.workers }
        ensures may { IsTrue result → (worker : WorkerValue) → IsWorker self.now k worker
            → MayClose self.now k worker (record { path = current.now.path; value = value }) current.now.place.place }
        ensures may_not { IsFalse result → (worker : WorkerValue) → IsWorker self.now k worker
            → MayClose self.now k worker (record { path = current.now.path; value = value }) current.now.place.place → ⊥ }
    {
        let view = self.workers[k].view();
        view.seen <= u64::from(value)
            || view.refused > 0
            || (current.place.is_done() && self.has_offered(k, &current.path))
    }

    /// The worker closes its current path by the bound.
    fn leaf(&mut self, k: usize, bound: Bound<'_>) -> Result<(), Stopped>
        requires there { k < length self.old.workers }
        ensures done { OnOk result (Closes k bound.entry self.old self.new) }
        ensures stopped { IfErr result (IsStopped (Closes k bound.entry self.old)) }
        ensures same { OnErr result (self.new ≡ self.old) }
    {
        let Some(current) = self.current(k) else {
            return Err(Stopped::NotNow);
        };
        if !current.holds(bound) {
            return Err(Stopped::NotNow);
        }
        let value = current.value(bound);
        if !self.may_close(k, &current, value) {
            return Err(Stopped::NotNow);
        }
        let path = current.path;
        let Ok(()) = self.close(k, Leaf { path, value }) else {
            return Err(Stopped::Memory);
        };
        Ok(())
    }

    /// The path is among the offered plans, as the worker's.
    fn add_offer(&mut self, k: usize, path: Path) -> Result<(), AllocError>
        ensures done { OnOk result (self.new ≡ record self.old { offered = self.old.offered ++ (record { worker = k; path = path }) ∷ [] }) }
        ensures same { OnErr result (self.new ≡ self.old) }
    {
        self.offered.push(Offered { worker: k, path })?;
        Ok(())
    }

    /// The worker offers its current path.
    fn offer(&mut self, k: usize) -> Result<(), Stopped>
        requires there { k < length self.old.workers }
        ensures done { OnOk result (Offers k self.old self.new) }
        ensures stopped { IfErr result (IsStopped (Offers k self.old)) }
        ensures same { OnErr result (self.new ≡ self.old) }
    {
        let Some(current) = self.current(k) else {
            return Err(Stopped::NotNow);
        };
        if !current.place.is_done() {
            return Err(Stopped::NotNow);
        }
        let mut words = self.words(k);
        words.offer(current.path.length());
        let Ok(()) = self.add_offer(k, current.path) else {
            return Err(Stopped::Memory);
        };
        self.meet(k, words);
        Ok(())
    }

    /// The children of the worker's current path stand in its place; without children it is closed.
    fn branch(&mut self, k: usize, current: Current) -> Result<(), AllocError>
        requires there { k < length self.old.workers }
        requires current { HoldsCurrent self.old k current.path current.place.place }
        requires problem { IsProblem self.old.rules.problem }
        ensures done { OnOk result (BranchesAt k current.path current.place.place self.old self.new) }
        ensures there { OnOk result (length self.new.workers ≡ length self.old.workers) }
        ensures same { OnErr result (self.new ≡ self.old) }
    {
        let targets = current.place.targets();
        let rows = targets.as_slice();
        if rows.is_empty() {
            let value = self.problem.cap();
            let path = current.path;
            self.close(k, Leaf { path, value })?;
            return Ok(());
        }
        self.workers[k].branch(self.alloc, &current.path, rows)?;
        Ok(())
    }

    /// The worker claims an expansion of its current path.
    fn claim(&mut self, k: usize) -> Result<(), Stopped>
        requires there { k < length self.old.workers }
        requires few { CanCount self.old }
        ensures done { OnOk result (Claims k self.old self.new) }
        ensures stopped { IfErr result (IsStopped (Claims k self.old)) }
        ensures same { OnErr result (self.new ≡ self.old) }
    {
        let mut words = self.words(k);
        if words.view.refused > 0 {
            return Err(Stopped::NotNow);
        }
        let Some(current) = self.current(k) else {
            return Err(Stopped::NotNow);
        };
        if current.place.is_done() {
            return Err(Stopped::NotNow);
        }
        if !words.claim(self.budget) {
            self.meet(k, words);
            return Ok(());
        }
        let Ok(()) = self.branch(k, current) else {
            return Err(Stopped::Memory);
        };
        self.meet(k, words);
        Ok(())
    }

    /// The worker claims a thinned branch of a try to close its current path.
    fn try_branch(&mut self, k: usize) -> Result<(), Stopped>
        requires there { k < length self.old.workers }
        requires few { CanCount self.old }
        ensures done { OnOk result (Tries k self.old self.new) }
        ensures stopped { IfErr result (IsStopped (Tries k self.old)) }
        ensures same { OnErr result (self.new ≡ self.old) }
    {
        let mut words = self.words(k);
        if words.view.refused > 0 {
            return Err(Stopped::NotNow);
        }
        let Some(current) = self.current(k) else {
            return Err(Stopped::NotNow);
        };
        if current.place.is_done() {
            return Err(Stopped::NotNow);
        }
        let _granted = words.claim(self.budget);
        self.meet(k, words);
        Ok(())
    }

    /// Follows the event where it is allowed.
    pub(crate) fn apply(&mut self, event: Event<'_>) -> Result<(), Stopped>
        requires few { CanCount self.old }
        ensures followed { OnOk result (Leads event.entry self.old self.new) }
        ensures stopped { IfErr result (IsStopped (Leads event.entry self.old)) }
        ensures same { OnErr result (self.new ≡ self.old) }
    {
        let k = event.worker as usize;
        if k >= self.workers.len() {
            return Err(Stopped::NotNow);
        }
        match event.kind {
            Kind::See => {
                self.see(k);
                Ok(())
            }
            Kind::Take => self.take(k),
            Kind::Steal { victim } => self.steal(k, victim as usize),
            Kind::Claim => self.claim(k),
            Kind::Try => self.try_branch(k),
            Kind::Put { index } => self.put(k, index as usize),
            Kind::Leaf { bound } => self.leaf(k, bound),
            Kind::Offer => self.offer(k),
            Kind::Finish => self.finish(k),
        }
    }
}
