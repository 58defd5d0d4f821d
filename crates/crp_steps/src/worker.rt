//! A worker: what lies in its deque and in its hand, and what it knows.
ghost use Rattle.std.specs.Prelude.{◌≡◌, ℕ, [], ◌∷◌, ◌++◌, ◌<◌, length, List, IfOk, OnOk, OnErr, IfErr, IfSome, IfNone, IsTrue, ◌↔◌, true};
ghost use Rattle.crp_steps.specs.Worlds.{Worker as WorkerValue, fresh};
ghost use Rattle.crp_steps.specs.Events.{Takes, Puts, Finishes, children};
ghost use Rattle.crp_steps.specs.Own.{IsStopped};

use crate::event::Stopped;
use crate::path::Path;
use crp_plan::{View, Words};
use std::alloc::{AllocError, Global};
use std::collections::VecDeque;
use std::marker::Model;

/// A worker of a search.
#[derive(Drop)]
pub(crate) struct Worker {
    deque: VecDeque<Path>,
    hand: Vec<Path>,
    has_task: bool,
    view: View,
}

impl Model for Worker {
    ghost use Rattle.crp_steps.specs.Worlds.{Worker as WorkerValue};

    ghost Value = { WorkerValue };

    ghost view = { λ worker. record { deque = worker.deque.items; hand = worker.hand.items; has_task = worker.has_task; view = worker.view } };
}

impl Worker {
    /// A worker that has done nothing yet, and has nothing to do.
    pub(crate) fn idle(alloc: Global, limit: u64) -> Worker
        ensures { result ≡ fresh limit [] }
    {
        Worker {
            deque: VecDeque::new(alloc),
            hand: Vec::new(alloc),
            has_task: false,
            view: Words::start(limit, 1).view,
        }
    }

    /// A worker that has done nothing yet, and has the root in its deque.
    pub(crate) fn at_root(alloc: Global, limit: u64) -> Result<Worker, AllocError>
        ensures { IfOk result (λ worker. worker ≡ fresh limit ([] ∷ [])) }
    {
        let mut worker = Worker::idle(alloc, limit);
        worker.deque.push_back(Path::root())?;
        Ok(worker)
    }

    /// What it knows of the limit and the claims.
    pub(crate) fn view(&self) -> View
        ensures { result ≡ self.now.view }
    {
        self.view
    }

    /// Now it knows this of them.
    pub(crate) fn know(&mut self, view: View)
        ensures { self.new ≡ record self.old { view = view } }
    {
        self.view = view;
    }

    /// Whether it has a task.
    pub(crate) fn has_task(&self) -> bool
        ensures { result ≡ self.now.has_task }
    {
        self.has_task
    }

    /// Whether nothing waits in its deque or in its hand.
    pub(crate) fn is_empty(&self) -> bool
        ensures { IsTrue result ↔ ((self.now.deque ≡ []) × (self.now.hand ≡ [])) }
    {
        self.deque.is_empty() && self.hand.is_empty()
    }

    /// Its current path, the last in its hand.
    pub(crate) fn current(&self) -> Option<&Path>
        ensures path { IfSome result (λ path. (others : List (List ℕ)) × (self.now.hand ≡ others ++ path.now ∷ [])) }
        ensures none { IfNone result (self.now.hand ≡ []) }
    {
        self.hand.last()
    }

    /// Takes the last name of its deque as its task.
    pub(crate) fn take(&mut self) -> Result<(), Stopped>
        ensures done { OnOk result (Takes self.old self.new) }
        ensures stopped { IfErr result (IsStopped (Takes self.old)) }
        ensures same { OnErr result (self.new ≡ self.old) }
    {
        if self.has_task || self.deque.is_empty() {
            return Err(Stopped::NotNow);
        }
        let Ok(()) = self.hand.reserve(1) else {
            return Err(Stopped::Memory);
        };
        let Some(name) = self.deque.pop_back() else {
            unreachable!()
        };
        let Ok(()) = self.hand.push(name) else {
            unreachable!()
        };
        self.has_task = true;
        Ok(())
    }
}

/// The paths that go on from this one by the rows; the first row comes last.
fn children_of(alloc: Global, path: &Path, rows: &[u8]) -> Result<Vec<Path>, AllocError>
    requires { length path.now < 672 }
    ensures { IfOk result (λ paths. paths.items ≡ children path.now rows.now) }
{
    let mut paths = Vec::new(alloc);
    for i in (0..rows.len()).rev() {
        paths.push(path.child(rows[i]))?;
    }
    Ok(paths)
}

impl Worker {
    /// Puts a path of its hand, of at most so many rows, into its deque. The index counts from 0.
    pub(crate) fn put(&mut self, split: u8, index: usize) -> Result<(), Stopped>
        ensures done { OnOk result (Puts split index self.old self.new) }
        ensures stopped { IfErr result (IsStopped (Puts split index self.old)) }
        ensures same { OnErr result (self.new ≡ self.old) }
    {
        if index >= self.hand.len() || self.hand[index].length() > u32::from(split) {
            return Err(Stopped::NotNow);
        }
        let Ok(()) = self.deque.reserve(1) else {
            return Err(Stopped::Memory);
        };
        let Ok(()) = self.deque.push_back(self.hand.remove(index)) else {
            unreachable!()
        };
        Ok(())
    }

    /// Ends its task, whose hand is empty.
    pub(crate) fn finish(&mut self) -> Result<(), Stopped>
        ensures done { OnOk result (Finishes self.old self.new) }
        ensures stopped { IfErr result (IsStopped (Finishes self.old)) }
        ensures same { OnErr result (self.new ≡ self.old) }
    {
        if !self.has_task || !self.hand.is_empty() {
            return Err(Stopped::NotNow);
        }
        self.has_task = false;
        Ok(())
    }

    /// The first name of its deque, copied.
    pub(crate) fn first_name(&self) -> Option<Path>
        ensures name { IfSome result (λ name. (others : List (List ℕ)) × (self.now.deque ≡ name ∷ others)) }
        ensures none { IfNone result (self.now.deque ≡ []) }
    {
        let name = self.deque.front()?;
        Some(name.copy())
    }

    /// Loses the first name of its deque.
    pub(crate) fn lose_first(&mut self)
        ensures { (name : List ℕ) (others : List (List ℕ)) → self.old.deque ≡ name ∷ others → self.new ≡ record self.old { deque = others } }
    {
        let _name = self.deque.pop_front();
    }

    /// Has the name as its task.
    pub(crate) fn receive(&mut self, name: Path) -> Result<(), AllocError>
        ensures done { OnOk result (self.new ≡ record self.old { hand = self.old.hand ++ name ∷ []; has_task = true }) }
        ensures same { OnErr result (self.new ≡ self.old) }
    {
        self.hand.push(name)?;
        self.has_task = true;
        Ok(())
    }

    /// Drops its current path.
    pub(crate) fn drop_current(&mut self)
        ensures { (others : List (List ℕ)) (path : List ℕ) → self.old.hand ≡ others ++ path ∷ [] → self.new ≡ record self.old { hand = others } }
    {
        let _path = self.hand.pop();
    }

    /// Has the path's children by these rows in the place of its current path.
    pub(crate) fn branch(
        &mut self,
        alloc: Global,
        path: &Path,
        rows: &[u8],
    ) -> Result<(), AllocError>
        requires { length path.now < 672 }
        ensures done { OnOk result ((others : List (List ℕ)) (last : List ℕ) → self.old.hand ≡ others ++ last ∷ []
            → self.new ≡ record self.old { hand = others ++ children path.now rows.now }) }
        ensures same { OnErr result (self.new ≡ self.old) }
    {
        let mut paths = children_of(alloc, path, rows)?;
        self.hand.reserve(paths.len())?;
        let _path = self.hand.pop();
        let Ok(()) = self.hand.append(&mut paths) else {
            unreachable!()
        };
        Ok(())
    }
}
