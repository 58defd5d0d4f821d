//! A search by several workers for a caller that runs them in threads of its own.
ghost use Rattle.std.specs.Prelude.{◌≡◌, ◌≤◌, IfOk, length, true, false, All};
ghost use Rattle.crp_solve.specs.Answers.{path_in, plan_of};
ghost use Rattle.crp_solve.specs.Searches.{HasNoMore};
ghost use Rattle.crp_solve.specs.Solved.{IsSolved, WasStopped};
ghost use Rattle.crp_solve.specs.Groups.{SameWorkers, StopsBy, AreTogether, AreReady};
ghost use Rattle.crp_solve.specs.Begins.{IsStart, AreAllWorkers};

use crate::answer::Solved;
use crate::answering::answer_to;
use crate::end::{found_by, put_together, shared_of};
use crate::rounds::with_known;
use crate::settings::Settings;
use crate::start::{begin, start_posted};
use crate::workers::aim::Fewest;
use crate::workers::common::{Common, Gate, Outside};
use crate::workers::group::Group;
use crate::workers::wider::{Room, joined};
use crate::workers::{running, useful};
use crp_incumbent::{Board, Seat, Shared};
use crp_plan::{Plan, Problem};
use crp_pool::Pool;
use std::alloc::{AllocError, Global};
use std::marker::Model;
use std::snapshot::Snapshot;
use std::sync::Wait;

/// A search for the fewest relocations that has begun, while its workers are with the caller, who runs each where it likes: at once,
/// one after the other, or in threads of its own. `begin` gives their states, `Common::work` lets one work, `Group::merge` makes one
/// state of two, and `end` makes the answer of the last one.
#[derive(Drop)]
pub struct Search {
    common: Common,
    left: Seat,
    pool: Pool,
    known: Option<Plan>,
    settings: Settings,
    workers: Snapshot<Vec<Group>>,
}

impl Model for Search {
    ghost use Rattle.crp_solve.specs.Begins.{Search as Begun, IsBegun};
    ghost use Rattle.crp_tree.specs.Symbols.{tree_code};
    ghost use Rattle.std.specs.Coded.{codes};

    ghost Value = { Begun };

    ghost coded = { Prim.hlevel (codes, tree_code) };

    ghost view = { λ s. record { of = s.common.of; chosen = s.settings; workers = s.workers.value.items } };

    ghost invariant = { λ s. IsBegun (record { of = s.common.of; chosen = s.settings; workers = s.workers.value.items }) s.left s.pool s.known };
}

/// The first worker and others, where names wait for them, `most` in all: what is left of the seat, the pool, and the workers.
fn with_others<R: Wait>(
    rt: &R,
    common: &Common,
    most: u32,
    left: Seat,
    pool: Pool,
    first: Group,
) -> Result<(Seat, Pool, Vec<Group>), AllocError>
    requires most { (1 ≤ most) × (most ≤ 64) }
    requires start { IsStart common.now.of.key common.now.of left pool first }
    ensures all { IfOk result (λ r. AreAllWorkers common.now.of r.0 r.1 r.2.items) }
    ensures count { IfOk result (λ r. length r.2.items ≤ most) }
    ensures stops { IfOk result (λ r. All (StopsBy (first.stopped ≡ true)) r.2.items) }
{
    let count = useful(common.open.names(), most);
    if first.short || count < 2 {
        let mut alone = Vec::new(common.alloc);
        alone.push(first)?;
        return Ok((left, pool, alone));
    }
    let room = Room::new(common.alloc, count)?;
    Ok(joined(rt, common, room, left, pool, first))
}

impl Search {
    /// Begins as `solve` does, with the plan that the settings ask for, which is posted on the board, and with the part of the root,
    /// which is searched here. What is returned beside the search are the states of its workers, the first one's first: as many as are
    /// of use, and at most those that the settings ask for. It makes one search for the fewest relocations, so neither the first of all
    /// best plans nor deepening may be asked for. The board must be of the problem. The error says that memory ran out.
    pub fn begin<R: Wait, G: Gate>(
        rt: &R,
        alloc: Global,
        problem: &Problem,
        settings: Settings,
        board: &Board,
        gate: &G,
    ) -> Result<(Search, Vec<Group>), AllocError>
        requires board { board.now ≡ problem.now }
        requires not_first { settings.first ≡ false }
        requires one_search { settings.deepen ≡ false }
        ensures problem { IfOk result (λ r. r.0.of.key.problem ≡ problem.now) }
        ensures chosen { IfOk result (λ r. r.0.chosen ≡ settings) }
        ensures workers { IfOk result (λ r. r.1.items ≡ r.0.workers) }
        ensures ready { IfOk result (λ r. AreReady r.0.of r.1.items) }
        ensures count { IfOk result (λ r. length r.1.items ≤ settings.workers) }
        ensures stops { IfOk result (λ r. All (StopsBy (G.may_stop gate.now)) r.1.items) }
    {
        let outside = Outside { rt, gate, board };
        let (known, first) = start_posted(&outside, alloc, problem, settings);
        let begun = begin::<R, G, Fewest>(&outside, alloc, problem, settings, first);
        let Some(start) = begun else {
            return Err(AllocError);
        };
        let common = start.common;
        let most = settings.workers();
        let (left, pool, groups) = with_others(
            rt,
            &common,
            most,
            start.left,
            start.pool,
            start.worker,
        )?;
        let search = Search {
            common,
            left,
            pool,
            known,
            settings,
            workers: Snapshot::of(&groups),
        };
        Ok((search, groups))
    }

    /// What its workers have in common.
    pub fn common(&self) -> &Common
        ensures { result.now.of ≡ self.now.of }
    {
        &self.common
    }

    /// The answer, once all workers are done and merged into one state: what is left in the pool is searched first. Where memory ran
    /// out it is the look-ahead bound of the first position and the best plan that is known. Its plan has no more relocations than
    /// theirs. The error says that memory ran out for that too. The board must be of the problem.
    pub fn end<R: Wait, G: Gate>(
        self,
        rt: &R,
        board: &Board,
        gate: &G,
        all: Group,
    ) -> Result<Solved, AllocError>
        requires together { AreTogether self.workers all }
        requires board { board.now ≡ self.of.key.problem }
        ensures solved { IfOk result (IsSolved self.of.key.problem self.chosen) }
        ensures plan { IfOk result (λ solved. HasNoMore (plan_of solved.answer) (path_in all.plan)) }
        ensures stops { StopsBy (G.may_stop gate.now) all → IfOk result (λ solved. WasStopped solved → G.may_stop gate.now) }
    {
        let Search {
            common,
            left,
            pool,
            known,
            settings,
            workers: _,
        } = self;
        let alloc = common.alloc;
        let problem = common.problem.copy();
        let outside = Outside { rt, gate, board };
        let done = put_together(&outside, &common, pool, left, all);
        let shared = shared_of(common);
        let found = found_by(&outside, alloc, &problem, shared, settings.budget(), done);
        answer_to(alloc, &problem, with_known(found, known))
    }
}

impl Common {
    /// The words that its workers share.
    pub fn shared(&self) -> &Shared
        ensures { result.now ≡ self.now.of }
    {
        &self.shared
    }

    /// One worker, or several that were merged, searches parts until no work is open, or a part is lost. It may wait for others.
    /// The gate hears that it is the worker of this number.
    pub fn work<R: Wait, G: Gate>(
        &self,
        rt: &R,
        board: &Board,
        gate: &G,
        worker: u32,
        group: Group,
    ) -> Group
        requires { group.of ≡ self.now.of }
        ensures same { SameWorkers group result }
        ensures stops { StopsBy (G.may_stop gate.now) group → StopsBy (G.may_stop gate.now) result }
    {
        let outside = Outside { rt, gate, board };
        running::work(&outside, self, worker, group)
    }
}
