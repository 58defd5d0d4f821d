//! How a search ends: what workers left in the pool is searched by the thread that started them, the shared words are closed, and the
//! parts become one certificate.
ghost use Rattle.std.specs.Prelude.{◌≡◌, ◌<◌, ◌≤◌, IfOk, IfErr, true, false, ◌+◌, None, []};
ghost use Rattle.crp_solve.specs.Searches.{BeginsWithin, HasNoMore};
ghost use Rattle.crp_solve.specs.Rests.{known_to, AreDone, IsFoundTogether, IsDoneUpTo, IsAllDone, IsCutShort};
ghost use Rattle.crp_solve.specs.Groups.{IsKeptSoFar, IsUnusedSeat, AreAllPlaces, StopsBy};
ghost use Rattle.crp_solve.specs.Answers.{path_in};

use crate::workers::aim::{Aim, Searched, shorter_of};
use crate::workers::common::{Common, Gate, Outside};
use crate::workers::group::Crew;
use crp_gather::{GatherFault, gather};
use crp_incumbent::{Seat, Shared};
use crp_plan::{Plan, Problem};
use crp_pool::{Pool, Rest};
use crp_tree::{Cert, Part};
use std::alloc::Global;
use std::sync::Wait;

/// The certificate that workers made together, the best plan that is known, how many expansions they were granted, and whether they were
/// stopped before the budget was spent.
#[derive(Drop)]
pub struct Together {
    /// The certificate of the parts that they searched.
    pub cert: Cert,
    /// The best plan that is known.
    pub best: Option<Plan>,
    /// How many expansions were granted to them.
    pub expanded: u64,
    /// Whether the gate stopped their claims while some of the budget was left.
    pub stopped: bool,
}

/// What is left of a search where memory ran out: the best plan that is known, and how many expansions were granted.
#[derive(Drop)]
pub struct Lost {
    /// The best plan that is known.
    pub best: Option<Plan>,
    /// How many expansions were granted.
    pub expanded: u64,
}

/// A seat that has all shares, its best plan, and the parts that were searched. It is marked where a part was lost, and where the gate
/// stopped claims.
#[derive(Drop)]
pub(crate) struct Done {
    pub(crate) seat: Seat,
    pub(crate) best: Option<Plan>,
    pub(crate) parts: Vec<Part>,
    pub(crate) short: bool,
    pub(crate) stopped: bool,
}

/// Searches the part of the next name that is left, and answers whether more may be left.
fn search_next<R: Wait, G: Gate, A: Aim>(
    outside: &Outside<R, G>,
    common: &Common,
    mut done: Done,
    rest: &mut Rest,
) -> (bool, Done)
    requires words { done.seat.of ≡ common.now.of }
    requires done { IsDoneUpTo A.keeps common.now.of (known_to done) done.best done.parts.items rest.old.puts rest.old.takes }
    requires enough { done.short ≡ false }
    requires timely { done.stopped ≡ true → common.now.of.key.timed ≡ true }
    ensures words { result.1.seat.of ≡ common.now.of }
    ensures share { result.1.seat.view.share ≡ done.seat.view.share }
    ensures mine { result.1.seat.view.mine ≤ done.seat.view.mine }
    ensures kept { A.keeps common.now.of (known_to result.1) result.1.best result.1.parts.items }
    ensures more { result.0 ≡ true
        → (result.1.short ≡ false) × IsDoneUpTo A.keeps common.now.of (known_to result.1) result.1.best result.1.parts.items rest.new.puts rest.new.takes }
    ensures timely { result.1.stopped ≡ true → common.now.of.key.timed ≡ true }
    ensures stops { (done.stopped ≡ true → G.may_stop outside.now.gate.now) → result.1.stopped ≡ true → G.may_stop outside.now.gate.now }
    ensures end { result.0 ≡ false → result.1.short ≡ false → IsAllDone common.now.of.key.thin (known_to result.1) result.1.parts.items }
{
    if done.parts.reserve(1).is_err() {
        done.short = true;
        return (false, done);
    }
    let Some(name) = rest.next() else {
        return (false, done);
    };
    let Searched {
        part,
        seat,
        best,
        place: _,
        stopped,
    } = A::search_part(
        outside,
        common,
        0,
        name,
        done.seat,
        done.best,
        None,
        done.stopped,
    );
    done.seat = seat;
    done.best = best;
    done.stopped = stopped;
    let Some(part) = part else {
        done.short = true;
        return (false, done);
    };
    done.parts.push_reserved(part);
    (true, done)
}

/// Searches the parts of the names that are left, as the worker 0.
fn search_rest<R: Wait, G: Gate, A: Aim>(
    outside: &Outside<R, G>,
    common: &Common,
    mut done: Done,
    mut rest: Rest,
) -> Done
    requires words { done.seat.of ≡ common.now.of }
    requires done { IsDoneUpTo A.keeps common.now.of (known_to done) done.best done.parts.items rest.puts rest.takes }
    requires enough { done.short ≡ false }
    requires timely { done.stopped ≡ true → common.now.of.key.timed ≡ true }
    ensures words { result.seat.of ≡ common.now.of }
    ensures share { result.seat.view.share ≡ done.seat.view.share }
    ensures mine { result.seat.view.mine ≤ done.seat.view.mine }
    ensures kept { A.keeps common.now.of (known_to result) result.best result.parts.items }
    ensures timely { result.stopped ≡ true → common.now.of.key.timed ≡ true }
    ensures stops { (done.stopped ≡ true → G.may_stop outside.now.gate.now) → result.stopped ≡ true → G.may_stop outside.now.gate.now }
    ensures all { result.short ≡ false → IsAllDone common.now.of.key.thin (known_to result) result.parts.items }
{
    for _ in outside.rt.forever() {
        let (more, after) = search_next::<R, G, A>(outside, common, done, &mut rest);
        done = after;
        if !more {
            break;
        }
    }
    done
}

/// The words of a search whose workers are done.
pub(crate) fn shared_of(common: Common) -> Shared
    ensures { result ≡ common.of }
{
    common.shared
}

/// The state of all workers, with the rest of the shares and what was left in the pool.
pub(crate) fn put_together<R: Wait, G: Gate, A: Aim>(
    outside: &Outside<R, G>,
    common: &Common,
    pool: Pool,
    left: Seat,
    all: Crew<A>,
) -> Done
    requires words { all.of ≡ common.now.of }
    requires left { IsUnusedSeat common.now.of left }
    requires begins { A.keeps common.now.of left.view None [] }
    requires places { all.short ≡ false → AreAllPlaces pool all.places }
    ensures words { result.seat.of ≡ common.now.of }
    ensures share { result.seat.view.share ≡ left.view.share + all.view.share }
    ensures mine { result.seat.view.mine ≤ all.view.mine }
    ensures kept_before { A.keeps common.now.of all.view all.plan all.parts }
    ensures kept { A.keeps common.now.of (known_to result) result.best result.parts.items }
    ensures timely { result.stopped ≡ true → common.now.of.key.timed ≡ true }
    ensures stops { StopsBy (G.may_stop outside.now.gate.now) all → result.stopped ≡ true → G.may_stop outside.now.gate.now }
    ensures all { result.short ≡ false → IsAllDone common.now.of.key.thin (known_to result) result.parts.items }
{
    let Crew {
        seat,
        best,
        parts,
        places,
        short,
        stopped,
        aim: _,
    } = all;
    let done = Done {
        seat: common.shared.join(left, seat),
        best: A::better_of(None, best),
        parts,
        short,
        stopped,
    };
    if short {
        return done;
    }
    search_rest::<R, G, A>(outside, common, done, pool.finish(places))
}

/// Whether claims were stopped while some of the budget was left.
fn is_left(stopped: bool, expanded: u64, budget: u64) -> bool
    ensures left { result ≡ true → (stopped ≡ true) × (expanded < budget) }
    ensures none_left { result ≡ false → stopped ≡ true → budget ≤ expanded }
{
    stopped && expanded < budget
}

/// Closes the words, and makes one certificate of the parts. Where memory is short the best plan of the workers is left.
fn ended(
    alloc: Global,
    problem: &Problem,
    shared: Shared,
    budget: u64,
    done: Done,
) -> Result<Together, Lost>
    requires first { BeginsWithin problem.now shared.key.start }
    requires done { AreDone IsKeptSoFar (record { problem = problem.now; start = shared.key.start; budget = budget; thin = shared.key.thin; timed = shared.key.timed }) shared done }
    ensures found { IfOk result (λ r. IsFoundTogether shared.key.thin problem.now budget shared.key.start r.cert r.best r.expanded r.stopped) }
    ensures timely { IfOk result (λ r. r.stopped ≡ true → shared.key.timed ≡ true) }
    ensures stops { IfOk result (λ r. r.stopped ≡ true → done.stopped ≡ true) }
    ensures best { IfOk result (λ r. r.best ≡ done.best) }
    ensures best_left { IfErr result (λ lost. lost.best ≡ done.best) }
    ensures within { IfErr result (λ lost. lost.expanded ≤ budget) }
{
    let totals = shared.close(done.seat);
    let best = done.best;
    let expanded = totals.spent.min(budget);
    if done.short {
        return Err(Lost { best, expanded });
    }
    match gather(alloc, problem, done.parts) {
        Ok(cert) => Ok(Together {
            cert,
            best,
            expanded,
            stopped: is_left(done.stopped, expanded, budget),
        }),
        Err(fault) => match fault {
            GatherFault::Memory => Err(Lost { best, expanded }),
            _ => unreachable!(),
        },
    }
}

/// What workers found who are done. Where memory ran out the best plan is theirs, or the one on the board where that has fewer
/// relocations.
pub(crate) fn found_by<R: Wait, G: Gate>(
    outside: &Outside<R, G>,
    alloc: Global,
    problem: &Problem,
    shared: Shared,
    budget: u64,
    done: Done,
) -> Result<Together, Lost>
    requires first { BeginsWithin problem.now shared.key.start }
    requires board { outside.now.board.now ≡ problem.now }
    requires done { AreDone IsKeptSoFar (record { problem = problem.now; start = shared.key.start; budget = budget; thin = shared.key.thin; timed = shared.key.timed }) shared done }
    ensures found { IfOk result (λ r. IsFoundTogether shared.key.thin problem.now budget shared.key.start r.cert r.best r.expanded r.stopped) }
    ensures timely { IfOk result (λ r. r.stopped ≡ true → shared.key.timed ≡ true) }
    ensures stops { IfOk result (λ r. r.stopped ≡ true → done.stopped ≡ true) }
    ensures best { IfOk result (λ r. r.best ≡ done.best) }
    ensures lost { IfErr result (λ lost. IsCutShort problem.now budget lost.best lost.expanded) }
    ensures best_left { IfErr result (λ lost. HasNoMore (path_in lost.best) (path_in done.best)) }
{
    match ended(alloc, problem, shared, budget, done) {
        Ok(found) => Ok(found),
        Err(lost) => Err(Lost {
            best: shorter_of(lost.best, outside.board.show(outside.rt)),
            ..lost
        }),
    }
}
