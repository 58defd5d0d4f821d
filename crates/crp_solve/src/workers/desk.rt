//! One worker that shares the limit, the claims and the names with others.
ghost use Rattle.std.specs.Prelude.{◌≡◌, ◌<◌, ◌⊎◌, true, false, min, length, None, IfSome};
ghost use Rattle.crp_incumbent.specs.Seats.{ClaimsOne};
ghost use Rattle.crp_plan.specs.Bay.{Problem};
ghost use Rattle.crp_solve.specs.Answers.{path_in, IsPlanOf};
ghost use Rattle.crp_search.specs.Limits.{Advances};
ghost use Rattle.crp_search.specs.Firsts.{IsLowerBound, OnlyClaims};
ghost use Rattle.crp_solve.specs.Desks.{count_or, fixed_at, known_with, KeepsPlan, IsCountedPart, IsFoundPart};
ghost use Rattle.crp_solve.specs.Firsts.{IsPlanOfCount, IsSearchedFirst};

use crate::workers::aim::Searched;
use crate::workers::common::{Common, Gate, Outside};
use crp_incumbent::Seat;
use crp_plan::Plan;
use crp_pool::PoolSeat;
use crp_search::{Claims, FirstPart, Limit, search, search_first};
use crp_tree::Name;
use std::marker::{Brand, Model, PhantomData};
use std::sync::Wait;

/// The words that a desk was opened with, its place, and what is so where its claims are stopped. Whoever searches at a desk picks them, by
/// the type `Brand`.
pub(crate) trait Opened {
    ghost use Rattle.std.specs.Prelude.{Option};
    ghost use Rattle.crp_incumbent.specs.Seats.{Shared};
    ghost use Rattle.crp_pool.specs.Seats.{PoolSeat};

    ghost words: { Shared };

    ghost place: { Option PoolSeat };

    ghost may: { Type 0 };
}

impl Opened for Brand {
    ghost use Rattle.std.specs.Prelude.{None};
    ghost use Rattle.crp_solve.specs.Desks.{no_words};

    ghost words = { no_words };

    ghost place = { None };

    ghost may = { ⊥ };
}

/// How many granted claims are said to the gate together, and how many are made before it is asked again whether the search is to stop.
const CLAIMS: u32 = 4096;

/// Whether no more is claimed behind so many claims: it was so before, or in a timed search the gate says so now, where it is asked.
fn is_stopped<G: Gate>(gate: &G, timed: bool, stopped: bool, claims: u32) -> bool
    ensures stays { stopped ≡ true → result ≡ true }
    ensures timely { result ≡ true → (stopped ≡ true) ⊎ ((timed ≡ true) × G.may_stop gate.now) }
{
    stopped || timed && claims % CLAIMS == 0 && gate.stops()
}

/// Claims one expansion by the seat, and answers whether it was granted. Where that is not known yet, since all that is left is lent to
/// other workers, it waits until they claimed more or their parts ended.
#[inline(always)]
fn claim<R: Wait>(rt: &R, common: &Common, seat: &mut Seat) -> bool
    requires { seat.old.of ≡ common.now.of }
    ensures step { seat.old.view.refused ≡ 0 → ClaimsOne seat.old result seat.new }
    ensures refused { 0 < seat.old.view.refused → (result ≡ false) × (seat.new ≡ seat.old) }
{
    let mut times = 0;
    for _ in rt.forever() {
        if let Some(granted) = seat.claim(&common.shared) {
            return granted;
        }
        common.open.pause(rt, times);
        times = times.saturating_add(1);
    }
    unreachable!()
}

/// A worker with its seat, the plan that its least offer counts, its place in the pool, how many claims were granted to it, and whether
/// the gate stopped them.
#[derive(Drop)]
struct Desk<'a, R, G: Gate, K: Opened> {
    outside: &'a Outside<'a, R, G>,
    common: &'a Common,
    seat: Seat,
    best: Option<Plan>,
    place: Option<PoolSeat>,
    claims: u32,
    stopped: bool,
    opened: PhantomData<K>,
}

impl<'a, R, G: Gate, K: Opened> Model for Desk<'a, R, G, K> {
    ghost use Rattle.crp_solve.specs.Desks.{Post, IsDesk, known_with};

    ghost Value = { Post };

    ghost view = { λ d. record { of = d.common.now.of; view = known_with d.stopped d.seat.view; plan = d.best; place = d.place } };

    ghost invariant = { λ d. IsDesk K.words d.common.now.of K.place d.place d.seat d.best K.may (G.may_stop d.outside.now.gate.now) d.stopped };
}

/// Keeps the plan in place of the other, where it has fewer relocations; in place of none, where it has fewer than the first limit.
fn keep_shorter(first: u32, best: &mut Option<Plan>, plan: &Plan)
    ensures fewest { count_or first (path_in best.new) ≡ min (count_or first (path_in best.old)) (length plan.now.path) }
    ensures plan { (p : Problem) → plan.now.problem ≡ p → IfSome best.old (IsPlanOf p) → IfSome best.new (IsPlanOf p) }
{
    let mine = match &*best {
        Some(best) => best.count(),
        None => first,
    };
    if plan.count() < mine {
        *best = Some(plan.copy());
    }
}

impl<'a, R: Wait, G: Gate, K: Opened> Claims for Desk<'a, R, G, K> {
    ghost use Rattle.std.specs.Prelude.{◌≡◌};
    ghost use Rattle.crp_search.specs.Limits.{ClaimsExpansion};
    ghost use Rattle.crp_solve.specs.Desks.{puts_at};

    ghost claims = { λ old granted new. ClaimsExpansion old.of.key.budget old.view granted new.view
        × ((new.of.key.problem ≡ old.of.key.problem) × (new.of.key.budget ≡ old.of.key.budget) × (puts_at new.place ≡ puts_at old.place)) };

    #[inline(always)]
    fn claim(&mut self) -> bool {
        let common = self.common;
        self.stopped = is_stopped(self.outside.gate, common.timed, self.stopped, self.claims);
        if self.stopped {
            return false;
        }
        let granted = claim(self.outside.rt, common, &mut self.seat);
        if granted {
            self.claims = self.claims.wrapping_add(1);
            if self.claims % CLAIMS == 0 {
                self.outside.gate.claimed(CLAIMS);
            }
        }
        granted
    }
}

impl<'a, R: Wait, G: Gate, K: Opened> Limit for Desk<'a, R, G, K> {
    ghost use Rattle.crp_solve.specs.Desks.{puts_at};

    ghost view = { λ d. d.view };

    ghost problem = { λ d. d.of.key.problem };

    ghost budget = { λ d. d.of.key.budget };

    ghost puts = { λ d. puts_at d.place };

    fn see(&mut self) -> u64 {
        let common = self.common;
        self.seat.see(&common.shared)
    }

    fn offer(&mut self, plan: &Plan) {
        let common = self.common;
        keep_shorter(common.first, &mut self.best, plan);
        self.seat.offer(&common.shared, plan);
        self.outside.board.post(self.outside.rt, plan);
        self.outside.gate.planned(plan.count());
    }

    ghost claimed = { λ _ _ _ claim. claim };

    fn put(&mut self, name: Name) -> Result<(), Name> {
        let common = self.common;
        if !common.wants(&name) {
            return Err(name);
        }
        let Some(place) = &mut self.place else {
            return Err(name);
        };
        common.open.begin_put();
        match place.put(name) {
            Ok(()) => {
                common.open.end_put();
                Ok(())
            }
            Err(name) => {
                common.open.take_one();
                common.open.close_one();
                Err(name)
            }
        }
    }
}

impl<'a, R, G: Gate, K: Opened> Desk<'a, R, G, K> {
    ghost use Rattle.std.specs.Prelude.{◌≡◌, true};
    ghost use Rattle.crp_solve.specs.Desks.{fixed_at, known_with, KeepsPlan};

    /// A desk for one part.
    fn open(
        outside: &'a Outside<'a, R, G>,
        common: &'a Common,
        seat: Seat,
        best: Option<Plan>,
        place: Option<PoolSeat>,
        stopped: bool,
    ) -> Desk<'a, R, G, K>
        requires opened { (K.words ≡ common.now.of) × (K.place ≡ place) }
        requires words { seat.of ≡ common.now.of }
        requires plan { KeepsPlan common.now.of seat.view best }
        requires timely { stopped ≡ true → common.now.of.key.timed ≡ true }
        requires stopped { stopped ≡ true → K.may }
        requires gate { G.may_stop outside.now.gate.now → K.may }
        ensures { result ≡ record { of = common.now.of; view = known_with stopped seat.view; plan = best; place = place } }
    {
        Desk {
            outside,
            common,
            seat,
            best,
            place,
            claims: 0,
            stopped,
            opened: PhantomData,
        }
    }

    /// What it leaves: its seat, which is settled, its plan, its place, and whether its claims were stopped. The gate hears of the claims
    /// that were not said to it yet.
    fn close(mut self) -> (Seat, Option<Plan>, Option<PoolSeat>, bool)
        ensures words { result.0.of ≡ K.words }
        ensures plan { KeepsPlan K.words result.0.view result.1 }
        ensures fixed { fixed_at result.2 ≡ fixed_at K.place }
        ensures same { self.entry ≡ record { of = K.words; view = known_with result.3 result.0.view; plan = result.1; place = result.2 } }
        ensures timely { result.3 ≡ true → K.words.key.timed ≡ true }
        ensures stopped { result.3 ≡ true → K.may }
    {
        let common = self.common;
        self.seat.settle(&common.shared);
        self.outside.gate.claimed(self.claims % CLAIMS);
        (self.seat, self.best, self.place, self.stopped)
    }
}

/// Searches the part of the name, with this seat, the plan that it counts, and a place where names may be put; where claims were stopped
/// before, none is granted.
///
/// A name that is no path of the problem is not searched. None is ever put, but a pool cannot say so.
pub(crate) fn search_at_desk<R: Wait, G: Gate, K: Opened>(
    outside: &Outside<R, G>,
    common: &Common,
    worker: u32,
    name: Name,
    seat: Seat,
    best: Option<Plan>,
    place: Option<PoolSeat>,
    stopped: bool,
) -> Searched
    requires opened { (K.words ≡ common.now.of) × (K.place ≡ place) }
    requires words { seat.of ≡ common.now.of }
    requires plan { KeepsPlan common.now.of seat.view best }
    requires timely { stopped ≡ true → common.now.of.key.timed ≡ true }
    requires stopped { stopped ≡ true → K.may }
    requires gate { G.may_stop outside.now.gate.now → K.may }
    ensures words { result.seat.of ≡ common.now.of }
    ensures plan { KeepsPlan common.now.of (known_with result.stopped result.seat.view) result.best }
    ensures advances { Advances common.now.of.key.problem (known_with stopped seat.view) (known_with result.stopped result.seat.view) }
    ensures place { fixed_at result.place ≡ fixed_at place }
    ensures counted { IfSome result.part (IsCountedPart common.now.of.key.thin (known_with stopped seat.view) (known_with result.stopped result.seat.view) place result.place name) }
    ensures part { IfSome result.part (IsFoundPart common.now.of (known_with stopped seat.view) (known_with result.stopped result.seat.view)) }
    ensures timely { result.stopped ≡ true → common.now.of.key.timed ≡ true }
    ensures stopped { result.stopped ≡ true → K.may }
{
    outside.gate.begun(worker, &name);
    let mut desk: Desk<'_, R, G, K> = Desk::open(outside, common, seat, best, place, stopped);
    let part = if name.position(&common.problem).is_some() {
        search(
            common.alloc,
            &common.problem,
            name,
            &mut desk,
            common.longest(),
            common.thinning,
        )
        .ok()
    } else {
        None
    };
    let (seat, best, place, stopped) = desk.close();
    Searched {
        part,
        seat,
        best,
        place,
        stopped,
    }
}

/// The same for the first plan of the relocations that the words began with, at a seat with which nothing was offered.
pub(crate) fn first_at_desk<R: Wait, G: Gate, K: Opened>(
    outside: &Outside<R, G>,
    common: &Common,
    worker: u32,
    name: Name,
    seat: Seat,
    place: Option<PoolSeat>,
    stopped: bool,
) -> (Option<FirstPart>, Seat, Option<PoolSeat>, bool)
    requires opened { (K.words ≡ common.now.of) × (K.place ≡ place) }
    requires words { seat.of ≡ common.now.of }
    requires plan { KeepsPlan common.now.of seat.view None }
    requires least { IsLowerBound common.now.of.key.problem common.now.of.key.start }
    requires timely { stopped ≡ true → common.now.of.key.timed ≡ true }
    requires stopped { stopped ≡ true → K.may }
    requires gate { G.may_stop outside.now.gate.now → K.may }
    ensures words { result.1.of ≡ common.now.of }
    ensures claims { OnlyClaims (known_with stopped seat.view) (known_with result.3 result.1.view) }
    ensures place { fixed_at result.2 ≡ fixed_at place }
    ensures counted { IfSome result.0 (λ found. IsCountedPart common.now.of.key.thin (known_with stopped seat.view) (known_with result.3 result.1.view) place result.2 name found.part) }
    ensures part { IfSome result.0 (λ found. IsSearchedFirst common.now.of.key.problem common.now.of.key.start found.plan found.part) }
    ensures plan { IfSome result.0 (λ found. IfSome found.plan (IsPlanOfCount common.now.of.key.problem common.now.of.key.start)) }
    ensures timely { result.3 ≡ true → common.now.of.key.timed ≡ true }
    ensures stopped { result.3 ≡ true → K.may }
{
    outside.gate.begun(worker, &name);
    let mut desk: Desk<'_, R, G, K> = Desk::open(outside, common, seat, None, place, stopped);
    let found = if name.position(&common.problem).is_some() {
        search_first(
            common.alloc,
            &common.problem,
            name,
            common.first,
            &mut desk,
            common.longest(),
            common.thinning,
        )
        .ok()
    } else {
        None
    };
    let (seat, _, place, stopped) = desk.close();
    (found, seat, place, stopped)
}
