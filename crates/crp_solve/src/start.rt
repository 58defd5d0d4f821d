//! How a search starts: the plan to begin with, and the first worker, who searches the part of the root before any other begins.
ghost use Rattle.std.specs.Prelude.{◌≡◌, IfSome, IfOk, ◌<◌, ◌∷◌, [], All, map, None, is_some, vec_len, vec_capacity};
ghost use Rattle.crp_solve.specs.Chosen.{is_timed};
ghost use Rattle.crp_solve.specs.Answers.{path_in, count_of as count_or_cap, IsFirstLimit, IsPlanOf};
ghost use Rattle.crp_solve.specs.Searches.{BeginsWithin};
ghost use Rattle.crp_solve.specs.Rounds.{IsStartPlan};
ghost use Rattle.crp_incumbent.specs.Seats.{Shared as Words};
ghost use Rattle.crp_pool.specs.Seats.{seat_number, all_takes};
ghost use Rattle.crp_solve.specs.Groups.{IsUnused, IsUnusedSeat, KeepsUnused, StopsBy, with_part, place_key, keys};
ghost use Rattle.crp_solve.specs.Begins.{IsStart};

use crate::answering::count_of;
use crate::settings::Settings;
use crate::workers::aim::{Aim, Searched};
use crate::workers::common::{Common, Gate, Outside};
use crate::workers::group::Crew;
use crate::workers::open_work::OpenWork;
use crate::workers::wider::CAPACITY;
use crp_incumbent::{Seat, Shared};
use crp_plan::{Plan, Problem};
use crp_pool::{Pool, PoolSeat};
use crp_search::{beam_plan, first_plan};
use crp_tree::{Name, Part};
use std::alloc::{AllocError, Global};
use std::marker::PhantomData;
use std::sync::Wait;

/// The plan that a search begins with, if there is one: the greedy plan or, where a beam is asked for, the beam's. Where memory for
/// the beam is short it is the greedy plan.
fn start_plan(alloc: Global, problem: &Problem, settings: Settings) -> Option<Plan>
    ensures plan { IfSome result (IsPlanOf problem.now) }
    ensures begins { BeginsWithin problem.now (count_or_cap problem.now (path_in result)) }
    ensures greedy { settings.beam ≡ 0 → IsFirstLimit problem.now (count_or_cap problem.now (path_in result)) }
{
    let greedy = first_plan(problem);
    let width = settings.beam();
    if width == 0 {
        return greedy;
    }
    match beam_plan(alloc, problem, width as usize) {
        Ok(found) => found,
        Err(_) => greedy,
    }
}

/// The plan that searches begin with, if there is one, and its relocations; where there is none, the cap.
pub(crate) fn started(alloc: Global, problem: &Problem, settings: Settings) -> (Option<Plan>, u32)
    ensures start { IsStartPlan problem.now settings result.0 }
    ensures first { result.1 ≡ count_or_cap problem.now (path_in result.0) }
{
    let known = start_plan(alloc, problem, settings);
    let first = count_of(problem, &known);
    (known, first)
}

/// The plan that searches begin with, if there is one, which is posted on the board, and its relocations; where there is none, the cap.
pub(crate) fn start_posted<R: Wait, G: Gate>(
    outside: &Outside<R, G>,
    alloc: Global,
    problem: &Problem,
    settings: Settings,
) -> (Option<Plan>, u32)
    ensures start { IsStartPlan problem.now settings result.0 }
    ensures first { result.1 ≡ count_or_cap problem.now (path_in result.0) }
{
    let (known, first) = started(alloc, problem, settings);
    if let Some(plan) = &known {
        outside.board.post(outside.rt, plan);
        outside.gate.planned(plan.count());
    }
    (known, first)
}

/// Keeps the part, if one was found, and answers whether one was.
fn keep_found(parts: &mut Vec<Part>, part: Option<Part>) -> bool
    requires { vec_len parts.old < vec_capacity parts.old }
    ensures parts { parts.new.items ≡ with_part parts.old.items part }
    ensures found { result ≡ is_some part }
{
    let Some(part) = part else {
        return false;
    };
    parts.push_reserved(part);
    true
}

/// The worker with this seat and the only place of a pool, after it searched the part of the root. It is marked where that is lost.
fn begun<R: Wait, G: Gate, A: Aim>(
    outside: &Outside<R, G>,
    common: &Common,
    seat: Seat,
    mut places: Vec<PoolSeat>,
) -> Result<Crew<A>, AllocError>
    requires seat { IsUnusedSeat common.now.of seat }
    requires kept { A.keeps common.now.of seat.view None [] }
    requires first { map seat_number places.items ≡ 0 ∷ [] }
    requires places { All IsUnused places.items }
    ensures of { IfOk result (λ worker. worker.of ≡ common.now.of) }
    ensures share { IfOk result (λ worker. worker.view.share ≡ seat.view.share) }
    ensures places { IfOk result (λ worker. keys worker ≡ map place_key places.items) }
    ensures none_taken { IfOk result (λ worker. all_takes worker.places ≡ []) }
    ensures stops { IfOk result (StopsBy (G.may_stop outside.now.gate.now)) }
{
    let mut parts = Vec::with_capacity(common.alloc, 1)?;
    let Some(place) = places.pop() else {
        unreachable!()
    };
    let Searched {
        part,
        seat,
        best,
        place,
        stopped,
    } = A::search_part(
        outside,
        common,
        0,
        Name::root(),
        seat,
        None,
        Some(place),
        false,
    );
    common.open.close_one();
    places.push_reserved(place.unwrap());
    let found = keep_found(&mut parts, part);
    if !found {
        common.open.lose();
    }
    Ok(Crew {
        seat,
        best,
        parts,
        places,
        short: !found,
        stopped,
        aim: PhantomData,
    })
}

/// A search whose first worker searched the part of the root: what workers have in common, what is left of the first seat, the pool,
/// which has one place, and that worker.
#[derive(Drop)]
pub(crate) struct Start<A: Aim> {
    pub(crate) common: Common,
    pub(crate) left: Seat,
    pub(crate) pool: Pool,
    pub(crate) worker: Crew<A>,
}

/// Begins a search with the limit `first`, where there is memory for that.
pub(crate) fn begin<R: Wait, G: Gate, A: Aim>(
    outside: &Outside<R, G>,
    alloc: Global,
    problem: &Problem,
    settings: Settings,
    first: u32,
) -> Option<Start<A>>
    requires begins { (of : Words) → of.key ≡ record { problem = problem.now; start = first; budget = settings.budget; thin = settings.thin; timed = is_timed settings.time } → KeepsUnused A.keeps of }
    ensures start { IfSome result (λ s. IsStart (record { problem = problem.now; start = first; budget = settings.budget; thin = settings.thin; timed = is_timed settings.time }) s.common.of s.left s.pool s.worker) }
    ensures stops { IfSome result (λ s. StopsBy (G.may_stop outside.now.gate.now) s.worker) }
{
    let known = problem.copy();
    let Ok((shared, seat)) = Shared::open(
        alloc,
        problem,
        first,
        settings.budget(),
        settings.thin(),
        settings.is_timed(),
    ) else {
        return None;
    };
    let Ok((left, given)) = shared.split(seat) else {
        unreachable!()
    };
    let Ok((pool, places)) = Pool::new(alloc, 1, CAPACITY) else {
        return None;
    };
    let common = Common {
        alloc,
        problem: known,
        shared,
        open: OpenWork::new(),
        first,
        split: settings.split(),
        thinning: settings.thinning(),
        timed: settings.is_timed(),
    };
    let Ok(worker) = begun::<R, G, A>(outside, &common, given, places) else {
        return None;
    };
    Some(Start {
        common,
        left,
        pool,
        worker,
    })
}
