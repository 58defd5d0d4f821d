//! What one seat sees of another's offers, and how claims end.
ghost use Rattle.std.specs.Prelude.{◌≡◌};
ghost use Rattle.crp_incumbent.specs.Rule.{all_shares};

use super::plan_of;
use crate::bays::{SIX, problem_of};
use crate::compare::assert_same;
use crp_incumbent::{Seat, Shared, Why};
use crp_plan::Plan;
use std::process::Abort;
use std::test::Fail;

/// Splits a seat that can be split.
fn split(rt: &impl Abort, shared: &Shared, seat: Seat) -> (Seat, Seat)
    requires { seat.of ≡ shared.now }
    ensures { (result.0.of ≡ shared.now) × (result.1.of ≡ shared.now) }
{
    match shared.split(seat) {
        Ok(seats) => seats,
        Err(_) => panic!(rt; "a share is left"),
    }
}

/// The seat with one share, which cannot be split and comes back.
fn is_not_split(rt: &impl Abort, shared: &Shared, seat: Seat) -> Seat
    requires { seat.of ≡ shared.now }
    ensures { result.of ≡ shared.now }
{
    match shared.split(seat) {
        Ok(_) => panic!(rt; "one share is not split"),
        Err(refused) => {
            assert_same(rt, &refused.why, &Why::NoneLeft);
            refused.seat
        }
    }
}

/// Sees this limit.
fn sees(rt: &impl Abort, shared: &Shared, seat: Seat, limit: u64) -> Seat
    requires { seat.of ≡ shared.now }
    ensures { result.of ≡ shared.now }
{
    let (found, seat) = shared.see(seat);
    assert_same(rt, &found, &limit);
    seat
}

/// Offers a plan.
fn offers(shared: &Shared, seat: Seat, plan: &Plan) -> Seat
    requires seat { seat.of ≡ shared.now }
    requires problem { plan.now.problem ≡ shared.now.key.problem }
    ensures { result.of ≡ shared.now }
{
    shared.offer(seat, plan)
}

/// A claim has this answer.
fn claims(rt: &impl Abort, shared: &Shared, seat: Seat, answer: bool) -> Seat
    requires { seat.of ≡ shared.now }
    ensures of { result.of ≡ shared.now }
    ensures share { result.view.share ≡ seat.view.share }
{
    let (granted, seat) = shared.claim(seat);
    assert_same(rt, &granted, &Some(answer));
    seat
}

/// A plan that is no better leaves the limit.
#[test]
fn an_offered_plan_is_seen_by_every_seat(rt: HostRuntime) -> Result<(), Fail> {
    let problem = problem_of(rt.alloc(), &SIX)?;
    let longer = plan_of(&rt, &problem, &[2, 3, 2, 1]);
    let plan = plan_of(&rt, &problem, &[2, 2, 1]);
    let (shared, seat) = Shared::open(rt.alloc(), &problem, 5, 2, 0, false)?;
    let (a, b) = split(&rt, &shared, seat);
    let b = sees(&rt, &shared, b, 5);
    let a = offers(&shared, a, &longer);
    let b = sees(&rt, &shared, b, 4);
    let b = offers(&shared, b, &plan);
    let a = sees(&rt, &shared, a, 3);
    let a = offers(&shared, a, &longer);
    let b = sees(&rt, &shared, b, 3);
    let both = shared.join(b, a);
    sees(&rt, &shared, both, 3);
    Ok(())
}

/// What comes back of a refused split still sees, and is joined.
#[test]
fn a_seat_with_one_share_is_not_split(rt: HostRuntime) -> Result<(), Fail> {
    let problem = problem_of(rt.alloc(), &SIX)?;
    let plan = plan_of(&rt, &problem, &[2, 2, 1]);
    let (shared, seat) = Shared::open(rt.alloc(), &problem, 5, 2, 0, false)?;
    let (a, b) = split(&rt, &shared, seat);
    let b = sees(&rt, &shared, b, 5);
    let a = offers(&shared, a, &plan);
    let a = sees(&rt, &shared, a, 3);
    let b = sees(&rt, &shared, b, 3);
    let b = is_not_split(&rt, &shared, b);
    let both = shared.join(b, a);
    sees(&rt, &shared, both, 3);
    Ok(())
}

/// Closes by the seat with all shares.
fn closes(rt: &impl Abort, shared: Shared, seat: Seat, limit: u64, spent: u64)
    requires of { seat.of ≡ shared }
    requires whole { seat.view.share ≡ all_shares }
{
    let totals = shared.close(seat);
    assert_same(rt, &totals.limit, &limit);
    assert_same(rt, &totals.spent, &spent);
}

#[test]
fn a_seat_that_was_refused_makes_no_step(rt: HostRuntime) -> Result<(), Fail> {
    let problem = problem_of(rt.alloc(), &SIX)?;
    let (shared, seat) = Shared::open(rt.alloc(), &problem, 5, 2, 0, false)?;
    let seat = claims(&rt, &shared, seat, true);
    let seat = claims(&rt, &shared, seat, true);
    let seat = claims(&rt, &shared, seat, false);
    let seat = claims(&rt, &shared, seat, false);
    closes(&rt, shared, seat, 5, 3);
    Ok(())
}
