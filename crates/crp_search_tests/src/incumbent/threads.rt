//! Two threads that claim.
ghost use Rattle.std.specs.Prelude.{◌≡◌};
ghost use Rattle.std.specs.Thread.{IsSync};
ghost use Rattle.crp_incumbent.specs.Rule.{all_shares};

use crate::bays::{SIX, problem_of};
use crate::compare::assert_same;
use crp_incumbent::{Seat, Shared};
use std::process::Abort;
use std::sync::Wait;
use std::test::Fail;
use std::thread;
use std::thread::Threads;

/// A seat, the claims that were made by it, and those of them that were granted.
#[derive(Drop)]
struct Claimant {
    seat: Seat,
    claims: u32,
    granted: u32,
}

impl Claimant {
    /// Claims once more. There may be no answer yet.
    fn claim(self, shared: &Shared) -> (Option<bool>, Claimant)
        requires { self.seat.of ≡ shared.now }
        ensures of { result.1.seat.of ≡ shared.now }
        ensures share { result.1.seat.view.share ≡ self.seat.view.share }
    {
        let Claimant {
            seat,
            claims,
            granted,
        } = self;
        let (answer, seat) = shared.claim(seat);
        (
            answer,
            Claimant {
                seat,
                claims: claims.saturating_add(u32::from(answer.is_some())),
                granted: granted.saturating_add(u32::from(answer == Some(true))),
            },
        )
    }
}

/// Claims a thousand times, or until a claim is refused, and leaves nothing that is lent to the seat.
fn claim_often(rt: &impl Wait, shared: &Shared, seat: Seat) -> Claimant
    requires { seat.of ≡ shared.now }
    ensures of { result.seat.of ≡ shared.now }
    ensures share { result.seat.view.share ≡ seat.view.share }
{
    let mut claimant = Claimant {
        seat,
        claims: 0,
        granted: 0,
    };
    for _ in rt.forever() {
        let (answer, next) = claimant.claim(shared);
        claimant = next;
        if answer == Some(false) || claimant.claims == 1000 {
            break;
        }
        if answer.is_none() {
            thread::yield_now();
        }
    }
    claimant.seat.settle(shared);
    claimant
}

/// Two threads claim over one `Shared`: what is spent are their claims, of which so many are granted.
fn claims_of_two<R: Threads + Wait + Abort + Sync>(rt: &R, shared: Shared, seat: Seat, granted: u64)
    requires of { seat.of ≡ shared }
    requires whole { seat.view.share ≡ all_shares }
{
    let Ok((a, b)) = shared.split(seat) else {
        panic!(rt; "a share is left")
    };
    let words = &shared;
    let (a, b) = thread::join(
        rt,
        || -> Claimant
            requires sync { IsSync R.row }
            requires of { a.of ≡ words.now }
            ensures of { result.seat.of ≡ words.entry.now }
            ensures share { result.seat.view.share ≡ a.view.share }
        { claim_often(rt, words, a) },
        || -> Claimant
            requires sync { IsSync R.row }
            requires of { b.of ≡ words.now }
            ensures of { result.seat.of ≡ words.entry.now }
            ensures share { result.seat.view.share ≡ b.view.share }
        { claim_often(rt, words, b) },
    );
    assert_same(rt, &(u64::from(a.granted) + u64::from(b.granted)), &granted);
    let seat = shared.join(a.seat, b.seat);
    let totals = shared.close(seat);
    assert_same(
        rt,
        &totals.spent,
        &(u64::from(a.claims) + u64::from(b.claims)),
    );
}

#[test]
fn what_is_spent_are_the_claims_of_two_threads(rt: HostRuntime) -> Result<(), Fail> {
    let problem = problem_of(rt.alloc(), &SIX)?;
    for (budget, granted) in [(0, 0), (1, 1), (1500, 1500), (5000, 2000)] {
        let (shared, seat) = Shared::open(rt.alloc(), &problem, 13, budget, 0, false)?;
        claims_of_two(&rt, shared, seat, granted);
    }
    Ok(())
}
