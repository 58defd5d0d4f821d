//! The limit and the claims, and the steps on them.
ghost use Rattle.std.specs.Prelude.{◌≡◌, ◌+◌, ◌<◌, ◌≤◌, ◌⊎◌, ◌↔◌, false, min, length, IfOk, IfErr, IsErr, IfSome, IfNone, Some};
ghost use Rattle.crp_plan.specs.Running.{words, after_see};
ghost use Rattle.crp_incumbent.specs.Rule.{all_shares, first_view, most_budget, one_open, view_kept, view_given, view_joined, IsBatch};
ghost use Rattle.crp_incumbent.specs.Seats.{with_view, FindsLimit, OffersCount, ClaimsOne};

use crate::rule::{
    Keeping, KeyedView, Looks, Offers, Opening, Refuses, Sees, Settles, Shares, Takes,
};
use crate::seat::{Seat, SplitRefused, Why};
use atomic_table::Table;
use crp_plan::{Plan, Problem};
use std::alloc::{AllocError, Global};
use std::marker::Model;
use std::snapshot::Snapshot;

/// The words of the table. Only two of them are used, and 120 bytes at least on each side of them are not: all workers load the limit at
/// each node, and each writes the claims once a batch. Processors fetch cache lines of 64 bytes in pairs, so lines that are only next to
/// each other would be written together.
const WORDS: usize = 48;

/// The word of the claims.
const CLAIMS: usize = 16;

/// The word with the limit.
const LIMIT: usize = 32;

/// The word of the claims counts those that are open in multiples of this, and below it those of them that are lent.
const OPEN: u64 = 1 << 20;

/// The most claims that a seat takes at once.
const BATCH: u64 = 256;

/// A seat takes one of so many parts of what it may take, so that batches are small where few claims are left.
const PARTS: u64 = 512;

/// The shares of all seats together.
const SHARES: u64 = 65;

/// The running limit and the claims. Any thread may step on them with a seat, and no call waits.
#[derive(Drop)]
pub struct Shared {
    table: Table<(), KeyedView, Opening, Keeping, Global>,
    budget: u64,
}

impl Model for Shared {
    ghost use Rattle.std.specs.Prelude.{◌≡◌};
    ghost use Rattle.crp_incumbent.specs.Seats.{Shared as Identity};
    ghost use Rattle.crp_incumbent.specs.Rule.{key_of, all_words};

    ghost Value = { Identity };

    ghost view = { λ a. record { table = a.table.shared.table_id; key = key_of a.table.shared.key } };

    ghost invariant = { λ a. (a.table.shared.table_id.words ≡ all_words) × (a.table.shared.table_id.slots ≡ 0) × (a.budget ≡ a.table.shared.key.budget) };
}

/// What a search came to.
#[derive(Clone, Copy, PartialEq, Eq, Debug)]
pub struct Totals {
    /// The last limit, in relocations.
    pub limit: u64,
    /// How many expansions were claimed, those that were refused among them.
    pub spent: u64,
}

impl Shared {
    /// The words as a search begins, and the seat that has all shares. How many thinned branches may be
    /// tried at a node is kept for those who count claims, and whether the search is timed for those who stop them.
    pub fn open(
        alloc: Global,
        problem: &Problem,
        start: u32,
        budget: u64,
        thin: u32,
        timed: bool,
    ) -> Result<(Shared, Seat), AllocError>
        requires { budget ≤ most_budget }
        ensures shared { IfOk result (λ r. r.0.key ≡ record { problem = problem.now; start = start; budget = budget; thin = thin; timed = timed }) }
        ensures seat { IfOk result (λ r. r.1 ≡ record { of = r.0; view = first_view start }) }
    {
        let start = u64::from(start);
        let opening = Opening {
            problem: Snapshot::of(problem),
            start,
            budget,
            thin,
            timed,
        };
        let mut words = [0; WORDS];
        words[CLAIMS] = budget * OPEN;
        words[LIMIT] = start;
        let (table, token) = Table::of_words(alloc, &words, &opening)?;
        Ok((
            Shared { table, budget },
            Seat {
                token,
                share: SHARES,
                refused: 0,
                loan: 0,
                used: 0,
            },
        ))
    }

    /// The limit, which is at most all that this seat saw, offered or learnt by a join before.
    pub fn see(&self, mut seat: Seat) -> (u64, Seat)
        requires { seat.of ≡ self.now }
        ensures seen { result.0 ≡ result.1.view.seen }
        ensures seat { result.1 ≡ with_view seat (after_see (words result.0 0 seat.view)).view }
        ensures found { FindsLimit seat result.0 }
    {
        let limit = seat.see(self);
        (limit, seat)
    }

    /// Offers a plan: the limit becomes its count of relocations, if that is less.
    pub fn offer(&self, mut seat: Seat, plan: &Plan) -> Seat
        requires shared { seat.of ≡ self.now }
        requires problem { plan.now.problem ≡ self.now.key.problem }
        ensures { OffersCount seat (length plan.now.path) result }
    {
        seat.offer(self, plan);
        seat
    }

    /// Claims one expansion, and answers whether it was granted. A seat that was refused once makes no step.
    ///
    /// Nothing happens, and there is no answer yet, where another seat was faster, or where all that is left of the budget is lent to
    /// others: the claim is to be made again, once these have claimed more or were settled.
    pub fn claim(&self, mut seat: Seat) -> (Option<bool>, Seat)
        requires { seat.of ≡ self.now }
        ensures step { seat.view.refused ≡ 0 → IfSome result.0 (λ granted. ClaimsOne seat granted result.1) }
        ensures none { IfNone result.0 (result.1 ≡ seat) }
        ensures refused { 0 < seat.view.refused → (result.0 ≡ Some false) × (result.1 ≡ seat) }
    {
        let granted = seat.claim(self);
        (granted, seat)
    }

    /// Gives one share to a new seat, the second. It takes no memory.
    pub fn split(&self, mut seat: Seat) -> Result<(Seat, Seat), SplitRefused>
        requires { seat.of ≡ self.now }
        ensures kept { IfOk result (λ seats. seats.0 ≡ with_view seat (view_kept seat.view)) }
        ensures given { IfOk result (λ seats. seats.1 ≡ with_view seat (view_given self.now.key.start seat.view)) }
        ensures none_left { IsErr result ↔ ((seat.view.share ≡ 1) ⊎ (seat.view.share ≡ seat.view.refused)) }
        ensures refused { IfErr result (λ e. (e.seat ≡ seat) × (e.why ≡ Why.NoneLeft)) }
    {
        if seat.share == 1 || seat.share == seat.refused {
            return Err(SplitRefused {
                seat,
                why: Why::NoneLeft,
            });
        }
        let token = self.table.shared.split_seat::<Shares>(&mut seat.token);
        seat.share -= 1;
        let other = Seat {
            token,
            share: 1,
            refused: 0,
            loan: 0,
            used: 0,
        };
        Ok((seat, other))
    }

    /// Makes one seat of two.
    pub fn join(&self, mut seat: Seat, other: Seat) -> Seat
        requires first { seat.of ≡ self.now }
        requires second { other.of ≡ self.now }
        ensures { result ≡ with_view seat (view_joined seat.view other.view) }
    {
        let Seat {
            token,
            share,
            refused,
            loan,
            used,
        } = other;
        self.table
            .shared
            .join_seat::<Shares>(&mut seat.token, token);
        let sum = seat.share.checked_add(share);
        let loan = seat.loan + loan;
        let (Some(share), true) = (sum, loan < OPEN) else {
            // Never: no seat has more than all shares, nor a greater loan than the word counts, as this load shows.
            self.table.shared.load::<Looks>(&mut seat.token, CLAIMS);
            unreachable!()
        };
        seat.share = share;
        seat.refused += refused;
        seat.loan = loan;
        seat.used += used;
        seat
    }

    /// The last limit and the number of claims, by the seat that has all shares.
    pub fn close(self, seat: Seat) -> Totals
        requires shared { seat.of ≡ self }
        requires whole { seat.view.share ≡ all_shares }
        ensures limit { result.limit ≡ min self.key.start seat.view.mine }
        ensures spent { result.spent ≡ seat.view.granted + seat.view.refused }
        ensures granted { seat.view.granted ≡ min result.spent self.key.budget }
        ensures seen { result.limit ≤ seat.view.seen }
        ensures mine { seat.view.mine ≤ self.key.start }
        ensures over { result.spent ≤ self.key.budget + all_shares }
    {
        let Shared { table, budget } = self;
        let Seat {
            token,
            share: _,
            refused,
            loan: _,
            used,
        } = seat;
        let closed = table.close_with(token);
        let limit = closed.word(LIMIT);
        let open = closed.word(CLAIMS) / OPEN;
        closed.free();
        Totals {
            limit,
            spent: budget - open + used + refused,
        }
    }
}

/// How many claims a seat takes to spend them alone, beside the one that it makes, where the word of the claims is this and so many are
/// lent to it already; none where no claim is left but what is lent.
fn more_of(claims: u64, loan: u64) -> Option<u64>
    requires { loan < one_open }
    ensures { IfSome result (λ more. IsBatch claims loan more) }
{
    let (open, lent) = (claims / OPEN, claims % OPEN);
    if open <= lent {
        return None;
    }
    let most = OPEN - 1 - lent.max(loan);
    Some(((open - lent) / PARTS).min(BATCH - 1).min(most))
}

impl Seat {
    /// The limit of the words that this seat is at, as `Shared::see` gives it.
    #[inline]
    pub fn see(&mut self, shared: &Shared) -> u64
        requires { self.old.of ≡ shared.now }
        ensures seen { result ≡ self.new.view.seen }
        ensures seat { self.new ≡ with_view self.old (after_see (words result 0 self.old.view)).view }
        ensures found { FindsLimit self.old result }
    {
        shared.table.shared.load::<Sees>(&mut self.token, LIMIT)
    }

    /// Offers a plan, as `Shared::offer` does.
    pub fn offer(&mut self, shared: &Shared, plan: &Plan)
        requires shared { self.old.of ≡ shared.now }
        requires problem { plan.now.problem ≡ shared.now.key.problem }
        ensures { OffersCount self.old (length plan.now.path) self.new }
    {
        let count = u64::from(plan.count());
        shared
            .table
            .shared
            .fetch_min::<Offers>(&mut self.token, LIMIT, count);
    }

    /// Claims one expansion, as `Shared::claim` does.
    #[inline]
    pub fn claim(&mut self, shared: &Shared) -> Option<bool>
        requires { self.old.of ≡ shared.now }
        ensures step { self.old.view.refused ≡ 0 → IfSome result (λ granted. ClaimsOne self.old granted self.new) }
        ensures none { IfNone result (self.new ≡ self.old) }
        ensures refused { 0 < self.old.view.refused → (result ≡ Some false) × (self.new ≡ self.old) }
    {
        if self.refused > 0 {
            return Some(false);
        }
        if self.used < self.loan {
            self.used += 1;
            return Some(true);
        }
        self.settle(shared);
        self.claim_at_table(shared)
    }

    /// Gives back what is left of the claims that are lent to this seat. Others may wait for it, so whoever claims no more for a while
    /// calls this first.
    pub fn settle(&mut self, shared: &Shared)
        requires { self.old.of ≡ shared.now }
        ensures { self.new ≡ self.old }
    {
        if self.loan == 0 {
            return;
        }
        let settled = self.used * OPEN + self.loan;
        shared
            .table
            .shared
            .fetch_sub::<Settles>(&mut self.token, CLAIMS, settled);
        self.loan = 0;
        self.used = 0;
    }

    /// Claims one expansion of those that are lent to nobody, and more for this seat alone.
    fn claim_at_table(&mut self, shared: &Shared) -> Option<bool>
        requires of { self.old.of ≡ shared.now }
        requires fresh { self.old.view.refused ≡ 0 }
        ensures claimed { IfSome result (λ granted. ClaimsOne self.old granted self.new) }
        ensures none { IfNone result (self.new ≡ self.old) }
    {
        let table = &shared.table.shared;
        let claims = table.peek(CLAIMS);
        let Some(more) = more_of(claims, self.loan) else {
            if table.load::<Refuses>(&mut self.token, CLAIMS) == 0 {
                self.refused = 1;
                return Some(false);
            }
            return None;
        };
        let after = claims - OPEN + more;
        if table.compare_exchange::<Takes>(&mut self.token, CLAIMS, claims, after) == claims {
            self.loan += more;
            return Some(true);
        }
        None
    }
}
