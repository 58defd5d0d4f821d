// A deque's worker, the ways by which others steal from it, and the rule that all keep.
ghost use Rattle.std.specs.Prelude.{◌≡◌, ◌+◌, ◌<◌, ◌≤◌, [], ◌∷◌, IfOk, MatchResult, MatchOption};
ghost use Rattle.crossbeam_deque.specs.Handles.{view as known, IsPassOf, stealer_deque, worker_deque, worker_view, worker_capacity, worker_index};
ghost use Rattle.crp_pool.specs.Hand.{hand, all_deque_shares, FoundEmpty, puts, takes, share_cut, both};
ghost use Rattle.crp_pool.specs.Deques.{Own, Way};

use crate::hand::Hand;
use crossbeam_deque::protocol::{Join, Outcome, Protocol, Split};
use crossbeam_deque::{Pass, Stealer, Worker};
use crp_tree::Name;
use std::alloc::{AllocError, Global};
use std::marker::Model;

/// The rule of a deque: the names put are those taken by all passes and those held.
pub struct Counted;

impl Protocol<Name, Hand> for Counted {
    ghost use Rattle.std.specs.Prelude.{[]};
    ghost use Rattle.crp_pool.specs.Hand.{hand, all_deque_shares, Balanced};

    ghost holds = { Balanced };

    ghost first = { hand all_deque_shares [] [] };

    ghost guest = { hand 0 [] [] };
}

/// A name was put.
struct Puts;

impl Outcome<Name, Hand> for Puts {
    ghost then = { λ v xs w. w ≡ puts v xs };
}

/// A name was taken.
struct Takes;

impl Outcome<Name, Hand> for Takes {
    ghost then = { λ v xs w. w ≡ takes v xs };
}

/// A name was taken; or the deque was empty, and who has all shares learns that all names that were put were taken.
struct Last;

impl Outcome<Name, Hand> for Last {
    ghost then = { λ v xs w. w ≡ takes v xs };

    ghost empty = { FoundEmpty };
}

/// One share is cut off, and two passes are made one.
struct Cut;

impl Split<Hand> for Cut {
    ghost use Rattle.std.specs.Prelude.{[]};
    ghost use Rattle.crp_pool.specs.Hand.{hand, share_cut};

    ghost left = { share_cut };

    ghost right = { λ v. hand 1 [] [] };
}

impl Join<Hand> for Cut {
    ghost use Rattle.std.specs.Prelude.{[]};
    ghost use Rattle.crp_pool.specs.Hand.{hand, both};

    ghost both = { both };

    ghost spent = { hand 0 [] [] };
}

/// The worker of a deque.
#[derive(Drop)]
pub struct Owner {
    worker: Worker<Name, Global, Hand, Counted>,
}

impl Model for Owner {
    ghost Value = { Own };

    ghost view = { λ o. record { deque = worker_deque o.worker; hand = worker_view o.worker; index = worker_index o.worker; slots = worker_capacity o.worker } };
}

/// Another's way to a deque, by which names are stolen.
#[derive(Drop)]
pub struct Link {
    stealer: Stealer<Name, Global, Hand, Counted>,
    pass: Pass<Name, Hand>,
}

impl Model for Link {
    ghost Value = { Way };

    ghost view = { λ l. record { deque = stealer_deque l.stealer; hand = known l.pass } };

    ghost invariant = { λ l. IsPassOf (stealer_deque l.stealer) l.pass };
}

impl Owner {
    /// An empty deque whose worker has all shares, with at least so many slots.
    pub fn new(alloc: Global, capacity: usize) -> Result<Owner, AllocError>
        ensures { IfOk result (λ o. (o.hand ≡ hand all_deque_shares [] []) × (o.index ≡ 0) × (capacity ≤ o.slots)) }
    {
        let worker = Worker::lifo_as(alloc, capacity)?;
        Ok(Owner { worker })
    }

    /// A new way to the deque, which gets one share.
    pub fn link(&mut self) -> Result<Link, AllocError>
        requires { 1 < self.old.hand.shares }
        ensures same { (self.new.deque ≡ self.old.deque) × (self.new.index ≡ self.old.index) × (self.old.slots ≤ self.new.slots) }
        ensures rule { MatchResult result
            (λ l. (self.new.hand ≡ share_cut self.old.hand) × (l.deque ≡ self.old.deque) × (l.hand ≡ hand 1 [] []))
            (λ _. self.new.hand ≡ self.old.hand) }
    {
        let stealer = self.worker.stealer()?;
        let pass = self.worker.another::<Cut>();
        Ok(Link { stealer, pass })
    }

    /// Puts a name at the back. It comes back where the deque cannot grow, which is only once it has had as many pushes as slots.
    pub fn put(&mut self, name: Name) -> Result<(), Name>
        requires { 0 < self.old.hand.shares }
        ensures same { (self.new.deque ≡ self.old.deque) × (self.old.slots ≤ self.new.slots) }
        ensures rule { MatchResult result
            (λ _. (self.new.hand ≡ puts self.old.hand (name ∷ [])) × (self.new.index ≡ self.old.index + 1))
            (λ x. (x ≡ name) × (self.new.hand ≡ self.old.hand) × (self.new.index ≡ self.old.index) × (self.old.slots ≤ self.old.index)) }
    {
        self.worker.push_as::<Puts>(name)
    }

    /// Takes the name at the back.
    pub fn take(&mut self) -> Option<Name>
        requires { 0 < self.old.hand.shares }
        ensures same { (self.new.deque ≡ self.old.deque) × (self.old.slots ≤ self.new.slots) × (self.new.index ≤ self.old.index) }
        ensures rule { MatchOption result (self.new.hand ≡ self.old.hand) (λ x. self.new.hand ≡ takes self.old.hand (x ∷ [])) }
    {
        self.worker.pop_as::<Takes>()
    }

    /// Takes the name at the back. At `None` a worker with all shares learns that all names that were put were taken.
    pub fn take_left(&mut self) -> Option<Name>
        requires { 0 < self.old.hand.shares }
        ensures same { self.new.deque ≡ self.old.deque }
        ensures rule { MatchOption result ((self.new.hand ≡ self.old.hand) × FoundEmpty self.old.hand) (λ x. self.new.hand ≡ takes self.old.hand (x ∷ [])) }
    {
        self.worker.pop_as::<Last>()
    }

    /// Takes a way back.
    pub fn absorb(&mut self, link: Link)
        requires deque { link.deque ≡ self.old.deque }
        requires share { 0 < self.old.hand.shares }
        ensures same { self.new.deque ≡ self.old.deque }
        ensures rule { self.new.hand ≡ both self.old.hand link.hand }
    {
        let Link { stealer: _, pass } = link;
        self.worker.absorb::<Cut>(pass);
    }
}

impl Link {
    /// Takes the name at the front. `None` may come while the deque holds names.
    pub fn steal(&mut self) -> Option<Name>
        requires { 0 < self.old.hand.shares }
        ensures same { self.new.deque ≡ self.old.deque }
        ensures rule { MatchOption result (self.new.hand ≡ self.old.hand) (λ x. self.new.hand ≡ takes self.old.hand (x ∷ [])) }
    {
        self.stealer.steal_as::<Takes>(&mut self.pass).success()
    }
}
