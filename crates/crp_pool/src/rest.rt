// What is left in a pool when its workers are done.
ghost use Rattle.std.specs.Prelude.{◌≡◌, ◌+◌, ◌<◌, [], ◌∷◌, ◌++◌, ℕ, All, map, MatchOption};
ghost use Rattle.crp_pool.specs.Hand.{FoundEmpty, taken_by};
ghost use Rattle.crp_pool.specs.Weigh.{weigh, SameNames};
ghost use Rattle.crp_pool.specs.Deques.{own_hand, own_deque, own_kept, way_hand, shape, guest, AddsUp};

use crate::hand::Hand;
use crate::owner::{Link, Owner};
use crp_tree::Name;
use std::marker::Model;

/// The names that are left. Contracts see all names that were put into the pool, and those that were taken so far.
#[derive(Drop)]
pub struct Rest {
    pub(crate) owners: Vec<Owner>,
}

impl Model for Rest {
    ghost use Rattle.std.specs.Prelude.{map};
    ghost use Rattle.crp_pool.specs.Hand.{put_by, taken_by};
    ghost use Rattle.crp_pool.specs.Deques.{Whole, own_hand};
    ghost use Rattle.crp_pool.specs.Seats.{Rest as Left};

    ghost Value = { Left };

    ghost view = { λ r. record { puts = put_by (map own_hand r.owners.items); takes = taken_by (map own_hand r.owners.items) } };

    ghost invariant = { λ r. Whole r.owners.items };
}

/// Takes a name from the first deque that has one.
fn take_any(owners: &mut Vec<Owner>) -> Option<Name>
    requires { All (λ o. 0 < o.hand.shares) owners.old.items }
    ensures kept { map own_kept owners.new.items ≡ map own_kept owners.old.items }
    ensures rule { MatchOption result
        ((map own_hand owners.new.items ≡ map own_hand owners.old.items) × All FoundEmpty (map own_hand owners.old.items))
        (λ x. SameNames (taken_by (map own_hand owners.new.items)) (taken_by (map own_hand owners.old.items) ++ x ∷ [])) }
{
    for i in 0..owners.len() {
        if let Some(name) = owners[i].take_left() {
            return Some(name);
        }
    }
    None
}

impl Rest {
    /// The next name that was put and not taken. `None` says that each name was taken as often as it was put.
    pub fn next(&mut self) -> Option<Name>
        ensures puts { self.new.puts ≡ self.old.puts }
        ensures taken { MatchOption result
            ((self.new.takes ≡ self.old.takes) × SameNames self.new.puts self.new.takes)
            (λ x. SameNames self.new.takes (self.old.takes ++ x ∷ [])) }
    {
        take_any(&mut self.owners)
    }
}

/// Gives each deque's worker the way to its deque.
pub(crate) fn give_back(owners: &mut Vec<Owner>, mut links: Vec<Link>)
    requires ways { map shape links.items ≡ map guest (map own_deque owners.old.items) }
    requires shares { All (λ o. 0 < o.hand.shares) owners.old.items }
    ensures deques { map own_deque owners.new.items ≡ map own_deque owners.old.items }
    ensures shares { All (λ o. 0 < o.hand.shares) owners.new.items }
    ensures sums { (f : Hand → ℕ) → AddsUp f
        → weigh f (map own_hand owners.new.items) ≡ weigh f (map own_hand owners.old.items) + weigh f (map way_hand links.items) }
{
    while let Some(link) = links.pop() {
        let at = links.len();
        owners[at].absorb(link);
    }
}
