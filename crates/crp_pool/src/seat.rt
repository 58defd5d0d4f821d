// What one worker has of a pool.
ghost use Rattle.std.specs.Prelude.{◌≡◌, ◌+◌, ◌<◌, ◌≤◌, [], ◌∷◌, ◌++◌, All, map, MatchOption, MatchResult, IfErr, length};
ghost use Rattle.crp_pool.specs.Hand.{taken_by};
ghost use Rattle.crp_pool.specs.Weigh.{SameNames};
ghost use Rattle.crp_pool.specs.Deques.{shape, way_hand};
ghost use Rattle.crp_pool.specs.Seats.{SameSeat};

use crate::owner::{Link, Owner};
use crp_tree::Name;
use std::marker::Model;

/// A worker's place in a pool: its own deque, and ways to the others.
#[derive(Drop)]
pub struct PoolSeat {
    pub(crate) number: usize,
    pub(crate) owner: Owner,
    pub(crate) links: Vec<Link>,
    pub(crate) capacity: usize,
}

impl Model for PoolSeat {
    ghost use Rattle.crp_pool.specs.Seats.{PoolSeat as Place, seat_of, SeatKeeps};

    ghost Value = { Place };

    ghost view = { λ s. seat_of s.number s.owner s.links.items s.capacity };

    ghost invariant = { λ s. SeatKeeps s.owner s.links.items s.capacity };
}

/// Steals from the first deque that gives a name, beginning with the one of this number.
fn steal_any(links: &mut Vec<Link>, first: usize) -> Option<Name>
    requires { All (λ w. 0 < w.hand.shares) links.old.items }
    ensures shape { map shape links.new.items ≡ map shape links.old.items }
    ensures rule { MatchOption result
        (map way_hand links.new.items ≡ map way_hand links.old.items)
        (λ x. SameNames (taken_by (map way_hand links.new.items)) (taken_by (map way_hand links.old.items) ++ x ∷ [])) }
{
    for i in 0..links.len() {
        let at = first.wrapping_add(i) % links.len();
        if let Some(name) = links[at].steal() {
            return Some(name);
        }
    }
    None
}

impl PoolSeat {
    /// The seat's number in its pool.
    pub fn number(&self) -> usize
        ensures { result ≡ self.now.number }
    {
        self.number
    }

    /// Puts a name into the seat's own deque. The first `capacity` puts succeed.
    pub fn put(&mut self, name: Name) -> Result<(), Name>
        ensures same { SameSeat self.old self.new × (self.new.takes ≡ self.old.takes) }
        ensures put { MatchResult result (λ _. self.new.puts ≡ self.old.puts ++ name ∷ []) (λ x. (x ≡ name) × (self.new.puts ≡ self.old.puts)) }
        ensures refused { IfErr result (λ _. self.old.capacity ≤ length self.old.puts) }
    {
        self.owner.put(name)
    }

    /// Takes a name from the seat's own deque, or steals one from another's. `None` may come while others hold work.
    pub fn take(&mut self) -> Option<Name>
        ensures same { SameSeat self.old self.new × (self.new.puts ≡ self.old.puts) }
        ensures taken { MatchOption result (self.new.takes ≡ self.old.takes) (λ x. SameNames self.new.takes (self.old.takes ++ x ∷ [])) }
    {
        if let Some(name) = self.owner.take() {
            return Some(name);
        }
        steal_any(&mut self.links, self.number.wrapping_add(1))
    }
}
