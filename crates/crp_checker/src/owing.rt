//! The trees that are owed, over a position that is changed in place.
use crate::found::Found;
use crate::need::Need;
use crate::next::Next;
use crate::paying::{Paid, pay_behind, place_behind};
use crate::symbol::is_low;
use crate::walking::{Walk, walk_from};
use crp_bounds::Bounded;
use crp_thinning::Thinned;
use std::alloc::{AllocError, Global};
use std::marker::Model;

/// Where trees are owed, the next one first. A contract sees it as their list; no tree is kept.
#[derive(Drop)]
pub struct Owing {
    // The position of the last branch that is open, or of the first node.
    place: Box<Bounded>,
    // The path to the child of that branch behind which trees are owed, or to the first node.
    path: Vec<u8>,
    // How many of its rows name the part: below them it has a row for each open branch.
    above: usize,
    next: Next,
}

impl Model for Owing {
    ghost use Rattle.std.specs.Prelude.{List, length, ◌-◌};
    ghost use Rattle.crp_tree.specs.Spots.{Spot};
    ghost use Rattle.crp_checker.specs.Pending.{owed_by, IsSound};

    ghost Value = { List Spot };

    ghost view = { λ o. owed_by o.next (length o.path.items - o.above) o.path.items o.place.value };

    ghost invariant = { λ o. IsSound o.next o.above o.path.items o.place.value };
}

impl Owing {
    ghost use Rattle.std.specs.Prelude.{◌≡◌, ◌+◌, ◌∷◌, [], true, false, List, length, IfOk, nat_lt};
    ghost use Rattle.crp_tree.specs.Spots.{Spot};
    ghost use Rattle.crp_checker.specs.Walks.{IsWalk};
    ghost use Rattle.crp_checker.specs.Kept.{need_by};

    /// One tree is owed, at a place to which these rows lead.
    pub fn new(alloc: Global, name: &[u8], place: Bounded) -> Result<Owing, AllocError>
        ensures { IfOk result (λ owing. owing ≡ record { path = name.now; place = place.place } ∷ []) }
    {
        let path = Vec::from_slice(alloc, name)?;
        let place = Box::new(alloc, place)?;
        Ok(Owing {
            place,
            path,
            above: name.len(),
            next: Next::Here,
        })
    }

    /// Whether none is owed.
    #[inline]
    pub fn is_paid(&self) -> bool
        ensures none { result ≡ true → self.now ≡ [] }
        ensures some { result ≡ false → (spot : Spot) × (owed : List Spot) × (self.now ≡ spot ∷ owed) }
    {
        match self.next {
            Next::Nowhere => true,
            Next::Here => false,
            Next::Behind => false,
        }
    }

    /// Reads a piece as long as trees are owed and its bytes are symbols. How many these are.
    pub fn walk(
        &mut self,
        alloc: Global,
        need: &Need,
        found: &mut Found,
        piece: &[u8],
    ) -> Result<usize, AllocError>
        ensures { IfOk result (IsWalk (need_by need.now) self.old found.old piece.now self.new found.new) }
    {
        let next = self.next;
        self.next = Next::Nowhere;
        let Walk { taken, next } = walk_from(
            alloc,
            need,
            next,
            &mut self.path,
            self.above,
            &mut self.place,
            found,
            piece,
        )?;
        self.next = next;
        Ok(taken)
    }

    /// The position where the next tree is owed; where none is, the one that is kept.
    pub fn place_of_next(&mut self) -> Thinned
        ensures same { self.new ≡ self.old }
        ensures place { (spot : Spot) (owed : List Spot) → self.old ≡ spot ∷ owed → result.place ≡ spot.place }
    {
        match self.next {
            Next::Behind => place_behind(&mut self.path, self.above, &mut self.place),
            Next::Here | Next::Nowhere => Thinned::of(self.place.position()),
        }
    }

    /// A cut with this bound comes where the next tree is owed. Whether its value is below what it needs.
    pub fn pay(&mut self, need: &Need, bound: u8) -> bool
        requires { (spot : Spot) × (owed : List Spot) × (self.old ≡ spot ∷ owed) }
        ensures { (spot : Spot) (owed : List Spot) → self.old ≡ spot ∷ owed
            → (self.new ≡ owed) × (result ≡ nat_lt (length spot.path + bound) (need_by need.now spot.path)) }
    {
        match self.next {
            Next::Behind => {
                self.next = Next::Nowhere;
                let Paid { is_low, next } = pay_behind(
                    need,
                    bound,
                    &mut self.path,
                    self.above,
                    &mut self.place,
                );
                self.next = next;
                is_low
            }
            Next::Here | Next::Nowhere => {
                self.next = Next::Nowhere;
                is_low(need, self.path.as_slice(), u32::from(bound))
            }
        }
    }
}
