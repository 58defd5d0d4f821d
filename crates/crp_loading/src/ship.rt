//! The order in which the ship gets its containers.
ghost use Rattle.std.specs.Prelude.{◌≡◌, ◌≤◌, IfOk, length, map};
ghost use Rattle.crp_movins.specs.Accepted.{max_orders};
ghost use Rattle.crp_loading.specs.Turns.{turn_of, slot_for};
ghost use Rattle.crp_loading.specs.Views.{Numbers};

use crp_movins::{Heading, Order, Orders, Slot};
use crp_order::Sequence;
use crp_plan::Container;
use std::alloc::{AllocError, Global};
use std::collections::HashMap;
use std::marker::Model;

/// The sequence of the containers, and the orders, with the number of each container in either, from 0, and what the message says of
/// the ship.
#[derive(Drop)]
pub struct Ship<'a> {
    sequence: &'a [Container],
    orders: &'a [Order],
    heading: &'a Heading,
    turns: HashMap<&'a [u8], usize>,
    places: HashMap<&'a [u8], usize>,
}

impl<'a> Model for Ship<'a> {
    ghost use Rattle.std.specs.Prelude.{◌≤◌, length};
    ghost use Rattle.crp_loading.specs.Turns.{ShipOrder};
    ghost use Rattle.crp_loading.specs.Views.{Numbers};
    ghost use Rattle.crp_movins.specs.Accepted.{ordered_containers, max_orders};

    ghost Value = { ShipOrder };

    ghost view = { λ a. record { sequence = a.sequence.now; orders = a.orders.now; heading = a.heading.now } };

    ghost invariant = { λ a. (length a.sequence.now ≤ max_orders) × Numbers a.sequence.now a.turns.entries
        × Numbers (ordered_containers a.orders.now) a.places.entries };
}

// The number of each name, from 0; of one that comes more than once the lowest.
fn numbers_of<'a>(alloc: Global, names: &[&'a [u8]]) -> Result<HashMap<&'a [u8], usize>, AllocError>
    ensures { IfOk result (λ numbers. Numbers (map (λ name. name.now) names.now) numbers.entries) }
{
    let mut numbers = HashMap::new(alloc);
    for i in (0..names.len()).rev() {
        numbers.insert(names[i], i)?;
    }
    Ok(numbers)
}

impl<'a> Ship<'a> {
    /// The ship that gets its containers in this sequence, and is to have them where these orders say.
    pub fn new(
        alloc: Global,
        sequence: &'a Sequence,
        orders: &'a Orders,
    ) -> Result<Ship<'a>, AllocError>
        ensures { IfOk result (λ ship. ship ≡ record { sequence = sequence.now; orders = orders.now.list; heading = orders.now.heading }) }
    {
        let heading = orders.heading();
        let (sequence, orders) = (sequence.list(), orders.list());
        let names = sequenced_names(alloc, sequence)?;
        let turns = numbers_of(alloc, &names)?;
        let names = ordered_names(alloc, orders)?;
        let places = numbers_of(alloc, &names)?;
        Ok(Ship {
            sequence,
            orders,
            heading,
            turns,
            places,
        })
    }

    /// The containers in the sequence in which the ship gets them.
    pub fn sequence(&self) -> &'a [Container]
        ensures value { result.now ≡ self.now.sequence }
        ensures few { length result.now ≤ max_orders }
    {
        self.sequence
    }

    /// What the message says of the ship, of its voyage and of its date.
    pub fn heading(&self) -> &'a Heading
        ensures { result.now ≡ self.now.heading }
    {
        self.heading
    }

    /// When the ship gets a container.
    pub fn turn_of(&self, container: &Container) -> Option<u64>
        ensures { result ≡ turn_of self.now.sequence container.now }
    {
        match self.turns.get(container.bytes()) {
            Some(number) => Some(*number as u64 + 1),
            None => None,
        }
    }

    /// Where it stands on the ship.
    pub fn slot_for(&self, container: &Container) -> Option<Slot>
        ensures { result ≡ slot_for self.now.orders container.now }
    {
        match self.places.get(container.bytes()) {
            Some(place) => Some(self.orders[*place].slot),
            None => None,
        }
    }
}

// The names of the sequence.
fn sequenced_names<'a>(
    alloc: Global,
    sequence: &'a [Container],
) -> Result<Vec<&'a [u8]>, AllocError>
    ensures { IfOk result (λ names. map (λ name. name.now) names.items ≡ sequence.now) }
{
    let mut names = Vec::new(alloc);
    for container in sequence {
        names.push(container.bytes())?;
    }
    Ok(names)
}

// The names of those that are ordered.
fn ordered_names<'a>(alloc: Global, orders: &'a [Order]) -> Result<Vec<&'a [u8]>, AllocError>
    ensures { IfOk result (λ names. map (λ name. name.now) names.items ≡ map (λ order. order.container) orders.now) }
{
    let mut names = Vec::new(alloc);
    for order in orders {
        names.push(order.container.bytes())?;
    }
    Ok(names)
}
