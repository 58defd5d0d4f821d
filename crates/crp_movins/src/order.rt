//! Load orders.

ghost use Rattle.std.specs.Prelude.{◌≡◌, IfOk};
ghost use Rattle.crp_movins.specs.Accepted.{AreLoadOrders};

use crate::heading::Heading;
use crate::slot::Slot;
use crp_plan::Container;
use std::alloc::{AllocError, Global};
use std::marker::Model;

/// A container is to be loaded into a slot.
#[derive(Drop)]
pub struct Order {
    pub container: Container,
    pub slot: Slot,
}

/// What an interchange orders to be loaded: at most `MAX_ORDERS` orders, and no container twice.
#[derive(Drop)]
pub struct Orders {
    list: Vec<Order>,
    vacant: usize,
    heading: Heading,
}

impl Model for Orders {
    ghost use Rattle.crp_movins.specs.LoadOrders.{LoadOrders};
    ghost use Rattle.crp_movins.specs.Accepted.{AreLoadOrders};

    ghost Value = { LoadOrders };

    ghost view = { λ a. record { list = a.list.items; vacant = a.vacant; heading = a.heading } };

    ghost invariant = { λ a. AreLoadOrders a.list.items };
}

impl Orders {
    /// These orders by place, beside so many loading slot groups without a container, under this heading. Takes no memory.
    pub fn new(list: Vec<Order>, vacant: usize, heading: Heading) -> Orders
        requires { AreLoadOrders list.items }
        ensures { result ≡ record { list = list.items; vacant = vacant; heading = heading } }
    {
        Orders {
            list,
            vacant,
            heading,
        }
    }

    /// The orders by place.
    pub fn list(&self) -> &[Order]
        ensures value { result.now ≡ self.now.list }
        ensures accepted { AreLoadOrders self.now.list }
    {
        &self.list
    }

    /// The same orders again.
    pub fn copy(&self, alloc: Global) -> Result<Orders, AllocError>
        ensures { IfOk result (λ orders. orders ≡ self.now) }
    {
        let mut list = Vec::new(alloc);
        for order in &self.list {
            let container = Container::named(alloc, order.container.bytes())?;
            let slot = order.slot;
            list.push(Order { container, slot })?;
        }
        let heading = self.heading.copy(alloc)?;
        Ok(Orders {
            list,
            vacant: self.vacant,
            heading,
        })
    }

    /// The orders by place, given out. Takes no memory.
    pub fn into_list(self) -> Vec<Order>
        ensures value { result.items ≡ self.list }
        ensures accepted { AreLoadOrders result.items }
    {
        let Orders { list, .. } = self;
        list
    }

    /// How many loading slot groups have no container.
    pub fn vacant(&self) -> usize
        ensures { result ≡ self.now.vacant }
    {
        self.vacant
    }

    /// What the messages say of their ship and of their date.
    pub fn heading(&self) -> &Heading
        ensures { result.now ≡ self.now.heading }
    {
        &self.heading
    }
}
