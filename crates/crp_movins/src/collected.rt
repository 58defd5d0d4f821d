//! The orders that have been read.

ghost use Rattle.std.specs.Prelude.{◌≡◌, ◌<◌, false, [], ◌∷◌, ◌++◌, OnOk, IfErr, length};
ghost use Rattle.crp_movins.specs.Accepted.{max_orders, is_ordered, AreLoadOrders};
ghost use Rattle.crp_movins.specs.declared.fault.MovinsFault.TheVariants.{Memory};

use crate::fault::MovinsFault;
use crate::order::Order;
use crate::slot::Slot;
use crp_plan::Container;
use std::alloc::Global;
use std::collections::HashSet;
use std::marker::Model;

/// Orders by place, and beside them the set of their containers.
#[derive(Drop)]
pub(crate) struct Collected<'a> {
    orders: Vec<Order>,
    containers: HashSet<&'a [u8]>,
}

impl<'a> Model for Collected<'a> {
    ghost use Rattle.std.specs.Prelude.{List};
    ghost use Rattle.crp_movins.specs.declared.order.Order.{Order};
    ghost use Rattle.crp_movins.specs.Collections.{IsCollected};

    ghost Value = { List Order };

    ghost view = { λ a. a.orders.items };

    ghost invariant = { λ a. IsCollected a.orders.items a.containers.keys };
}

impl<'a> Collected<'a> {
    pub fn new(alloc: Global) -> Collected<'a>
        ensures { result ≡ [] }
    {
        Collected {
            orders: Vec::new(alloc),
            containers: HashSet::new(alloc),
        }
    }

    pub fn len(&self) -> usize
        ensures { result ≡ length self.now }
    {
        self.orders.len()
    }

    /// One of the orders is for this container.
    pub fn has(&self, container: &[u8]) -> bool
        ensures { result ≡ is_ordered self.now container.now }
    {
        self.containers.contains(container)
    }

    /// Takes an order more.
    pub fn push(
        &mut self,
        alloc: Global,
        container: &'a [u8],
        slot: Slot,
    ) -> Result<(), MovinsFault>
        requires fresh { is_ordered self.old container.now ≡ false }
        requires room { length self.old < max_orders }
        ensures taken { OnOk result (self.new ≡ self.old ++ (record { container = container.now; slot = slot }) ∷ []) }
        ensures refused { IfErr result (λ fault. fault ≡ Memory) }
    {
        let bytes = Vec::from_slice(alloc, container)?;
        self.orders.reserve(1)?;
        self.containers.insert(container)?;
        self.orders.push(Order {
            container: Container::from_vec(bytes),
            slot,
        })?;
        Ok(())
    }

    /// The orders by place.
    pub fn into_list(self) -> Vec<Order>
        ensures value { result.items ≡ self.entry }
        ensures accepted { AreLoadOrders result.items }
    {
        self.orders
    }
}
