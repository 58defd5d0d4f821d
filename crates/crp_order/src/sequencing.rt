//! Puts load orders in sequence.

ghost use Rattle.std.specs.Prelude.{◌≡◌, IfOk};
ghost use Rattle.crp_movins.specs.Accepted.{ordered_containers};
ghost use Rattle.crp_order.specs.Sequences.{IsStowage, IsSequence};

use crate::sequences::{Mode, Sequence};
use crp_movins::{Order, Orders};
use crp_plan::Container;
use std::alloc::{AllocError, Global};

/// The orders by tier, bay and row of their slots, and those of one slot as they are listed.
fn stowed(orders: Vec<Order>) -> Result<Vec<Order>, AllocError>
    ensures { IfOk result (λ stowed. IsStowage orders.items stowed.items) }
{
    let mut stowed = orders;
    stowed.sort_by_key(|order| (order.slot.tier, order.slot.bay, order.slot.row))?;
    Ok(stowed)
}

/// The containers of the orders.
fn containers(alloc: Global, orders: Vec<Order>) -> Result<Vec<Container>, AllocError>
    ensures { IfOk result (λ containers. containers.items ≡ ordered_containers orders.items) }
{
    orders
        .into_iter()
        .map(|order| order.container)
        .collect(alloc)
}

/// The containers of the orders in the order in which they leave the yard.
pub fn sequence(alloc: Global, orders: Orders, mode: Mode) -> Result<Sequence, AllocError>
    ensures { IfOk result (λ sequence. IsSequence mode orders.list sequence) }
{
    let listed = orders.into_list();
    let orders = match mode {
        Mode::Listed => listed,
        Mode::Stowage => stowed(listed)?,
    };
    let list = containers(alloc, orders)?;
    Ok(Sequence::new(list))
}
