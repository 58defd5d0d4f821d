//! Puts a sequence down to some bays alone.

ghost use Rattle.std.specs.Prelude.{◌≡◌, IfOk, length, not};
ghost use Rattle.crp_yard.specs.Inventory.{stands};
ghost use Rattle.crp_order.specs.Groups.{ArePlaced};
ghost use Rattle.crp_order.specs.OfBays.{is_chosen, other_bays, of_bays, IsSequenceOf};

use crate::bays::bays_by_container;
use crate::sequences::{Mode, Sequence};
use crate::sequencing::sequence;
use crp_movins::Orders;
use crp_plan::{BayName, Container};
use crp_yard::Yard;
use std::alloc::{AllocError, Global};
use std::collections::HashMap;

/// Whether a run for the bays of these names is for this bay: it has one of them, or no bay is named.
fn is_chosen(names: &[BayName], bay: &BayName) -> bool
    ensures { result ≡ is_chosen names.now bay.now }
{
    names.is_empty() || names.contains(bay)
}

/// Whether the container does not stand in another bay than those of these names.
fn stays(yard: &Yard, names: &[BayName], bays: &HashMap<&[u8], usize>, container: &[u8]) -> bool
    requires { ArePlaced (length yard.now.bays) yard.now.bays bays.now.entries }
    ensures { result ≡ not (stands (other_bays names.now yard.now.bays) container.now) }
{
    match bays.get(container) {
        Some(bay) => is_chosen(names, yard.name(*bay)),
        None => true,
    }
}

/// The sequence without the containers that stand in other bays of the yard than those of these names, where
/// no name is every bay's: the containers of the named bays are left, and those that stand nowhere in the yard.
pub fn of_bays(
    alloc: Global,
    yard: &Yard,
    names: &[BayName],
    sequence: &Sequence,
) -> Result<Sequence, AllocError>
    ensures { IfOk result (λ chosen. chosen ≡ of_bays names.now yard.now sequence.now) }
{
    let bays = bays_by_container(alloc, yard)?;
    let mut list = Vec::new(alloc);
    for container in sequence.list() {
        if stays(yard, names, &bays, container.bytes()) {
            list.push(Container::named(alloc, container.bytes())?)?;
        }
    }
    Ok(Sequence::new(list))
}

/// The sequence of the orders, of the bays of these names; of all bays of the yard where no name is given.
pub fn sequence_of_bays(
    alloc: Global,
    yard: &Yard,
    names: &[BayName],
    orders: Orders,
    mode: Mode,
) -> Result<Sequence, AllocError>
    ensures { IfOk result (λ chosen. IsSequenceOf mode names.now yard.now orders.list chosen) }
{
    let whole = sequence(alloc, orders, mode)?;
    if names.is_empty() {
        return Ok(whole);
    }
    of_bays(alloc, yard, names, &whole)
}
