//! The bays that the records give.

ghost use Rattle.std.specs.Prelude.{◌≡◌, ◌≤◌, IfOk, length, map};
ghost use Rattle.crp_yard.specs.Inventory.{stack_up_to, stacks_up_to, stacked, bays_of};

use crate::containers::Containers;
use crate::listing::Listing;
use crate::place::Place;
use crate::stacks::Stacks;
use crp_plan::{BayName, Container};
use crp_sizes::Sizes;
use indexmap::IndexMap;
use std::alloc::{AllocError, Global};

fn stack_of(
    alloc: Global,
    listing: &Listing,
    bay: &BayName,
    row: u8,
    tiers: u8,
) -> Result<Containers, AllocError>
    ensures { IfOk result (λ stack. stack ≡ stack_up_to listing.now bay.now row tiers) }
{
    let mut stack = Vec::new(alloc);
    for i in 0..tiers {
        let place = Place::new(bay.copy(), row, i + 1);
        if let Some(container) = listing.container_at(&place) {
            stack.push(Container::named(alloc, container)?)?;
        }
    }
    Ok(Containers::from_vec(stack))
}

fn stacks_of(
    alloc: Global,
    listing: &Listing,
    bay: &BayName,
    heights: &[u8],
) -> Result<Stacks, AllocError>
    requires { length heights.now ≤ 12 }
    ensures { IfOk result (λ stacks. stacks ≡ stacks_up_to listing.now bay.now heights.now (length heights.now)) }
{
    let mut stacks = Vec::new(alloc);
    for i in 0..heights.len() {
        stacks.push(stack_of(alloc, listing, bay, i as u8 + 1, heights[i])?)?;
    }
    Ok(Stacks::from_vec(stacks))
}

/// The bays of the entries with their stacks, in first-seen order.
pub(crate) fn bays_of(
    alloc: Global,
    listing: &Listing,
    sizes: &Sizes,
) -> Result<IndexMap<BayName, Stacks>, AllocError>
    ensures { IfOk result (λ bays. bays.entries ≡ map (stacked sizes.now listing.now) (bays_of listing.now)) }
{
    let mut bays = IndexMap::new(alloc);
    for i in 0..listing.len() {
        let bay = listing.place(i).bay();
        if !bays.contains_key(bay) {
            let stacks = stacks_of(alloc, listing, bay, sizes.heights_at(bay))?;
            bays.insert(bay.copy(), stacks)?;
        }
    }
    Ok(bays)
}
