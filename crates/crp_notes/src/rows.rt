//! The sizes of the bays, and the rows and tiers in which containers stand.
ghost use Rattle.std.specs.Prelude.{◌≡◌, ◌<◌, IfOk, Some, length, map, slice_get};
ghost use Rattle.crp_yard.specs.Inventory.{StackedBay};
ghost use Rattle.crp_notes.specs.Beyond.{sizes_of, of_size, last_row, top_tier, last_row_of, top_tier_of};

use crp_yard::Yard;
use std::alloc::{AllocError, Global};

/// The sizes of the bays, each once, in the order in which they come first.
pub(crate) fn sizes_of(alloc: Global, yard: &Yard) -> Result<Vec<&[u8]>, AllocError>
    ensures { IfOk result (λ sizes. map (λ heights. heights.now) sizes.items ≡ sizes_of yard.now yard.now.bays) }
{
    let mut sizes: Vec<&[u8]> = Vec::new(alloc);
    for bay in 0..yard.count() {
        let heights = yard.heights(bay);
        if !sizes.contains(&heights) {
            sizes.push(heights)?;
        }
    }
    Ok(sizes)
}

// The last row of a bay in which a container stands, and the highest tier.
fn highest_in_bay(yard: &Yard, bay: usize) -> (u8, usize)
    requires { bay < length yard.now.bays }
    ensures { (b : StackedBay) → slice_get yard.now.bays bay ≡ Some b → (result.0 ≡ last_row b.1) × (result.1 ≡ top_tier b.1) }
{
    let mut row: u8 = 0;
    let mut tier: usize = 0;
    for i in 0..yard.heights(bay).len() as u8 {
        let stack = yard.stack(bay, i + 1);
        if !stack.is_empty() {
            row = i + 1;
        }
        tier = tier.max(stack.len());
    }
    (row, tier)
}

/// The last row of the bays of this size in which a container stands, and the highest tier.
pub(crate) fn highest_of(yard: &Yard, heights: &[u8]) -> (u8, usize)
    ensures row { result.0 ≡ last_row_of (of_size yard.now heights.now yard.now.bays) }
    ensures tier { result.1 ≡ top_tier_of (of_size yard.now heights.now yard.now.bays) }
{
    let mut row: u8 = 0;
    let mut tier: usize = 0;
    for bay in 0..yard.count() {
        if yard.heights(bay) == heights {
            let (last, top) = highest_in_bay(yard, bay);
            row = row.max(last);
            tier = tier.max(top);
        }
    }
    (row, tier)
}
