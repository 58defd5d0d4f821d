//! Ordered containers that are not in the yard.
ghost use Rattle.std.specs.Prelude.{IfOk, map, filter, not};
ghost use Rattle.std.specs.List.Sorted.{IsPermutation};
ghost use Rattle.crp_yard.specs.Inventory.{stands};

use crp_order::Sequence;
use crp_yard::Yard;
use std::alloc::{AllocError, Global};

/// The ordered containers that are not in the yard, by name.
pub(crate) fn absent_names<'a>(
    alloc: Global,
    yard: &Yard,
    sequence: &'a Sequence,
) -> Result<Vec<&'a [u8]>, AllocError>
    ensures { IfOk result (λ names. IsPermutation (filter (λ container. not (stands yard.now.bays container)) sequence.now) (map (λ name. name.now) names.items)) }
{
    let mut names = Vec::new(alloc);
    for container in sequence.list() {
        if !yard.holds(container.bytes()) {
            names.push(container.bytes())?;
        }
    }
    names.sort()?;
    Ok(names)
}
