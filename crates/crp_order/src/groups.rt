//! Which containers leave each bay.

ghost use Rattle.std.specs.Prelude.{◌≡◌, IfOk, OnOk, [], map, replicate};
ghost use Rattle.crp_yard.specs.Inventory.{IsYard};
ghost use Rattle.crp_order.specs.Sequenced.{AreSequenced};
ghost use Rattle.crp_order.specs.Groups.{pointed, AreGroups};

use crate::bays::bays_by_container;
use crate::sequences::Sequence;
use crp_yard::Yard;
use std::alloc::{AllocError, Global};

fn empty_groups<'a>(alloc: Global, count: usize) -> Result<Vec<Vec<&'a [u8]>>, AllocError>
    ensures { IfOk result (λ groups. map (λ group. pointed group.items) groups.items ≡ replicate count []) }
{
    let mut groups = Vec::new(alloc);
    for _ in 0..count {
        groups.push(Vec::new(alloc))?;
    }
    Ok(groups)
}

/// For each bay of the yard the containers that leave it, as the sequence has them.
pub(crate) fn leaving_by_bay<'a>(
    alloc: Global,
    yard: &Yard,
    sequence: &'a Sequence,
) -> Result<Vec<Vec<&'a [u8]>>, AllocError>
    ensures groups { IfOk result (λ groups. AreGroups sequence.now yard.now.bays (map (λ group. pointed group.items) groups.items)) }
    ensures yard { OnOk result (IsYard yard.now) }
    ensures sequenced { OnOk result (AreSequenced sequence.now) }
{
    let bays = bays_by_container(alloc, yard)?;
    let mut groups = empty_groups(alloc, yard.count())?;
    for container in sequence.list() {
        if let Some(bay) = bays.get(container.bytes()) {
            groups[*bay].push(container.bytes())?;
        }
    }
    Ok(groups)
}
