//! In which bay each container stands.

ghost use Rattle.std.specs.Prelude.{◌≡◌, ◌<◌, IfOk, OnOk, length};
ghost use Rattle.crp_order.specs.BayProblems.{standing};
ghost use Rattle.crp_order.specs.Groups.{stacks_numbered, pointed, ArePlaced, Places};

use crp_plan::Container;
use crp_yard::Yard;
use std::alloc::{AllocError, Global};
use std::collections::HashMap;

/// The stacks of a bay. Bays are numbered from 0.
pub(crate) fn stacks_of<'a>(
    alloc: Global,
    yard: &'a Yard,
    bay: usize,
) -> Result<Vec<&'a [Container]>, AllocError>
    requires { bay < length yard.now.bays }
    ensures { IfOk result (λ stacks. pointed stacks.items ≡ stacks_numbered yard.now bay) }
{
    let mut stacks = Vec::new(alloc);
    let rows = yard.heights(bay).len() as u8;
    for i in 0..rows {
        stacks.push(yard.stack(bay, i + 1))?;
    }
    Ok(stacks)
}

fn place_stack<'a>(
    bays: &mut HashMap<&'a [u8], usize>,
    stack: &'a [Container],
    bay: usize,
) -> Result<(), AllocError>
    ensures { OnOk result (Places bays.old.entries bays.new.entries stack.now bay) }
{
    for container in stack {
        bays.insert(container.bytes(), bay)?;
    }
    Ok(())
}

fn place_bay<'a>(
    bays: &mut HashMap<&'a [u8], usize>,
    stacks: &[&'a [Container]],
    bay: usize,
) -> Result<(), AllocError>
    ensures { OnOk result (Places bays.old.entries bays.new.entries (standing (pointed stacks.now)) bay) }
{
    for stack in stacks {
        place_stack(bays, stack, bay)?;
    }
    Ok(())
}

/// The number of the bay in which each container of the yard stands.
pub(crate) fn bays_by_container<'a>(
    alloc: Global,
    yard: &'a Yard,
) -> Result<HashMap<&'a [u8], usize>, AllocError>
    ensures { IfOk result (λ bays. ArePlaced (length yard.now.bays) yard.now.bays bays.entries) }
{
    let mut bays = HashMap::new(alloc);
    for i in 0..yard.count() {
        let stacks = stacks_of(alloc, yard, i)?;
        place_bay(&mut bays, &stacks, i)?;
    }
    Ok(bays)
}
