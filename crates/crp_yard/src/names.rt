//! The set of all containers of the bays.

ghost use Rattle.std.specs.Prelude.{IfOk, OnOk, flat_map};
ghost use Rattle.crp_yard.specs.Listings.{Adds, HasNames};

use crate::containers::Containers;
use crate::stacks::Stacks;
use crp_plan::{BayName, Container};
use indexmap::{IndexMap, IndexSet};
use std::alloc::{AllocError, Global};

fn add(alloc: Global, names: &mut IndexSet<Vec<u8>>, stack: &[Container]) -> Result<(), AllocError>
    ensures { OnOk result (Adds names.old.keys names.new.keys stack.now) }
{
    for container in stack {
        names.insert(Vec::from_slice(alloc, container.bytes())?)?;
    }
    Ok(())
}

fn add_all(
    alloc: Global,
    names: &mut IndexSet<Vec<u8>>,
    stacks: &[Containers],
) -> Result<(), AllocError>
    ensures { OnOk result (Adds names.old.keys names.new.keys (flat_map (λ stack. stack) stacks.now)) }
{
    for stack in stacks {
        add(alloc, names, stack.list())?;
    }
    Ok(())
}

/// The containers of the bays.
pub(crate) fn names_of(
    alloc: Global,
    bays: &IndexMap<BayName, Stacks>,
) -> Result<IndexSet<Vec<u8>>, AllocError>
    ensures { IfOk result (λ names. HasNames bays.now.entries names.keys) }
{
    let mut names = IndexSet::new(alloc);
    for i in 0..bays.len() {
        let Some((_, stacks)) = bays.get_index(i) else {
            unreachable!()
        };
        add_all(alloc, &mut names, stacks.rows())?;
    }
    Ok(names)
}
