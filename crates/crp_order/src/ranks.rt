//! The ranks of the containers of a bay.

ghost use Rattle.std.specs.Prelude.{◌≡◌, ◌≤◌, ◌++◌, ◌==◌, Bool, IfOk, OnOk, length, map, filter, not};
ghost use Rattle.crp_plan.specs.Faults.{stacks_of};
ghost use Rattle.crp_yard.specs.Inventory.{is_among};
ghost use Rattle.crp_order.specs.BayProblems.{rank_in, ranks_in};
ghost use Rattle.crp_order.specs.Groups.{pointed, names_behind};

use crp_plan::Container;
use std::alloc::{AllocError, Global};

fn is_one_of(containers: &[&[u8]], container: &[u8]) -> bool
    ensures { result ≡ is_among (pointed containers.now) container.now }
{
    containers.contains(&container)
}

fn add_leaving(
    alloc: Global,
    names: &mut Vec<Container>,
    leaving: &[&[u8]],
) -> Result<(), AllocError>
    ensures { OnOk result (names.new.items ≡ names.old.items ++ pointed leaving.now) }
{
    for container in leaving {
        names.push(Container::named(alloc, container)?)?;
    }
    Ok(())
}

fn add_staying(
    alloc: Global,
    names: &mut Vec<Container>,
    leaving: &[&[u8]],
    stack: &[Container],
) -> Result<(), AllocError>
    ensures { OnOk result (names.new.items
        ≡ names.old.items ++ filter (λ container. not (is_among (pointed leaving.now) container)) stack.now) }
{
    for container in stack {
        if !is_one_of(leaving, container.bytes()) {
            names.push(Container::named(alloc, container.bytes())?)?;
        }
    }
    Ok(())
}

/// The containers of a bay by rank: those that leave, and then those that stay, by row, then tier.
pub(crate) fn names_by_rank(
    alloc: Global,
    leaving: &[&[u8]],
    stacks: &[&[Container]],
) -> Result<Vec<Container>, AllocError>
    ensures { IfOk result (λ names. names.items ≡ names_behind (pointed leaving.now) (pointed stacks.now)) }
{
    let mut names = Vec::new(alloc);
    add_leaving(alloc, &mut names, leaving)?;
    for stack in stacks {
        add_staying(alloc, &mut names, leaving, stack)?;
    }
    Ok(names)
}

fn rank_of(names: &[Container], container: &[u8]) -> u8
    requires { length names.now ≤ 96 }
    ensures { result ≡ rank_in names.now container.now }
{
    for (i, name) in names.iter().enumerate() {
        if container == name.bytes() {
            return i as u8 + 1;
        }
    }
    names.len() as u8 + 1
}

fn ranks_of(alloc: Global, names: &[Container], stack: &[Container]) -> Result<Vec<u8>, AllocError>
    requires { length names.now ≤ 96 }
    ensures { IfOk result (λ ranks. ranks.items ≡ map (rank_in names.now) stack.now) }
{
    let mut ranks = Vec::new(alloc);
    for container in stack {
        ranks.push(rank_of(names, container.bytes()))?;
    }
    Ok(ranks)
}

/// The stacks by the ranks of their containers.
pub(crate) fn stacks_by_rank(
    alloc: Global,
    names: &[Container],
    stacks: &[&[Container]],
) -> Result<Vec<Vec<u8>>, AllocError>
    requires { length names.now ≤ 96 }
    ensures { IfOk result (λ ranks. stacks_of ranks.items ≡ ranks_in names.now (pointed stacks.now)) }
{
    let mut ranks = Vec::new(alloc);
    for stack in stacks {
        ranks.push(ranks_of(alloc, names, stack)?)?;
    }
    Ok(ranks)
}
