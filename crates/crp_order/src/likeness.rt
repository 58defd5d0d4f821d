//! Names of containers that are written in different ways.

ghost use Rattle.std.specs.Prelude.{◌≡◌, ◌++◌, IfOk, OnOk, map, filter, option_map, slice_get};
ghost use Rattle.crp_yard.specs.Inventory.{containers_of};
ghost use Rattle.crp_order.specs.Alike.{is_mark, plain, are_alike, like_in};
ghost use Rattle.crp_order.specs.BayProblems.{standing};
ghost use Rattle.crp_order.specs.Groups.{pointed};

use crate::bays::stacks_of;
use crp_plan::Container;
use crp_yard::Yard;
use std::alloc::{AllocError, Global};

/// Whether a byte is a blank or a dash.
fn is_mark(byte: u8) -> bool
    ensures { result ≡ is_mark byte }
{
    byte == b' ' || byte == b'-'
}

/// A name without blanks and dashes, in capital letters.
fn plain(alloc: Global, name: &[u8]) -> Result<Vec<u8>, AllocError>
    ensures { IfOk result (λ text. text.items ≡ plain name.now) }
{
    let mut text = Vec::new(alloc);
    for byte in name {
        if !is_mark(*byte) {
            text.push(byte.to_ascii_uppercase())?;
        }
    }
    Ok(text)
}

fn add_stack<'a>(containers: &mut Vec<&'a [u8]>, stack: &'a [Container]) -> Result<(), AllocError>
    ensures { OnOk result (pointed containers.new.items ≡ pointed containers.old.items ++ stack.now) }
{
    for container in stack {
        containers.push(container.bytes())?;
    }
    Ok(())
}

fn add_bay<'a>(containers: &mut Vec<&'a [u8]>, stacks: &[&'a [Container]]) -> Result<(), AllocError>
    ensures { OnOk result (pointed containers.new.items ≡ pointed containers.old.items ++ standing (pointed stacks.now)) }
{
    for stack in stacks {
        add_stack(containers, stack)?;
    }
    Ok(())
}

/// All containers of the yard: bay by bay, row by row, from bottom to top.
pub(crate) fn containers_of<'a>(alloc: Global, yard: &'a Yard) -> Result<Vec<&'a [u8]>, AllocError>
    ensures { IfOk result (λ containers. pointed containers.items ≡ containers_of yard.now.bays) }
{
    let mut containers = Vec::new(alloc);
    for i in 0..yard.count() {
        let stacks = stacks_of(alloc, yard, i)?;
        add_bay(&mut containers, &stacks)?;
    }
    Ok(containers)
}

/// The first of the containers whose name is like this one, if there is one.
pub(crate) fn first_alike<'a>(
    alloc: Global,
    containers: &[&'a [u8]],
    name: &[u8],
) -> Result<Option<&'a [u8]>, AllocError>
    ensures { IfOk result (λ found. option_map (λ other. other.now) found
        ≡ slice_get (filter (are_alike name.now) (pointed containers.now)) 0) }
{
    let name = plain(alloc, name)?;
    for container in containers {
        let other = plain(alloc, container)?;
        if name.as_slice() == other.as_slice() {
            return Ok(Some(container));
        }
    }
    Ok(None)
}

/// The first container of the yard, bay by bay, row by row, from bottom to top, whose name differs from this one
/// by blanks, dashes and the case of letters alone, if there is one.
pub fn alike<'a>(alloc: Global, yard: &'a Yard, name: &[u8]) -> Result<Option<&'a [u8]>, AllocError>
    ensures { IfOk result (λ found. option_map (λ other. other.now) found ≡ like_in yard.now.bays name.now) }
{
    let containers = containers_of(alloc, yard)?;
    first_alike(alloc, &containers, name)
}
