//! The slots of the ship that orders name, and the containers that go there.
ghost use Rattle.std.specs.Prelude.{◌≡◌, ◌++◌, IfOk, OnOk, map, option_to_list};
ghost use Rattle.std.specs.Option.{option_map};
ghost use Rattle.crp_movins.specs.Digits.{seven_digits};
ghost use Rattle.crp_notes.specs.Slots.{named_slots, placed};
ghost use Rattle.crp_notes.specs.Messages.{texts};
ghost use Rattle.crp_notes.specs.Namings.{named, container_placed};

use crate::message::said_by;
use crate::standing::Standing;
use crp_movins::Loading;
use edi_text::Segments;
use std::alloc::{AllocError, Global};
use std::hash::{Hash, Hasher};

/// A slot that an order names, in seven digits.
#[derive(PartialEq, Eq, Hash, Drop)]
pub(crate) struct Naming {
    pub slot: Vec<u8>,
}

/// A container, and the slot to which it is ordered, in seven digits.
#[derive(Drop)]
pub(crate) struct Placed<'a> {
    pub slot: Vec<u8>,
    pub container: &'a [u8],
}

// A slot in seven digits.
fn seven_digits(alloc: Global, text: &[u8]) -> Result<Vec<u8>, AllocError>
    ensures { IfOk result (λ digits. digits.items ≡ seven_digits text.now) }
{
    let mut digits = Vec::new(alloc);
    if text.len() == 6 {
        digits.push(b'0')?;
    }
    digits.extend_from_slice(text)?;
    Ok(digits)
}

// Adds the slot that an order names, if there is one.
fn push(alloc: Global, namings: &mut Vec<Naming>, slot: Option<&[u8]>) -> Result<(), AllocError>
    ensures { OnOk result (map named namings.new.items ≡ map named namings.old.items ++ option_to_list (option_map (λ slot. seven_digits slot.now) slot.entry)) }
{
    if let Some(text) = slot {
        let slot = seven_digits(alloc, text)?;
        namings.push(Naming { slot })?;
    }
    Ok(())
}

// Adds the container that is ordered to a slot, if there is one.
fn push_placed<'a>(
    alloc: Global,
    placed: &mut Vec<Placed<'a>>,
    order: Option<(&[u8], &'a [u8])>,
) -> Result<(), AllocError>
    ensures { OnOk result (map container_placed placed.new.items
        ≡ map container_placed placed.old.items ++ option_to_list (option_map (λ p. texts (seven_digits p.0.now) p.1.now) order.entry)) }
{
    if let Some((text, container)) = order {
        let slot = seven_digits(alloc, text)?;
        placed.push(Placed { slot, container })?;
    }
    Ok(())
}

/// The slots that the orders that are read name, by place.
pub(crate) fn namings(
    alloc: Global,
    segments: &Segments,
    loading: &Loading,
) -> Result<Vec<Naming>, AllocError>
    ensures { IfOk result (λ namings. map named namings.items ≡ named_slots segments.now loading.now) }
{
    let mut namings = Vec::new(alloc);
    let mut standing = Standing::start();
    for i in 0..segments.count() {
        let says = said_by(segments, i + 1);
        push(alloc, &mut namings, standing.named(&says))?;
        standing = standing.after(&says, loading);
    }
    Ok(namings)
}

/// The containers that the orders that are read place, in their order.
pub(crate) fn placements<'a>(
    alloc: Global,
    segments: &'a Segments,
    loading: &Loading,
) -> Result<Vec<Placed<'a>>, AllocError>
    ensures { IfOk result (λ all. map container_placed all.items ≡ placed segments.now loading.now) }
{
    let mut all = Vec::new(alloc);
    let mut standing = Standing::start();
    for i in 0..segments.count() {
        let says = said_by(segments, i + 1);
        push_placed(alloc, &mut all, standing.placed(&says))?;
        standing = standing.after(&says, loading);
    }
    Ok(all)
}
