//! Slots of the ship that several orders name.
ghost use Rattle.std.specs.Prelude.{◌≡◌, ℕ, List, IfOk, OnOk, length, map};
ghost use Rattle.std.specs.Option.{option_map};
ghost use Rattle.std.specs.Str.{bytes_eq};
ghost use Rattle.crp_notes.specs.Repeated.{kept_with, each_once};
ghost use Rattle.crp_notes.specs.Slots.{shared, containers_for, slot_with, note_if_shared, shared_note};
ghost use Rattle.crp_notes.specs.Namings.{named, container_placed, HasNamed, AreKept};

use crate::message::MAX_LISTED;
use crate::naming::{Naming, Placed, namings, placements};
use crate::wording::{slot_words, slots_note};
use crp_movins::Loading;
use edi_text::Segments;
use std::alloc::{AllocError, Global};
use std::collections::HashSet;

// The namings that are there more than once.
fn repeated<'a>(alloc: Global, namings: &'a [Naming]) -> Result<HashSet<&'a Naming>, AllocError>
    ensures { IfOk result (λ again. HasNamed 1 again.keys namings.now) }
{
    let mut seen: HashSet<&Naming> = HashSet::new(alloc);
    let mut again: HashSet<&Naming> = HashSet::new(alloc);
    for naming in namings {
        if seen.contains(&naming) {
            again.insert(naming)?;
        } else {
            seen.insert(naming)?;
        }
    }
    Ok(again)
}

// One slot more, unless it is there.
fn keep<'a>(
    kept: &mut HashSet<&'a Naming>,
    slots: &mut Vec<&'a [u8]>,
    naming: &'a Naming,
) -> Result<(), AllocError>
    ensures { OnOk result ((all : List (List ℕ)) → AreKept all kept.old.keys slots.old.items → AreKept (kept_with bytes_eq all (named naming.now)) kept.new.keys slots.new.items) }
{
    if kept.insert(naming)? {
        slots.push(&naming.slot)?;
    }
    Ok(())
}

// How many of the namings are there more than once, and their slots, each once.
fn listed<'a>(
    alloc: Global,
    namings: &'a [Naming],
    again: &HashSet<&'a Naming>,
) -> Result<(usize, Vec<&'a [u8]>), AllocError>
    requires { HasNamed 1 again.now.keys namings.now }
    ensures count { IfOk result (λ r. r.0 ≡ length (shared (map named namings.now))) }
    ensures slots { IfOk result (λ r. map (λ slot. slot.now) r.1.items ≡ each_once bytes_eq (shared (map named namings.now))) }
{
    let mut count = 0;
    let mut kept: HashSet<&Naming> = HashSet::new(alloc);
    let mut slots = Vec::new(alloc);
    for naming in namings {
        if again.contains(&naming) {
            count += 1;
            keep(&mut kept, &mut slots, naming)?;
        }
    }
    Ok((count, slots))
}

// How many orders name a slot that another order names too, and these slots, each once, by place.
fn shared_slots(alloc: Global, namings: &[Naming]) -> Result<(usize, Vec<&[u8]>), AllocError>
    ensures count { IfOk result (λ r. r.0 ≡ length (shared (map named namings.now))) }
    ensures slots { IfOk result (λ r. map (λ slot. slot.now) r.1.items ≡ each_once bytes_eq (shared (map named namings.now))) }
{
    let again = repeated(alloc, namings)?;
    listed(alloc, namings, &again)
}

// The containers that are ordered to a slot.
fn containers_for<'a>(
    alloc: Global,
    placed: &[Placed<'a>],
    slot: &[u8],
) -> Result<Vec<&'a [u8]>, AllocError>
    ensures { IfOk result (λ names. map (λ name. name.now) names.items ≡ containers_for (map container_placed placed.now) slot.now) }
{
    let mut names = Vec::new(alloc);
    for order in placed {
        if slot == order.slot.as_slice() {
            names.push(order.container)?;
        }
    }
    Ok(names)
}

// A slot, and the containers that are ordered to it.
fn slot_with(alloc: Global, placed: &[Placed<'_>], slot: &[u8]) -> Result<Vec<u8>, AllocError>
    ensures { IfOk result (λ text. text.items ≡ slot_with (map container_placed placed.now) slot.now) }
{
    let names = containers_for(alloc, placed, slot)?;
    slot_words(alloc, slot, &names)
}

// The same of several slots.
fn slots_with(
    alloc: Global,
    placed: &[Placed<'_>],
    slots: &[&[u8]],
) -> Result<Vec<Vec<u8>>, AllocError>
    ensures { IfOk result (λ words. map (λ text. text.items) words.items ≡ map (slot_with (map container_placed placed.now)) (map (λ slot. slot.now) slots.now)) }
{
    let mut words = Vec::new(alloc);
    for slot in slots {
        words.push(slot_with(alloc, placed, slot)?)?;
    }
    Ok(words)
}

// The note on so many orders that name these slots, if there are some.
fn note_if_shared(
    alloc: Global,
    placed: &[Placed<'_>],
    count: usize,
    slots: &[&[u8]],
) -> Result<Option<Vec<u8>>, AllocError>
    ensures { IfOk result (λ note. option_map (λ text. text.items) note ≡ note_if_shared (map container_placed placed.now) count (map (λ slot. slot.now) slots.now)) }
{
    if slots.is_empty() {
        return Ok(None);
    }
    let most = slots.len().min(MAX_LISTED);
    let words = slots_with(alloc, placed, &slots[..most])?;
    let note = slots_note(alloc, count, &words, most < slots.len())?;
    Ok(Some(note))
}

/// The note on slots that several orders name, if there are such.
pub(crate) fn shared_note(
    alloc: Global,
    segments: &Segments,
    loading: &Loading,
) -> Result<Option<Vec<u8>>, AllocError>
    ensures { IfOk result (λ note. option_map (λ text. text.items) note ≡ shared_note segments.now loading.now) }
{
    let namings = namings(alloc, segments, loading)?;
    let placed = placements(alloc, segments, loading)?;
    let (count, slots) = shared_slots(alloc, &namings)?;
    note_if_shared(alloc, &placed, count, &slots)
}
