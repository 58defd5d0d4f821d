//! Bays that the list of sizes leaves out, though it has others of their block.
ghost use Rattle.std.specs.Prelude.{◌≡◌, ◌≤◌, ◌&&◌, ◌||◌, IfOk, length, map, not, is_some, nat_lt};
ghost use Rattle.std.specs.List.{list_any, list_all};
ghost use Rattle.std.specs.Option.{option_map};
ghost use Rattle.std.specs.Str.{bytes_eq};
ghost use Rattle.crp_sizes.specs.Sizes.{heights_of};
ghost use Rattle.crp_notes.specs.Unlisted.{room_of, listed_rooms, is_outside, left_out, note_if_left_out, unlisted_note_on};
ghost use Rattle.crp_notes.specs.Rooms.{block_and_room};

use crate::wording::unlisted_note;
use crp_plan::BayName;
use crp_yard::Yard;
use std::alloc::{AllocError, Global};

/// A bay that is listed: its block, and how many containers it holds.
#[derive(Clone, Copy, Drop)]
struct Room<'a> {
    block: &'a [u8],
    room: usize,
}

// How many containers a bay with rows of these heights holds.
fn room_of(heights: &[u8]) -> usize
    requires { length heights.now ≤ 12 }
    ensures { result ≡ room_of heights.now }
{
    let mut room: usize = 0;
    for height in heights {
        room += *height as usize;
    }
    room
}

// The bays of the yard that the list of sizes has.
fn listed_rooms(alloc: Global, yard: &Yard) -> Result<Vec<Room<'_>>, AllocError>
    ensures { IfOk result (λ rooms. map block_and_room rooms.items ≡ listed_rooms yard.now yard.now.bays) }
{
    let mut rooms = Vec::new(alloc);
    for bay in 0..yard.count() {
        let name = yard.name(bay);
        if let Some(heights) = yard.sizes().heights_of(name) {
            let room = room_of(heights);
            rooms.push(Room {
                block: name.block(),
                room,
            })?;
        }
    }
    Ok(rooms)
}

// One of them is of this block.
fn has_block(rooms: &[Room<'_>], block: &[u8]) -> bool
    ensures { result ≡ list_any (λ r. bytes_eq r.block.now block.now) rooms.now }
{
    rooms.iter().any(|r| r.block == block)
}

// Those of this block hold fewer.
fn hold_fewer(rooms: &[Room<'_>], block: &[u8], room: usize) -> bool
    ensures { result ≡ list_all (λ r. not (bytes_eq r.block.now block.now) || nat_lt r.room room) rooms.now }
{
    rooms.iter().all(|r| r.block != block || r.room < room)
}

// Those of this block hold more.
fn hold_more(rooms: &[Room<'_>], block: &[u8], room: usize) -> bool
    ensures { result ≡ list_all (λ r. not (bytes_eq r.block.now block.now) || nat_lt room r.room) rooms.now }
{
    rooms.iter().all(|r| r.block != block || room < r.room)
}

// Some are of this block, and all of these hold fewer, or all hold more.
fn is_outside(rooms: &[Room<'_>], block: &[u8], room: usize) -> bool
    ensures { result ≡ is_outside (map block_and_room rooms.now) block.now room }
{
    has_block(rooms, block) && (hold_fewer(rooms, block, room) || hold_more(rooms, block, room))
}

// The list of sizes has not this bay, and it is outside of those of its block, where it holds so many containers.
fn is_left_out(yard: &Yard, rooms: &[Room<'_>], name: &BayName, room: usize) -> bool
    ensures { result ≡ (not (is_some (heights_of yard.now.sizes.listed name.now)) && is_outside (map block_and_room rooms.now) name.now.block room) }
{
    yard.sizes().heights_of(name).is_none() && is_outside(rooms, name.block(), room)
}

// The bays of the yard that are left out.
fn left_out<'a>(
    alloc: Global,
    yard: &'a Yard,
    rooms: &[Room<'_>],
) -> Result<Vec<&'a BayName>, AllocError>
    ensures { IfOk result (λ names. map (λ name. name.now) names.items ≡ left_out yard.now (map block_and_room rooms.now) yard.now.bays) }
{
    let room = room_of(yard.sizes().common());
    let mut names = Vec::new(alloc);
    for bay in 0..yard.count() {
        let name = yard.name(bay);
        if is_left_out(yard, rooms, name, room) {
            names.push(name)?;
        }
    }
    Ok(names)
}

// The note on these bays, if there are some.
fn note_if_left_out(
    alloc: Global,
    heights: &[u8],
    names: &[&BayName],
) -> Result<Option<Vec<u8>>, AllocError>
    ensures { IfOk result (λ note. option_map (λ text. text.items) note ≡ note_if_left_out heights.now (map (λ name. name.now) names.now)) }
{
    let Some(first) = names.first() else {
        return Ok(None);
    };
    let note = unlisted_note(alloc, heights, first, names.len())?;
    Ok(Some(note))
}

/// The note on bays that the list of sizes leaves out, if there are such.
pub(crate) fn unlisted_note_on(alloc: Global, yard: &Yard) -> Result<Option<Vec<u8>>, AllocError>
    ensures { IfOk result (λ note. option_map (λ text. text.items) note ≡ unlisted_note_on yard.now) }
{
    let rooms = listed_rooms(alloc, yard)?;
    let names = left_out(alloc, yard, &rooms)?;
    note_if_left_out(alloc, yard.sizes().common(), &names)
}
