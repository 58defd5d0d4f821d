//! The table of a followed report in the order in which the ship is loaded.
ghost use Rattle.std.specs.Prelude.{◌≡◌, map, IfOk};
ghost use Rattle.std.specs.List.{AllByRecursion};
ghost use Rattle.crp_follow.specs.Table.{StandFew};
ghost use Rattle.crp_follow.specs.Views.{bay_followed};
ghost use Rattle.crp_loading.specs.Loading.{slot_field, load_text};
ghost use Rattle.crp_loading.specs.Views.{recorded, text_of};

use crate::recording::TurnColumns;
use crate::ship::Ship;
use crate::turning::moves_by_turns;
use crp_follow::{Followed, Table, number_field};
use crp_movins::{Orders, Slot};
use crp_order::{Sequence, slot_digits};
use itoa::Buffer;
use std::alloc::{AllocError, Global};

// The digits of a slot, or nothing.
fn slot_field(digits: &mut [u8; 7], slot: Option<Slot>) -> &[u8]
    ensures { result.now ≡ slot_field slot }
{
    match slot {
        Some(slot) => {
            *digits = slot_digits(slot);
            digits.as_slice()
        }
        None => b"",
    }
}

// The text of the header and of these records.
fn text_of(alloc: Global, records: &[TurnColumns]) -> Result<Vec<u8>, AllocError>
    ensures { IfOk result (λ text. text.items ≡ text_of (map recorded records.now)) }
{
    let names: [&[u8]; 2] = [b"order", b"slot"];
    let mut table = Table::new(alloc, names.as_slice())?;
    for columns in records {
        let (mut turns, mut digits) = (Buffer::new(), [0; 7]);
        let more = [
            number_field(&mut turns, columns.turn),
            slot_field(&mut digits, columns.slot),
        ];
        table = table.push(alloc, &columns.of_move, more.as_slice())?;
    }
    table.text()
}

/// The table of a followed report in the order in which the ship is loaded, which gets its containers in this sequence and is to have them
/// where these orders say.
pub fn load_table(
    alloc: Global,
    followed: &Followed,
    orders: &Orders,
    sequence: &Sequence,
) -> Result<Vec<u8>, AllocError>
    requires { AllByRecursion StandFew (map bay_followed followed.now.bays.items) }
    ensures { IfOk result (λ text. text.items ≡ load_text sequence.now orders.now.list (map bay_followed followed.now.bays.items)) }
{
    let ship = Ship::new(alloc, sequence, orders)?;
    let moves = moves_by_turns(alloc, &ship, &followed.bays)?;
    text_of(alloc, &moves)
}
