//! Slots of the ship.

ghost use Rattle.std.specs.Prelude.{◌≡◌, Some, None, if◌then◌else◌};
ghost use Rattle.crp_movins.specs.Digits.{is_slot, slot_of};

use crate::digits::{are_digits, number_of};

/// A slot of the ship by its bay, row and tier, as BBBRRTT writes it. Odd bays are cells of 20 feet, and
/// an even bay covers the odd ones beside it (bay 0 covers bay 1 alone). In a stack of the ship a larger tier number is higher.
#[derive(Clone, Copy, Debug, PartialEq, Eq)]
pub struct Slot {
    /// 0 to 999.
    pub bay: u16,
    /// 0 to 99.
    pub row: u8,
    /// 0 to 99.
    pub tier: u8,
}

/// The slot that six or seven digits write.
pub(crate) fn slot_of(text: &[u8]) -> Option<Slot>
    ensures { result ≡ (if is_slot text.now then Some (slot_of text.now) else None) }
{
    let bay_length = match text.len() {
        6 => 2,
        7 => 3,
        _ => return None,
    };
    if !are_digits(text) {
        return None;
    }
    let (bay, place) = text.split_at(bay_length);
    let (row, tier) = place.split_at(2);
    Some(Slot {
        bay: number_of(bay) as u16,
        row: number_of(row) as u8,
        tier: number_of(tier) as u8,
    })
}
