//! How a slot of the ship is written.
ghost use Rattle.std.specs.Prelude.{◌≡◌};
ghost use Rattle.crp_order.specs.SlotDigits.{digit, slot_text};

use crp_movins::Slot;

// The last digit of a number.
fn digit(number: u16) -> u8
    ensures { result ≡ digit number }
{
    b'0' + (number % 10) as u8
}

/// The seven digits of a slot: three of the bay, two of the row, two of the tier.
pub fn slot_digits(slot: Slot) -> [u8; 7]
    ensures { result ≡ slot_text slot }
{
    let (bay, row, tier) = (slot.bay, u16::from(slot.row), u16::from(slot.tier));
    [
        digit(bay / 100),
        digit(bay / 10),
        digit(bay),
        digit(row / 10),
        digit(row),
        digit(tier / 10),
        digit(tier),
    ]
}
