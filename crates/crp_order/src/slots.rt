//! Slots of the ship that stand one over the other.

ghost use Rattle.std.specs.Prelude.{◌↔◌, IsTrue};
ghost use Rattle.crp_order.specs.Slots.{ShareCell, IsBeneath};

use crp_movins::Slot;

fn share_cell(a: u16, b: u16) -> bool
    ensures { IsTrue result ↔ ShareCell a b }
{
    let apart = a.abs_diff(b);
    apart < 2 || (apart == 2 && a % 2 == 0)
}

/// Whether slot `a` is beneath slot `b`: in the same row, in a lower tier, and in bays that both
/// cover some cell of 20 feet. An odd bay is a cell of 20 feet, an even bay covers those beside it.
pub fn beneath(a: &Slot, b: &Slot) -> bool
    ensures { IsTrue result ↔ IsBeneath a.now b.now }
{
    a.row == b.row && a.tier < b.tier && share_cell(a.bay, b.bay)
}
