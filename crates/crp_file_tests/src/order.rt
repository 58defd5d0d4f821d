//! What no contract and no command says: worked slots.
use crate::compare::assert_same_at;
use crp_movins::Slot;
use crp_order::beneath;

/// The bay, the row and the tier of a slot of the ship.
type Place = (u16, u8, u8);

fn slot(place: Place) -> Slot {
    let (bay, row, tier) = place;
    Slot { bay, row, tier }
}

fn is_beneath(a: Place, b: Place) -> bool {
    beneath(&slot(a), &slot(b))
}

#[test]
fn slots_beneath_slots(rt: HostRuntime) {
    let cases: [(Place, Place, bool); 15] = [
        ((1, 1, 82), (1, 1, 84), true),
        ((1, 1, 82), (2, 1, 84), true),
        ((1, 1, 82), (5, 1, 84), false),
        ((2, 1, 82), (1, 1, 84), true),
        ((2, 1, 84), (1, 1, 82), false),
        ((2, 1, 82), (3, 1, 84), true),
        ((2, 1, 82), (4, 1, 84), true),
        ((1, 1, 82), (3, 1, 84), false),
        ((2, 1, 82), (5, 1, 84), false),
        ((0, 1, 82), (1, 1, 84), true),
        ((0, 1, 82), (2, 1, 84), true),
        ((0, 1, 82), (3, 1, 84), false),
        ((1, 1, 84), (1, 1, 82), false),
        ((1, 1, 82), (1, 1, 82), false),
        ((1, 2, 82), (1, 1, 84), false),
    ];
    for (a, b, want) in cases {
        assert_same_at(&rt, &is_beneath(a, b), &want, &(a, b));
    }
}
