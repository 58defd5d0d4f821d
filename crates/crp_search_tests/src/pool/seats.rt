//! What seats take, one step after the other.

use super::filled::{Filled, puts, takes};
use crate::compare::assert_same;
use std::alloc::{AllocError, Global};
use std::process::Abort;
use std::test::Fail;

/// A seat puts the name of one row, or takes it; or it takes none.
#[derive(Clone, Copy)]
enum Step {
    Put(usize, u8),
    Take(usize, u8),
    TakeNone(usize),
}

fn does(rt: &impl Abort, filled: &mut Filled, step: &Step) {
    match step {
        Step::Put(seat, row) => puts(rt, filled, *seat, &[*row]),
        Step::Take(seat, row) => takes(rt, filled, *seat, Some(&[*row])),
        Step::TakeNone(seat) => takes(rt, filled, *seat, None),
    }
}

/// These names are left, in any order.
fn are_left(
    rt: &impl Abort,
    filled: Filled,
    alloc: Global,
    rows: &[&[u8]],
) -> Result<(), AllocError> {
    let mut names = filled.left(alloc)?;
    names.sort_unstable();
    assert_same(rt, &names.len(), &rows.len());
    for (name, rows) in names.iter().zip(rows) {
        assert_same(rt, &name.rows(), rows);
    }
    Ok(())
}

/// So many seats, each with room for four names, what they do, and the names that are left.
type Play = (usize, &'static [Step], &'static [&'static [u8]]);

/// Of its own names a seat takes the last one first.
const ALONE: Play = (
    1,
    &[
        Step::TakeNone(0),
        Step::Put(0, 1),
        Step::Put(0, 2),
        Step::Put(0, 3),
        Step::Take(0, 3),
        Step::Take(0, 2),
        Step::Put(0, 4),
        Step::Take(0, 4),
        Step::Take(0, 1),
        Step::TakeNone(0),
    ],
    &[],
);

/// Of another's it takes the oldest.
const BY_TWO: Play = (
    2,
    &[
        Step::Put(0, 1),
        Step::Put(0, 2),
        Step::Put(0, 3),
        Step::Put(0, 4),
        Step::Take(1, 1),
        Step::Take(1, 2),
        Step::Take(0, 4),
        Step::Put(1, 5),
        Step::Take(1, 5),
    ],
    &[&[3]],
);

const BY_THREE: Play = (
    3,
    &[
        Step::Put(0, 1),
        Step::Put(1, 2),
        Step::Put(2, 3),
        Step::Put(2, 4),
        Step::Take(0, 1),
        Step::Put(1, 5),
        Step::Take(0, 2),
    ],
    &[&[3], &[4], &[5]],
);

#[test]
fn seats_take_names_and_come_back_in_any_order(rt: HostRuntime) -> Result<(), Fail> {
    for (workers, steps, left) in [ALONE, BY_TWO, BY_THREE] {
        assert!(rt; workers >= 1 && workers <= 64);
        let mut filled = Filled::new(rt.alloc(), workers, 4)?;
        for step in steps {
            does(&rt, &mut filled, step);
        }
        filled.turn();
        are_left(&rt, filled, rt.alloc(), left)?;
    }
    Ok(())
}

#[test]
fn the_first_puts_succeed(rt: HostRuntime) -> Result<(), Fail> {
    for capacity in [0usize, 1, 5, 64] {
        let mut filled = Filled::new(rt.alloc(), 2, capacity)?;
        for row in 0..=capacity {
            puts(&rt, &mut filled, 1, &[row as u8]);
        }
        for row in 0..=capacity {
            takes(&rt, &mut filled, 1, Some(&[(capacity - row) as u8]));
        }
        are_left(&rt, filled, rt.alloc(), &[])?;
    }
    Ok(())
}

#[test]
fn sixty_four_seats_steal_from_the_next(rt: HostRuntime) -> Result<(), Fail> {
    let mut filled = Filled::new(rt.alloc(), 64, 2)?;
    for seat in 0..64usize {
        for name in 1..4u8 {
            puts(&rt, &mut filled, seat, &[seat as u8, name]);
        }
    }
    let taken: [(usize, u8, u8); 10] = [
        (10, 10, 3),
        (10, 10, 2),
        (10, 10, 1),
        (10, 11, 1),
        (10, 11, 2),
        (63, 63, 3),
        (63, 63, 2),
        (63, 63, 1),
        (63, 0, 1),
        (9, 9, 3),
    ];
    for (seat, of, name) in taken {
        takes(&rt, &mut filled, seat, Some(&[of, name]));
    }
    filled.turn();
    assert_same(
        &rt,
        &filled.left(rt.alloc())?.len(),
        &(3 * 64 - taken.len()),
    );
    Ok(())
}
