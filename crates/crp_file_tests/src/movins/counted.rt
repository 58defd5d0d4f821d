//! The example with one byte changed, by how each of the texts ends.
use super::{orders_of, six_load_orders};
use crate::compare::assert_same_at;
use crp_movins::{MovinsFault, Orders};
use edi_text::EdiFault;
use std::test::Fail;

/// How texts end that differ from the example in one byte.
#[derive(Clone, Copy, Debug, PartialEq, Eq)]
struct Tally {
    /// The texts that spell no segments.
    unspelled: usize,
    /// The texts that are accepted.
    accepted: usize,
    /// The orders of these, together.
    orders: usize,
    /// The vacant groups of these, together.
    vacant: usize,
    /// The texts with each fault, by the number of its code.
    faults: [usize; 14],
    /// The segments of these faults, added up.
    segments: usize,
}

const NONE: Tally = Tally {
    unspelled: 0,
    accepted: 0,
    orders: 0,
    vacant: 0,
    faults: [0; 14],
    segments: 0,
};

/// The number of a fault's code, and its segment. Out of memory is 0.
fn code_of(fault: MovinsFault) -> (usize, usize) {
    match fault {
        MovinsFault::NoInterchangeHeader { segment } => (1, segment),
        MovinsFault::InterchangeHeader { segment } => (2, segment),
        MovinsFault::FunctionalGroup { segment } => (3, segment),
        MovinsFault::OutOfPlace { segment } => (4, segment),
        MovinsFault::MessageCount { segment } => (5, segment),
        MovinsFault::MessageReference { segment } => (6, segment),
        MovinsFault::InterchangeCount { segment } => (7, segment),
        MovinsFault::InterchangeReference { segment } => (8, segment),
        MovinsFault::AfterTrailer { segment } => (9, segment),
        MovinsFault::MessageType { segment } => (10, segment),
        MovinsFault::SlotNumber { segment } => (11, segment),
        MovinsFault::OrderedTwice { segment, .. } => (12, segment),
        MovinsFault::TooManyOrders { segment } => (13, segment),
        MovinsFault::Memory => (0, 0),
    }
}

/// The sum, which no test comes near the limit of.
fn sum(a: usize, b: usize) -> usize {
    a.saturating_add(b)
}

impl Tally {
    fn count(&mut self, read: Result<Result<Orders, MovinsFault>, EdiFault>) {
        match read {
            Err(_) => self.unspelled = sum(self.unspelled, 1),
            Ok(Ok(orders)) => {
                self.accepted = sum(self.accepted, 1);
                self.orders = sum(self.orders, orders.list().len());
                self.vacant = sum(self.vacant, orders.vacant());
            }
            Ok(Err(fault)) => {
                let (code, segment) = code_of(fault);
                if let Some(count) = self.faults.get_mut(code) {
                    *count = sum(*count, 1);
                }
                self.segments = sum(self.segments, segment);
            }
        }
    }
}

/// What is stated of a comma in the place of each byte, and of a byte that is no letter of any alphabet here.
const DATA: Tally = Tally {
    unspelled: 108,
    accepted: 86,
    orders: 476,
    vacant: 18,
    faults: [0, 0, 4, 0, 0, 3, 2, 2, 2, 0, 16, 42, 0, 0],
    segments: 613,
};

// Counted by a reader of interchanges that was written in another language.
#[test]
fn each_byte_changed_is_reported_by_number(rt: HostRuntime) -> Result<(), Fail> {
    let cases = [
        (
            0x00,
            Tally {
                unspelled: 265,
                ..NONE
            },
        ),
        (
            0x27,
            Tally {
                unspelled: 244,
                accepted: 18,
                orders: 108,
                vacant: 0,
                faults: [0, 0, 2, 0, 0, 1, 0, 0, 0, 0, 0, 0, 0, 0],
                segments: 20,
            },
        ),
        (0x2C, DATA),
        (0xFF, DATA),
    ];
    let example = six_load_orders(rt.alloc())?;
    for (byte, wanted) in cases {
        let mut tally = NONE;
        for place in 0..example.len() {
            let mut text = Vec::from_slice(rt.alloc(), &example)?;
            text[place] = byte;
            tally.count(orders_of(rt.alloc(), &text));
        }
        assert_same_at(&rt, &tally, &wanted, &byte);
    }
    Ok(())
}
