mod counted;
mod damage;
mod faults;

use crate::calls::{load_orders, read_segments};
use crate::compare::{assert_same, assert_same_at};
use crp_movins::{MovinsFault, Order, Orders, Slot};
use edi_text::EdiFault;
use std::alloc::{AllocError, Global};
use std::process::Abort;
use std::test::Fail;

const HEADER: &[u8] = b"UNB+UNOA:1+YARD+SHIP+250101:0800+1'\n";

const MESSAGE: &[u8] = b"UNH+1+MOVINS:D:95B:UN'\n";

const BEGIN: &[u8] = b"BGM++8+9'\n";

const LOADING: &[u8] = b"HAN+LOA'\n";

const FIRST: &[u8] = b"LOC+147+0010182'\n";

const FIVE: &[u8] = b"EQD+CN+C1'
LOC+147+0010184'
EQD+CN+C2'
LOC+147+0010186'
EQD+CN+C3'
LOC+147+0010188'
EQD+CN+C4'
LOC+147+0010190'
EQD+CN+C5'
";

const LAST: &[u8] = b"LOC+147+0010192'\nEQD+CN+C6'\n";

const TRAILER: &[u8] = b"UNT+16+1'\n";

const END: &[u8] = b"UNZ+1+1'\n";

/// How many segments the example has.
const SEGMENTS: usize = 18;

fn joined(alloc: Global, pieces: &[&[u8]]) -> Result<Vec<u8>, AllocError> {
    let mut text = Vec::new(alloc);
    for piece in pieces {
        text.extend_from_slice(piece)?;
    }
    Ok(text)
}

/// Six containers, each in a slot of its own, with a line end after each segment.
fn six_load_orders(alloc: Global) -> Result<Vec<u8>, AllocError> {
    joined(
        alloc,
        &[
            HEADER, MESSAGE, BEGIN, LOADING, FIRST, FIVE, LAST, TRAILER, END,
        ],
    )
}

fn orders_of(alloc: Global, text: &[u8]) -> Result<Result<Orders, MovinsFault>, EdiFault> {
    let segments = read_segments(alloc, text)?;
    Ok(load_orders(alloc, &segments, b"LOA"))
}

/// The fault of a text that spells no segments, if it is one.
fn first_fault(alloc: Global, text: &[u8]) -> Option<EdiFault> {
    read_segments(alloc, text).err()
}

/// The fault that is stated of a text that spells segments.
fn fault_of(alloc: Global, text: &[u8]) -> Result<Option<MovinsFault>, EdiFault> {
    Ok(orders_of(alloc, text)?.err())
}

/// How many orders and how many vacant groups a text has.
fn counts_of(alloc: Global, text: &[u8]) -> Result<(usize, usize), Fail> {
    let orders = orders_of(alloc, text)??;
    Ok((orders.list().len(), orders.vacant()))
}

/// The containers of the example, each with the tier of its slot in bay 1, row 1.
const SIX: [(&[u8], u8); 6] = [
    (b"C1", 82),
    (b"C2", 84),
    (b"C3", 86),
    (b"C4", 88),
    (b"C5", 90),
    (b"C6", 92),
];

fn bytes_of(order: &Order) -> &[u8] {
    order.container.bytes()
}

/// These are the containers of the orders, each in a slot of this tier in bay 1, row 1.
fn assert_listed(rt: &impl Abort, list: &[Order], want: &[(&[u8], u8)]) {
    assert_same(rt, &list.len(), &want.len());
    for (order, (container, tier)) in list.iter().zip(want) {
        let slot = Slot {
            bay: 1,
            row: 1,
            tier: *tier,
        };
        assert_same(rt, &(bytes_of(order), order.slot), &(*container, slot));
    }
}

fn vacant_in(orders: &Orders) -> usize {
    orders.vacant()
}

fn list_of(orders: Orders) -> Vec<Order> {
    orders.into_list()
}

/// The text has these orders and no others, and no vacant group.
fn assert_orders(
    rt: &(impl Abort + AllocGlobal),
    text: &[u8],
    want: &[(&[u8], u8)],
) -> Result<(), Fail> {
    let orders = orders_of(rt.alloc(), text)??;
    assert_same(rt, &vacant_in(&orders), &0);
    assert_listed(rt, &list_of(orders), want);
    Ok(())
}

#[test]
fn six_containers_by_place(rt: HostRuntime) -> Result<(), Fail> {
    let text = six_load_orders(rt.alloc())?;
    assert_orders(&rt, &text, &SIX)
}

/// The slot of the first order, if there is one.
fn first_slot(orders: &Orders) -> Option<Slot> {
    match orders.list() {
        [order, ..] => Some(order.slot),
        [] => None,
    }
}

/// The slot of the one order of a message with this place.
fn slot_of(alloc: Global, place: &[u8]) -> Result<Option<Slot>, Fail> {
    let order = b"EQD+CN+A'UNT+5+1'";
    let text = joined(alloc, &[HEADER, MESSAGE, LOADING, place, order, END])?;
    let orders = orders_of(alloc, &text)??;
    Ok(first_slot(&orders))
}

const fn slot(bay: u16, row: u8, tier: u8) -> Slot {
    Slot { bay, row, tier }
}

fn assert_slot(rt: &(impl Abort + AllocGlobal), place: &[u8], want: Slot) -> Result<(), Fail> {
    let slot = slot_of(rt.alloc(), place)?;
    assert_same_at(rt, &slot, &Some(want), &place);
    Ok(())
}

#[test]
fn slots_have_six_or_seven_digits(rt: HostRuntime) -> Result<(), Fail> {
    let slots: [(&[u8], Slot); 4] = [
        (b"LOC+147+010184'", slot(1, 1, 84)),
        (b"LOC+147+0010184'", slot(1, 1, 84)),
        (b"LOC+147:1+9990900:5+X'", slot(999, 9, 0)),
        (b"LOC+147+341207'", slot(34, 12, 7)),
    ];
    for (place, want) in slots {
        assert_slot(&rt, place, want)?;
    }
    Ok(())
}

/// The text has so many orders and vacant groups.
fn assert_counts(
    rt: &(impl Abort + AllocGlobal),
    text: &[u8],
    want: (usize, usize),
) -> Result<(), Fail> {
    let counts = counts_of(rt.alloc(), text)?;
    assert_same_at(rt, &counts, &want, &text);
    Ok(())
}
