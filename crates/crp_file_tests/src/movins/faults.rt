use super::{END, FIRST, HEADER, LOADING, MESSAGE, assert_counts, fault_of, joined};
use crate::compare::{assert_same, assert_same_at};
use crp_movins::{MAX_ORDERS, MovinsFault};
use edi_text::EdiFault;
use std::alloc::{AllocError, Global};
use std::process::Abort;
use std::test::Fail;

/// The text spells segments that are refused with this fault.
fn assert_fault(
    rt: &(impl Abort + AllocGlobal),
    text: &[u8],
    want: MovinsFault,
) -> Result<(), EdiFault> {
    let fault = fault_of(rt.alloc(), text)?;
    assert_same_at(rt, &fault, &Some(want), &text);
    Ok(())
}

/// Adds the segment of the container with this number.
fn push_order(text: &mut Vec<u8>, alloc: Global, number: usize) -> Result<(), AllocError> {
    let order = format!(in alloc; "EQD+CN+C{number}'")?;
    text.extend_from_slice(order.as_bytes())
}

/// The trailer of a message of so many segments.
fn trailer_of(alloc: Global, segments: usize) -> Result<String, AllocError> {
    format!(in alloc; "UNT+{segments}+1'")
}

/// One loading group with so many containers.
fn many_orders(alloc: Global, count: usize) -> Result<Vec<u8>, AllocError> {
    let mut text = joined(alloc, &[HEADER, MESSAGE, LOADING, FIRST])?;
    for number in 0..count {
        push_order(&mut text, alloc, number)?;
    }
    // UNH, HAN, LOC and UNT are counted too.
    let trailer = trailer_of(alloc, count.saturating_add(4))?;
    text.extend_from_slice(trailer.as_bytes())?;
    text.extend_from_slice(END)?;
    Ok(text)
}

#[test]
fn ten_thousand_orders_are_read(rt: HostRuntime) -> Result<(), Fail> {
    let text = many_orders(rt.alloc(), MAX_ORDERS)?;
    assert_counts(&rt, &text, (10000, 0))?;
    // Four segments stand before the first EQD.
    let text = many_orders(rt.alloc(), 10001)?;
    assert_fault(&rt, &text, MovinsFault::TooManyOrders { segment: 10005 })?;
    Ok(())
}

fn assert_text(
    rt: &(impl Abort + AllocGlobal),
    fault: MovinsFault,
    expected: &str,
) -> Result<(), AllocError> {
    let text = format!(in rt.alloc(); "{fault}")?;
    assert_same(rt, &text.as_str(), &expected);
    Ok(())
}

#[test]
fn faults_show_their_code(rt: HostRuntime) -> Result<(), Fail> {
    let texts = [
        (
            MovinsFault::TooManyOrders { segment: 10005 },
            "V13 at segment 10005",
        ),
        (MovinsFault::Memory, "no memory is left"),
    ];
    for (fault, want) in texts {
        assert_text(&rt, fault, want)?;
    }
    Ok(())
}
