use super::{SIX, fault_of};
use crate::calls::{write_yard, yard_of};
use crate::compare::{assert_same, assert_same_at};
use crp_plan::Received;
use crp_yard::YardFault;
use std::alloc::Global;
use std::test::Fail;

/// How many bytes of a record's line end in a field that is wanted.
const SHORTEST: usize = 9;

/// The yard that a list states, as it is written.
fn written(alloc: Global, text: &[u8]) -> Result<Vec<u8>, Fail> {
    let yard = yard_of(alloc, text, 3, 3)?;
    let mut sink = Received::new(alloc);
    write_yard(alloc, &mut sink, &yard)?;
    Ok(sink.bytes)
}

/// The text, with a line end where it has none.
fn with_end(alloc: Global, text: &[u8]) -> Result<Vec<u8>, Fail> {
    let mut whole = Vec::from_slice(alloc, text)?;
    if text.last() != Some(&b'\n') {
        whole.push(b'\n')?;
    }
    Ok(whole)
}

// Each record of the list stands as it is written, so what is left of it does too: the last container may have lost an end of its name.
#[test]
fn what_is_left_of_a_list_is_its_inventory(rt: HostRuntime) -> Result<(), Fail> {
    let mut accepted = 0u32;
    for length in 0..SIX.len() {
        let left = &SIX[..length];
        if fault_of(rt.alloc(), left).is_none() {
            let (found, wanted) = (written(rt.alloc(), left)?, with_end(rt.alloc(), left)?);
            assert_same_at(&rt, &found.as_slice(), &wanted.as_slice(), &length);
            accepted = accepted.saturating_add(1);
        }
    }
    assert_same(&rt, &accepted, &19);
    Ok(())
}

// A front of the list: a header, whole lines, and a piece of a line.
#[test]
fn cut_at_every_length(rt: HostRuntime) -> Result<(), Fail> {
    let alloc = rt.alloc();
    let (mut line, mut column): (usize, usize) = (1, 0);
    for length in 0..SIX.len() {
        let fault = fault_of(alloc, &SIX[..length]);
        let header_is_short = line == 1 && length < 28;
        if header_is_short {
            assert_same(&rt, &fault, &Some(YardFault::Header { record: 1 }));
        } else if line > 1 && column > 0 && column < SHORTEST {
            assert_same(&rt, &fault, &Some(YardFault::Fields { record: line }));
        } else {
            assert_same(&rt, &fault, &None);
        }
        if SIX[length] == b'\n' {
            line = line.saturating_add(1);
            column = 0;
        } else {
            column = column.saturating_add(1);
        }
    }
    assert_same(&rt, &line, &8);
    Ok(())
}

/// How many lists with one byte changed are accepted, and how many are refused with a fault.
#[derive(Clone, Copy, Debug, PartialEq, Eq)]
struct Tally {
    accepted: u32,
    headers: u32,
    fields: u32,
    digits: u32,
    floating: u32,
    others: u32,
}

impl Tally {
    fn count(&mut self, fault: Option<YardFault>) {
        let place = match fault {
            None => &mut self.accepted,
            Some(YardFault::Header { .. }) => &mut self.headers,
            Some(YardFault::Fields { .. }) => &mut self.fields,
            Some(YardFault::Digits { .. }) => &mut self.digits,
            Some(YardFault::Floating { .. }) => &mut self.floating,
            Some(_) => &mut self.others,
        };
        *place = place.saturating_add(1);
    }
}

// Counted by a reader of such lists that was written in another language.
#[test]
fn each_byte_changed(rt: HostRuntime) -> Result<(), Fail> {
    let alloc = rt.alloc();
    let wanted = [
        (0x00, 0, 29, 48, 18, 0),
        (0x27, 14, 29, 29, 18, 5),
        (0x2C, 28, 25, 42, 0, 0),
        (0xFF, 13, 29, 35, 18, 0),
    ];
    for (byte, accepted, headers, fields, digits, floating) in wanted {
        let mut tally = Tally {
            accepted: 0,
            headers: 0,
            fields: 0,
            digits: 0,
            floating: 0,
            others: 0,
        };
        for place in 0..SIX.len() {
            let mut text = Vec::from_slice(alloc, &SIX[..place])?;
            text.push(byte)?;
            text.extend_from_slice(&SIX[place + 1..])?;
            tally.count(fault_of(alloc, &text));
        }
        let want = Tally {
            accepted,
            headers,
            fields,
            digits,
            floating,
            others: 0,
        };
        assert_same(&rt, &tally, &want);
    }
    Ok(())
}
