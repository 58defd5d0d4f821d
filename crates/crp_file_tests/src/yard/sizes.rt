use super::fault_of;
use crate::calls::yard_of;
use crate::compare::{assert_same, assert_same_at};
use crp_yard::{MAX_BYTES, MAX_CONTAINERS, YardFault};
use itoa::Buffer;
use std::alloc::{AllocError, Global};
use std::test::Fail;

const HEADER: &[u8] = b"block,bay,row,tier,container\n";

fn push_piece(text: &mut Vec<u8>, piece: &[u8]) -> Result<(), AllocError> {
    text.extend_from_slice(piece)
}

fn push_number(text: &mut Vec<u8>, number: usize) -> Result<(), AllocError> {
    let mut digits = Buffer::new();
    push_piece(text, digits.format(number).as_bytes())
}

/// The record of the container with this number, from 0.
fn push_record(text: &mut Vec<u8>, number: usize) -> Result<(), AllocError> {
    push_piece(text, b"A,")?;
    push_number(text, (number / 8).saturating_add(1))?;
    push_piece(text, b",1,")?;
    push_number(text, number % 8 + 1)?;
    push_piece(text, b",C")?;
    push_number(text, number)?;
    push_piece(text, b"\n")
}

/// So many containers, in bays of eight.
fn many(alloc: Global, count: usize) -> Result<Vec<u8>, AllocError> {
    let mut text = Vec::from_slice(alloc, HEADER)?;
    for number in 0..count {
        push_record(&mut text, number)?;
    }
    Ok(text)
}

/// How many bays the yard of one row with eight tiers has that a list states, and which of two containers stand in it.
fn counted(alloc: Global, text: &[u8]) -> Result<(usize, bool, bool), YardFault> {
    let yard = yard_of(alloc, text, 1, 8)?;
    let count = yard.count();
    let last = yard.holds(b"C19999");
    let next = yard.holds(b"C20000");
    Ok((count, last, next))
}

#[test]
fn as_many_containers_as_are_read(rt: HostRuntime) -> Result<(), Fail> {
    let text = many(rt.alloc(), MAX_CONTAINERS)?;
    let found = counted(rt.alloc(), &text)?;
    assert_same(&rt, &found, &(2500, true, false));
    let text = many(rt.alloc(), 20001)?;
    let fault = counted(rt.alloc(), &text).err();
    assert_same(&rt, &fault, &Some(YardFault::TooMany { record: 20002 }));
    Ok(())
}

/// A list of this length, without containers: the header, and empty lines behind it.
fn with_length(alloc: Global, length: usize) -> Result<Vec<u8>, AllocError> {
    let mut text = Vec::from_slice(alloc, HEADER)?;
    let rest = vec![in alloc; b'\n'; length.saturating_sub(text.len())]?;
    text.extend_from_slice(&rest)?;
    Ok(text)
}

#[test]
fn as_many_bytes_as_are_read(rt: HostRuntime) -> Result<(), Fail> {
    assert_same(&rt, &MAX_BYTES, &8388608);
    for (length, fault) in [(MAX_BYTES, None), (8388609, Some(YardFault::TooLarge))] {
        let text = with_length(rt.alloc(), length)?;
        assert_same_at(&rt, &fault_of(rt.alloc(), &text), &fault, &text.len());
    }
    Ok(())
}
