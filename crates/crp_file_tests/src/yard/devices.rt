//! Sources and sinks that fail.
ghost use Rattle.std.specs.Prelude.{None};

use super::SIX;
use crate::calls::{read_yard, write_yard, yard_of};
use crate::compare::{assert_same, assert_same_at};
use crate::devices::make_small;
use crp_plan::{Failure, Received, Source, WriteFault};
use crp_yard::{Yard, YardFault};
use std::alloc::{AllocError, Global};
use std::process::Abort;
use std::test::Fail;

// Gives so many bytes one by one, is interrupted so often before each, and then fails.
#[derive(Drop)]
struct Failing<'a> {
    rest: &'a [u8],
    interrupted: u32,
    failed: u64,
}

impl Source for Failing<'_> {
    ghost remaining = { λ _. None };

    ghost failures = { λ s. s.failed };

    fn read(&mut self, buf: &mut [u8]) -> Result<usize, Failure> {
        let rest: &[u8] = self.rest;
        if buf.is_empty() {
            return Ok(0);
        }
        if rest.is_empty() || self.interrupted > 0 {
            self.failed = self.failed.saturating_add(1);
            if self.interrupted > 0 {
                self.interrupted -= 1;
                return Err(Failure::Interrupted);
            }
            return Err(Failure::Failed);
        }
        buf[0] = rest[0];
        self.rest = &rest[1..];
        Ok(1)
    }
}

/// The fault of a source that gives these bytes and then fails, and how often it failed.
fn unread(alloc: Global, rest: &[u8]) -> (Option<YardFault>, u64) {
    let mut source = Failing {
        rest,
        interrupted: 1000,
        failed: 0,
    };
    let fault = read_yard(alloc, &mut source, 3, 3).err();
    (fault, source.failed)
}

#[test]
fn each_read_fails(rt: HostRuntime) -> Result<(), Fail> {
    for length in 0..SIX.len() {
        let found = unread(rt.alloc(), &SIX[..length]);
        assert_same_at(&rt, &found, &(Some(YardFault::Read), 1001), &length);
    }
    Ok(())
}

/// What a sink with so much room receives of a yard, and whether it failed.
fn written(alloc: Global, yard: &Yard, room: usize) -> (Vec<u8>, Result<(), WriteFault>) {
    let mut sink = make_small(alloc, room);
    let end = write_yard(alloc, &mut sink, yard);
    (sink.bytes, end)
}

/// A sink with so much room receives as much of the text of a yard, and the write fails.
fn assert_unwritten(rt: &(impl Abort + AllocGlobal), yard: &Yard, room: usize, text: &[u8]) {
    let (bytes, end) = written(rt.alloc(), yard, room);
    assert_same_at(rt, &end, &Err(WriteFault::Failed), &room);
    assert_same_at(rt, &bytes.as_slice(), &text, &room);
}

#[test]
fn each_write_fails(rt: HostRuntime) -> Result<(), Fail> {
    let yard = yard_of(rt.alloc(), SIX, 3, 3)?;
    for room in 0..SIX.len() {
        assert_unwritten(&rt, &yard, room, &SIX[..room]);
    }
    Ok(())
}

/// The yard of a source of these bytes.
fn read(alloc: Global, mut source: &[u8]) -> Result<Yard, YardFault> {
    read_yard(alloc, &mut source, 3, 3)
}

/// What a sink receives of a yard.
fn received(alloc: Global, yard: &Yard) -> Result<Vec<u8>, WriteFault> {
    let mut sink = Received::new(alloc);
    write_yard(alloc, &mut sink, yard)?;
    Ok(sink.bytes)
}

#[test]
fn what_was_read_is_written(rt: HostRuntime) -> Result<(), Fail> {
    let yard = read(rt.alloc(), SIX)?;
    let text = received(rt.alloc(), &yard)?;
    assert_same(&rt, &text.as_slice(), &SIX);
    Ok(())
}

fn assert_text(
    rt: &(impl Abort + AllocGlobal),
    fault: WriteFault,
    expected: &str,
) -> Result<(), AllocError> {
    let text = fault.to_string(rt.alloc())?;
    assert_same(rt, &text.as_str(), &expected);
    Ok(())
}

#[test]
fn texts_of_failed_writes(rt: HostRuntime) -> Result<(), Fail> {
    let texts = [
        (WriteFault::Failed, "a write failed"),
        (WriteFault::Memory, "no memory is left"),
    ];
    for (fault, expected) in texts {
        assert_text(&rt, fault, expected)?;
    }
    Ok(())
}

// Never ends.
#[derive(Drop)]
struct Endless;

impl Source for Endless {
    ghost failures = { λ _. 0 };

    fn read(&mut self, buf: &mut [u8]) -> Result<usize, Failure> {
        Ok(buf.len())
    }
}

#[test]
fn ends_what_never_ends(rt: HostRuntime) {
    let fault = read_yard(rt.alloc(), &mut Endless, 3, 3).err();
    assert_same(&rt, &fault, &Some(YardFault::TooLarge));
}
