//! Devices that fail, and short ones.
ghost use Rattle.std.specs.Prelude.{Some, None};

use crate::compare::{assert_same, assert_same_at};
use crp_plan::{
    Counted, Failure, MOST_INTERRUPTIONS, Nowhere, ReadFault, Received, Sink, Source, read_all,
    write_all, write_each,
};
use std::process::Abort;

// Is interrupted so often, and then gives its bytes one by one; where it has none it fails or ends.
#[derive(Drop)]
struct Slow<'a> {
    interrupted: u32,
    rest: &'a [u8],
    fails: bool,
    failed: u64,
}

impl Source for Slow<'_> {
    ghost remaining = { λ _. None };

    ghost failures = { λ s. s.failed };

    fn read(&mut self, buf: &mut [u8]) -> Result<usize, Failure> {
        if self.interrupted > 0 {
            self.interrupted -= 1;
            self.failed = self.failed.saturating_add(1);
            return Err(Failure::Interrupted);
        }
        if buf.is_empty() {
            return Ok(0);
        }
        let rest: &[u8] = self.rest;
        if rest.is_empty() {
            if self.fails {
                self.failed = self.failed.saturating_add(1);
                return Err(Failure::Failed);
            }
            return Ok(0);
        }
        buf[0] = rest[0];
        self.rest = &rest[1..];
        Ok(1)
    }
}

// Never ends.
#[derive(Drop)]
struct Endless;

impl Source for Endless {
    ghost failures = { λ _. 0 };

    fn read(&mut self, buf: &mut [u8]) -> Result<usize, Failure> {
        Ok(buf.len())
    }
}

// Is interrupted so often, and then takes a byte a call; where it has no more room it fails, or takes nothing.
#[derive(Drop)]
struct Small {
    interrupted: u32,
    bytes: Vec<u8>,
    room: usize,
    fails: bool,
    failed: u64,
}

impl Sink for Small {
    ghost contents = { λ s. Some s.bytes.items };

    ghost failures = { λ s. s.failed };

    fn write(&mut self, piece: &[u8]) -> Result<usize, Failure> {
        if self.interrupted > 0 {
            self.interrupted -= 1;
            self.failed = self.failed.saturating_add(1);
            return Err(Failure::Interrupted);
        }
        if piece.is_empty() {
            return Ok(0);
        }
        if self.bytes.len() < self.room {
            if self.bytes.push(piece[0]).is_ok() {
                return Ok(1);
            }
        }
        self.failed = self.failed.saturating_add(1);
        if self.fails {
            return Err(Failure::Failed);
        }
        Ok(0)
    }
}

// The calls, without clauses: so the tests know nothing of what they promise, and are soon checked.

/// Reads all, where so many interruptions were passed over before. The answer, and the interruptions then.
fn read<R: Source>(
    rt: &(impl Abort + AllocGlobal),
    source: &mut R,
    limit: usize,
    interruptions: u32,
) -> (Result<Vec<u8>, ReadFault>, u32) {
    assert!(rt; interruptions <= MOST_INTERRUPTIONS);
    let mut passed = interruptions;
    let answer = read_all(rt.alloc(), source, limit, &mut passed);
    (answer, passed)
}

/// Writes a text or several, where so many interruptions were passed over before. Whether all was written, and the interruptions then.
fn write<W: Sink>(
    rt: &impl Abort,
    sink: &mut W,
    texts: &[&[u8]],
    interruptions: u32,
) -> (bool, u32) {
    assert!(rt; interruptions <= MOST_INTERRUPTIONS);
    let mut passed = interruptions;
    let answer = match texts {
        [text] => write_all(sink, text, &mut passed),
        _ => write_each(sink, texts, &mut passed),
    };
    (answer.is_ok(), passed)
}

/// A read of all gives this. The interruptions then.
fn assert_read<R: Source>(
    rt: &(impl Abort + AllocGlobal),
    source: &mut R,
    limit: usize,
    interruptions: u32,
    expected: Result<&[u8], ReadFault>,
) -> u32 {
    let (answer, passed) = read(rt, source, limit, interruptions);
    match answer {
        Ok(bytes) => assert_same(rt, &Ok(bytes.as_slice()), &expected),
        Err(fault) => assert_same(rt, &Err(fault), &expected),
    }
    passed
}

/// A source that is interrupted so often and then gives its bytes, or fails, reads as this.
#[derive(Clone, Copy)]
struct Reading {
    interrupted: u32,
    fails: bool,
    limit: usize,
    interruptions: u32,
    expected: Result<&'static [u8], ReadFault>,
    passed: u32,
    failed: u64,
}

const READINGS: [Reading; 5] = [
    Reading {
        interrupted: 1000,
        fails: false,
        limit: 3,
        interruptions: 0,
        expected: Ok(b"abc"),
        passed: 1000,
        failed: 1000,
    },
    Reading {
        interrupted: 1,
        fails: false,
        limit: 3,
        interruptions: 1000,
        expected: Err(ReadFault::Failed),
        passed: 1000,
        failed: 1,
    },
    Reading {
        interrupted: 1001,
        fails: false,
        limit: 3,
        interruptions: 0,
        expected: Err(ReadFault::Failed),
        passed: 1000,
        failed: 1001,
    },
    // A failed read, and too many bytes.
    Reading {
        interrupted: 2,
        fails: true,
        limit: 3,
        interruptions: 0,
        expected: Err(ReadFault::Failed),
        passed: 2,
        failed: 3,
    },
    Reading {
        interrupted: 0,
        fails: false,
        limit: 2,
        interruptions: 0,
        expected: Err(ReadFault::TooLarge),
        passed: 0,
        failed: 0,
    },
];

#[test]
fn passes_a_thousand_interruptions(rt: HostRuntime) {
    for case in &READINGS {
        let mut source = Slow {
            interrupted: case.interrupted,
            rest: b"abc",
            fails: case.fails,
            failed: 0,
        };
        let passed = assert_read(
            &rt,
            &mut source,
            case.limit,
            case.interruptions,
            case.expected,
        );
        let counts = (passed, source.failed);
        assert_same_at(&rt, &counts, &(case.passed, case.failed), &case.interrupted);
    }
}

#[test]
fn reads_to_an_end_or_to_the_limit(rt: HostRuntime) {
    assert_read(&rt, &mut Endless, 100_000, 0, Err(ReadFault::TooLarge));
    let text: &[u8] = b"abc";
    let mut rest = text;
    assert_read(&rt, &mut rest, 2, 0, Err(ReadFault::TooLarge));
    let mut rest = text;
    assert_read(&rt, &mut rest, 3, 0, Ok(text));
    assert!(rt; rest.is_empty());
    assert_read(&rt, &mut Counted::new(text), 3, 0, Ok(text));
}

/// A write: how often the sink is interrupted first, the texts, the interruptions that were passed over before; whether all is written,
/// and the interruptions then; what the sink holds then, and how often it has failed.
type Writing = (
    u32,
    &'static [&'static [u8]],
    u32,
    (bool, u32),
    (&'static [u8], u64),
);

/// The room of a sink, whether it fails where it has no more, and the writes to it.
const SINKS: [(usize, bool, &[Writing]); 4] = [
    (
        3,
        true,
        &[
            (0, &[b"abc"], 0, (true, 0), (b"abc", 0)),
            (0, &[b"d"], 0, (false, 0), (b"abc", 1)),
        ],
    ),
    (2, false, &[(0, &[b"abc"], 0, (false, 0), (b"ab", 1))]),
    (
        6,
        true,
        &[
            (1000, &[b"abc"], 0, (true, 1000), (b"abc", 1000)),
            (0, &[b"de"], 1000, (true, 1000), (b"abcde", 1000)),
            (1, &[b"f"], 1000, (false, 1000), (b"abcde", 1001)),
            (1001, &[b"f"], 0, (false, 1000), (b"abcde", 2002)),
        ],
    ),
    // The interruptions of all texts are counted together.
    (
        6,
        true,
        &[
            (999, &[b"ab", b"c"], 0, (true, 999), (b"abc", 999)),
            (2, &[b"ab", b"c"], 999, (false, 1000), (b"abc", 1001)),
        ],
    ),
];

#[test]
fn writes_byte_by_byte(rt: HostRuntime) {
    for (room, fails, writings) in SINKS {
        let mut sink = Small {
            interrupted: 0,
            bytes: Vec::new(rt.alloc()),
            room,
            fails,
            failed: 0,
        };
        for (interrupted, texts, interruptions, answer, after) in writings {
            sink.interrupted = *interrupted;
            let written = write(&rt, &mut sink, texts, *interruptions);
            assert_same_at(&rt, &written, answer, &(interrupted, room));
            let held = (sink.bytes.as_slice(), sink.failed);
            assert_same_at(&rt, &held, after, &(interrupted, room));
        }
    }
}

#[test]
fn writes_to_lists_and_nowhere(rt: HostRuntime) {
    let whole = (true, 0);
    let mut sink = Received::new(rt.alloc());
    let lists: [&[&[u8]]; 2] = [&[b"abc"], &[b"de", b"", b"f"]];
    for texts in lists {
        assert_same(&rt, &write(&rt, &mut sink, texts, 0), &whole);
    }
    let received = (sink.bytes.as_slice(), sink.failed);
    assert_same(&rt, &received, &(b"abcdef".as_slice(), 0));
    assert_same(&rt, &write(&rt, &mut Nowhere, &[b"abc"], 0), &whole);
    let mut sink = Counted::new(Vec::new(rt.alloc()));
    assert_same(&rt, &write(&rt, &mut sink, &[b"abc"], 0), &whole);
    assert_same(&rt, &sink.device.as_slice(), &b"abc".as_slice());
}
