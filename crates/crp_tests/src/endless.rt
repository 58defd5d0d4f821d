//! Checks of as many bytes as a file of certificates may have, and of more.
ghost use Rattle.std.specs.Prelude.{None};

use crate::calls::{check, check_any};
use crate::compare::{assert_same, assert_same_at};
use crp_cert::CertFault;
use crp_checker::Refused;
use crp_commands::MOST_BYTES;
use crp_jobs::ToolFault;
use crp_plan::{Failure, Sink, Source};
use crp_report::Status;
use std::test::Fail;

const SIX_ROWS: &[u8] =
    b"CRP-CERT 1\nbay B 7\nsize 6 5 17 20\nrow 9 3 14\nrow 18 1 6 11\nrow 2 13\nrow 17 7 19 4\nrow 5 12 20\nrow 10 8 15 16\nat least 11\nplan 1 6 2 2 2 3 3 5 4 4 1\npart /: XXXXXBLBBBLBBXXBLBBLBBBBBXBLBBXBXXBLBBLBBBBXBXXBLBBLBBBBXBXXBLBBBLBBBBBBXXXXBLBBLBBXLXLBBBBBBBXXXBBXBBXBBBXBBBXBBBXBBBBBBBBBBLBBLBBBBXBBBBXBLBBXBBBXBXBLBBXBBBBXBXBLBBBBL\nend 1\n";

const LINE: &[u8] = b"bay B 7: optimal 11\n";

const SIX: &[u8] =
    b"CRP-CERT 1\nbay A 1\nsize 3 3 6 6\nrow 1 5 4\nrow 6\nrow 3 2\nat least 3\nplan 2 2 1\npart /: XLB\nend 1\n";

const TWO: &[u8] =
    b"CRP-CERT 1\nbay AAA 1\nsize 2 2 2 2\nrow 1 2\nrow\nat least 1\nplan 2\npart /: B\nend 1\n";

/// The certificate of the six up to its last symbol.
const SIX_BEGUN: &[u8] =
    b"CRP-CERT 1\nbay A 1\nsize 3 3 6 6\nrow 1 5 4\nrow 6\nrow 3 2\nat least 3\nplan 2 2 1\npart /: XLB";

const SYMBOL: &[u8] = b"B";

const LAST: &[u8] = b"\nend 1\n";

/// Some bytes, and how often they come.
type Piece = (&'static [u8], u64);

/// Gives pieces, so many bytes in all, and keeps none of them.
#[derive(Drop)]
struct Long {
    pieces: &'static [Piece],
    left: usize,
    /// Which piece comes, how often it was given, and how many bytes of it this time.
    piece: usize,
    given: u64,
    at: usize,
}

impl Long {
    fn of(pieces: &'static [Piece], length: usize) -> Long {
        Long {
            pieces,
            left: length,
            piece: 0,
            given: 0,
            at: 0,
        }
    }

    /// Goes on by a byte of a piece of this length, which comes so often.
    fn go_on(&mut self, length: usize, times: u64) {
        self.at = self.at.saturating_add(1);
        if self.at < length {
            return;
        }
        self.at = 0;
        self.given = self.given.saturating_add(1);
        if self.given >= times {
            self.given = 0;
            self.piece = self.piece.saturating_add(1);
        }
    }

    /// The next byte, which is 0 behind the pieces.
    fn next(&mut self) -> u8 {
        let Some((bytes, times)) = self.pieces.get(self.piece) else {
            return 0;
        };
        let Some(byte) = bytes.get(self.at) else {
            return 0;
        };
        let (byte, length, times) = (*byte, bytes.len(), *times);
        self.go_on(length, times);
        byte
    }
}

impl Source for Long {
    ghost remaining = { λ _. None };

    ghost failures = { λ _. 0 };

    fn read(&mut self, buf: &mut [u8]) -> Result<usize, Failure> {
        if buf.is_empty() || self.left == 0 {
            return Ok(0);
        }
        if self.left < buf.len() {
            self.left -= 1;
            buf[0] = self.next();
            return Ok(1);
        }
        self.left -= buf.len();
        for byte in buf.iter_mut() {
            *byte = self.next();
        }
        Ok(buf.len())
    }
}

/// Counts the lines that it takes, and those that are the line of the six rows, each in one call.
#[derive(Drop)]
struct Lines {
    all: u64,
    right: u64,
}

impl Sink for Lines {
    ghost failures = { λ _. 0 };

    fn write(&mut self, piece: &[u8]) -> Result<usize, Failure> {
        self.all = self.all.saturating_add(1);
        if piece == LINE {
            self.right = self.right.saturating_add(1);
        }
        Ok(piece.len())
    }
}

/// As many certificates as fill a file to its last byte.
const MANY: &[Piece] = &[(SIX_ROWS, 808540), (SIX, 1), (TWO, 1)];

#[test]
fn a_file_with_as_many_bytes_as_are_checked(rt: HostRuntime) -> Result<(), Fail> {
    assert_same(&rt, &MOST_BYTES, &268435456);
    let mut lines = Lines { all: 0, right: 0 };
    let mut source = Long::of(MANY, 268435456);
    let answer = check(&rt, rt.alloc(), &mut source, &mut lines, 1);
    assert_same(&rt, &answer, &Ok(Status::Decided));
    assert_same(&rt, &(lines.all, lines.right), &(808542, 808540));
    Ok(())
}

/// A second certificate with symbols behind its tree, whose end is the last byte of such a file.
const TRAILING: &[Piece] = &[(SIX, 1), (SIX_BEGUN, 1), (SYMBOL, 268435264), (LAST, 1)];

/// The same with one symbol more.
const ONE_MORE: &[Piece] = &[(SIX, 1), (SIX_BEGUN, 1), (SYMBOL, 268435265), (LAST, 1)];

const REFUSED: ToolFault = ToolFault::Checked {
    number: 2,
    refused: Refused::Cert(CertFault::Trailing { line: 9 }),
};

/// The pieces of a file, how many bytes are given, and the fault: of what the file says, or that it says too much.
const TOO_LONG: [(&[Piece], usize, ToolFault); 3] = [
    (TRAILING, 268435456, REFUSED),
    (ONE_MORE, 268435457, ToolFault::TooLarge),
    (ONE_MORE, usize::MAX, ToolFault::TooLarge),
];

#[test]
fn one_byte_more_is_too_large(rt: HostRuntime) -> Result<(), Fail> {
    for (pieces, length, fault) in TOO_LONG {
        let mut lines = Lines { all: 0, right: 0 };
        let mut source = Long::of(pieces, length);
        let answer = check(&rt, rt.alloc(), &mut source, &mut lines, 1);
        assert_same_at(&rt, &answer, &Err(fault), &length);
        assert_same_at(&rt, &lines.all, &1, &length);
    }
    Ok(())
}

#[test]
fn a_file_of_any_size(rt: HostRuntime) -> Result<(), Fail> {
    let mut lines = Lines { all: 0, right: 0 };
    let mut source = Long::of(ONE_MORE, 268435457);
    let answer = check_any(&rt, rt.alloc(), &mut source, &mut lines, 1);
    assert_same(&rt, &answer, &Err(REFUSED));
    assert_same(&rt, &lines.all, &1);
    Ok(())
}
