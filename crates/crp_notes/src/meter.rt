//! How far a file is read that is checked: a line on a terminal that is rewritten in place.
//!
//! Nothing is proved of this line but that it ends, and nothing rests on it.
use crate::one_line::{OneLine, push_grouped};
use crate::terminal::Terminal;
use std::alloc::{AllocError, Global};
use std::sync::atomic::{AtomicU64, AtomicUsize, Ordering};

// The bytes of a megabyte. Nothing is shown of a file that has no more.
const MEGABYTE: u64 = 1_000_000;

// The milliseconds of a second. Before it has passed no time is said that is left.
const SECOND: u64 = 1000;

// What the last line of a certificate begins with, behind the end of the line before.
const LAST_LINE: &[u8] = b"\nend ";

// A size or a moment that is not known.
const UNKNOWN: u64 = u64::MAX;

/// How far a file is read.
#[derive(Drop)]
pub struct Meter {
    alloc: Global,
    line: OneLine,
    // The bytes that the file has, and when it began to be read.
    size: AtomicU64,
    begun: AtomicU64,
    // The bytes that were read, and how many certificates end in them.
    bytes: AtomicU64,
    certificates: AtomicU64,
    // With how many bytes of a certificate's last line they end.
    matched: AtomicUsize,
}

// Counts the certificates that end in a piece, behind so many bytes of the line that ends one. The second number is how many of these
// the piece ends with.
fn ends_in(piece: &[u8], matched: usize) -> (u64, usize) {
    let mut count: u64 = 0;
    let mut matched = matched;
    for byte in piece {
        if matched < LAST_LINE.len() && LAST_LINE[matched] == *byte {
            matched = matched.saturating_add(1);
        } else {
            matched = usize::from(*byte == b'\n');
        }
        if matched == LAST_LINE.len() {
            count = count.saturating_add(1);
            matched = 0;
        }
    }
    (count, matched)
}

// The seconds in which the rest is read, rounded up, by the rate of so many milliseconds; `None` where that is not known, and where
// nothing is left.
fn seconds_left(size: u64, bytes: u64, passed: u64) -> Option<u64> {
    if size == UNKNOWN || size <= bytes || passed < SECOND {
        return None;
    }
    let rate = bytes.saturating_mul(SECOND) / passed;
    let left = size.saturating_sub(bytes).checked_div(rate)?;
    Some(left.saturating_add(1))
}

// Adds the time that is left.
fn push_left(text: &mut Vec<u8>, seconds: u64) -> Result<(), AllocError> {
    text.extend_from_slice(b", about ")?;
    if seconds < 100 {
        push_grouped(text, seconds)?;
        return text.extend_from_slice(b" s left");
    }
    push_grouped(text, (seconds / 60).saturating_add(1))?;
    text.extend_from_slice(b" min left")
}

// Adds how many bytes were read, of how many where that is known.
fn push_bytes(text: &mut Vec<u8>, size: u64, bytes: u64) -> Result<(), AllocError> {
    if size == UNKNOWN {
        push_grouped(text, bytes / MEGABYTE)?;
        return text.extend_from_slice(b" MB");
    }
    let percent = bytes.min(size).saturating_mul(100).checked_div(size);
    push_grouped(text, percent.unwrap_or(0))?;
    text.extend_from_slice(b" % of ")?;
    push_grouped(text, size / MEGABYTE)?;
    text.extend_from_slice(b" MB")
}

// Adds how many certificates there were.
fn push_certificates(text: &mut Vec<u8>, certificates: u64) -> Result<(), AllocError> {
    text.extend_from_slice(b", ")?;
    push_grouped(text, certificates)?;
    text.extend_from_slice(if certificates == 1 {
        b" certificate"
    } else {
        b" certificates"
    })
}

impl Meter {
    /// No file yet.
    pub fn new(alloc: Global) -> Meter {
        Meter {
            alloc,
            line: OneLine::new(),
            size: AtomicU64::new(UNKNOWN),
            begun: AtomicU64::new(UNKNOWN),
            bytes: AtomicU64::new(0),
            certificates: AtomicU64::new(0),
            matched: AtomicUsize::new(0),
        }
    }

    // A file begins to be read.
    fn begin<T: Terminal>(&self, terminal: &T, size: Option<u64>) {
        self.size.store(size.unwrap_or(UNKNOWN), Ordering::Relaxed);
        self.begun.store(terminal.millis(), Ordering::Relaxed);
    }

    // These bytes of it were read.
    fn count(&self, piece: &[u8]) {
        self.bytes.fetch_add(piece.len() as u64, Ordering::Relaxed);
        let (ended, matched) = ends_in(piece, self.matched.load(Ordering::Relaxed));
        self.certificates.fetch_add(ended, Ordering::Relaxed);
        self.matched.store(matched, Ordering::Relaxed);
    }

    // The line, where there is one of a file that has so many bytes.
    fn text(&self, passed: u64) -> Result<Vec<u8>, AllocError> {
        let size = self.size.load(Ordering::Relaxed);
        let bytes = self.bytes.load(Ordering::Relaxed);
        let mut text = Vec::new(self.alloc);
        push_bytes(&mut text, size, bytes)?;
        push_certificates(&mut text, self.certificates.load(Ordering::Relaxed))?;
        if let Some(seconds) = seconds_left(size, bytes, passed) {
            push_left(&mut text, seconds)?;
        }
        Ok(text)
    }

    // Whether the file has more than a megabyte, as far as that is known.
    fn is_large(&self) -> bool {
        let size = self.size.load(Ordering::Relaxed);
        if size == UNKNOWN {
            self.bytes.load(Ordering::Relaxed) > MEGABYTE
        } else {
            size > MEGABYTE
        }
    }

    // Shows the line, where it is due.
    fn show<T: Terminal>(&self, terminal: &T, begun: u64) {
        if !self.is_large() || !self.line.is_due(terminal) {
            return;
        }
        if let Ok(text) = self.text(terminal.millis().saturating_sub(begun)) {
            self.line.show(self.alloc, terminal, &text);
        }
    }
}

/// A file of so many bytes, where that is known, begins to be read. How far it is, is shown on the terminal from now on.
pub fn begin_reading<T: Terminal>(terminal: &T, size: Option<u64>) {
    if let Some(meter) = terminal.meter() {
        meter.begin(terminal, size);
    }
}

/// These bytes of the file were read; none, where it has ended.
pub(crate) fn count_read<T: Terminal>(terminal: &T, piece: &[u8]) {
    let Some(meter) = terminal.meter() else {
        return;
    };
    let begun = meter.begun.load(Ordering::Relaxed);
    if begun == UNKNOWN {
        return;
    }
    if piece.is_empty() {
        meter.line.clear(terminal);
    } else {
        meter.count(piece);
        meter.show(terminal, begun);
    }
}

/// Takes the line away that shows how far a file is read.
pub fn clear_reading<T: Terminal>(terminal: &T) {
    if let Some(meter) = terminal.meter() {
        meter.line.clear(terminal);
    }
}
