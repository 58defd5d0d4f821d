//! A line on a terminal that is rewritten in place.
//!
//! Nothing is proved of such a line but that it ends, and nothing rests on it.
use crate::terminal::Terminal;
use itoa::Buffer;
use std::alloc::{AllocError, Global};
use std::sync::atomic::{AtomicBool, AtomicU64, Ordering};

// What rewrites a line: it goes to the first column and erases what stands there.
const ERASED: &[u8] = b"\r\x1b[K";

// The milliseconds in which the line is shown at most once.
const TENTH: u64 = 100;

/// The line: the tenth of a second in which it was shown last, and whether it stands there.
#[derive(Drop)]
pub(crate) struct OneLine {
    shown_at: AtomicU64,
    is_shown: AtomicBool,
}

impl OneLine {
    /// Not shown yet.
    pub fn new() -> OneLine {
        OneLine {
            shown_at: AtomicU64::new(u64::MAX),
            is_shown: AtomicBool::new(false),
        }
    }

    /// Whether it is to be shown: there is a terminal, and it was not shown in this tenth of a second.
    pub fn is_due<T: Terminal>(&self, terminal: &T) -> bool {
        if !terminal.is_there() {
            return false;
        }
        let now = terminal.millis() / TENTH;
        self.shown_at.swap(now, Ordering::Relaxed) != now
    }

    /// Shows this text in its place.
    pub fn show<T: Terminal>(&self, alloc: Global, terminal: &T, text: &[u8]) {
        if let Ok(line) = rewriting(alloc, text) {
            self.is_shown.store(true, Ordering::Relaxed);
            terminal.write(&line);
        }
    }

    /// Takes it away.
    pub fn clear<T: Terminal>(&self, terminal: &T) {
        if self.is_shown.swap(false, Ordering::Relaxed) {
            terminal.write(ERASED);
        }
    }
}

// The text, as it rewrites another.
fn rewriting(alloc: Global, text: &[u8]) -> Result<Vec<u8>, AllocError> {
    let mut line = Vec::from_slice(alloc, ERASED)?;
    line.extend_from_slice(text)?;
    Ok(line)
}

/// Adds a number with a blank before each three digits that are followed by as many as make threes.
pub(crate) fn push_grouped(text: &mut Vec<u8>, number: u64) -> Result<(), AllocError> {
    let mut buffer = Buffer::new();
    let digits = buffer.format(number).as_bytes();
    for i in 0..digits.len() {
        if i > 0 && (digits.len() - i) % 3 == 0 {
            text.push(b' ')?;
        }
        text.push(digits[i])?;
    }
    Ok(())
}
