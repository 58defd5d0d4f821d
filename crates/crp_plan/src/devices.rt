//! Sources and sinks: lists of bytes, the readers and writers of std, and nowhere.
ghost use Rattle.std.specs.Prelude.{◌≡◌, ◌↔◌, [], Some};

use crate::device::{Failure, Sink, Source};
use std::alloc::Global;
use std::io::{ErrorKind, Read, Write};

/// A reader or a writer of std, with the count of its failures.
#[derive(Drop)]
pub struct Counted<T> {
    /// The reader or writer.
    pub device: T,
    /// How many of its calls have failed, up to the largest u64.
    pub failed: u64,
}

impl<T> Counted<T> {
    /// The device, none of whose calls has failed yet.
    pub fn new(device: T) -> Counted<T>
        ensures { result ≡ record { device = device; failed = 0 } }
    {
        Counted { device, failed: 0 }
    }
}

// What an error of std is to a device.
fn failure_of(kind: ErrorKind) -> Failure
    ensures { (result ≡ Failure.Interrupted) ↔ (kind ≡ ErrorKind.Interrupted) }
{
    if kind == ErrorKind::Interrupted {
        Failure::Interrupted
    } else {
        Failure::Failed
    }
}

impl<R: Read> Source for Counted<R> {
    ghost remaining = { λ c. R.remaining c.device };

    ghost failures = { λ c. c.failed };

    fn read(&mut self, buf: &mut [u8]) -> Result<usize, Failure> {
        match self.device.read(buf) {
            Ok(n) => Ok(n),
            Err(e) => {
                self.failed = self.failed.saturating_add(1);
                Err(failure_of(e.kind()))
            }
        }
    }
}

impl<W: Write> Sink for Counted<W> {
    ghost contents = { λ c. W.contents c.device };

    ghost failures = { λ c. c.failed };

    fn write(&mut self, piece: &[u8]) -> Result<usize, Failure> {
        match self.device.write(piece) {
            Ok(n) => {
                if n == 0 && !piece.is_empty() {
                    self.failed = self.failed.saturating_add(1);
                }
                Ok(n)
            }
            Err(e) => {
                self.failed = self.failed.saturating_add(1);
                Err(failure_of(e.kind()))
            }
        }
    }
}

/// A list of bytes, read from its front. It never fails.
impl Source for &[u8] {
    ghost remaining = { λ bytes. Some bytes.now };

    ghost failures = { λ _. 0 };

    ghost interrupted = { λ _. Some 0 };

    fn read(&mut self, buf: &mut [u8]) -> Result<usize, Failure> {
        let bytes: &[u8] = *self;
        let n = bytes.len().min(buf.len());
        buf[..n].copy_from_slice(&bytes[..n]);
        *self = &bytes[n..];
        Ok(n)
    }
}

/// The bytes that were taken, as a list. It fails only where memory is refused.
#[derive(Drop)]
pub struct Received {
    /// The bytes, in order.
    pub bytes: Vec<u8>,
    /// How many pieces found no memory, up to the largest u64.
    pub failed: u64,
}

impl Received {
    /// No bytes yet.
    pub fn new(alloc: Global) -> Received
        ensures bytes { result.bytes.items ≡ [] }
        ensures count { result.failed ≡ 0 }
    {
        Received {
            bytes: Vec::new(alloc),
            failed: 0,
        }
    }
}

impl Sink for Received {
    ghost contents = { λ s. Some s.bytes.items };

    ghost failures = { λ s. s.failed };

    ghost interrupted = { λ _. Some 0 };

    fn write(&mut self, piece: &[u8]) -> Result<usize, Failure> {
        match self.bytes.extend_from_slice(piece) {
            Ok(()) => Ok(piece.len()),
            Err(_) => {
                self.failed = self.failed.saturating_add(1);
                Err(Failure::Failed)
            }
        }
    }
}

/// Takes all, keeps nothing, states no bytes and never fails.
#[derive(Clone, Copy, Debug)]
pub struct Nowhere;

impl Sink for Nowhere {
    ghost failures = { λ _. 0 };

    ghost interrupted = { λ _. Some 0 };

    fn write(&mut self, piece: &[u8]) -> Result<usize, Failure> {
        Ok(piece.len())
    }
}
