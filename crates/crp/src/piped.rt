//! A writer that knows whether its reader has ended.
use crp_json::{Begun, JsonLines};
use crp_plan::{Counted, Sink};
use std::io::{self, ErrorKind, Write};

/// Where somebody reads what is written, who may end before all is.
pub trait ReadBy {
    /// Whether the last write failed because the reader has ended.
    fn has_no_reader(&self) -> bool;
}

/// A writer that remembers whether a write to it failed because the program that reads it has ended.
#[derive(Drop)]
pub struct Piped<W> {
    writer: W,
    is_broken: bool,
}

impl<W: Write> Piped<W> {
    /// The writer, of whose reader nothing is known yet.
    pub fn new(writer: W) -> Piped<W> {
        Piped {
            writer,
            is_broken: false,
        }
    }
}

impl<W: Write> ReadBy for Counted<Piped<W>> {
    fn has_no_reader(&self) -> bool {
        self.device.is_broken
    }
}

impl<S: Sink + ReadBy, B: Begun> ReadBy for JsonLines<S, B> {
    fn has_no_reader(&self) -> bool {
        self.out().has_no_reader()
    }
}

impl<W: Write> Write for Piped<W> {
    ghost contents = { λ piped. W.contents piped.writer };

    fn write(&mut self, buf: &[u8]) -> io::Result<usize> {
        match self.writer.write(buf) {
            Ok(n) => Ok(n),
            Err(error) => {
                self.is_broken = error.kind() == ErrorKind::BrokenPipe;
                Err(error)
            }
        }
    }

    fn flush(&mut self) -> io::Result<()> {
        self.writer.flush()
    }
}
