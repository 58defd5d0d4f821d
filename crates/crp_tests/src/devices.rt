//! Devices that fail, are slow, or never end.
ghost use Rattle.std.specs.Prelude.{Some, None};

use crp_plan::{Failure, Sink, Source};

/// Is interrupted so often, gives its bytes one by one, and then ends or fails.
#[derive(Drop)]
pub(crate) struct Slow<'a> {
    pub interrupted: u32,
    pub rest: &'a [u8],
    pub fails: bool,
    pub failed: u64,
}

impl Source for Slow<'_> {
    ghost remaining = { λ _. None };

    ghost failures = { λ s. s.failed };

    fn read(&mut self, buf: &mut [u8]) -> Result<usize, Failure> {
        if self.interrupted > 0 {
            self.interrupted -= 1;
            self.failed = self.failed.saturating_add(1);
            return Err(Failure::Interrupted);
        }
        if buf.is_empty() {
            return Ok(0);
        }
        let rest: &[u8] = self.rest;
        if rest.is_empty() {
            if self.fails {
                self.failed = self.failed.saturating_add(1);
                return Err(Failure::Failed);
            }
            return Ok(0);
        }
        buf[0] = rest[0];
        self.rest = &rest[1..];
        Ok(1)
    }
}

/// Takes a byte a call, as long as it has room, and then fails.
#[derive(Drop)]
pub(crate) struct Small {
    pub bytes: Vec<u8>,
    pub room: usize,
    pub failed: u64,
}

impl Sink for Small {
    ghost contents = { λ s. Some s.bytes.items };

    ghost failures = { λ s. s.failed };

    fn write(&mut self, piece: &[u8]) -> Result<usize, Failure> {
        if piece.is_empty() {
            return Ok(0);
        }
        if self.bytes.len() < self.room {
            if self.bytes.push(piece[0]).is_ok() {
                return Ok(1);
            }
        }
        self.failed = self.failed.saturating_add(1);
        Err(Failure::Failed)
    }
}

/// Is interrupted so often, and then takes all that it gets.
#[derive(Drop)]
pub(crate) struct Busy {
    pub interrupted: u32,
    pub failed: u64,
}

impl Sink for Busy {
    ghost failures = { λ s. s.failed };

    fn write(&mut self, piece: &[u8]) -> Result<usize, Failure> {
        if self.interrupted > 0 {
            self.interrupted -= 1;
            self.failed = self.failed.saturating_add(1);
            return Err(Failure::Interrupted);
        }
        Ok(piece.len())
    }
}

/// Gives line ends, and never ends.
#[derive(Drop)]
pub(crate) struct Endless;

impl Source for Endless {
    ghost remaining = { λ _. None };

    ghost failures = { λ _. 0 };

    fn read(&mut self, buf: &mut [u8]) -> Result<usize, Failure> {
        buf.fill(b'\n');
        Ok(buf.len())
    }
}
