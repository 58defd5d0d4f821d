//! A sink that fails.
ghost use Rattle.std.specs.Prelude.{Some};

use crp_plan::{Failure, Sink};
use std::alloc::Global;

/// Takes a byte a call, as long as it has room, and then fails.
#[derive(Drop)]
pub(crate) struct Small {
    pub bytes: Vec<u8>,
    room: usize,
    pub failed: u64,
}

impl Sink for Small {
    ghost contents = { λ s. Some s.bytes.items };

    ghost failures = { λ s. s.failed };

    fn write(&mut self, piece: &[u8]) -> Result<usize, Failure> {
        if piece.is_empty() {
            return Ok(0);
        }
        if self.bytes.len() < self.room {
            if self.bytes.push(piece[0]).is_ok() {
                return Ok(1);
            }
        }
        self.failed = self.failed.saturating_add(1);
        Err(Failure::Failed)
    }
}

/// A sink of this room.
pub(crate) fn make_small(alloc: Global, room: usize) -> Small {
    Small {
        bytes: Vec::new(alloc),
        room,
        failed: 0,
    }
}
