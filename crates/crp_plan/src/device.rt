//! Where bytes come from, and where they go.
ghost use Rattle.std.specs.Prelude.{ℕ, List, Option, None};
ghost use Rattle.std.specs.Io.{ReadsAtMost, WritesAtMost};
ghost use Rattle.std.specs.Io.KnownBytes.{ReadConsumes, WriteAppends};
ghost use Rattle.crp_plan.specs.Devices.{CountsRead, CountsWrite, CountsInterruption};

/// Why a call gave or took nothing.
#[derive(Clone, Copy, Debug, PartialEq, Eq)]
pub enum Failure {
    /// The call was interrupted, and may be tried again.
    Interrupted,
    /// The device has failed.
    Failed,
}

/// A device that gives bytes.
pub trait Source {
    // The bytes that are left, where the value states them.
    ghost remaining: { Self → Option (List ℕ) } = { λ _. None };

    // How many calls have failed, up to the largest u64.
    ghost failures: { Self → ℕ };

    // How many of these were interrupted, up to the largest u64, where the value states it.
    ghost interrupted: { Self → Option ℕ } = { λ _. None };

    /// Puts bytes at the front of `buf`, and says how many. None come only at the end, or with no room.
    fn read(&mut self, buf: &mut [u8]) -> Result<usize, Failure>
        ensures bound { ReadsAtMost result buf.new }
        ensures bytes { ReadConsumes (remaining self.old) (remaining self.new) result buf.new }
        ensures count { CountsRead (failures self.old) (failures self.new) result }
        ensures interrupted { CountsInterruption (interrupted self.old) (interrupted self.new) result };
}

/// A device that takes bytes.
pub trait Sink {
    // The bytes that were taken, where the value states them.
    ghost contents: { Self → Option (List ℕ) } = { λ _. None };

    // How many calls have failed, up to the largest u64.
    ghost failures: { Self → ℕ };

    // How many of these were interrupted, up to the largest u64, where the value states it.
    ghost interrupted: { Self → Option ℕ } = { λ _. None };

    /// Takes a front of the piece, and says how long it is. An answer of 0 to a piece that is not empty is a failure.
    fn write(&mut self, piece: &[u8]) -> Result<usize, Failure>
        ensures bound { WritesAtMost result piece.now }
        ensures bytes { WriteAppends (contents self.old) (contents self.new) result piece.now }
        ensures count { CountsWrite (failures self.old) (failures self.new) result piece.now }
        ensures interrupted { CountsInterruption (interrupted self.old) (interrupted self.new) result };
}
