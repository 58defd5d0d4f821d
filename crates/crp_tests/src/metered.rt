//! How far a file is read, on a terminal that keeps what is shown on it.
use crate::compare::assert_same;
use crp_commands::{Clock, Meter, Metered, Terminal, begin_reading};
use crp_plan::Source;
use std::alloc::AllocError;
use std::cell::RefCell;
use std::sync::atomic::{AtomicU64, Ordering};

/// A terminal that keeps what is written on it, with a clock that is 600 milliseconds later at each reading.
#[derive(Drop)]
struct Keeping {
    millis: AtomicU64,
    meter: Meter,
    written: RefCell<Vec<u8>>,
}

impl Clock for Keeping {
    fn millis(&self) -> u64 {
        self.millis.fetch_add(600, Ordering::Relaxed)
    }
}

impl Terminal for Keeping {
    fn is_there(&self) -> bool {
        true
    }

    fn write(&self, text: &[u8]) {
        if let Ok(mut written) = self.written.try_borrow_mut() {
            let _kept = written.extend_from_slice(text);
        }
    }

    fn meter(&self) -> Option<&Meter> {
        Some(&self.meter)
    }
}

// Of 2 MB three quarters are read in 1.2 seconds, of the rest nothing is left, and at the end the line goes away.
#[test]
fn a_file_that_is_read_in_two_pieces(rt: HostRuntime) -> Result<(), AllocError> {
    let mut bytes = Vec::from_slice(rt.alloc(), b"CRP-CERT 1\nend 1\n")?;
    bytes.resize(2_000_000, b'x')?;
    let mut piece = Vec::new(rt.alloc());
    piece.resize(1_500_000, 0)?;
    let terminal = Keeping {
        millis: AtomicU64::new(0),
        meter: Meter::new(rt.alloc()),
        written: RefCell::new(Vec::new(rt.alloc())),
    };
    let mut source = Metered {
        source: bytes.as_slice(),
        terminal: &terminal,
    };
    begin_reading(&terminal, Some(2_000_000));
    for _ in 0..3u8 {
        let _read = source.read(&mut piece);
    }
    let mut written = Vec::new(rt.alloc());
    if let Ok(kept) = terminal.written.try_borrow() {
        written.extend_from_slice(&kept)?;
    }
    let expected =
        b"\r\x1b[K75 % of 2 MB, 1 certificate, about 1 s left\r\x1b[K100 % of 2 MB, 1 certificate\r\x1b[K";
    assert_same(&rt, &written.as_slice(), &expected.as_slice());
    Ok(())
}
