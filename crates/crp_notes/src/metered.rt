//! A source that shows how far it is read.
use crate::meter::count_read;
use crate::terminal::Terminal;
use crp_plan::{Failure, Source};

/// A source that gives what another one gives, and shows on a terminal how far that is read.
#[derive(Drop)]
pub struct Metered<'a, R, T> {
    /// The other source.
    pub source: R,
    /// The terminal.
    pub terminal: &'a T,
}

impl<R: Source, T: Terminal> Source for Metered<'_, R, T> {
    ghost remaining = { λ m. R.remaining m.source };

    ghost failures = { λ m. R.failures m.source };

    ghost interrupted = { λ m. R.interrupted m.source };

    fn read(&mut self, buf: &mut [u8]) -> Result<usize, Failure> {
        match self.source.read(buf) {
            Ok(n) => {
                count_read(self.terminal, &buf[..n]);
                Ok(n)
            }
            Err(failure) => Err(failure),
        }
    }
}
