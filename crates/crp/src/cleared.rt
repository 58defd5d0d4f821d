//! A writer before whose texts the line goes away that shows how far a file is read.
use crp_commands::{Terminal, clear_reading};
use std::io::{self, Write};

/// A writer, which may lead to the terminal too where that line stands. It goes away before something is written.
#[derive(Drop)]
pub struct Cleared<'a, W, T> {
    /// The writer.
    pub writer: W,
    /// The terminal, if the writer leads to one.
    pub terminal: Option<&'a T>,
}

impl<W: Write, T: Terminal> Write for Cleared<'_, W, T> {
    ghost contents = { λ cleared. W.contents cleared.writer };

    fn write(&mut self, buf: &[u8]) -> io::Result<usize> {
        if let Some(terminal) = self.terminal {
            clear_reading(terminal);
        }
        self.writer.write(buf)
    }

    fn flush(&mut self) -> io::Result<()> {
        self.writer.flush()
    }
}
