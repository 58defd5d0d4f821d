//! A terminal on which a run shows how far it is, and who waits there may stop it.
use crate::meter::Meter;
use crp_report::Clock;
use std::sync::atomic::{AtomicBool, Ordering};

/// A terminal, with a clock. Nothing that a run writes elsewhere rests on what is shown there.
pub trait Terminal: Clock {
    /// Whether there is one.
    fn is_there(&self) -> bool;

    /// Writes a text, as far as the terminal takes it.
    fn write(&self, text: &[u8]);

    /// What shows on it how far a file is read that is checked, if that is shown.
    fn meter(&self) -> Option<&Meter> {
        None
    }

    /// Whether a file of this name is there, which whoever waits may make to stop a run.
    fn has_file(&self, _name: &str) -> bool {
        false
    }

    /// Whether it has said that somebody asked for a stop.
    fn was_stopped(&self) -> bool {
        false
    }
}

/// A terminal, by whose clock a file of this name stops a run, if one does.
#[derive(Drop)]
pub struct Stoppable<'a, T> {
    terminal: &'a T,
    file: Option<&'a str>,
    // Whether the file was found.
    stopped: AtomicBool,
}

impl<'a, T> Stoppable<'a, T> {
    /// The terminal, and the name of the file, if there is one.
    pub fn new(terminal: &'a T, file: Option<&'a str>) -> Stoppable<'a, T> {
        Stoppable {
            terminal,
            file,
            stopped: AtomicBool::new(false),
        }
    }
}

impl<T: Terminal> Clock for Stoppable<'_, T> {
    fn millis(&self) -> u64 {
        self.terminal.millis()
    }

    fn is_stopped(&self) -> bool {
        let stopped = match self.file {
            Some(name) => self.terminal.has_file(name),
            None => false,
        };
        if stopped {
            self.stopped.store(true, Ordering::Relaxed);
        }
        stopped
    }
}

impl<T: Terminal> Terminal for Stoppable<'_, T> {
    fn is_there(&self) -> bool {
        self.terminal.is_there()
    }

    fn write(&self, text: &[u8]) {
        self.terminal.write(text);
    }

    fn meter(&self) -> Option<&Meter> {
        self.terminal.meter()
    }

    fn has_file(&self, name: &str) -> bool {
        self.terminal.has_file(name)
    }

    fn was_stopped(&self) -> bool {
        self.stopped.load(Ordering::Relaxed)
    }
}

/// No terminal, with a clock that stands still.
#[derive(Clone, Copy)]
pub struct NoTerminal;

impl Clock for NoTerminal {
    fn millis(&self) -> u64 {
        0
    }
}

impl Terminal for NoTerminal {
    fn is_there(&self) -> bool {
        false
    }

    fn write(&self, _text: &[u8]) {}
}
