//! The terminal behind the standard error, and the clock of a run.
use crp_commands::{Meter, Terminal};
use crp_plan::{Counted, write_text};
use crp_report::Clock;
use std::fs;
use std::io::IsTerminal;
use std::time::Instant;

/// The terminal behind the standard error, if there is one, and a clock.
#[derive(Drop)]
pub struct ErrorTerminal<'a> {
    rt: &'a HostRuntime,
    is_there: bool,
    // When the clock began to run; without one it stands still.
    begun: Option<Instant>,
    meter: Meter,
}

impl<'a> ErrorTerminal<'a> {
    /// Looks whether the standard error is a terminal on which something may be shown, and begins to count the time. A terminal without a clock
    /// counts for none.
    pub fn new(rt: &'a HostRuntime, is_shown: bool) -> ErrorTerminal<'a> {
        let begun = Instant::now(rt).ok();
        ErrorTerminal {
            rt,
            is_there: is_shown && begun.is_some() && rt.stderr().is_terminal(),
            begun,
            meter: Meter::new(rt.alloc()),
        }
    }
}

impl Clock for ErrorTerminal<'_> {
    fn millis(&self) -> u64 {
        let Some(begun) = &self.begun else {
            return 0;
        };
        match begun.elapsed(self.rt) {
            Ok(passed) => passed
                .as_secs()
                .saturating_mul(1000)
                .saturating_add(u64::from(passed.subsec_millis())),
            Err(_) => 0,
        }
    }
}

impl Terminal for ErrorTerminal<'_> {
    fn is_there(&self) -> bool {
        self.is_there
    }

    fn write(&self, text: &[u8]) {
        let _shown = write_text(&mut Counted::new(self.rt.stderr()), text);
    }

    fn has_file(&self, name: &str) -> bool {
        fs::metadata(self.rt, name).is_ok()
    }

    fn meter(&self) -> Option<&Meter> {
        if self.is_there {
            Some(&self.meter)
        } else {
            None
        }
    }
}
