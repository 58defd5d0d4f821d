//! A clock for runs with a limit of time.
use crp_commands::{Clock, Terminal};
use std::fs;
use std::sync::atomic::{AtomicU64, Ordering};

/// No terminal, with a clock that is a second later at each reading where the words of a run name a limit of time, and else stands still.
#[derive(Drop)]
pub(crate) struct Ticking<'a> {
    rt: &'a HostRuntime,
    runs: bool,
    seconds: AtomicU64,
}

impl<'a> Ticking<'a> {
    /// The clock for a run of these words.
    pub(crate) fn of(rt: &'a HostRuntime, words: &[&str]) -> Ticking<'a> {
        let runs = words.iter().any(|word| word.starts_with("--seconds")
            || word.starts_with("--total-seconds"));
        Ticking {
            rt,
            runs,
            seconds: AtomicU64::new(0),
        }
    }
}

impl Clock for Ticking<'_> {
    fn millis(&self) -> u64 {
        if self.runs {
            self.seconds
                .fetch_add(1, Ordering::Relaxed)
                .saturating_mul(1000)
        } else {
            0
        }
    }
}

impl Terminal for Ticking<'_> {
    fn is_there(&self) -> bool {
        false
    }

    fn write(&self, _text: &[u8]) {}

    fn has_file(&self, name: &str) -> bool {
        fs::metadata(self.rt, name).is_ok()
    }
}
