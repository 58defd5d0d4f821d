//! What stands in the place of standard streams that were closed when the program began.
use std::fs::{File, OpenOptions};

/// The three standard streams.
const STREAMS: usize = 3;

/// The device that takes all and gives nothing, as often as there are standard streams. Each file gets the least number that is free, so
/// while these are held no file of a job stands where a standard stream was closed, and what is written to that goes nowhere.
pub fn standing_in(rt: &HostRuntime) -> [Option<File>; STREAMS] {
    [held(rt), held(rt), held(rt)]
}

fn held(rt: &HostRuntime) -> Option<File> {
    let mut both = OpenOptions::new();
    both.read(true).write(true);
    both.open(rt, "/dev/null").ok()
}
