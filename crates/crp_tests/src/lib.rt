//! Tests of a run, of the commands and of the words of the command line: what no contract says and no transcript shows. Certificates that are
//! cut at each length or changed in each byte, what help says, faults that no file shows, and devices that fail in mid-stream.
#![tactic(auto)]

#[cfg(test)]
mod advice;
#[cfg(test)]
mod bay_by_bay;
#[cfg(test)]
mod calls;
#[cfg(test)]
mod certificates;
#[cfg(test)]
mod command_turns;
#[cfg(test)]
mod compare;
#[cfg(test)]
mod devices;
#[cfg(test)]
mod endings;
#[cfg(test)]
mod endless;
#[cfg(test)]
mod failing;
#[cfg(test)]
mod failing_runs;
#[cfg(test)]
mod first_runs;
#[cfg(test)]
mod follow_turns;
#[cfg(test)]
mod help;
#[cfg(test)]
mod interrupted_runs;
#[cfg(test)]
mod many_workers;
#[cfg(test)]
mod metered;
#[cfg(test)]
mod mistakes;
#[cfg(test)]
mod run_settings;
#[cfg(test)]
mod six;
#[cfg(test)]
mod statuses;
#[cfg(test)]
mod turns;
#[cfg(test)]
mod unfinished;
