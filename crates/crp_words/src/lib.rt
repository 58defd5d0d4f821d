//! The words of the command line.
//!
//! `run_words` does what they ask for, and returns the exit status; `job` says what they ask for, as `clap`'s own matches of them give
//! it. The command line is defined in `specs/Commands.antt`, what words ask for and when they are refused in `specs/Words.antt`, and how
//! the program ends in `specs/Endings.antt`.
#![tactic(auto)]

mod advice;
mod bays;
mod commands;
mod compare_words;
mod doing;
mod ending;
mod follow_words;
mod given;
mod input_words;
mod json;
mod options;
mod search_words;
mod seconds;
mod usage;
mod words;

pub use advice::advice_on_setting;
pub use doing::run_words;
pub use ending::end_with_usage;
pub use json::json_head;
pub use usage::{Mistake, SettingFault, Usage};
pub use words::job;
