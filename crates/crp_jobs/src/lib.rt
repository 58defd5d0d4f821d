//! What a job of the program is: what it is asked for, over which files, how it fails, and how that is explained.
//!
//! `ToolFault` says why a job did not do what it was asked for, and `exit_of` gives the
//! exit status. `advice_on` and `found_line` are the lines for the user, and `place_of` is the file or stream that failed.
#![tactic(auto)]

mod advice;
mod bay_words;
mod certificate_advice;
mod certificate_lines;
mod commas;
mod detailed;
mod failed;
mod firsts;
mod follow_advice;
mod found;
mod headers;
mod instead;
mod job;
mod kinds;
mod list_lines;
mod message_lines;
mod move_words;
mod moves;
mod named;
mod names;
mod ordered_again;
mod other_settings;
mod outcome;
mod partial;
mod placed;
mod plain;
mod records;
mod report_faults;
mod report_lines;
mod run_advice;
mod sizes_advice;

pub use advice::advice_on;
pub use failed::{Place, place_of};
pub use found::found_line;
pub use job::{
    AbsentFiles, AfterFile, AuditFiles, CompareFiles, FileCommand, FollowFiles, Job, RunFiles,
};
pub use kinds::{Found, found_in};
pub use outcome::{Statement, ToolFault, exit_of};
pub use plain::{FoundLine, MOST_FOUND};
