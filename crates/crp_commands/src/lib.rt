//! The commands of the program, over any source and sink and over files.
//!
//! `replay`, `bound`, `check` and `prove` go from the bytes of a file of certificates to a report, `rewrite` from those of a report to the
//! same with lines that count its moves, `absent` from those of a yard list and a
//! message to the list of what is ordered and not in the yard, `audit` from those of a yard list, a message, a report and certificates to
//! what is shown of them, `follow` from those of a yard list and a report, and of a message where
//! there is one, to the table of its moves, and to their page, `compare` from those of a yard list and two reports to the table of their
//! bays; `perform` does one of them over a file's bytes, and `run_job` any job
//! over its files. What each writes is said in the file of `specs/` of its name, what a job does in `specs/Performing.antt`.
#![tactic(auto)]

mod absences;
mod apart;
mod auditing;
mod blocks;
mod bounding;
mod chain_line;
mod checking;
mod comparing;
mod finishing;
mod following;
mod heads;
mod noting;
mod over_absent_files;
mod over_audit_files;
mod over_compare_files;
mod over_files;
mod over_follow_files;
mod over_yard_files;
mod partial;
mod performing;
mod proving;
mod replaying;
mod rewriting;
mod streams;
mod tables;

pub use absences::absent;
pub use auditing::{AuditSettings, MOST_REPORT, audit};
pub use bounding::bound;
pub use checking::check;
pub use comparing::{CompareSettings, compare};
pub use crp_notes::{Meter, Metered, NoTerminal, Terminal, begin_reading, clear_reading};
pub use crp_report::Clock;
pub use following::{FollowSettings, Listed, TextFiles, follow};
pub use heads::{ANY_SIZE, MOST_BYTES};
pub use over_files::run_job;
pub use performing::perform;
pub use proving::prove;
pub use replaying::replay;
pub use rewriting::rewrite;
pub use streams::Streams;
