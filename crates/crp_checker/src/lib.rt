//! The independent checker of certificates. It uses nothing of any search.
#![tactic(auto)]

mod accepted;
mod checker;
mod checking;
mod claim;
mod file;
mod file_checker;
mod findings;
mod found;
mod given_names;
mod in_head;
mod in_line;
mod in_part;
mod laws;
mod letter;
mod line;
mod line_end;
mod need;
mod needed;
mod next;
mod opening;
mod owing;
mod part_names;
mod passing;
mod path;
mod paying;
mod refused;
mod stage;
mod symbol;
mod unread;
mod verdict;
mod verdicts;
mod walking;
mod watch;
mod wrong;

pub use accepted::Accepted;
pub use checker::Checker;
pub use checking::{check, check_for};
pub use file::check_file;
pub use file_checker::{Fed, FileChecker};
pub use laws::{
    accepted_or_refused, first_is_best, first_written_is_accepted, one_cut, right_or_wrong,
    shown_or_refused, verdicts_say, written_is_accepted,
};
pub use path::Path;
pub use refused::Refused;
pub use unread::{Unread, feed_next};
pub use verdict::Verdict;
pub use verdicts::{FileRefused, Verdicts};
