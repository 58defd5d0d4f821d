//! What to look at where a list of sizes is refused, in plain words.
ghost use Rattle.crp_jobs.specs.Advice.{IsPlainLine};

use crate::advice::MEMORY;
use crp_sizes::SizesFault;

pub(crate) const SIZES_NOT_READ: &str =
    "the list of sizes could not be read: it must be there, be a file and no folder, and you must be allowed to read it";

/// Of a list of sizes.
pub(crate) fn advice_on_sizes(fault: &SizesFault) -> &'static str
    ensures { IsPlainLine result.now }
{
    match fault {
        SizesFault::Header { .. } => "the first record must be block,bay,heights",
        SizesFault::Fields { .. } => {
            "a record has three fields, such as A,7,5.5.5.4: the block 1 to 17 ASCII characters, no spaces"
        }
        SizesFault::Digits { .. } => {
            "the bay must be a number of one to four digits, and must not be 0"
        }
        SizesFault::Heights { .. } => {
            "the heights must be 1 to 12 digits from 1 to 8, one for each row, joined by points: 5.5.5.5.4"
        }
        SizesFault::Twice { .. } => {
            "a record before this one names the same bay: each may be listed once only"
        }
        SizesFault::TooLarge => "a list of sizes may have at most 8388608 bytes",
        SizesFault::Read => SIZES_NOT_READ,
        SizesFault::Memory => MEMORY,
    }
}
