//! Lines of plain text, which take no memory.
ghost use Rattle.std.specs.Prelude.{◌≡◌, ◌≤◌, ◌++◌, length, map, take};
ghost use Rattle.crp_jobs.specs.Advice.{is_printable};
ghost use Rattle.crp_jobs.specs.Found.{IsPlainText, plain};

use arrayvec::ArrayVec;

/// The most bytes of a line on what was found.
pub const MOST_FOUND: usize = 160;

/// How many bytes of a file show what it looks like.
pub(crate) const FRONT: usize = 64;

/// A line on what was found.
pub type FoundLine = ArrayVec<u8, MOST_FOUND>;

// The byte where it is printable, and else a question mark.
fn plain(byte: u8) -> u8
    ensures { result ≡ plain byte }
{
    if (32..127).contains(&byte) {
        byte
    } else {
        b'?'
    }
}

/// Adds a text, as far as there is room.
pub(crate) fn push_plain(line: &mut FoundLine, text: &[u8])
    requires { IsPlainText line.old.items }
    ensures plain { IsPlainText line.new.items }
    ensures shown { length line.old.items ≤ MOST_FOUND → line.new.items ≡ take MOST_FOUND (line.old.items ++ map plain text.now) }
{
    for byte in text {
        let Ok(()) = line.try_push(plain(*byte)) else {
            return;
        };
    }
}
