//! Where lines, records and segments stand in a text.

ghost use Rattle.std.specs.Prelude.{◌≡◌, Some, None};

use crp_places::{line_at, record_at, segment_at, segment_end};

/// The second segment begins behind the line end, and ends with its terminator. A terminator that is released
/// ends none.
pub fn second_segment() -> (Option<usize>, usize)
    ensures begins { result.0 ≡ Some 11 }
    ensures ends { result.1 ≡ 15 }
{
    let text = b"FTX+A?'B'\r\nUNT'";
    (segment_at(text, 2), segment_end(text, 11))
}

/// There is no third one.
pub fn third_segment() -> Option<usize>
    ensures { result ≡ None }
{
    segment_at(b"FTX+A?'B'\r\nUNT'", 3)
}

/// CR LF ends one line, and so do CR and LF alone: the last letter of `a CR LF b LF c CR d` stands in line 4.
pub fn line_behind_both_signs() -> usize
    ensures { result ≡ 4 }
{
    line_at(b"a\r\nb\nc\rd", 7)
}

/// A line end in quotes is part of its record: the second record of `a,"b LF c" LF d` is the letter `d`.
pub fn record_behind_quotes() -> Option<usize>
    ensures { result ≡ Some 8 }
{
    record_at(b"a,\"b\nc\"\nd", b',', 2)
}
