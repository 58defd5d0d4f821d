//! The offset of a segment.

ghost use Rattle.std.specs.Prelude.{◌≡◌, ◌<◌, ◌≤◌, ◌+◌, ℕ, List, false, IfSome, Some, None, length};
ghost use Rattle.crp_places.specs.Segments.{IsSegmentAt, IsSegmentText, IsSpelledBy, OpensAs, behind_terminator};

use crate::gaps::skip_line_ends;

/// The service characters by which the end of a segment is found.
#[derive(Clone, Copy, Debug, PartialEq, Eq)]
struct Signs {
    /// Takes the next character literally. `None`: no release character is used.
    release: Option<u8>,
    terminator: u8,
}

/// What stands behind the segment at the front.
fn after_segment(signs: Signs, text: &[u8]) -> &[u8]
    ensures passed { result.now ≡ behind_terminator signs false text.now }
    ensures shorter { length result.now ≤ length text.now }
{
    let mut is_released = false;
    let mut rest = text;
    while let [byte, after @ ..] = rest {
        rest = after;
        if is_released {
            is_released = false;
        } else if Some(*byte) == signs.release {
            is_released = true;
        } else if *byte == signs.terminator {
            return rest;
        }
    }
    rest
}

/// The service characters of a text, and what stands behind its service string advice.
fn opened(text: &[u8]) -> (Signs, &[u8])
    ensures opened { (rest : List ℕ) → OpensAs text.now rest result.0 result.1.now }
    ensures shorter { length result.1.now ≤ length text.now }
{
    match text {
        [
            b'U',
            b'N',
            b'A',
            _,
            _,
            _,
            release,
            _,
            terminator,
            after @ ..,
        ] => {
            let signs = Signs {
                release: if *release == b' ' {
                    None
                } else {
                    Some(*release)
                },
                terminator: *terminator,
            };
            (signs, skip_line_ends(after))
        }
        _ => {
            let signs = Signs {
                release: Some(b'?'),
                terminator: b'\'',
            };
            (signs, text)
        }
    }
}

/// The offset, in bytes from 0, at which the segment with this number begins, from 1, in an interchange that is spelled up to there
/// (ISO 9735); none behind its last segment. Service string advice is no segment, and line ends between segments are part of none.
pub fn segment_at(text: &[u8], number: usize) -> Option<usize>
    ensures within { IfSome result (λ offset. offset < length text.now) }
    ensures place { (offset : ℕ) → IsSegmentAt text.now number offset → result ≡ Some offset }
    ensures none { (count : ℕ) → IsSpelledBy text.now count → count < number → result ≡ None }
{
    if number == 0 {
        return None;
    }
    let (signs, mut rest) = opened(text);
    for _ in 1..number {
        if rest.is_empty() {
            return None;
        }
        rest = skip_line_ends(after_segment(signs, rest));
    }
    if rest.is_empty() {
        return None;
    }
    Some(text.len() - rest.len())
}

/// The offset behind the terminator of the segment that begins at this offset, in an interchange that is spelled up to there; the text's
/// length where none ends it.
pub fn segment_end(text: &[u8], offset: usize) -> usize
    requires { offset ≤ length text.now }
    ensures within { (offset ≤ result) × (result ≤ length text.now) }
    ensures end { (number : ℕ) (own : List ℕ) → IsSegmentText text.now number offset own → result ≡ offset + length own }
{
    let (signs, _) = opened(text);
    text.len() - after_segment(signs, &text[offset..]).len()
}
