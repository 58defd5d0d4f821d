//! The line ends between records, and between segments.

ghost use Rattle.std.specs.Prelude.{◌≡◌, ◌≤◌, length};
ghost use Rattle.edi_text.specs.Reading.{after_line_ends};

/// What stands behind the line ends at the front.
pub(crate) fn skip_line_ends(text: &[u8]) -> &[u8]
    ensures passed { result.now ≡ after_line_ends text.now }
    ensures shorter { length result.now ≤ length text.now }
{
    let mut rest = text;
    while let [b'\r' | b'\n', after @ ..] = rest {
        rest = after;
    }
    rest
}
