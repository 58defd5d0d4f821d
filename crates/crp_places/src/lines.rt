//! The line of an offset.

ghost use Rattle.std.specs.Prelude.{◌≡◌};
ghost use Rattle.crp_places.specs.Lines.{ends_line, line_of};

/// Whether the byte ends a line, where these stand behind it.
fn ends_line(byte: u8, after: &[u8]) -> bool
    ensures { result ≡ ends_line byte after.now }
{
    match byte {
        b'\n' => true,
        b'\r' => after.first() != Some(&b'\n'),
        _ => false,
    }
}

/// The line of an offset, in bytes from 0: one more than the line ends before it, of which CR LF is one. Beyond the text it is the line
/// in which the text ends.
pub fn line_at(text: &[u8], offset: usize) -> usize
    ensures { result ≡ line_of text.now offset }
{
    let mut line = 1;
    let mut left = offset;
    let mut rest = text;
    while let [byte, after @ ..] = rest {
        if left == 0 {
            return line;
        }
        if ends_line(*byte, after) {
            line += 1;
        }
        left -= 1;
        rest = after;
    }
    line
}
