//! The lines of a report, whichever editor wrote it.
ghost use Rattle.std.specs.Prelude.{◌≡◌, ◌≢◌, ◌<◌, ◌≤◌, ◌+◌, ◌^◌, ◌∷◌, ◌++◌, [], ℕ, suc, length, IfSome, IfNone};
ghost use Rattle.std.specs.List.{AllByRecursion};
ghost use Rattle.crp_follow.specs.Lines.{after_mark, pieces_of, without_cr, numbered};
ghost use Rattle.crp_follow.specs.Views.{unread_lines};

use crp_said::cut_line;

/// What is not read yet of a text: the number of its first line, and its bytes.
#[derive(Clone, Copy)]
pub(crate) struct UnreadLines<'a> {
    pub(crate) first: u64,
    pub(crate) bytes: &'a [u8],
}

/// The bytes behind a byte order mark, where there is one.
pub(crate) fn after_mark(text: &[u8]) -> &[u8]
    ensures { result.now ≡ after_mark text.now }
{
    match text {
        [a, b, c, bytes @ ..] => {
            if *a == 0xEF && *b == 0xBB && *c == 0xBF {
                return bytes;
            }
            text
        }
        _ => text,
    }
}

/// The first piece of a text, and what follows its LF.
#[tactic(auto, using(crate::proofs::Pieces::cut_ended, crate::proofs::Pieces::cut_plain))]
fn first_piece(bytes: &[u8]) -> (&[u8], &[u8])
    requires { bytes.now ≢ [] }
    ensures cut { pieces_of bytes.now ≡ result.0.now ∷ pieces_of result.1.now }
    ensures plain { AllByRecursion (λ b. b ≢ 10) result.0.now }
    ensures fewer { length result.1.now < length bytes.now }
{
    match cut_line(bytes) {
        Some((piece, behind)) => (piece, behind),
        None => (bytes, b""),
    }
}

/// A piece without a CR at its end.
fn without_cr(piece: &[u8]) -> &[u8]
    ensures { result.now ≡ without_cr piece.now }
{
    match piece.last() {
        Some(last) if *last == b'\r' => &piece[..piece.len() - 1],
        _ => piece,
    }
}

/// The next line that is not empty: its number, its bytes, and what is not read behind it.
#[tactic(auto, using(crate::proofs::Pieces::line_piece, crate::proofs::Pieces::empty_piece, crate::proofs::Pieces::plain_without))]
pub(crate) fn next_line(unread: UnreadLines<'_>) -> Option<(u64, &[u8], UnreadLines<'_>)>
    requires room { unread.first + length unread.bytes.now < 2 ^ 64 }
    ensures found { IfSome result (λ x. unread_lines unread.entry ≡ record { number = x.0; body = x.1.now } ∷ unread_lines x.2) }
    ensures plain { IfSome result (λ x. AllByRecursion (λ b. b ≢ 10) x.1.now) }
    ensures room { IfSome result (λ x. x.2.first + length x.2.bytes.now ≤ unread.entry.first + length unread.entry.bytes.now) }
    ensures fewer { IfSome result (λ x. length x.2.bytes.now < length unread.entry.bytes.now) }
    ensures none { IfNone result (unread_lines unread.entry ≡ []) }
{
    let mut number = unread.first;
    let mut rest = unread.bytes;
    while !rest.is_empty() {
        let (piece, behind) = first_piece(rest);
        let body = without_cr(piece);
        let after = UnreadLines {
            first: number + 1,
            bytes: behind,
        };
        if !body.is_empty() {
            return Some((number, body, after));
        }
        number += 1;
        rest = behind;
    }
    None
}

/// The number of the line that would stand behind the last one, where these bytes are all of a text.
pub(crate) fn line_behind(bytes: &[u8]) -> u64
    requires { suc (length bytes.now) < 2 ^ 64 }
    ensures { result ≡ suc (length (pieces_of bytes.now)) }
{
    let mut line: u64 = 1;
    let mut rest = bytes;
    while !rest.is_empty() {
        let (_, behind) = first_piece(rest);
        line += 1;
        rest = behind;
    }
    line
}
