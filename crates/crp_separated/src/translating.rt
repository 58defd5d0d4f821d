//! A list is translated byte by byte.
ghost use Rattle.std.specs.Prelude.{◌≡◌, ◌≤◌, ◌+◌, ◌*◌, [], ◌∷◌, ◌++◌, length};
ghost use Rattle.arrayvec.specs.ArrayVec.{array_vec_len};
ghost use Rattle.crp_separated.specs.Separators.{behind, behind_all, ends_line, instead, translated};
ghost use Rattle.crp_separated.specs.Given.{most_ready};

use crate::places::Place;
use arrayvec::ArrayVec;

/// The bytes between the fields of a list, and of the list that it is seen as.
#[derive(Clone, Copy, Debug)]
pub struct Separators {
    /// The byte between fields.
    pub from: u8,
    /// The byte that is seen there.
    pub to: u8,
}

/// The most bytes that are ready to be given.
pub(crate) const READY: usize = 4096;

// Whether the byte ends a line.
fn ends_line(byte: u8) -> bool
    ensures { result ≡ ends_line byte }
{
    byte == b'\r' || byte == b'\n'
}

// One byte.
fn one(byte: u8) -> ArrayVec<u8, 2>
    ensures { result.items ≡ byte ∷ [] }
{
    let mut bytes = ArrayVec::new();
    bytes.push(byte);
    bytes
}

// A quote and a byte.
fn behind_a_quote(byte: u8) -> ArrayVec<u8, 2>
    ensures { result.items ≡ 34 ∷ byte ∷ [] }
{
    let mut bytes = one(b'"');
    bytes.push(byte);
    bytes
}

// What stands for a byte.
fn instead(separators: Separators, place: Place, byte: u8) -> ArrayVec<u8, 2>
    ensures { result.items ≡ instead separators.from separators.to place byte }
{
    match place {
        Place::FieldStart if byte == separators.from => one(separators.to),
        Place::FieldStart if ends_line(byte) || byte == b'"' => one(byte),
        Place::FieldStart => behind_a_quote(byte),
        Place::Quoted if byte == b'"' => ArrayVec::new(),
        Place::Quoted => one(byte),
        _ if byte == separators.from => behind_a_quote(separators.to),
        _ if ends_line(byte) || byte == b'"' => behind_a_quote(byte),
        _ => one(byte),
    }
}

// Where the byte behind this one stands.
fn behind(from: u8, place: Place, byte: u8) -> Place
    ensures { result ≡ behind from place byte }
{
    match (place, byte) {
        (Place::Quoted, b'"') => Place::QuoteEnd,
        (Place::Quoted, _) => Place::Quoted,
        (Place::FieldStart | Place::QuoteEnd, b'"') => Place::Quoted,
        _ if byte == from || ends_line(byte) => Place::FieldStart,
        _ => Place::Field,
    }
}

/// Puts what stands for these bytes behind those that are ready, and says where the next byte stands.
pub(crate) fn push_translated(
    separators: Separators,
    place: Place,
    bytes: &[u8],
    ready: &mut ArrayVec<u8, READY>,
) -> Place
    requires room { array_vec_len ready.old + 2 * length bytes.now ≤ most_ready }
    ensures ready { ready.new.items ≡ ready.old.items ++ translated separators.from separators.to place bytes.now }
    ensures place { result ≡ behind_all separators.from place bytes.now }
{
    let mut place = place;
    for byte in bytes {
        let more = instead(separators, place, *byte);
        let Ok(()) = ready.try_extend_from_slice(more.as_slice()) else {
            unreachable!();
        };
        place = behind(separators.from, place, *byte);
    }
    place
}
