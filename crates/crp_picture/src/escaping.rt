//! Names as a page has them.
ghost use Rattle.std.specs.Prelude.{◌≡◌, ◌++◌, ◌<◌, ◌≤◌, length, take, drop, flat_map, OnOk};
ghost use Rattle.bstr.specs.Utf8.{decoded, pieces};
ghost use Rattle.crp_picture.specs.Names.{front_of, last_four, escaped, label_piece, label};

use crate::names::{push_escaped_piece, push_label_piece, push_spaces};
use bstr::decode_utf8;
use std::alloc::AllocError;

// The first piece of a name: its character, if it is one, and its bytes; and the bytes behind it.
fn first_piece(name: &[u8]) -> (Option<char>, &[u8], &[u8])
    ensures character { result.0 ≡ (decoded name.now).char }
    ensures piece { result.1.now ≡ take (decoded name.now).size name.now }
    ensures behind { result.2.now ≡ drop (decoded name.now).size name.now }
    ensures fewer { 0 < length name.now → length result.2.now < length name.now }
    ensures short { length result.2.now ≤ length name.now }
{
    let (c, size) = decode_utf8(name);
    let (piece, behind) = name.split_at(size);
    (c, piece, behind)
}

// How many pieces a name has.
fn count_pieces(name: &[u8]) -> usize
    ensures { result ≡ length (pieces name.now) }
{
    let mut count = 0;
    let mut rest = name;
    while !rest.is_empty() {
        let (_, _, behind) = first_piece(rest);
        count += 1;
        rest = behind;
    }
    count
}

// The last four pieces of a name.
fn last_four(name: &[u8]) -> &[u8]
    ensures value { result.now ≡ last_four name.now }
    ensures short { length result.now ≤ length name.now }
{
    let mut rest = name;
    for i in 0..count_pieces(name).saturating_sub(4) {
        let (_, _, behind) = first_piece(rest);
        rest = behind;
    }
    rest
}

/// A name without its last four characters, and these.
pub fn cut_name(name: &[u8]) -> (&[u8], &[u8])
    ensures front { result.0.now ≡ front_of name.now }
    ensures last { result.1.now ≡ last_four name.now }
{
    let last = last_four(name);
    (&name[..name.len() - last.len()], last)
}

/// Adds a name as it stands in the text of a page.
pub fn push_escaped(text: &mut Vec<u8>, name: &[u8]) -> Result<(), AllocError>
    ensures { OnOk result (text.new.items ≡ text.old.items ++ escaped name.now) }
{
    let mut rest = name;
    while !rest.is_empty() {
        let (c, piece, behind) = first_piece(rest);
        push_escaped_piece(text, c, piece)?;
        rest = behind;
    }
    Ok(())
}

// Adds pieces of a label.
fn push_label_pieces(text: &mut Vec<u8>, name: &[u8]) -> Result<(), AllocError>
    ensures { OnOk result (text.new.items ≡ text.old.items ++ flat_map (λ p. label_piece p.char) (pieces name.now)) }
{
    let mut rest = name;
    while !rest.is_empty() {
        let (c, _, behind) = first_piece(rest);
        push_label_piece(text, c)?;
        rest = behind;
    }
    Ok(())
}

/// Adds the label of a container.
pub(crate) fn push_label(text: &mut Vec<u8>, name: &[u8]) -> Result<(), AllocError>
    ensures { OnOk result (text.new.items ≡ text.old.items ++ label name.now) }
{
    let last = last_four(name);
    push_spaces(text, 5usize.saturating_sub(count_pieces(last)))?;
    push_label_pieces(text, last)
}
