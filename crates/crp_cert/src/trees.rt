//! The symbols of a tree.
ghost use Rattle.std.specs.Prelude.{◌≡◌, ◌++◌, IsTrue, ◌↔◌, IfOk, IfSome, IfNone};
ghost use Rattle.crp_cert.specs.Script.{symbols_of};
ghost use Rattle.crp_cert.specs.ScriptFaults.{AreSymbols, BeginsWithTree};
ghost use Rattle.crp_cert.specs.Reading.{Reads, is_reason_byte, reason_word_at, reasons_at};
ghost use Rattle.crp_cert.specs.PartReading.{symbol_test, marks_test};
ghost use Rattle.crp_tree.specs.Tree.{Tree as Shape};
ghost use Rattle.crp_tree.specs.Symbols.{symbols};
ghost use Rattle.crp_tree.specs.Trees.{Fits};

use crate::fields::{after_tag, number};
use crate::version::Version;
use crp_bay::Position;
use crp_row::{Kind, Row};
use crp_tree::Tree;
use std::alloc::{AllocError, Global};

/// Whether a byte is a symbol by itself.
fn is_symbol(byte: u8) -> bool
    ensures { result ≡ symbol_test byte }
{
    byte == b'B' || (byte == b'L' || (byte == b'X' || byte == b'G'))
}

/// Whether a byte may stand in the text of reasons.
fn is_reason_byte(byte: u8) -> bool
    ensures { result ≡ is_reason_byte byte }
{
    b"BLTRF0123456789.,;".iter().any(|other| *other == byte)
}

/// The bytes of a text of reasons, and what follows them.
fn reason_word(bytes: &[u8]) -> (&[u8], &[u8])
    ensures { (result.0.now, result.1.now) ≡ reason_word_at bytes.now }
{
    let mut count = 0;
    while count < bytes.len() && is_reason_byte(bytes[count]) {
        count += 1;
    }
    bytes.split_at(count)
}

/// The number and the text of reasons in brackets, and what follows them.
#[tactic(auto, unfolding(crate::specs::Reading::reasons_at))]
fn reasons_of(bytes: &[u8]) -> Option<((u8, &[u8]), &[u8])>
    ensures { Reads (λ x. ((x.0.0, x.0.1.now), x.1.now)) result (reasons_at bytes.now) }
{
    let rest = after_tag(b"[", bytes)?;
    let (bound, rest) = number(255, rest)?;
    let rest = after_tag(b":", rest)?;
    let (text, rest) = reason_word(rest);
    let rest = after_tag(b"]", rest)?;
    Some(((bound as u8, text), rest))
}

/// Whether the bytes spell marks of a version.
fn are_marks(version: Version, bytes: &[u8]) -> bool
    ensures { result ≡ marks_test version bytes.now }
{
    let mut rest = bytes;
    while let Some((byte, behind)) = rest.split_first() {
        if is_symbol(*byte) {
            rest = behind;
            continue;
        }
        match version {
            Version::One | Version::Two => return false,
            Version::Three => {}
        }
        let Some((_, behind)) = reasons_of(rest) else {
            return false;
        };
        rest = behind;
    }
    true
}

/// Whether the bytes spell marks of a version, of which the first is not `G`: a part is not given to another as a whole.
pub fn are_symbols(version: Version, bytes: &[u8]) -> bool
    ensures { IsTrue result ↔ AreSymbols version bytes.now }
{
    after_tag(b"G", bytes).is_none() && are_marks(version, bytes)
}

/// The tree whose symbols the bytes begin with, and what follows them. Where there is one the position is what it was.
pub fn read_tree<'a>(
    alloc: Global,
    place: &mut Position,
    bytes: &'a [u8],
) -> Result<Option<(Tree, &'a [u8])>, AllocError>
    ensures found { IfOk result (λ found. IfSome found (λ x. Fits place.old.place x.0 × (bytes.now ≡ symbols_of x.0 ++ x.1.now))) }
    ensures back { IfOk result (λ found. IfSome found (λ x. place.new ≡ place.old)) }
    ensures none { IfOk result (λ found. IfNone found (¬ BeginsWithTree place.old.place bytes.now)) }
{
    let mut row = Row::new(alloc);
    let Some(rest) = read_symbols(&mut row, place, bytes)? else {
        return Ok(None);
    };
    Ok(Some((Tree::from_row(row), rest)))
}

/// Adds the symbols of the tree that the bytes begin with, and answers what follows them. Where there is one the position is what it was.

fn read_symbols<'a>(
    row: &mut Row,
    place: &mut Position,
    bytes: &'a [u8],
) -> Result<Option<&'a [u8]>, AllocError>
    ensures found { IfOk result (λ found. IfSome found (λ rest. (tree : Shape) × (row.new.symbols ≡ row.old.symbols ++ symbols tree) × Fits place.old.place tree × (bytes.now ≡ symbols_of tree ++ rest.now))) }
    ensures back { IfOk result (λ found. IfSome found (λ rest. place.new ≡ place.old)) }
    ensures none { IfOk result (λ found. IfNone found (¬ BeginsWithTree place.old.place bytes.now)) }
{
    if let Some(rest) = after_tag(b"B", bytes) {
        row.push(Kind::CutB, &[])?;
        return Ok(Some(rest));
    }
    if let Some(rest) = after_tag(b"L", bytes) {
        row.push(Kind::CutL, &[])?;
        return Ok(Some(rest));
    }
    if let Some(rest) = after_tag(b"G", bytes) {
        row.push(Kind::Given, &[])?;
        return Ok(Some(rest));
    }
    if let Some(((bound, text), rest)) = reasons_of(bytes) {
        row.push_reasons(bound, text)?;
        return Ok(Some(rest));
    }
    let Some(mut rest) = after_tag(b"X", bytes) else {
        return Ok(None);
    };
    let targets = place.targets();
    row.push(Kind::Branch(targets.len() as u8), &[])?;
    for target in targets.as_slice() {
        if !place.push(*target) {
            return Ok(None);
        }
        let Some(after) = read_symbols(row, place, rest)? else {
            return Ok(None);
        };
        let _popped = place.pop();
        rest = after;
    }
    Ok(Some(rest))
}
