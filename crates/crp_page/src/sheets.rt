//! What stands in the head of each sheet where the page is printed.
ghost use Rattle.std.specs.Prelude.{◌≡◌, ◌++◌, flat_map, option_map, OnOk};
ghost use Rattle.crp_page.specs.Sheets.{is_plain, styled_mark, styled_byte, said, heading_text, is_silent, heading_rule, ship_rule};

use crp_loading::Ship;
use crp_movins::Heading;
use crp_picture::push_hex_byte;
use std::alloc::AllocError;

/// Whether a byte stands in a text of a style sheet as it is.
fn is_plain(byte: u8) -> bool
    ensures { result ≡ is_plain byte }
{
    let is_printed = 32 <= byte && byte <= 126;
    is_printed && !((byte == b'"' || byte == b'&') || (byte == b'<' || byte == b'\\'))
}

/// What stands there for a mark that has a meaning of its own.
fn styled_mark(byte: u8) -> Option<&'static [u8]>
    ensures { option_map (λ text. text.now) result ≡ styled_mark byte }
{
    match byte {
        b'"' => Some(b"\\000022"),
        b'&' => Some(b"\\000026"),
        b'<' => Some(b"\\00003C"),
        _ => None,
    }
}

/// Adds a byte of such a text.
fn push_styled_byte(text: &mut Vec<u8>, byte: u8) -> Result<(), AllocError>
    ensures { OnOk result (text.new.items ≡ text.old.items ++ styled_byte byte) }
{
    if is_plain(byte) {
        text.push(byte)?;
        return Ok(());
    }
    if let Some(mark) = styled_mark(byte) {
        return text.extend_from_slice(mark);
    }
    text.push(b'\\')?;
    push_hex_byte(text, byte)
}

/// Adds bytes of such a text.
fn push_styled(text: &mut Vec<u8>, bytes: &[u8]) -> Result<(), AllocError>
    ensures { OnOk result (text.new.items ≡ text.old.items ++ flat_map styled_byte bytes.now) }
{
    for byte in bytes {
        push_styled_byte(text, *byte)?;
    }
    Ok(())
}

/// Adds what is said behind its word, if it is said.
fn push_said(text: &mut Vec<u8>, word: &[u8], bytes: &[u8]) -> Result<(), AllocError>
    ensures { OnOk result (text.new.items ≡ text.old.items ++ said word.now bytes.now) }
{
    if bytes.is_empty() {
        return Ok(());
    }
    text.push(b'"')?;
    text.extend_from_slice(word)?;
    push_styled(text, bytes)?;
    text.extend_from_slice(b". \"")
}

/// Adds the ship, its voyage and the date of the message.
fn push_heading(text: &mut Vec<u8>, heading: &Heading) -> Result<(), AllocError>
    ensures { OnOk result (text.new.items ≡ text.old.items ++ heading_text heading.now) }
{
    push_said(text, b"Ship ", heading.ship())?;
    push_said(text, b"Voyage ", heading.voyage())?;
    push_said(text, b"Message of ", heading.date())
}

/// Whether none of them is said.
fn is_silent(heading: &Heading) -> bool
    ensures { result ≡ is_silent heading.now }
{
    heading.ship().is_empty() && heading.voyage().is_empty() && heading.date().is_empty()
}

/// Adds the rule for the head of the sheets, if one of them is said.
fn push_heading_rule(text: &mut Vec<u8>, heading: &Heading) -> Result<(), AllocError>
    ensures { OnOk result (text.new.items ≡ text.old.items ++ heading_rule heading.now) }
{
    if is_silent(heading) {
        return Ok(());
    }
    text.extend_from_slice(b"@page{@top-center{content:")?;
    push_heading(text, heading)?;
    text.extend_from_slice(b";font:9pt sans-serif}}\n")?;
    Ok(())
}

/// Adds the rule where there is a ship.
pub(crate) fn push_ship_rule(text: &mut Vec<u8>, ship: &Option<Ship<'_>>) -> Result<(), AllocError>
    ensures { OnOk result (text.new.items ≡ text.old.items ++ ship_rule ship.now) }
{
    match ship {
        Some(ship) => push_heading_rule(text, ship.heading()),
        None => Ok(()),
    }
}
