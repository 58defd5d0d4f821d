//! Pieces of names as a page has them.
ghost use Rattle.std.specs.Prelude.{◌≡◌, ◌++◌, ◌<◌, ◌≤◌, flat_map, option_map, OnOk};
ghost use Rattle.crp_picture.specs.Names.{spaces, entity, is_control, is_mark, is_narrow, hex_digit, hex_byte, escaped_char, escaped_piece, label_char, label_piece};

use std::alloc::AllocError;

/// Adds so many spaces, 7 at most.
pub(crate) fn push_spaces(text: &mut Vec<u8>, count: usize) -> Result<(), AllocError>
    requires { count ≤ 7 }
    ensures { OnOk result (text.new.items ≡ text.old.items ++ spaces count) }
{
    let blank: &[u8] = b"       ";
    text.extend_from_slice(&blank[..count])
}

// What stands for a character that has a meaning of its own in XML.
fn entity(c: char) -> Option<&'static [u8]>
    ensures { option_map (λ e. e.now) result ≡ entity c }
{
    match c {
        '&' => Some(b"&amp;"),
        '<' => Some(b"&lt;"),
        '>' => Some(b"&gt;"),
        '"' => Some(b"&quot;"),
        '\'' => Some(b"&#39;"),
        _ => None,
    }
}

// Whether a character is a control, or a space that is not the common one.
fn is_control(c: u32) -> bool
    ensures { result ≡ is_control c }
{
    c < 32
        || (127 <= c && c <= 160)
        || (8192 <= c && c <= 8202)
        || (8232 <= c && c <= 8233)
        || c == 8239
        || c == 8287
        || c == 12288
}

// Whether a character is a mark without a width.
fn is_mark(c: u32) -> bool
    ensures { result ≡ is_mark c }
{
    c == 173
        || c == 1564
        || (8203 <= c && c <= 8207)
        || (8234 <= c && c <= 8238)
        || (8288 <= c && c <= 8303)
        || (65024 <= c && c <= 65039)
        || c == 65279
        || (65520 <= c && c <= 65535)
        || (917504 <= c && c <= 921599)
}

// Whether a character is as wide as each other, and stands alone.
fn is_narrow(c: u32) -> bool
    ensures { result ≡ is_narrow c }
{
    (32 <= c && c <= 126)
        || (161 <= c && c <= 172)
        || (174 <= c && c <= 767)
        || (880 <= c && c <= 1154)
        || (1162 <= c && c <= 1327)
}

fn hex_digit(n: u8) -> u8
    requires { n < 16 }
    ensures { result ≡ hex_digit n }
{
    if n < 10 { b'0' + n } else { b'A' - 10 + n }
}

/// Adds a byte as `\x` and two digits of base 16.
pub fn push_hex_byte(text: &mut Vec<u8>, byte: u8) -> Result<(), AllocError>
    ensures { OnOk result (text.new.items ≡ text.old.items ++ hex_byte byte) }
{
    text.extend_from_slice(b"\\x")?;
    text.push(hex_digit(byte / 16))?;
    text.push(hex_digit(byte % 16))?;
    Ok(())
}

// Adds bytes by their numbers.
fn push_hex_bytes(text: &mut Vec<u8>, bytes: &[u8]) -> Result<(), AllocError>
    ensures { OnOk result (text.new.items ≡ text.old.items ++ flat_map hex_byte bytes.now) }
{
    for byte in bytes {
        push_hex_byte(text, *byte)?;
    }
    Ok(())
}

// Adds a character of a name, which has these bytes.
fn push_escaped_char(text: &mut Vec<u8>, c: char, bytes: &[u8]) -> Result<(), AllocError>
    ensures { OnOk result (text.new.items ≡ text.old.items ++ escaped_char c bytes.now) }
{
    if let Some(entity) = entity(c) {
        return text.extend_from_slice(entity);
    }
    if c == '\\' || is_control(c as u32) || is_mark(c as u32) {
        return push_hex_bytes(text, bytes);
    }
    text.extend_from_slice(bytes)
}

/// Adds a piece of a name, which has these bytes.
pub(crate) fn push_escaped_piece(
    text: &mut Vec<u8>,
    c: Option<char>,
    bytes: &[u8],
) -> Result<(), AllocError>
    ensures { OnOk result (text.new.items ≡ text.old.items ++ escaped_piece c bytes.now) }
{
    match c {
        Some(c) => push_escaped_char(text, c, bytes),
        None => push_hex_bytes(text, bytes),
    }
}

// Adds a character of a label.
fn push_label_char(text: &mut Vec<u8>, c: char) -> Result<(), AllocError>
    ensures { OnOk result (text.new.items ≡ text.old.items ++ label_char c) }
{
    if let Some(entity) = entity(c) {
        return text.extend_from_slice(entity);
    }
    if is_narrow(c as u32) {
        let mut bytes = [0; 4];
        return text.extend_from_slice(c.encode_utf8(&mut bytes).as_bytes());
    }
    text.extend_from_slice(b"&#183;")
}

/// Adds a piece of a label.
pub(crate) fn push_label_piece(text: &mut Vec<u8>, c: Option<char>) -> Result<(), AllocError>
    ensures { OnOk result (text.new.items ≡ text.old.items ++ label_piece c) }
{
    match c {
        Some(c) => push_label_char(text, c),
        None => text.extend_from_slice(b"&#183;"),
    }
}
