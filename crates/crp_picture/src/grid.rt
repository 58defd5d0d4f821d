//! Where things stand in a picture, in px.
ghost use Rattle.std.specs.Prelude.{◌≡◌, ◌++◌, ◌*◌, ◌≤◌, OnOk};
ghost use Rattle.crp_picture.specs.Grid.{x_of, y_of, stroke_at, bar_at, outline_at, path, text_at, width_of, pieces_as_far, line};

use crp_cert::push_decimal;
use std::alloc::AllocError;

/// The left side of a row.
pub(crate) fn x_of(row: u64) -> u128
    ensures { result ≡ x_of row }
{
    18 + 40 * u128::from(row.saturating_sub(1))
}

/// The upper side of a tier, where the highest row has so many tiers.
pub(crate) fn y_of(tiers: u8, tier: u64) -> u64
    ensures value { result ≡ y_of tiers tier }
    ensures small { result ≤ 8186 }
{
    26 + 32 * u64::from(tiers).saturating_sub(tier)
}

/// Adds a stroke that begins so far right of and below the upper left corner of a place.
pub(crate) fn push_stroke(
    text: &mut Vec<u8>,
    right: u8,
    down: u8,
    stroke: &[u8],
    tiers: u8,
    row: u64,
    tier: u64,
) -> Result<(), AllocError>
    ensures { OnOk result (text.new.items ≡ text.old.items ++ stroke_at right down stroke.now tiers row tier) }
{
    text.push(b'M')?;
    push_decimal(text, x_of(row) + u128::from(right))?;
    text.push(b' ')?;
    push_decimal(text, y_of(tiers, tier) + u64::from(down))?;
    text.extend_from_slice(stroke)
}

/// Adds the box of a place.
pub(crate) fn push_bar(text: &mut Vec<u8>, tiers: u8, row: u64, tier: u64) -> Result<(), AllocError>
    ensures { OnOk result (text.new.items ≡ text.old.items ++ bar_at tiers row tier) }
{
    push_stroke(text, 2, 16, b"h36", tiers, row, tier)
}

/// Adds the outline of the box.
pub(crate) fn push_outline(
    text: &mut Vec<u8>,
    tiers: u8,
    row: u64,
    tier: u64,
) -> Result<(), AllocError>
    ensures { OnOk result (text.new.items ≡ text.old.items ++ outline_at tiers row tier) }
{
    push_stroke(text, 2, 2, b"h36v28h-36z", tiers, row, tier)
}

/// Adds strokes of a class; nothing where there are none.
pub(crate) fn push_path(text: &mut Vec<u8>, class: &[u8], strokes: &[u8]) -> Result<(), AllocError>
    ensures { OnOk result (text.new.items ≡ text.old.items ++ path class.now strokes.now) }
{
    if strokes.is_empty() {
        return Ok(());
    }
    text.extend_from_slice(b"<path class=\"")?;
    text.extend_from_slice(class)?;
    text.extend_from_slice(b"\" d=\"")?;
    text.extend_from_slice(strokes)?;
    text.extend_from_slice(b"\"/>")
}

// Adds the beginning of a text at (x, y).
fn push_text_at(text: &mut Vec<u8>, class: u8, x: u8, y: u64) -> Result<(), AllocError>
    ensures { OnOk result (text.new.items ≡ text.old.items ++ text_at class x y) }
{
    text.extend_from_slice(b"<text class=\"")?;
    text.push(class)?;
    text.extend_from_slice(b"\" x=\"")?;
    push_decimal(text, x)?;
    text.extend_from_slice(b"\" y=\"")?;
    push_decimal(text, y)
}

// Adds how wide a text is that goes as far as this row.
fn push_width(text: &mut Vec<u8>, last: u64) -> Result<(), AllocError>
    ensures { OnOk result (text.new.items ≡ text.old.items ++ width_of last) }
{
    text.extend_from_slice(b"\" textLength=\"")?;
    push_decimal(text, 40 * u128::from(last))?;
    text.extend_from_slice(b"\" lengthAdjust=\"spacingAndGlyphs\">")?;
    Ok(())
}

// Adds pieces that go as far as this row.
fn push_as_far(text: &mut Vec<u8>, last: u64, pieces: &[u8]) -> Result<(), AllocError>
    ensures { OnOk result (text.new.items ≡ text.old.items ++ pieces_as_far last pieces.now) }
{
    push_width(text, last)?;
    text.extend_from_slice(pieces)?;
    text.extend_from_slice(b"</text>")?;
    Ok(())
}

/// Adds a line of text from row 1 to this row, at (x, y); nothing where the row is 0.
pub(crate) fn push_text_line(
    text: &mut Vec<u8>,
    class: u8,
    x: u8,
    y: u64,
    last: u64,
    pieces: &[u8],
) -> Result<(), AllocError>
    ensures { OnOk result (text.new.items ≡ text.old.items ++ line class x y last pieces.now) }
{
    if last == 0 {
        return Ok(());
    }
    push_text_at(text, class, x, y)?;
    push_as_far(text, last, pieces)?;
    Ok(())
}
