//! Words the tiers of rows.
ghost use Rattle.std.specs.Prelude.{◌≡◌, ◌==◌, ◌++◌, ◌∷◌, IfOk, OnOk, flat_map, nat_lt, codes, decimal, if◌then◌else◌};
ghost use Rattle.std.specs.List.{list_all};
ghost use Rattle.crp_notes.specs.Wording.{tiers_words};

use itoa::Buffer;
use std::alloc::{AllocError, Global};

// Adds a number.
fn push_number(text: &mut Vec<u8>, number: u8) -> Result<(), AllocError>
    ensures { OnOk result (text.new.items ≡ text.old.items ++ decimal number) }
{
    let mut digits = Buffer::new();
    text.extend_from_slice(digits.format(number).as_bytes())
}

// Adds heights, each behind a point.
fn push_heights(text: &mut Vec<u8>, heights: &[u8]) -> Result<(), AllocError>
    ensures { OnOk result (text.new.items ≡ text.old.items ++ flat_map (λ other. 46 ∷ decimal other) heights.now) }
{
    for height in heights {
        text.push(b'.')?;
        push_number(text, *height)?;
    }
    Ok(())
}

// Whether each of the heights is this one.
fn are_all(heights: &[u8], height: u8) -> bool
    ensures { result ≡ list_all (λ other. other == height) heights.now }
{
    heights.iter().all(|other| *other == height)
}

// Behind a height that each row has.
fn each_words(height: u8) -> &'static [u8]
    ensures { result.now ≡ (if nat_lt 1 height then codes " tiers" else codes " tier") }
{
    if 1 < height { b" tiers" } else { b" tier" }
}

/// The tiers of rows.
pub(crate) fn tiers_words(alloc: Global, heights: &[u8]) -> Result<Vec<u8>, AllocError>
    ensures { IfOk result (λ text. text.items ≡ tiers_words heights.now) }
{
    let mut text = Vec::new(alloc);
    let [first, others @ ..] = heights else {
        return Ok(text);
    };
    push_number(&mut text, *first)?;
    if are_all(others, *first) {
        text.extend_from_slice(each_words(*first))?;
        return Ok(text);
    }
    push_heights(&mut text, others)?;
    text.extend_from_slice(b" tiers")?;
    Ok(text)
}
