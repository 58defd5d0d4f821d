//! The ground on which every picture stands.
ghost use Rattle.std.specs.Prelude.{◌≡◌, ◌++◌, ◌+◌, ◌*◌, ◌∷◌, length, codes, decimal, IfOk, OnOk};
ghost use Rattle.crp_picture.specs.Pictures.{places_of_row, places_to, row_numbers, tier_lefts, tier_heights, tier_numbers, tiers_head, tiers_text, floor_of, ground_parts, ground_name, ground_picture};

use crate::grid::{push_bar, push_path, push_text_line, y_of};
use crate::labels::push_number;
use crp_cert::push_decimal;
use crp_plan::tallest;
use std::alloc::{AllocError, Global};

// Adds the empty places of a row of so many tiers.
fn push_row(text: &mut Vec<u8>, tiers: u8, row: u64, height: u8) -> Result<(), AllocError>
    ensures { OnOk result (text.new.items ≡ text.old.items ++ places_of_row tiers row height) }
{
    for i in 0..height {
        push_bar(text, tiers, row, u64::from(i) + 1)?;
    }
    Ok(())
}

// The empty places of all rows.
fn places(alloc: Global, tiers: u8, heights: &[u8]) -> Result<Vec<u8>, AllocError>
    ensures { IfOk result (λ text. text.items ≡ places_to tiers heights.now (length heights.now)) }
{
    let mut text = Vec::new(alloc);
    for i in 0..heights.len() {
        push_row(&mut text, tiers, i as u64 + 1, heights[i])?;
    }
    Ok(text)
}

// The numbers of so many rows.
fn row_numbers(alloc: Global, rows: u64) -> Result<Vec<u8>, AllocError>
    ensures { IfOk result (λ text. text.items ≡ row_numbers rows) }
{
    let mut text = Vec::new(alloc);
    for i in 0..rows {
        push_number(&mut text, i + 1)?;
    }
    Ok(text)
}

// Adds for so many tiers where the number stands from the left.
fn push_lefts(text: &mut Vec<u8>, tiers: u8) -> Result<(), AllocError>
    ensures { OnOk result (text.new.items ≡ text.old.items ++ tier_lefts tiers) }
{
    for i in 0..tiers {
        let left: &[u8] = if i == 0 { b"5" } else { b" 5" };
        text.extend_from_slice(left)?;
    }
    Ok(())
}

// Adds for each tier where the number stands from above.
fn push_heights(text: &mut Vec<u8>, tiers: u8) -> Result<(), AllocError>
    ensures { OnOk result (text.new.items ≡ text.old.items ++ tier_heights tiers tiers) }
{
    for i in 0..tiers {
        let between: &[u8] = if i == 0 { b"" } else { b" " };
        text.extend_from_slice(between)?;
        push_decimal(text, y_of(tiers, u64::from(i) + 1) + 20)?;
    }
    Ok(())
}

// Adds the numbers of so many tiers.
fn push_numbers(text: &mut Vec<u8>, tiers: u8) -> Result<(), AllocError>
    ensures { OnOk result (text.new.items ≡ text.old.items ++ tier_numbers tiers) }
{
    for i in 0..tiers {
        push_decimal(text, i + 1)?;
    }
    Ok(())
}

// Adds where the numbers of so many tiers stand.
fn push_tiers_head(text: &mut Vec<u8>, tiers: u8) -> Result<(), AllocError>
    ensures { OnOk result (text.new.items ≡ text.old.items ++ tiers_head tiers) }
{
    text.extend_from_slice(b"<text class=\"q\" x=\"")?;
    push_lefts(text, tiers)?;
    text.extend_from_slice(b"\" y=\"")?;
    push_heights(text, tiers)
}

// Adds the numbers of so many tiers in their places.
fn push_tiers(text: &mut Vec<u8>, tiers: u8) -> Result<(), AllocError>
    ensures { OnOk result (text.new.items ≡ text.old.items ++ tiers_text tiers) }
{
    push_tiers_head(text, tiers)?;
    text.extend_from_slice(b"\">")?;
    push_numbers(text, tiers)?;
    text.extend_from_slice(b"</text>")?;
    Ok(())
}

// The line on which the lowest tier stands.
fn floor_of(alloc: Global, tiers: u8, rows: u64) -> Result<Vec<u8>, AllocError>
    ensures { IfOk result (λ text. text.items ≡ floor_of tiers rows) }
{
    let mut text = Vec::from_slice(alloc, b"M18 ")?;
    push_decimal(&mut text, 27 + 32 * u32::from(tiers))?;
    text.push(b'h')?;
    push_decimal(&mut text, 40 * u128::from(rows))?;
    Ok(text)
}

// Adds the parts of the ground of rows of which the highest has so many tiers.
fn push_parts(
    alloc: Global,
    text: &mut Vec<u8>,
    tiers: u8,
    heights: &[u8],
) -> Result<(), AllocError>
    ensures { OnOk result (text.new.items ≡ text.old.items ++ ground_parts tiers heights.now) }
{
    let rows = heights.len() as u64;
    let places = places(alloc, tiers, heights)?;
    let floor = floor_of(alloc, tiers, rows)?;
    let numbers = row_numbers(alloc, rows)?;
    push_path(text, b"f", &places)?;
    push_path(text, b"g", &floor)?;
    push_text_line(text, b'q', 1, 40 + 32 * u64::from(tiers), rows, &numbers)?;
    push_tiers(text, tiers)?;
    Ok(())
}

/// Adds the name of the ground with this number, or of the one without a number.
pub fn push_ground_name(text: &mut Vec<u8>, number: Option<u64>) -> Result<(), AllocError>
    ensures { OnOk result (text.new.items ≡ text.old.items ++ ground_name number) }
{
    text.push(b'g')?;
    match number {
        Some(number) => push_decimal(text, number),
        None => Ok(()),
    }
}

/// Adds the ground of rows with these heights: the empty places, and the numbers of rows and tiers. It is the element of its name, which
/// the pictures on it use.
pub fn push_ground(
    alloc: Global,
    text: &mut Vec<u8>,
    number: Option<u64>,
    heights: &[u8],
) -> Result<(), AllocError>
    ensures { OnOk result (text.new.items ≡ text.old.items ++ ground_picture number heights.now) }
{
    text.extend_from_slice(b"<g id=\"")?;
    push_ground_name(text, number)?;
    text.extend_from_slice(b"\">")?;
    push_parts(alloc, text, tallest(heights), heights)?;
    text.extend_from_slice(b"</g>")?;
    Ok(())
}
