//! Reads the text of a height for each row.

ghost use Rattle.std.specs.Prelude.{◌<◌, ◌*◌, ℕ, List, length, IfSome, IfNone};
ghost use Rattle.crp_sizes.specs.Heights.{HasHeightAt, IsHeightsText};

use arrayvec::ArrayVec;
use crp_plan::MAX_ROWS;

// The most bytes of the heights of rows.
const MOST_BYTES: usize = 2 * MAX_ROWS - 1;

// The height that stands in the text behind so many others, behind a point if it is not the first.
fn height_at(text: &[u8], before: usize) -> Option<u8>
    requires { 2 * before < length text.now }
    ensures some { IfSome result (HasHeightAt text.now before) }
    ensures none { IfNone result ((height : ℕ) → HasHeightAt text.now before height → ⊥) }
{
    if before > 0 && text[2 * before - 1] != b'.' {
        return None;
    }
    let digit = text[2 * before];
    if digit < b'1' || digit > b'8' {
        return None;
    }
    Some(digit - b'0')
}

/// The heights that a text states: 1 to 12 digits from 1 to 8, joined by points.
pub fn heights_in(text: &[u8]) -> Option<ArrayVec<u8, MAX_ROWS>>
    ensures some { IfSome result (λ heights. IsHeightsText heights.items text.now) }
    ensures none { IfNone result ((heights : List ℕ) → IsHeightsText heights text.now → ⊥) }
{
    if text.len() % 2 == 0 || text.len() > MOST_BYTES {
        return None;
    }
    let mut heights = ArrayVec::new();
    for before in 0..text.len() / 2 + 1 {
        let Some(height) = height_at(text, before) else {
            return None;
        };
        heights.push(height);
    }
    Some(heights)
}
