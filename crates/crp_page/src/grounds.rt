//! What the figures of a bay stand on.
ghost use Rattle.std.specs.Prelude.{◌≡◌, ◌+◌, ◌*◌, ◌++◌, max, length, option_map, OnOk};
ghost use Rattle.crp_sizes.specs.Sizes.{heights_of};
ghost use Rattle.crp_page.specs.Grounds.{on_paper, column_sizes, sizes, hidden_ground, ground_of};

use crp_cert::push_decimal;
use crp_picture::push_ground;
use crp_plan::{BayName, tallest};
use crp_sizes::Sizes;
use std::alloc::{AllocError, Global};

/// What the figures of a bay stand on: so many rows, of which the highest has so many tiers, and the ground with this number, or else the
/// one of the page.
#[derive(Clone, Copy)]
pub struct Ground {
    pub rows: u64,
    pub tiers: u8,
    pub number: Option<u64>,
}

/// How wide a figure of so many rows is on paper, and how the sheet lies.
fn on_paper(rows: u64) -> &'static [u8]
    ensures { result.now ≡ on_paper rows }
{
    if rows <= 4 {
        b"20%;page:tall"
    } else if rows <= 6 {
        b"25%;page:tall"
    } else if rows <= 8 {
        b"33%;page:tall"
    } else {
        b"30%;page:wide"
    }
}

/// The width of a column of the screen.
fn screen_width(rows: u64) -> u128
    ensures { result ≡ max 224 (22 + 40 * rows) }
{
    (22 + 40 * u128::from(rows)).max(224)
}

/// Adds the sizes of a column.
fn push_column_sizes(text: &mut Vec<u8>, rows: u64) -> Result<(), AllocError>
    ensures { OnOk result (text.new.items ≡ text.old.items ++ column_sizes rows) }
{
    text.extend_from_slice(b"px;--c:")?;
    push_decimal(text, screen_width(rows))?;
    text.extend_from_slice(b"px;--q:")?;
    text.extend_from_slice(on_paper(rows))
}

/// Adds the sizes of pictures and columns, for rows of these heights.
pub(crate) fn push_sizes(text: &mut Vec<u8>, heights: &[u8]) -> Result<(), AllocError>
    ensures { OnOk result (text.new.items ≡ text.old.items ++ sizes heights.now) }
{
    let rows = heights.len() as u64;
    text.extend_from_slice(b"--w:")?;
    push_decimal(text, 22 + 40 * u128::from(rows))?;
    text.extend_from_slice(b"px;--h:")?;
    push_decimal(text, 83 + 32 * u32::from(tallest(heights)))?;
    push_column_sizes(text, rows)
}

/// Adds the ground of rows of these heights, for figures to stand on.
pub(crate) fn push_hidden_ground(
    alloc: Global,
    text: &mut Vec<u8>,
    number: Option<u64>,
    heights: &[u8],
) -> Result<(), AllocError>
    ensures { OnOk result (text.new.items ≡ text.old.items ++ hidden_ground number heights.now) }
{
    text.extend_from_slice(b"<svg class=\"z\" aria-hidden=\"true\"><defs>")?;
    push_ground(alloc, text, number, heights)?;
    text.extend_from_slice(b"</defs></svg>\n")?;
    Ok(())
}

/// The number of the section of a bay that is listed.
fn own_number(sizes: &Sizes, number: u64, bay: &BayName) -> Option<u64>
    ensures { result ≡ option_map (λ heights. number) (heights_of sizes.now.listed bay.now) }
{
    match sizes.heights_of(bay) {
        Some(_) => Some(number),
        None => None,
    }
}

/// What the figures of a bay stand on, in the section with this number.
pub(crate) fn ground_of(sizes: &Sizes, number: u64, bay: &BayName) -> Ground
    ensures { result ≡ ground_of sizes.now number bay.now }
{
    let heights = sizes.heights_at(bay);
    Ground {
        rows: heights.len() as u64,
        tiers: tallest(heights),
        number: own_number(sizes, number, bay),
    }
}
