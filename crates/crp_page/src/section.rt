//! The section of a bay.
ghost use Rattle.std.specs.Prelude.{◌≡◌, ◌++◌, ◌≤◌, Some, IfOk, OnOk};
ghost use Rattle.std.specs.Option.{option_copied};
ghost use Rattle.crp_follow.specs.Table.{StandFew};
ghost use Rattle.crp_follow.specs.Views.{bay_followed};
ghost use Rattle.crp_picture.specs.Views.{frame_as};
ghost use Rattle.crp_page.specs.Few.{LeaveFew};
ghost use Rattle.crp_page.specs.Sections.{moves_words, own_part, section_head, section_front, frame_figure, end_part, section_end};

use crate::figures::{push_bay_title, push_end_figure, push_frame_figure, push_start_figure};
use crate::grounds::{Ground, ground_of, push_hidden_ground, push_sizes};
use crate::words::{push_counted, push_verdict};
use crp_cert::push_decimal;
use crp_follow::{FollowedBay, relocations_of};
use crp_loading::Ship;
use crp_picture::{DrawnBay, Frame};
use crp_sizes::Sizes;
use std::alloc::{AllocError, Global};

/// Adds the moves of a bay, counted.
fn push_moves_words(text: &mut Vec<u8>, bay: &FollowedBay) -> Result<(), AllocError>
    ensures { OnOk result (text.new.items ≡ text.old.items ++ moves_words (bay_followed bay.now)) }
{
    let moves = bay.stated.moves.len();
    if moves == 0 {
        return text.extend_from_slice(b"no moves");
    }
    let relocations = relocations_of(&bay.stated.moves);
    push_counted(text, moves as u64, b"move")?;
    text.extend_from_slice(b": ")?;
    push_counted(text, relocations as u64, b"relocation")?;
    text.extend_from_slice(b" and ")?;
    push_counted(text, (moves - relocations) as u64, b"take")
}

/// Adds what heights of its own set in the section with this number.
fn push_own_heights(
    alloc: Global,
    text: &mut Vec<u8>,
    number: u64,
    heights: &[u8],
) -> Result<(), AllocError>
    ensures { OnOk result (text.new.items ≡ text.old.items ++ own_part number (Some heights.now)) }
{
    text.extend_from_slice(b"\" style=\"")?;
    push_sizes(text, heights)?;
    text.extend_from_slice(b"\">")?;
    push_hidden_ground(alloc, text, Some(number), heights)
}

/// Adds where the tag of the section with this number ends, and what heights of its own set.
fn push_own_part(
    alloc: Global,
    text: &mut Vec<u8>,
    number: u64,
    own: Option<&[u8]>,
) -> Result<(), AllocError>
    ensures { OnOk result (text.new.items ≡ text.old.items ++ own_part number (option_copied own.entry)) }
{
    match own {
        Some(heights) => push_own_heights(alloc, text, number, heights),
        None => text.extend_from_slice(b"\">"),
    }
}

/// Adds the head of the section with this number.
fn push_section_head(
    alloc: Global,
    text: &mut Vec<u8>,
    number: u64,
    own: Option<&[u8]>,
    bay: &FollowedBay,
) -> Result<(), AllocError>
    ensures { OnOk result (text.new.items ≡ text.old.items ++ section_head number (option_copied own.entry) (bay_followed bay.now)) }
{
    text.extend_from_slice(b"<section id=\"b")?;
    push_decimal(text, number)?;
    push_own_part(alloc, text, number, own)?;
    text.extend_from_slice(b"<header><h2>")?;
    push_bay_title(text, bay)?;
    text.extend_from_slice(b"</h2><p>")?;
    push_verdict(text, bay.stated.said)?;
    text.extend_from_slice(b" &#183; ")?;
    push_moves_words(text, bay)?;
    text.extend_from_slice(b"<a class=\"h\" href=\"#\">all bays</a></p></header><div><div>\n")?;
    Ok(())
}

/// What stands before the frames of the section with this number.
pub(crate) fn section_front(
    alloc: Global,
    sizes: &Sizes,
    number: u64,
    bay: &FollowedBay,
) -> Result<Vec<u8>, AllocError>
    requires { StandFew (bay_followed bay.now) }
    ensures { IfOk result (λ text. text.items ≡ section_front sizes.now number (bay_followed bay.now)) }
{
    let own = sizes.heights_of(&bay.stated.bay);
    let on = ground_of(sizes, number, &bay.stated.bay);
    let mut text = Vec::new(alloc);
    push_section_head(alloc, &mut text, number, own, bay)?;
    push_start_figure(alloc, &mut text, on, bay)?;
    Ok(text)
}

/// The figure of a frame.
pub(crate) fn frame_text(
    alloc: Global,
    on: Ground,
    ship: &Option<Ship<'_>>,
    bay: &DrawnBay<'_>,
    frame: &Frame<'_>,
) -> Result<Vec<u8>, AllocError>
    ensures { IfOk result (λ text. text.items ≡ frame_figure on ship.now bay.now (frame_as frame.now)) }
{
    let mut text = Vec::new(alloc);
    push_frame_figure(alloc, &mut text, on, ship, bay, frame)?;
    Ok(text)
}

/// Adds the figure of the end, where the bay has moves.
fn push_end_part(
    alloc: Global,
    text: &mut Vec<u8>,
    on: Ground,
    bay: &FollowedBay,
) -> Result<(), AllocError>
    requires { LeaveFew (bay_followed bay.now) }
    ensures { OnOk result (text.new.items ≡ text.old.items ++ end_part on (bay_followed bay.now)) }
{
    let moves = bay.stated.moves.len();
    if moves == 0 {
        return Ok(());
    }
    push_end_figure(alloc, text, on, bay)
}

/// What stands behind the frames.
pub(crate) fn section_end(
    alloc: Global,
    on: Ground,
    bay: &FollowedBay,
) -> Result<Vec<u8>, AllocError>
    requires { LeaveFew (bay_followed bay.now) }
    ensures { IfOk result (λ text. text.items ≡ section_end on (bay_followed bay.now)) }
{
    let mut text = Vec::new(alloc);
    push_end_part(alloc, &mut text, on, bay)?;
    text.extend_from_slice(b"</div></div></section>\n")?;
    Ok(text)
}
