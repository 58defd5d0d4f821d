//! The figures of a bay.
ghost use Rattle.std.specs.Prelude.{◌≡◌, ◌++◌, ◌≤◌, flat_map, OnOk};
ghost use Rattle.crp_follow.specs.Stated.{moves_of};
ghost use Rattle.crp_follow.specs.Table.{StandFew};
ghost use Rattle.crp_follow.specs.Views.{bay_followed};
ghost use Rattle.crp_picture.specs.Views.{frame_as};
ghost use Rattle.crp_page.specs.Few.{LeaveFew};
ghost use Rattle.crp_page.specs.Words.{move_to_slot};
ghost use Rattle.crp_page.specs.Sections.{figure_head, figure_body, figure, bay_title, start_title, frame_title, end_title, leaving_words, start_caption, frame_caption, end_caption, start_figure, frame_figure, end_figure};

use crate::grounds::Ground;
use crate::words::{push_bay_name, push_counted, push_move_to_slot, push_rows};
use crp_cert::push_decimal;
use crp_follow::{FollowedBay, StatedMove, relocations_of, standing};
use crp_loading::Ship;
use crp_picture::{
    DrawnBay, Frame, count_blocking, push_end, push_frame, push_ground_name, push_start,
};
use std::alloc::{AllocError, Global};

/// Adds where a figure begins.
fn push_figure_head(text: &mut Vec<u8>, on: Ground) -> Result<(), AllocError>
    ensures { OnOk result (text.new.items ≡ text.old.items ++ figure_head on) }
{
    text.extend_from_slice(b"<figure><svg viewBox=\"0 0 ")?;
    push_decimal(text, 22 + 40 * u128::from(on.rows))?;
    text.push(b' ')?;
    push_decimal(text, 43 + 32 * u32::from(on.tiers))?;
    text.extend_from_slice(b"\" role=\"img\"><title>")?;
    Ok(())
}

/// Adds what stands behind the title of a figure.
fn push_figure_body(
    text: &mut Vec<u8>,
    number: Option<u64>,
    picture: &[u8],
    caption: &[u8],
) -> Result<(), AllocError>
    ensures { OnOk result (text.new.items ≡ text.old.items ++ figure_body number picture.now caption.now) }
{
    text.extend_from_slice(b"</title><use href=\"#")?;
    push_ground_name(text, number)?;
    text.extend_from_slice(b"\"/>")?;
    text.extend_from_slice(picture)?;
    text.extend_from_slice(b"</svg><figcaption>")?;
    text.extend_from_slice(caption)?;
    text.extend_from_slice(b"</figcaption></figure>\n")?;
    Ok(())
}

/// Adds a figure with this title, picture and caption.
fn push_figure(
    text: &mut Vec<u8>,
    on: Ground,
    title: &[u8],
    picture: &[u8],
    caption: &[u8],
) -> Result<(), AllocError>
    ensures { OnOk result (text.new.items ≡ text.old.items ++ figure on title.now picture.now caption.now) }
{
    push_figure_head(text, on)?;
    text.extend_from_slice(title)?;
    push_figure_body(text, on.number, picture, caption)
}

/// Adds what the page calls a bay.
pub(crate) fn push_bay_title(text: &mut Vec<u8>, bay: &FollowedBay) -> Result<(), AllocError>
    ensures { OnOk result (text.new.items ≡ text.old.items ++ bay_title (bay_followed bay.now)) }
{
    text.extend_from_slice(b"Bay ")?;
    push_bay_name(text, &bay.stated.bay)
}

/// Adds the title of the start.
fn push_start_title(text: &mut Vec<u8>, bay: &FollowedBay) -> Result<(), AllocError>
    ensures { OnOk result (text.new.items ≡ text.old.items ++ start_title (bay_followed bay.now)) }
{
    push_bay_title(text, bay)?;
    text.extend_from_slice(b" at the start.")?;
    push_rows(text, &bay.start)?;
    Ok(())
}

/// Adds the title of a frame.
fn push_frame_title(
    text: &mut Vec<u8>,
    bay: &FollowedBay,
    frame: &Frame<'_>,
) -> Result<(), AllocError>
    ensures { OnOk result (text.new.items ≡ text.old.items ++ frame_title (bay_followed bay.now) (frame_as frame.now)) }
{
    push_bay_title(text, bay)?;
    text.extend_from_slice(b" before step ")?;
    push_decimal(text, frame.step)
}

/// Adds the title of the end.
fn push_end_title(text: &mut Vec<u8>, bay: &FollowedBay) -> Result<(), AllocError>
    ensures { OnOk result (text.new.items ≡ text.old.items ++ end_title (bay_followed bay.now)) }
{
    push_bay_title(text, bay)?;
    text.extend_from_slice(b" at the end.")?;
    push_rows(text, &bay.after)?;
    Ok(())
}

/// Adds how many containers leave, and how many block.
fn push_leaving(alloc: Global, text: &mut Vec<u8>, bay: &FollowedBay) -> Result<(), AllocError>
    ensures { OnOk result (text.new.items ≡ text.old.items ++ leaving_words (bay_followed bay.now)) }
{
    let moves = bay.stated.moves.len();
    if moves == 0 {
        return Ok(());
    }
    text.extend_from_slice(b": ")?;
    push_decimal(text, moves - relocations_of(&bay.stated.moves))?;
    text.extend_from_slice(b" leave, ")?;
    push_decimal(text, count_blocking(alloc, bay)?)?;
    text.extend_from_slice(b" block")
}

/// Adds the caption of the start.
fn push_start_caption(
    alloc: Global,
    text: &mut Vec<u8>,
    bay: &FollowedBay,
) -> Result<(), AllocError>
    requires { StandFew (bay_followed bay.now) }
    ensures { OnOk result (text.new.items ≡ text.old.items ++ start_caption (bay_followed bay.now)) }
{
    text.extend_from_slice(b"<p><b>Start</b> ")?;
    push_counted(text, standing(&bay.start), b"container")?;
    push_leaving(alloc, text, bay)?;
    text.extend_from_slice(b"</p>")?;
    Ok(())
}

/// Adds moves, with the slots that they fill.
fn push_moves(
    text: &mut Vec<u8>,
    ship: &Option<Ship<'_>>,
    moves: &[StatedMove],
) -> Result<(), AllocError>
    ensures { OnOk result (text.new.items ≡ text.old.items ++ flat_map (move_to_slot ship.now) (moves_of moves.now)) }
{
    for stated in moves {
        push_move_to_slot(text, ship, &stated.said)?;
    }
    Ok(())
}

/// Adds the caption of a frame.
fn push_frame_caption(
    text: &mut Vec<u8>,
    ship: &Option<Ship<'_>>,
    frame: &Frame<'_>,
) -> Result<(), AllocError>
    ensures { OnOk result (text.new.items ≡ text.old.items ++ frame_caption ship.now (frame_as frame.now)) }
{
    text.extend_from_slice(b"<ol start=\"")?;
    push_decimal(text, frame.step)?;
    text.extend_from_slice(b"\">")?;
    push_moves(text, ship, frame.moves)?;
    text.extend_from_slice(b"</ol>")?;
    Ok(())
}

/// Adds the caption of the end.
fn push_end_caption(text: &mut Vec<u8>, bay: &FollowedBay) -> Result<(), AllocError>
    requires { LeaveFew (bay_followed bay.now) }
    ensures { OnOk result (text.new.items ≡ text.old.items ++ end_caption (bay_followed bay.now)) }
{
    text.extend_from_slice(b"<p><b>End</b> ")?;
    push_counted(text, standing(&bay.after), b"container")?;
    text.extend_from_slice(b" left</p>")?;
    Ok(())
}

/// Adds the figure of the start.
pub(crate) fn push_start_figure(
    alloc: Global,
    text: &mut Vec<u8>,
    on: Ground,
    bay: &FollowedBay,
) -> Result<(), AllocError>
    requires { StandFew (bay_followed bay.now) }
    ensures { OnOk result (text.new.items ≡ text.old.items ++ start_figure on (bay_followed bay.now)) }
{
    let (mut title, mut picture, mut caption) = (Vec::new(alloc), Vec::new(alloc), Vec::new(alloc));
    push_start_title(&mut title, bay)?;
    push_start(alloc, &mut picture, on.tiers, bay)?;
    push_start_caption(alloc, &mut caption, bay)?;
    push_figure(text, on, &title, &picture, &caption)
}

/// Adds the figure of a frame.
pub(crate) fn push_frame_figure(
    alloc: Global,
    text: &mut Vec<u8>,
    on: Ground,
    ship: &Option<Ship<'_>>,
    bay: &DrawnBay<'_>,
    frame: &Frame<'_>,
) -> Result<(), AllocError>
    ensures { OnOk result (text.new.items ≡ text.old.items ++ frame_figure on ship.now bay.now (frame_as frame.now)) }
{
    let (mut title, mut picture, mut caption) = (Vec::new(alloc), Vec::new(alloc), Vec::new(alloc));
    push_frame_title(&mut title, bay.followed(), frame)?;
    push_frame(alloc, &mut picture, on.tiers, bay, frame)?;
    push_frame_caption(&mut caption, ship, frame)?;
    push_figure(text, on, &title, &picture, &caption)
}

/// Adds the figure of the end.
pub(crate) fn push_end_figure(
    alloc: Global,
    text: &mut Vec<u8>,
    on: Ground,
    bay: &FollowedBay,
) -> Result<(), AllocError>
    requires { LeaveFew (bay_followed bay.now) }
    ensures { OnOk result (text.new.items ≡ text.old.items ++ end_figure on (bay_followed bay.now)) }
{
    let (mut title, mut picture, mut caption) = (Vec::new(alloc), Vec::new(alloc), Vec::new(alloc));
    push_end_title(&mut title, bay)?;
    push_end(alloc, &mut picture, on.tiers, bay)?;
    push_end_caption(&mut caption, bay)?;
    push_figure(text, on, &title, &picture, &caption)
}
