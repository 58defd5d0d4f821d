//! The frames of a bay.
ghost use Rattle.std.specs.Prelude.{◌≡◌, ◌∷◌, [], IfOk, IfSome, IfNone};
ghost use Rattle.crp_follow.specs.Views.{bay_followed};
ghost use Rattle.crp_picture.specs.Frames.{frame_at, frames_of};
ghost use Rattle.crp_picture.specs.Views.{frame_as};

use crate::frame::Frame;
use crate::moving::{copied, make};
use crate::steps::{frame_length, is_shift};
use crp_follow::{FollowedBay, Row, StatedMove};
use std::alloc::{AllocError, Global};
use std::marker::Model;

// The frame that the first of these moves begins, which has this number and is made over these rows.
fn frame_at<'a>(
    alloc: Global,
    step: u64,
    rows: &[Row],
    moves: &'a [StatedMove],
) -> Result<Frame<'a>, AllocError>
    ensures { IfOk result (λ frame. frame_as frame ≡ frame_at step rows.now moves.now) }
{
    let length = frame_length(moves);
    let before = copied(alloc, rows)?;
    Ok(Frame {
        step,
        moves: &moves[..length],
        later: &moves[length..],
        before,
    })
}

/// The frames of a bay that are still to come, one after the other: the moves of the bay, how many of them are made, and the rows then.
#[derive(Drop)]
pub struct LaterFrames<'a> {
    moves: &'a [StatedMove],
    made: usize,
    rows: Vec<Row>,
}

impl<'a> Model for LaterFrames<'a> {
    ghost use Rattle.std.specs.Prelude.{◌+◌, List, drop};
    ghost use Rattle.crp_picture.specs.Frames.{Frame, frames_from};

    ghost Value = { List Frame };

    ghost view = { λ a. frames_from (a.made + 1) a.rows.items (drop a.made a.moves.now) };
}

impl<'a> LaterFrames<'a> {
    /// The next frame, if there is one, and those behind it.
    pub fn next(self, alloc: Global) -> Result<Option<(Frame<'a>, LaterFrames<'a>)>, AllocError>
        ensures next { IfOk result (λ next. IfSome next (λ x. self.entry ≡ frame_as x.0 ∷ x.1)) }
        ensures none { IfOk result (λ next. IfNone next (self.entry ≡ [])) }
    {
        let LaterFrames {
            moves,
            made,
            mut rows,
        } = self;
        for i in made..moves.len() {
            let said = &moves[i].said;
            if i == 0 || is_shift(said) {
                let frame = frame_at(alloc, i as u64 + 1, &rows, &moves[i..])?;
                make(alloc, &mut rows, said)?;
                let made = i + 1;
                return Ok(Some((frame, LaterFrames { moves, made, rows })));
            }
            make(alloc, &mut rows, said)?;
        }
        Ok(None)
    }
}

/// The frames of a bay, in their order. None is made before it is asked for.
pub fn frames(alloc: Global, bay: &FollowedBay) -> Result<LaterFrames<'_>, AllocError>
    ensures { IfOk result (λ frames. frames ≡ frames_of (bay_followed bay.now)) }
{
    let rows = copied(alloc, &bay.start)?;
    Ok(LaterFrames {
        moves: &bay.stated.moves,
        made: 0,
        rows,
    })
}
