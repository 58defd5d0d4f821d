//! What is drawn at a place.

use crate::cell::Kind;

/// What is drawn at a place: a box, an outline, a corner, or an arrow up.
#[derive(Clone, Copy)]
pub(crate) enum Mark {
    Box(Kind),
    Outline,
    Corner,
    Up,
}
