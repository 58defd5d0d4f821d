//! Draws what stands in a bay, and what a crane does there, as SVG.
//!
//! `push_start` and `push_end` draw the first and the last position of a bay, `frames` gives its frames one after the other, a relocation and the
//! takes behind it, and `push_frame` draws one; all stand on the ground of `push_ground`. What is drawn is said in `specs/Pictures.antt`, of which
//! containers in `specs/Cells.antt` and `specs/Frames.antt`, and where in `specs/Grid.antt`. `push_escaped` writes a name as the text of a
//! page has it, `cut_name` cuts off its last four bytes (`specs/Names.antt`).
#![tactic(auto)]

mod cell;
mod cells;
mod drawn;
mod escaping;
mod frame;
mod framing;
mod grid;
mod ground;
mod labels;
mod laws;
mod mark;
mod marks;
mod moving;
mod names;
mod picture;
mod steps;
mod wording;

pub use cells::count_blocking;
pub use drawn::DrawnBay;
pub use escaping::{cut_name, push_escaped};
pub use frame::Frame;
pub use framing::{LaterFrames, frames};
pub use ground::{push_ground, push_ground_name};
pub use laws::{each_is_drawn_once, places_lie_apart};
pub use names::push_hex_byte;
pub use picture::{push_end, push_frame, push_start};
