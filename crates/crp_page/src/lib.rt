//! The page of a report that is followed: one HTML text that needs nothing besides itself.
//!
//! `write_page` writes it. What it says is defined in `specs/Page.antt`, what it says of all bays in `specs/Summary.antt`, the section of a
//! bay in `specs/Sections.antt`, the section in the ship's order in `specs/Turns.antt`, what the figures stand on in `specs/Grounds.antt`, its head on paper in `specs/Sheets.antt`, and its words in `specs/Words.antt`; the pictures are
//! those of crp_picture.
#![tactic(auto)]

mod constants;
mod counting;
mod figures;
mod front;
mod grounds;
mod ordered;
mod section;
mod sheets;
mod summary;
mod turns;
mod words;
mod writing;

pub use constants::{HEAD_OF_PAGE, KEY, TABLE_HEAD};
pub use ordered::OrderNumbers;
pub use writing::write_page;
