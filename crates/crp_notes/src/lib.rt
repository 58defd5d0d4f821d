//! What a run noticed of its input and its bays, as lines for the planner.
//!
//! `Notes` watches a run and writes its notes to standard error, and how far it is to a `Terminal`; nothing of the report rests on them. How each note is worded is said
//! in `specs/Wording.antt`, what is noted of slots that several orders name in `specs/Slots.antt`, of orders under other handling codes in
//! `specs/Unread.antt`, of bays that the list of sizes leaves out in `specs/Unlisted.antt`, of the bays of one size, by their plans, in
//! `specs/Beyond.antt`, and of a bay in `specs/Bays.antt`. Which names are alike is said by crp_order.
//! `Metered` is a source that shows on a `Terminal` how far it is read.
//! `note_left` notes what a report that is followed leaves of what is ordered: `specs/Left.antt`; and `note_outside` which moves of one that is written
//! anew are not of the restricted rule: `specs/Outside.antt`.
#![tactic(auto)]

mod bays;
mod containers;
mod left;
mod lines;
mod message;
mod meter;
mod metered;
mod naming;
mod notes;
mod one_line;
mod outside;
mod progress;
mod reaching;
mod rows;
mod sizes;
mod slots;
mod standing;
mod terminal;
mod tiers;
mod unknown;
mod unlisted;
mod unread;
mod wording;

pub use left::note_left;
pub use meter::{Meter, begin_reading, clear_reading};
pub use metered::Metered;
pub use notes::Notes;
pub use outside::note_outside;
pub use progress::Progress;
pub use terminal::{NoTerminal, Stoppable, Terminal};
