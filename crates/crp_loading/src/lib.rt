//! The table of a followed report in the order in which the ship is loaded.
//!
//! `load_table` writes the records of the moves by the turns of the containers that leave, and `check_takes` says the first take that does
//! not fit the ship's order. What the turn and the slot of a container are is said in `specs/Turns.antt`, what the table is in
//! `specs/Loading.antt`, and what is refused in `specs/Faults.antt`. `counts_up_to` says how many moves are made when the ship has its first containers
//! (`specs/Loaded.antt`), and `load_summary` is the table of the bays with what no move takes of them (`specs/Summary.antt`).
#![tactic(auto)]

mod checking;
mod fault;
mod laws;
mod loaded;
mod loading;
mod recording;
mod ship;
mod summary;
mod turning;

pub use checking::check_takes;
pub use fault::LoadingFault;
pub use laws::{loaded_moves_have_turns, same_records, slots_are_as_ordered};
pub use loaded::counts_up_to;
pub use loading::load_table;
pub use recording::TurnColumns;
pub use ship::Ship;
pub use summary::load_summary;
pub use turning::moves_by_turns;
