//! Which containers of each bay leave, and in which order: the sequence of the load orders, and the
//! problem of each bay that one of its containers stands in.
//!
//! `sequence` puts the ordered containers in the order of listing or of stowage, `of_bays` leaves out
//! those of bays that a run is not for, `problems` states the problem of each bay, and `absent_list`
//! lists the ordered containers that are not in the yard. What a sequence is is said in
//! `specs/Sequences.antt` and `specs/OfBays.antt`, what the problem of a bay is in
//! `specs/BayProblems.antt`, which slot is beneath which in `specs/Slots.antt`, what the list of absent
//! containers is in `specs/Absences.antt`, and which names are alike in `specs/Alike.antt`.
#![tactic(auto)]

mod absences;
mod bay_problem;
mod bays;
mod choosing;
mod digits;
mod groups;
mod laws;
mod likeness;
mod ranks;
mod sequences;
mod sequencing;
mod slots;
mod stating;

pub use absences::{absent, absent_list};
pub use bay_problem::BayProblem;
pub use choosing::{of_bays, sequence_of_bays};
pub use digits::slot_digits;
pub use laws::{
    absent_in_named_bays, beneath_comes_first, one_sequence, one_sequence_of_bays,
    problems_of_named_bays, ranks_by_places,
};
pub use likeness::alike;
pub use sequences::{Mode, Sequence};
pub use sequencing::sequence;
pub use slots::beneath;
pub use stating::problems;
