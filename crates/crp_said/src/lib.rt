//! What a report says, and how it is spelled.
//!
//! `read_report` gives what the text of a report says, or the first line that is not as said; `read_numbers`, `read_bay`,
//! `read_last` and `read_move` what one line says.
//! `push_line`, `push_bay_line` and the others write the lines, and `complete` adds the last line to a report that ends early. What the
//! text is is said in `specs/Said.antt`, the lines of moves in `specs/MoveLines.antt`, what is refused in `specs/Spelled.antt`, and what
//! completes a report in `specs/Completed.antt`.
#![tactic(auto)]

mod completing;
mod cutting;
mod fields;
mod laws;
mod line_reading;
mod lines;
mod move_lines;
mod move_reading;
mod moves;
mod numbers;
mod reading;
mod report;
mod said;

pub use completing::{Completed, complete};
pub use cutting::cut_line;
pub use laws::{one_move, one_report, takes_are_in_order};
pub use line_reading::{read_bay, read_last, read_numbers};
pub use lines::{last_text, numbers_text, push_bay_line, push_bay_words, push_said};
pub use move_lines::{lines_of, names_of, names_of_ranks, push_line, push_words};
pub use move_reading::read_move;
pub use moves::{Place, SaidMove};
pub use numbers::Numbers;
pub use reading::{line_behind, read_report};
pub use report::{Report, ReportFault};
pub use said::{Said, SaidBay, SaidCause};
