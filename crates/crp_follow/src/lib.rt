//! Follows the moves of a report over a yard, whoever wrote it.
//!
//! `follow` says where the moves of each bay lead, or the first fault. What a crane can do is said in `specs/Crane.antt`, what the lines of a
//! report are, whichever editor wrote it, in `specs/Lines.antt`, what it states line by line in `specs/Stated.antt`, what a report is that
//! is followed in `specs/Followed.antt`, and why one is not in `specs/TextFaults.antt` and `specs/Faults.antt`. `write_table` writes the
//! table of the moves, which `specs/Table.antt` defines, `summary_text` is the table of the bays (`specs/Summary.antt`), `compare_text` that
//! of the bays of two reports of one yard (`specs/Compare.antt`), and `list_behind` the list of the yard as it stands when moves were made
//! (`specs/Behind.antt`). `choose_part` gives what a report says of some bays (`specs/Parts.antt`, `specs/Unstated.antt`). `rewrite` gives a
//! report whose moves were edited with lines that count them (`specs/Rewritten.antt`), and names the moves that are not of the restricted
//! rule (`specs/Rule.antt`).
#![tactic(auto)]

mod bays;
mod behind;
mod columns;
mod comparing;
mod fault;
mod followed;
mod following;
mod laws;
mod lines;
mod moving;
mod part;
mod pushing;
mod rewriting;
mod row;
mod rule;
mod stated;
mod stating;
mod stopping;
mod summary;
mod table;
mod taking;
mod unstated;

pub use bays::relocations_of;
pub use behind::{list_behind, move_counts};
pub use columns::{Columns, columns_of, standing};
pub use comparing::compare_text;
pub use fault::FollowFault;
pub use followed::{Followed, FollowedBay};
pub use following::follow;
pub use laws::{
    lines_are_numbered, moves_leave_a_yard, nothing_is_lost, one_outcome, stays_within_heights,
    what_columns_say, written_is_stated,
};
pub use moving::{make_move, row_index};
pub use part::Part;
pub use rewriting::{Rewritten, rewrite};
pub use row::Row;
pub use rule::OutsideMove;
pub use stated::{StatedBay, StatedMove};
pub use stating::MAX_BYTES;
pub use stopping::{Stopping, stopping_at_line};
pub use summary::{push_summary, summary_table, summary_text};
pub use table::{Table, number_field, table_text, write_table};
pub use taking::{Taken, leaves_at, takes_of};
pub use unstated::{Unstated, choose_part, first_unstated};
