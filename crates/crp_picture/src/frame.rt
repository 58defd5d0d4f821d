//! A frame of a bay.

use crp_follow::{Row, StatedMove};

/// A relocation and the run of takes behind it, or the takes before the first relocation: the number of the first of these moves, from 1,
/// the moves, those behind them, and the rows before them.
#[derive(Drop)]
pub struct Frame<'a> {
    pub step: u64,
    pub moves: &'a [StatedMove],
    pub later: &'a [StatedMove],
    pub before: Vec<Row>,
}
