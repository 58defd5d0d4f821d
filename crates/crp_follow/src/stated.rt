//! What a report states, line by line.

use crp_plan::BayName;
use crp_said::{Said, SaidMove};

/// A move that a report states, and the number of its line, from 1.
#[derive(Drop)]
pub struct StatedMove {
    pub line: u64,
    pub said: SaidMove,
}

/// A bay of a report: the number of its line, from 1, its name, what is said of its fewest relocations, and its moves.
#[derive(Drop)]
pub struct StatedBay {
    pub line: u64,
    pub bay: BayName,
    pub said: Said,
    pub moves: Vec<StatedMove>,
}
