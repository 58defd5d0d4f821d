//! What the pieces of a text say.

use crp_checker::Verdict;
use crp_plan::BayName;
use crp_said::{Numbers, Said, SaidMove};

/// What is printed.
#[derive(Clone, Copy)]
pub enum Printed {
    /// The report of a run. Each piece is one entry.
    Report,
    /// What certificates show of bays, and how many of these were audited. Each piece is some entries, each on a line of its own.
    Checks,
    /// Bounds of a bay. Each piece is one entry.
    Bounds,
}

/// A bay as its lines state it.
#[derive(Drop)]
pub struct BayEntry {
    pub bay: BayName,
    pub said: Said,
    pub moves: Vec<SaidMove>,
}

/// What a certificate shows of a bay.
#[derive(Drop)]
pub struct BayVerdict {
    pub bay: BayName,
    pub verdict: Verdict,
}

/// A rank of chains of containers.
#[derive(Clone, Copy)]
pub struct ChainRank {
    /// Whether a chain begins with it.
    pub begins: bool,
    pub rank: u32,
}

/// Chains of containers, as a line states them.
#[derive(Drop)]
pub struct Chains {
    /// The relocations that each plan has at least, by them.
    pub bound: u32,
    /// Their ranks, one chain after the other.
    pub ranks: Vec<ChainRank>,
}

/// Bounds of a bay, as lines state them: the relocations that each plan has at least.
#[derive(Drop)]
pub struct BayBounds {
    pub bay: BayName,
    pub blocking: u32,
    pub look_ahead: u32,
    pub chains: Option<Chains>,
}

/// An entry of what is printed.
#[derive(Drop)]
pub enum Entry {
    /// The first line of a report.
    First(Numbers),
    /// The line of a bay in a report, and those of its moves.
    Bay(BayEntry),
    /// The last line of a report.
    Last { bays: u32, decided: u32 },
    /// What a certificate shows.
    Certified(BayVerdict),
    /// How many bays were audited.
    Audited(u32),
    /// The lines of bounds.
    Bounds(BayBounds),
}
