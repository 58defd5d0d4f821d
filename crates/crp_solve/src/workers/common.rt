//! What all workers of a search have in common.
use crate::workers::open_work::OpenWork;
use crp_incumbent::{Board, Shared};
use crp_plan::Problem;
use crp_search::Thinning;
use crp_tree::{MAX_NAME, Name};
use std::alloc::Global;
use std::marker::Model;

/// Asked before each part is searched, told how far the search is, and asked whether it is to stop. Nothing that a search finds rests on
/// it, but how much it is.
pub trait Gate {
    ghost use Rattle.std.specs.Prelude.{◌≡◌, true};

    /// What is so where it stops a search.
    ghost may_stop: { Self → Type 0 } = { λ _. ⊥ };

    /// The worker begins the part of this name. It is called once for each, before its first node is looked at.
    fn begun(&self, worker: u32, task: &Name);

    /// A plan of so many relocations is known.
    fn planned(&self, _relocations: u32) {}

    /// So many positions more may be expanded. A worker says so behind each 4096, and for the rest where its part ends.
    fn claimed(&self, _positions: u32) {}

    /// Whether a timed search is to stop: then claims are refused as if the budget were spent. A worker asks where a part begins and behind
    /// each 4096 positions, and asks no more once it was so.
    fn stops(&self) -> bool
        ensures { result ≡ true → may_stop self.now }
    {
        false
    }

    /// Whether one worker looks first, so that others are not started for a problem that it solves at once. What it does then is not
    /// said to the gate.
    fn looks_first(&self) -> bool {
        false
    }
}

/// The gate that asks for nothing.
#[derive(Clone, Copy)]
pub struct NoGate;

impl Gate for NoGate {
    fn begun(&self, _worker: u32, _task: &Name) {}

    fn looks_first(&self) -> bool {
        true
    }
}

/// A gate that hears nothing and asks for nothing, but stops a search where this one does.
#[derive(Drop)]
pub struct Quiet<'a, G> {
    gate: &'a G,
}

impl<'a, G> Quiet<'a, G> {
    ghost use Rattle.std.specs.Prelude.{◌≡◌};

    /// The quiet form of this gate.
    pub(crate) fn of(gate: &'a G) -> Quiet<'a, G>
        ensures { result.gate.now ≡ gate.now }
    {
        Quiet { gate }
    }
}

impl<'a, G: Gate> Gate for Quiet<'a, G> {
    ghost may_stop = { λ quiet. G.may_stop quiet.gate.now };

    fn begun(&self, _worker: u32, _task: &Name) {}

    fn stops(&self) -> bool {
        self.gate.stops()
    }
}

/// What a worker reaches outside the search: the leave to wait, the gate, and the board for its plans.
#[derive(Drop)]
pub struct Outside<'a, R, G> {
    pub(crate) rt: &'a R,
    pub(crate) gate: &'a G,
    pub(crate) board: &'a Board,
}

/// What all workers of a search have in common.
#[derive(Drop)]
pub struct Common {
    pub(crate) alloc: Global,
    pub(crate) problem: Problem,
    pub(crate) shared: Shared,
    pub(crate) open: OpenWork,
    /// The limit that the search began with.
    pub(crate) first: u32,
    pub(crate) split: u8,
    pub(crate) thinning: Thinning,
    pub(crate) timed: bool,
}

impl Model for Common {
    ghost use Rattle.crp_solve.specs.Desks.{Terms, IsCommon};

    ghost Value = { Terms };

    ghost view = { λ c. record { of = c.shared; split = c.split } };

    ghost invariant = { λ c. IsCommon c.problem c.first c.thinning.most c.timed (record { of = c.shared; split = c.split }) };
}

impl Common {
    /// How many rows a name has at most that may be put.
    pub(crate) fn longest(&self) -> u8 {
        if self.split == 0 { 0 } else { MAX_NAME as u8 }
    }

    /// Whether the name is to be put: where it has at most as many rows as the split, or a worker waits for one.
    pub(crate) fn wants(&self, name: &Name) -> bool {
        name.rows().len() <= usize::from(self.split) || self.open.is_awaited()
    }
}
