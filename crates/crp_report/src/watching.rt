//! What watches a run.
ghost use Rattle.crp_report.specs.Watching.{ShowsMore};

use crate::settings::RunSettings;
use crp_order::{BayProblem, Sequence};
use crp_plan::{Sink, write_text};
use crp_solve::{Gate, NoGate, Solved};
use crp_yard::Yard;
use edi_text::Segments;
use std::alloc::Global;

/// What watches a run, and may show something of it on a sink of its own. Nothing that a run writes rests on it.
pub trait Watch {
    /// The gate of the searches.
    type Gate: Gate + Sync;

    /// The gate at which each task of a search begins, and which hears how far it is.
    fn gate(&self) -> &Self::Gate;

    /// The input is accepted: this yard, the segments of the message, and the containers in the order in which they leave.
    fn accepts<E: Sink>(
        &mut self,
        alloc: Global,
        yard: &Yard,
        segments: &Segments,
        sequence: &Sequence,
        settings: &RunSettings,
        errors: &mut E,
    )
        ensures { ShowsMore (E.contents errors.old) (E.contents errors.new) };

    /// The search of a bay begins, behind so many others of so many bays in all.
    fn begins<E: Sink>(
        &mut self,
        alloc: Global,
        bay: &BayProblem,
        behind: usize,
        bays: usize,
        errors: &mut E,
    )
        ensures { ShowsMore (E.contents errors.old) (E.contents errors.new) };

    /// The search of a bay has ended, and nothing of its answer is written yet.
    fn searched(&mut self) {}

    /// A bay is answered, and its lines and its certificate of so many bytes are written.
    fn answers<E: Sink>(
        &mut self,
        alloc: Global,
        bay: &BayProblem,
        solved: &Solved,
        bytes: usize,
        errors: &mut E,
    )
        ensures { ShowsMore (E.contents errors.old) (E.contents errors.new) };

    /// The run has ended, whether or not all bays are answered.
    fn ends<E: Sink>(&mut self, alloc: Global, errors: &mut E)
        ensures { ShowsMore (E.contents errors.old) (E.contents errors.new) };
}

/// Shows a text, as far as the sink takes it.
pub fn show<E: Sink>(errors: &mut E, text: &[u8])
    ensures { ShowsMore (E.contents errors.old) (E.contents errors.new) }
{
    let _shown = write_text(errors, text);
}

/// Watches nothing.
#[derive(Clone, Copy)]
pub struct Unwatched {
    gate: NoGate,
}

impl Unwatched {
    /// Watches nothing.
    pub fn new() -> Unwatched {
        Unwatched { gate: NoGate }
    }
}

impl Watch for Unwatched {
    type Gate = NoGate;

    fn gate(&self) -> &NoGate {
        &self.gate
    }

    #[tactic(auto, using(crate::proofs::Shown::shows_nothing))]
    fn accepts<E: Sink>(
        &mut self,
        _alloc: Global,
        _yard: &Yard,
        _segments: &Segments,
        _sequence: &Sequence,
        _settings: &RunSettings,
        _errors: &mut E,
    ) {}

    #[tactic(auto, using(crate::proofs::Shown::shows_nothing))]
    fn begins<E: Sink>(
        &mut self,
        _alloc: Global,
        _bay: &BayProblem,
        _behind: usize,
        _bays: usize,
        _errors: &mut E,
    ) {}

    #[tactic(auto, using(crate::proofs::Shown::shows_nothing))]
    fn answers<E: Sink>(
        &mut self,
        _alloc: Global,
        _bay: &BayProblem,
        _solved: &Solved,
        _bytes: usize,
        _errors: &mut E,
    ) {}

    #[tactic(auto, using(crate::proofs::Shown::shows_nothing))]
    fn ends<E: Sink>(&mut self, _alloc: Global, _errors: &mut E) {}
}
