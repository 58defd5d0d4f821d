//! What a look found, which one thread leaves to another. What it is an answer to is known by its type alone.
ghost use Rattle.std.specs.Prelude.{◌≡◌};
ghost use Rattle.crp_report.specs.Looks.{IsReadyAt};

use crate::ready::Ready;
use crate::writing::bytes_of;
use std::marker::{Brand, Model, PhantomData};

/// The bays of a run, and what was chosen for it. Who has workers look at them picks that, by the type `Brand`.
pub(crate) trait Posed {
    ghost use Rattle.std.specs.Prelude.{List};
    ghost use Rattle.crp_order.specs.declared.bay_problem.BayProblem.{BayProblem};
    ghost use Rattle.crp_solve.specs.Chosen.{Chosen};

    ghost bays: { List BayProblem };

    ghost chosen: { Chosen };
}

impl Posed for Brand {
    ghost use Rattle.std.specs.Prelude.{[]};
    ghost use Rattle.crp_report.specs.Posed.{nothing_chosen};

    ghost bays = { [] };

    ghost chosen = { nothing_chosen };
}

/// The answer that a look found to the bay at a place, which counts from 0. Contracts see the place.
#[derive(Drop)]
pub(crate) struct Look<Y: Posed> {
    place: usize,
    ready: Ready,
    of: PhantomData<Y>,
}

impl<Y: Posed> Model for Look<Y> {
    ghost use Rattle.std.specs.Prelude.{ℕ};
    ghost use Rattle.crp_report.specs.Looks.{IsReadyAt};

    ghost Value = { ℕ };

    ghost view = { λ look. look.place };

    ghost invariant = { λ look. IsReadyAt Y.chosen Y.bays look.place look.ready };
}

impl<Y: Posed> Look<Y> {
    /// The answer to the bay at this place.
    pub(crate) fn new(place: usize, ready: Ready) -> Look<Y>
        requires { IsReadyAt Y.chosen Y.bays place ready }
        ensures { result ≡ place }
    {
        Look {
            place,
            ready,
            of: PhantomData,
        }
    }

    /// The place of the bay.
    pub(crate) fn place(&self) -> usize
        ensures { result ≡ self.now }
    {
        self.place
    }

    /// How many bytes the certificate has.
    pub(crate) fn bytes(&self) -> usize {
        bytes_of(&self.ready.texts.certificate)
    }

    /// The answer.
    pub(crate) fn into_ready(self) -> Ready
        ensures { IsReadyAt Y.chosen Y.bays self result }
    {
        self.ready
    }
}
