//! The one lock of a search, round its best plan.
ghost use Rattle.std.specs.Prelude.{◌≡◌, IfSome};
ghost use Rattle.crp_plan.specs.Bay.{IsProblem};
ghost use Rattle.crp_plan.specs.Faults.{IsPlanPath};

use crate::best::Best;
use crp_plan::{Plan, Problem};
use std::marker::Model;
use std::sync::{Mutex, Wait};

/// Where the workers of a search post their plans, and show the best of them. Contracts see its problem.
///
/// What the lock guards is known by its type alone: `Best` says what a plan that is posted does to it.
#[derive(Drop)]
pub struct Board {
    problem: Problem,
    best: Mutex<Best>,
}

impl Model for Board {
    ghost use Rattle.crp_plan.specs.Bay.{Problem as Statement, IsProblem};

    ghost Value = { Statement };

    ghost view = { λ b. b.problem };

    ghost invariant = { λ b. IsProblem b.problem };
}

impl Board {
    /// A board of the problem, with no plan yet. It takes no memory.
    pub fn new(problem: &Problem) -> Board
        ensures { result ≡ problem.now }
    {
        Board {
            problem: problem.copy(),
            best: Mutex::new(Best::new(problem)),
        }
    }

    /// The problem whose plans it shows.
    pub fn problem(&self) -> &Problem
        ensures value { result.now ≡ self.now }
        ensures problem { IsProblem self.now }
    {
        &self.problem
    }

    /// Posts a plan. The board keeps it where it is of the board's problem and better than the one that is there. It may wait.
    pub fn post(&self, rt: &impl Wait, plan: &Plan) {
        let _other = self.best.lock(rt).take_if_better(plan.copy());
    }

    /// The best plan that was posted, if one was. It may wait.
    pub fn show(&self, rt: &impl Wait) -> Option<Plan>
        ensures of_problem { IfSome result (λ plan. plan.problem ≡ self.now) }
        ensures complete { IfSome result (λ plan. IsPlanPath plan.problem plan.path) }
    {
        self.best.lock(rt).show(&self.problem)
    }
}
