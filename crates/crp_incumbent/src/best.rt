//! The best plan of a problem so far.
ghost use Rattle.std.specs.Prelude.{◌≡◌, IfSome, Some, None};
ghost use Rattle.crp_plan.specs.Faults.{IsPlanPath};
ghost use Rattle.crp_incumbent.specs.Bests.{IsBetterPlan};

use crp_plan::{Plan, Problem};
use std::marker::Model;

/// A problem, and the best plan of it that was met, if one was. No call takes memory or waits.
#[derive(Drop)]
pub struct Best {
    problem: Problem,
    plan: Option<Plan>,
}

impl Model for Best {
    ghost use Rattle.crp_plan.specs.Faults.{IsPlanPath};
    ghost use Rattle.crp_incumbent.specs.Bests.{Best as Kept, IsOwn};

    ghost Value = { Kept };

    ghost view = { λ b. record { problem = b.problem; plan = b.plan } };

    ghost invariant = { λ b. IsOwn (record { problem = b.problem; plan = b.plan }) };
}

impl Best {
    /// No plan of the problem yet.
    pub fn new(problem: &Problem) -> Best
        ensures { result ≡ record { problem = problem.now; plan = None } }
    {
        Best {
            problem: problem.copy(),
            plan: None,
        }
    }

    /// Keeps the plan and hands the old one out, where the plan is of this problem and has fewer relocations than
    /// the old one, or there is no old one. Any other plan is handed back.
    pub fn take_if_better(&mut self, plan: Plan) -> Option<Plan>
        ensures problem { self.new.problem ≡ self.old.problem }
        ensures better { IsBetterPlan self.old plan → (self.new.plan ≡ Some plan) × (result ≡ self.old.plan) }
        ensures other { (IsBetterPlan self.old plan → ⊥) → (self.new.plan ≡ self.old.plan) × (result ≡ Some plan) }
    {
        let shorter = match &self.plan {
            Some(old) => plan.count() < old.count(),
            None => true,
        };
        if shorter && self.problem.is_same(plan.problem()) {
            self.plan.replace(plan)
        } else {
            Some(plan)
        }
    }

    /// The plan that is kept, once more, where there is one and it is of this problem.
    pub fn show(&self, problem: &Problem) -> Option<Plan>
        ensures own { self.now.problem ≡ problem.now → result ≡ self.now.plan }
        ensures foreign { (self.now.problem ≡ problem.now → ⊥) → result ≡ None }
        ensures of_problem { IfSome result (λ plan. plan.problem ≡ problem.now) }
        ensures complete { IfSome result (λ plan. IsPlanPath plan.problem plan.path) }
    {
        if !self.problem.is_same(problem) {
            return None;
        }
        match &self.plan {
            Some(plan) => Some(plan.copy()),
            None => None,
        }
    }
}
