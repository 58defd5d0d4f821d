//! What is kept of the lines of a certificate.
ghost use Rattle.std.specs.Prelude.{◌≡◌, ◌++◌, ◌∷◌, [], ◌+◌, ◌-◌, ◌^◌, min, All, IfSome, IsTrue, ◌↔◌, IfOk, IfErr, OnOk, length, option_map, Some, None, List, ℕ};
ghost use Rattle.std.specs.Option.{option_copied};
ghost use Rattle.crp_plan.specs.Faults.{IsPlanPath, IsPlanFault};
ghost use Rattle.crp_tree.specs.Names.{Precedes};
ghost use Rattle.crp_cert.specs.Text.{IsHead, AreRows};
ghost use Rattle.crp_checker.specs.Gathered.{joined};
ghost use Rattle.crp_checker.specs.Refusals.{HasItsPlan};
ghost use Rattle.crp_checker.specs.Stages.{AreFindings, first_script, IsHeadNote, note_after};

use crate::given_names::GivenNames;
use crate::need::Need;
use crate::part_names::PartNames;
use crate::path::Path;
use crate::refused::Refused;
use crate::stage::Stage;
use crate::wrong::Wrong;
use crp_cert::{CertFault, Claim, Head, Rows};
use crp_plan::{BayName, Plan, PlanFault, Problem};
use crp_tree::Name;
use std::alloc::{AllocError, Global};

/// What is kept of a head and the parts after it: no tree and no text.
#[derive(Drop)]
pub struct Findings {
    /// Whose certificate it is.
    pub bay: BayName,
    /// The bay and the orders of its containers.
    pub problem: Problem,
    /// What cuts need.
    pub need: Need,
    /// The relocations of the plan, if there is one.
    pub count: Option<u32>,
    /// The number of the line after the last part, from 1.
    pub line: u32,
    /// The names of the parts.
    pub names: PartNames,
    /// The names that the parts give.
    pub given: GivenNames,
    /// The first thing that is wrong with what is claimed so far.
    pub wrong: Option<Refused>,
}

/// How many relocations the plan has, if there is one.
fn count_of(plan: &Option<Rows>) -> Option<u32>
    requires { IfSome plan.now AreRows }
    ensures { result ≡ option_map length plan.now }
{
    let rows = plan.as_ref()?;
    Some(rows.as_slice().len() as u32)
}

/// Whether the plan is one of the problem, if there is one.
fn check_plan(problem: &Problem, plan: &Option<Rows>) -> Result<(), PlanFault>
    ensures path { IfOk result (λ _. IfSome plan.now (IsPlanPath problem.now)) }
    ensures fault { IfErr result (λ fault. (rows : List ℕ) × (plan.now ≡ Some rows)
        × IsPlanFault problem.now rows fault) }
{
    let Some(rows) = plan else {
        return Ok(());
    };
    match Plan::from_rows(problem, rows.as_slice()) {
        Ok(_) => Ok(()),
        Err(fault) => Err(fault),
    }
}

/// Whether the plan has as many relocations as the bound, where it is claimed to be the first best one.
fn has_its_plan(claim: Claim, plan: &Option<Rows>) -> bool
    requires { IfSome plan.now AreRows }
    ensures { IsTrue result ↔ HasItsPlan claim plan.now }
{
    match claim {
        Claim::AtLeast(_) => true,
        Claim::First(least) => count_of(plan) == Some(least),
    }
}

/// What is wrong with a head: the problem is not the one that is asked for, the plan is none of it, or the claim of the
/// first best plan is without its plan.
fn wrong_in(wanted: Option<&Problem>, head: &Head) -> Option<Refused>
    requires { IfSome head.now.plan AreRows }
    ensures { IsHeadNote (option_copied wanted.entry) head.now result }
{
    if let Some(problem) = wanted {
        if !problem.is_same(&head.problem) {
            return Some(Refused::OtherProblem);
        }
    }
    if let Err(fault) = check_plan(&head.problem, &head.plan) {
        return Some(Refused::Plan(fault));
    }
    if !has_its_plan(head.claim, &head.plan) {
        return Some(Refused::NoFirstPlan);
    }
    None
}

/// How a certificate is refused for a wrong node of a part.
fn refused_for(
    alloc: Global,
    name: &Name,
    wrong: Option<Wrong>,
) -> Result<Option<Refused>, AllocError>
    ensures { IfOk result (λ refused. refused ≡ note_after None name.now wrong) }
{
    let Some(wrong) = wrong else {
        return Ok(None);
    };
    let part = Path::from_rows(alloc, name.rows())?;
    match wrong {
        Wrong::Low { symbol } => Ok(Some(Refused::Low { part, symbol })),
        Wrong::AtEnd { symbol } => Ok(Some(Refused::Finished { part, symbol })),
        Wrong::Unshown { symbol } => Ok(Some(Refused::Unshown { part, symbol })),
    }
}

impl Findings {
    /// What is kept of a head, where a problem is asked for or none.
    pub fn of(alloc: Global, wanted: Option<&Problem>, head: Head) -> Findings
        requires { IfSome head.plan AreRows }
        ensures { IsHead head → AreFindings (option_copied wanted.entry) (first_script head) result }
    {
        let wrong = wrong_in(wanted, &head);
        let count = count_of(&head.plan);
        let line = head.first_part();
        Findings {
            bay: head.bay,
            problem: head.problem,
            need: Need {
                version: head.version,
                claim: head.claim,
                plan: head.plan,
            },
            count,
            line,
            names: PartNames::none(alloc),
            given: GivenNames::none(alloc),
            wrong,
        }
    }

    /// The same after one part more, with its name, its first wrong node, if it has one, and the names that it gives.
    pub fn with_part(
        self,
        alloc: Global,
        name: Name,
        wrong: Option<Wrong>,
        given: GivenNames,
    ) -> Result<Findings, AllocError>
        requires { All (λ other. Precedes other name) self.names }
        ensures bay { IfOk result (λ next. next.bay ≡ self.bay) }
        ensures problem { IfOk result (λ next. next.problem ≡ self.problem) }
        ensures need { IfOk result (λ next. next.need ≡ self.need) }
        ensures count { IfOk result (λ next. next.count ≡ self.count) }
        ensures line { IfOk result (λ next. next.line ≡ min (self.line + 1) (2 ^ 32 - 1)) }
        ensures names { IfOk result (λ next. next.names ≡ self.names ++ name ∷ []) }
        ensures given { IfOk result (λ next. next.given ≡ joined self.given given) }
        ensures wrong { IfOk result (λ next. next.wrong ≡ note_after self.wrong name wrong) }
    {
        let mut next = self;
        next.line = next.line.saturating_add(1);
        if next.wrong.is_none() {
            next.wrong = refused_for(alloc, &name, wrong)?;
        }
        next.given.append(alloc, given)?;
        next.names.push(name)?;
        Ok(next)
    }

    /// What a fault of the next line leads to.
    pub fn faulty(self, fault: CertFault) -> Stage
        ensures { result ≡ Stage.Faulty (Some self.bay) fault }
    {
        Stage::Faulty {
            bay: Some(self.bay),
            fault,
        }
    }
}
