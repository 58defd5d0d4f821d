//! A checker that is fed a certificate in pieces.
ghost use Rattle.std.specs.Prelude.{◌≡◌, ◌≤◌, ◌⊎◌, ◌++◌, [], List, ℕ, Option, Some, None, Err, OnOk, OnErr, IfOk, IfErr, length, take};
ghost use Rattle.std.specs.Option.{option_copied};
ghost use Rattle.crp_plan.specs.Bay.{Problem as Statement};
ghost use Rattle.crp_checker.specs.Shown.{TextShows, TextShowsFor, TextStates};
ghost use Rattle.crp_checker.specs.Refusals.{IsRefusal};
ghost use Rattle.crp_cert.specs.HeadsFed.{IsBayIn};
ghost use Rattle.crp_checker.specs.Stages.{HasCome};
ghost use Rattle.crp_checker.specs.Fed.{HasRead, IsOutOfMemory};

use crate::accepted::Accepted;
use crate::claim::conclude;
use crate::refused::Refused;
use crate::stage::Stage;
use crate::verdict::Verdict;
use crate::{in_head, in_line, in_part};
use crp_cert::{CertFault, OpenHead};
use crp_plan::{BayName, Problem};
use std::alloc::{AllocError, Global};
use std::mem;

/// A checker of one certificate, which is fed in pieces, however they are cut. It keeps no tree and
/// no text: what it keeps is the problem, the plan, the names of the parts and those that they give,
/// and the path to the symbol that comes next.
#[derive(Drop)]
pub struct Checker {
    alloc: Global,
    /// The problem that is asked for, if one is.
    wanted: Option<Problem>,
    /// How far it has come; nothing, where no memory was left for that.
    stage: Option<Stage>,
}

/// Reads on from a stage: what that leads to, and how many of the bytes were taken.
fn read_on(
    alloc: Global,
    wanted: Option<&Problem>,
    stage: Stage,
    bytes: &[u8],
) -> Result<(Stage, usize), AllocError>
    requires { 1 ≤ length bytes.now }
    ensures some { IfOk result (λ next. 1 ≤ next.1) }
    ensures within { IfOk result (λ next. next.1 ≤ length bytes.now) }
    ensures come { IfOk result (λ next. (before : List ℕ) → HasCome (option_copied wanted.entry) before stage
        → HasCome (option_copied wanted.entry) (before ++ take next.1 bytes.now) next.0) }
{
    match stage {
        Stage::Head { head } => in_head::read_on(alloc, wanted, head, bytes),
        Stage::Line { findings, begun } => in_line::read_on(alloc, findings, begun, bytes),
        Stage::Part {
            findings,
            name,
            line,
        } => in_part::read_on(alloc, findings, name, line, bytes),
        Stage::Ended { findings } => {
            let line = findings.line.saturating_add(1);
            Ok((findings.faulty(CertFault::End { line }), bytes.len()))
        }
        Stage::Faulty { bay, fault } => Ok((Stage::Faulty { bay, fault }, bytes.len())),
    }
}

/// Reads a piece from a stage on. What that leads to.
fn read_piece(
    alloc: Global,
    wanted: Option<&Problem>,
    stage: Stage,
    piece: &[u8],
) -> Result<Stage, AllocError>
    ensures { IfOk result (λ next. (before : List ℕ) → HasCome (option_copied wanted.entry) before stage
        → HasCome (option_copied wanted.entry) (before ++ piece.now) next) }
{
    let mut stage = stage;
    let mut rest = piece;
    while !rest.is_empty() {
        let (next, taken) = read_on(alloc, wanted, stage, rest)?;
        stage = next;
        rest = &rest[taken..];
    }
    Ok(stage)
}

/// The same bay once more, if there is one.
fn same_bay(bay: Option<&BayName>) -> Option<BayName>
    ensures { result ≡ option_copied bay.entry }
{
    bay.map(BayName::copy)
}

/// The bay that a certificate names of which so much was read.
fn bay_at(stage: &Stage) -> Option<BayName>
    ensures { (wanted : Option Statement) (bytes : List ℕ) → HasCome wanted bytes stage.now → IsBayIn bytes result }
{
    match stage {
        Stage::Head { head } => same_bay(head.bay()),
        Stage::Line { findings, .. } => Some(findings.bay.copy()),
        Stage::Part { findings, .. } => Some(findings.bay.copy()),
        Stage::Ended { findings } => Some(findings.bay.copy()),
        Stage::Faulty { bay, .. } => same_bay(bay.as_ref()),
    }
}

/// What a certificate states and shows, of which this stage is the end.
fn finish_at(alloc: Global, stage: Stage) -> Result<Accepted, Refused>
    ensures states { IfOk result (λ found. (wanted : Option Statement) (bytes : List ℕ) → HasCome wanted bytes stage
        → TextStates wanted bytes found.bay found.plan found.verdict) }
    ensures refused { IfErr result (λ refused. (refused ≡ Refused.Memory)
        ⊎ ((wanted : Option Statement) (bytes : List ℕ) → HasCome wanted bytes stage → IsRefusal wanted bytes refused)) }
{
    match stage {
        Stage::Head { head } => Err(Refused::Cert(head.fault())),
        Stage::Line { findings, begun } => {
            let fault = in_line::open_fault(findings.line, &begun);
            Err(Refused::Cert(fault))
        }
        Stage::Part { findings, .. } => Err(Refused::Cert(CertFault::Part {
            line: findings.line,
        })),
        Stage::Ended { findings } => conclude(alloc, findings),
        Stage::Faulty { fault, .. } => Err(Refused::Cert(fault)),
    }
}

impl Checker {
    /// A checker that was fed nothing. Where a problem is asked for, a certificate that states
    /// another is refused for that.
    pub fn new(alloc: Global, wanted: Option<&Problem>) -> Checker
        ensures { HasRead (option_copied wanted.entry) [] result }
    {
        let stage = Stage::Head {
            head: OpenHead::new(alloc),
        };
        Checker {
            alloc,
            wanted: wanted.map(Problem::copy),
            stage: Some(stage),
        }
    }

    /// Reads a piece. The error says that no memory was left, now or before; from then on every call says so.
    pub fn feed(&mut self, piece: &[u8]) -> Result<(), AllocError>
        ensures read { OnOk result ((wanted : Option Statement) (bytes : List ℕ) → HasRead wanted bytes self.old
            → HasRead wanted (bytes ++ piece.now) self.new) }
        ensures going { OnOk result (IsOutOfMemory self.new → ⊥) }
        ensures spent { OnErr result (IsOutOfMemory self.new) }
        ensures stays { IsOutOfMemory self.old → (result ≡ Err (record {})) }
    {
        let Some(stage) = mem::replace(&mut self.stage, None) else {
            return Err(AllocError);
        };
        let stage = read_piece(self.alloc, self.wanted.as_ref(), stage, piece)?;
        self.stage = Some(stage);
        Ok(())
    }

    /// The bay that the certificate names. `None` as long as its first two lines are not accepted, and where no memory was left.
    pub fn bay(&self) -> Option<BayName>
        ensures exact { (wanted : Option Statement) (bytes : List ℕ) → HasRead wanted bytes self.now → IsBayIn bytes result }
        ensures spent { IsOutOfMemory self.now → result ≡ None }
    {
        let Some(stage) = &self.stage else {
            return None;
        };
        bay_at(stage)
    }

    /// What the certificate states and shows, of which the pieces are the whole text. Else its first fault, or that no
    /// memory was left.
    pub fn accept(self) -> Result<Accepted, Refused>
        ensures states { IfOk result (λ found. (wanted : Option Statement) (bytes : List ℕ) → HasRead wanted bytes self
            → TextStates wanted bytes found.bay found.plan found.verdict) }
        ensures refused { IfErr result (λ refused. (refused ≡ Refused.Memory)
            ⊎ ((wanted : Option Statement) (bytes : List ℕ) → HasRead wanted bytes self → IsRefusal wanted bytes refused)) }
        ensures spent { IsOutOfMemory self → result ≡ Err Refused.Memory }
    {
        let Checker {
            alloc,
            wanted: _,
            stage,
        } = self;
        match stage {
            Some(stage) => finish_at(alloc, stage),
            None => Err(Refused::Memory),
        }
    }

    /// Whose the certificate is, and what it shows.
    pub fn finish_for(self) -> Result<(BayName, Verdict), Refused>
        ensures shown { IfOk result (λ found. (wanted : Option Statement) (bytes : List ℕ) → HasRead wanted bytes self
            → TextShows wanted bytes found.1) }
        ensures bay { IfOk result (λ found. (bytes : List ℕ) → HasRead None bytes self
            → TextShowsFor bytes found.0 found.1) }
        ensures refused { IfErr result (λ refused. (refused ≡ Refused.Memory)
            ⊎ ((wanted : Option Statement) (bytes : List ℕ) → HasRead wanted bytes self → IsRefusal wanted bytes refused)) }
        ensures spent { IsOutOfMemory self → result ≡ Err Refused.Memory }
    {
        let Accepted {
            bay,
            plan: _,
            verdict,
        } = self.accept()?;
        Ok((bay, verdict))
    }

    /// What the certificate shows.
    pub fn finish(self) -> Result<Verdict, Refused>
        ensures accepted { IfOk result (λ verdict. (wanted : Option Statement) (bytes : List ℕ) → HasRead wanted bytes self
            → TextShows wanted bytes verdict) }
        ensures refused { IfErr result (λ refused. (refused ≡ Refused.Memory)
            ⊎ ((wanted : Option Statement) (bytes : List ℕ) → HasRead wanted bytes self → IsRefusal wanted bytes refused)) }
        ensures spent { IsOutOfMemory self → result ≡ Err Refused.Memory }
    {
        let (_bay, verdict) = self.finish_for()?;
        Ok(verdict)
    }
}
