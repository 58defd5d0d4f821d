//! Reading on in the head of a certificate.
ghost use Rattle.std.specs.Prelude.{◌≡◌, ◌≤◌, ◌++◌, List, ℕ, IfOk, IfSome, length, take};
ghost use Rattle.std.specs.Option.{option_copied};
ghost use Rattle.crp_cert.specs.Text.{IsHead, AreRows, head_text};
ghost use Rattle.crp_cert.specs.HeadsFed.{IsInHead};
ghost use Rattle.crp_checker.specs.Stages.{HasCome};

use crate::findings::Findings;
use crate::stage::Stage;
use crp_cert::{Head, HeadFed, OpenHead};
use crp_plan::Problem;
use std::alloc::{AllocError, Global};

/// What a whole head leads to.
fn after_head(alloc: Global, wanted: Option<&Problem>, head: Head) -> Stage
    requires { IfSome head.plan AreRows }
    ensures { IsHead head → HasCome (option_copied wanted.entry) (head_text head) result }
{
    Stage::Line {
        findings: Findings::of(alloc, wanted, head),
        begun: Vec::new(alloc),
    }
}

/// Reads on in a head, of which this came: what that leads to, and how many of the bytes it took.
pub fn read_on(
    alloc: Global,
    wanted: Option<&Problem>,
    head: OpenHead,
    bytes: &[u8],
) -> Result<(Stage, usize), AllocError>
    requires { 1 ≤ length bytes.now }
    ensures some { IfOk result (λ next. 1 ≤ next.1) }
    ensures within { IfOk result (λ next. next.1 ≤ length bytes.now) }
    ensures come { IfOk result (λ next. (before : List ℕ) → IsInHead before head
        → HasCome (option_copied wanted.entry) (before ++ take next.1 bytes.now) next.0) }
{
    let (fed, taken) = head.read(alloc, bytes)?;
    match fed {
        HeadFed::Open { head } => Ok((Stage::Head { head }, taken)),
        HeadFed::Whole { head } => Ok((after_head(alloc, wanted, head), taken)),
        HeadFed::Faulty { bay, fault } => Ok((Stage::Faulty { bay, fault }, taken)),
    }
}
