//! The check of a whole certificate.
ghost use Rattle.std.specs.Prelude.{◌≡◌, ◌≢◌, ◌≤◌, ◌⊎◌, None, Some, IfOk, OnOk, IfErr, List};
ghost use Rattle.crp_plan.specs.declared.moves.Move.{Move};
ghost use Rattle.crp_plan.specs.Bay.{cap, IsPlan, relocations};
ghost use Rattle.crp_cert.specs.declared.head.Head.{Head};
ghost use Rattle.crp_cert.specs.Text.{bound, IsHeadOf};
ghost use Rattle.crp_checker.specs.AcceptedTexts.{IsNotAccepted};
ghost use Rattle.crp_checker.specs.Verdicts.{Says};
ghost use Rattle.crp_checker.specs.Shown.{TextShows, TextShowsFor};
ghost use Rattle.crp_checker.specs.Refusals.{IsRefusal};

use crate::checker::Checker;
use crate::refused::Refused;
use crate::verdict::Verdict;
use crp_plan::{BayName, Problem};
use std::alloc::Global;

/// Checks a certificate. Whose it is, and what it shows.
pub(crate) fn check_text(alloc: Global, bytes: &[u8]) -> Result<(BayName, Verdict), Refused>
    ensures shown { IfOk result (λ parsed. TextShowsFor bytes.now parsed.0 parsed.1) }
    ensures refused { IfErr result (λ refused. (refused ≡ Refused.Memory) ⊎ IsRefusal None bytes.now refused) }
{
    let mut checker = Checker::new(alloc, None);
    checker.feed(bytes)?;
    checker.finish_for()
}

/// What a certificate shows, where the bytes are the text of one that is accepted: the fewest
/// relocations of a plan, that there is no plan, bounds, or that its plan is the first best one. Else
/// the first fault, or that no memory is left.
pub fn check(alloc: Global, bytes: &[u8]) -> Result<Verdict, Refused>
    ensures accepted { IfOk result (TextShows None bytes.now) }
    ensures refused { IfErr result (λ refused. (refused ≡ Refused.Memory) ⊎ IsRefusal None bytes.now refused) }
    ensures rejected { IfErr result (λ refused. refused ≢ Refused.Memory → IsNotAccepted None bytes.now) }

    // What this means for the problem that the bytes state.
    ensures bound { OnOk result ((head : Head) (moves : List Move) → IsHeadOf bytes.now head
        → IsPlan head.problem moves → bound head.claim ≤ relocations moves) }
    ensures none { OnOk result ((head : Head) (moves : List Move) → IsHeadOf bytes.now head
        → bound head.claim ≡ cap head.problem → IsPlan head.problem moves → ⊥) }
    ensures says { IfOk result (λ verdict. (head : Head) → IsHeadOf bytes.now head
        → Says head.problem verdict) }
{
    let (_bay, verdict) = check_text(alloc, bytes)?;
    Ok(verdict)
}

/// The same for a certificate of this problem: a text that states another is refused for that.
pub fn check_for(alloc: Global, problem: &Problem, bytes: &[u8]) -> Result<Verdict, Refused>
    ensures accepted { IfOk result (TextShows (Some problem.now) bytes.now) }
    ensures refused { IfErr result (λ refused. (refused ≡ Refused.Memory)
        ⊎ IsRefusal (Some problem.now) bytes.now refused) }
    ensures rejected { IfErr result (λ refused. refused ≢ Refused.Memory → IsNotAccepted (Some problem.now) bytes.now) }

    // What this means for the problem.
    ensures bound { OnOk result ((head : Head) (moves : List Move) → IsHeadOf bytes.now head
        → IsPlan problem.now moves → bound head.claim ≤ relocations moves) }
    ensures none { OnOk result ((head : Head) (moves : List Move) → IsHeadOf bytes.now head
        → bound head.claim ≡ cap problem.now → IsPlan problem.now moves → ⊥) }
    ensures says { IfOk result (Says problem.now) }
{
    let mut checker = Checker::new(alloc, Some(problem));
    checker.feed(bytes)?;
    let verdict = checker.finish()?;
    Ok(verdict)
}
