//! A claim that a text can state, and what is read of its text.
ghost use Rattle.std.specs.Prelude.{◌≡◌, None, IfOk};
ghost use Rattle.crp_plan.specs.Bay.{IsProblem};
ghost use Rattle.crp_plan.specs.Faults.{stacks_of, stated};
ghost use Rattle.crp_tree.specs.Parts.{claimed};
ghost use Rattle.crp_cert.specs.Writing.{CanBeSpelled};

use super::stack_of;
use crate::calls::{cert_text, read_cert};
use crate::compare::assert_same;
use crp_cert::{Claim, PartLine, Script};
use crp_plan::{BayName, Problem};
use crp_row::{Kind, Row};
use crp_tree::{Cert, Name, Part, Tree};
use std::alloc::{AllocError, Global};
use std::process::Abort;
use std::test::Fail;

/// Four containers in three rows, of three tiers each.
fn four(rt: &impl Abort, stacks: &[Vec<u8>]) -> Problem
    ensures value { result ≡ stated 3 4 (stacks_of stacks.now) }
    ensures problem { IsProblem result }
{
    Problem::new(3, 4, stacks).expect(rt, "a problem")
}

/// Four containers, cut by the look-ahead bound: a claim that a text can state.
fn cut_ahead(rt: &impl Abort, alloc: Global) -> Result<(Problem, Cert), AllocError>
    ensures { IfOk result (λ case. CanBeSpelled (claimed case.0 case.1 None)) }
{
    let stacks = [
        vec![in alloc; 1, 4]?,
        vec![in alloc; 2]?,
        vec![in alloc; 3]?,
    ];
    let problem = four(rt, &stacks);
    let mut row = Row::new(alloc);
    row.push(Kind::CutL, b"")?;
    let tree = Tree::from_row(row);
    let part = Part::new(alloc, &problem, Name::root(), tree, 2)?;
    let cert = Cert::whole(alloc, part)?;
    Ok((problem, cert))
}

fn bay_a(rt: &impl Abort) -> BayName {
    BayName::new(b"A", 1).expect(rt, "a name")
}

/// The text of a claim without a plan, in bay A 1.
fn text_of(rt: &impl Abort, alloc: Global, got: &(Problem, Cert)) -> Result<Vec<u8>, AllocError> {
    cert_text(alloc, &bay_a(rt), &got.0, &got.1, None)
}

/// Whether a part is at the root, cut by the look-ahead bound.
fn is_cut_ahead(part: &PartLine) -> bool {
    part.name().rows().is_empty() && matches!(part.tree().symbols().kinds(), [Kind::CutL])
}

/// There is one such part.
fn assert_cut_ahead(rt: &impl Abort, parts: &[PartLine]) {
    match parts {
        [part] => assert!(rt; is_cut_ahead(part)),
        _ => panic!(rt; "there is one part"),
    }
}

fn assert_read_again(rt: &impl Abort, script: &Script, got: &(Problem, Cert)) {
    assert_same(rt, &script.head.claim, &Claim::AtLeast(got.1.lower()));
    assert!(rt; script.head.plan.is_none());
    assert_same(rt, &stack_of(&script.head.problem, 0), &stack_of(&got.0, 0));
    assert_cut_ahead(rt, script.parts.as_slice());
}

const CUT_AHEAD: &[u8] = b"CRP-CERT 1\nbay A 1\nsize 3 3 4 4\nrow 1 4\nrow 2\nrow 3\n\
at least 2\nplan -\npart /: L\nend 1\n";

#[test]
fn a_claim_of_which_there_is_a_text_is_read_again(rt: HostRuntime) -> Result<(), Fail> {
    let got = cut_ahead(&rt, rt.alloc())?;
    let text = text_of(&rt, rt.alloc(), &got)?;
    assert_same(&rt, &text.as_slice(), &CUT_AHEAD);
    assert_read_again(&rt, &read_cert(rt.alloc(), &text)?, &got);
    Ok(())
}
