//! Certificates that go to a sink.
ghost use Rattle.std.specs.Prelude.{◌≡◌, []};
ghost use Rattle.crp_plan.specs.Bay.{IsProblem, start, cap};
ghost use Rattle.crp_plan.specs.Faults.{stacks_of, stated};
ghost use Rattle.crp_bay.specs.Positions.{settled};
ghost use Rattle.crp_tree.specs.Trees.{nodes, HasShape, least_value};

use crate::calls::write_cert;
use crate::compare::assert_same;
use crate::devices::make_small;
use crp_plan::{BayName, Problem, Received, Sink, WriteFault};
use crp_row::{Kind, Row};
use crp_tree::{Cert, Name, Part, Tree};
use std::alloc::{AllocError, Global};
use std::process::Abort;
use std::test::Fail;

/// The problem with these tiers, of whose containers so many are to leave.
fn problem_of(rt: &impl Abort, tiers: u8, ordered: u8, stacks: &[Vec<u8>]) -> Problem
    ensures value { result ≡ stated tiers ordered (stacks_of stacks.now) }
    ensures problem { IsProblem result }
{
    Problem::new(tiers, ordered, stacks).expect(rt, "a problem")
}

/// The certificate of one tree at the empty path, which shows this floor.
fn whole(alloc: Global, problem: &Problem, tree: Tree, floor: u32) -> Result<Cert, AllocError>
    requires problem { IsProblem problem.now }
    requires shape { HasShape [] (settled (start problem.now)) tree }
    requires floor { floor ≡ least_value (cap problem.now) (nodes [] (settled (start problem.now)) tree) }
{
    let part = Part::new(alloc, problem, Name::root(), tree, floor)?;
    Cert::whole(alloc, part)
}

/// Four containers in three rows, branched at the empty path and below row 2: two relocations at least.
pub(super) fn branched_twice(
    rt: &impl Abort,
    alloc: Global,
) -> Result<(Problem, Cert), AllocError> {
    let stacks = [
        vec![in alloc; 1, 4]?,
        vec![in alloc; 2]?,
        vec![in alloc; 3]?,
    ];
    let problem = problem_of(rt, 3, 4, &stacks);
    let mut row = Row::new(alloc);
    row.push(Kind::Branch(2), b"")?;
    row.push(Kind::Branch(2), b"")?;
    row.push(Kind::CutB, b"")?;
    row.push(Kind::CutB, b"")?;
    row.push(Kind::CutB, b"")?;
    let cert = whole(alloc, &problem, Tree::from_row(row), 2)?;
    Ok((problem, cert))
}

/// One row, from which the lower container cannot leave.
fn dead_end(rt: &impl Abort, alloc: Global) -> Result<(Problem, Cert), AllocError> {
    let stacks = [vec![in alloc; 1, 2]?];
    let problem = problem_of(rt, 3, 2, &stacks);
    let mut row = Row::new(alloc);
    row.push(Kind::Branch(0), b"")?;
    let cert = whole(alloc, &problem, Tree::from_row(row), 5)?;
    Ok((problem, cert))
}

pub(super) fn bay_a(rt: &impl Abort) -> BayName {
    BayName::new(b"A", 1).expect(rt, "a name")
}

const DEAD_END: &[u8] = b"CRP-CERT 1\nbay A 1\nsize 1 3 2 2\nrow 1 2\n\
at least 5\nplan -\npart /: X\nend 1\n";

/// Writes a certificate without a plan, in bay A 1.
fn write<W: Sink>(
    rt: &impl Abort,
    alloc: Global,
    sink: &mut W,
    case: &(Problem, Cert),
) -> Result<(), WriteFault> {
    let (problem, cert) = case;
    let bay = bay_a(rt);
    write_cert(alloc, sink, &bay, problem, cert, None)
}

#[test]
fn certificates_go_to_a_sink(rt: HostRuntime) -> Result<(), Fail> {
    let mut sink = Received::new(rt.alloc());
    write(&rt, rt.alloc(), &mut sink, &dead_end(&rt, rt.alloc())?)?;
    assert_same(&rt, &sink.bytes.as_slice(), &DEAD_END);
    Ok(())
}

#[test]
fn a_full_sink_holds_a_front(rt: HostRuntime) -> Result<(), Fail> {
    let mut sink = make_small(rt.alloc(), 20);
    let answer = write(&rt, rt.alloc(), &mut sink, &dead_end(&rt, rt.alloc())?);
    assert_same(&rt, &answer, &Err(WriteFault::Failed));
    assert_same(&rt, &sink.bytes.as_slice(), &&DEAD_END[..20]);
    assert_same(&rt, &sink.failed, &1);
    Ok(())
}
