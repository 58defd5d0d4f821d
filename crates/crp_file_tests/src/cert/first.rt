//! Certificates that claim the first best plan: how they are read, and go to a sink.
use super::writing::{bay_a, branched_twice};
use super::{Said, assert_head};
use crate::calls::{read_cert, write_first};
use crate::compare::assert_same;
use crate::devices::make_small;
use crp_cert::{Claim, Version};
use crp_plan::{Plan, Problem, Received, Sink, WriteFault};
use crp_tree::Cert;
use std::alloc::Global;
use std::process::Abort;
use std::test::Fail;

/// Four containers in three rows, with the first of their best plans.
const FIRST: &[u8] = b"CRP-CERT 2\nbay A 1\nsize 3 3 4 4\nheights 3 3 3\nrow 1 4\nrow 2\nrow 3\n\
first 2\nplan 2 1\npart /: XXBBB\nend 1\n";

/// What it says.
const SAID: Said<'static> = Said {
    block: b"A",
    bay: 1,
    size: [3, 3, 4, 4],
    stacks: &[&[1, 4], &[2], &[3]],
    claim: Claim::First(2),
    plan: Some(&[2, 1]),
};

#[test]
fn a_claim_of_the_first_plan_is_read(rt: HostRuntime) -> Result<(), Fail> {
    let script = read_cert(rt.alloc(), FIRST)?;
    assert_head(&rt, &script.head, &SAID);
    assert_same(&rt, &script.head.version, &Version::Two);
    assert_same(&rt, &script.parts.as_slice().len(), &1);
    Ok(())
}

/// The plan of the rows 2 and 1.
fn first_plan(rt: &impl Abort, problem: &Problem) -> Plan {
    Plan::from_rows(problem, &[2, 1]).expect(rt, "a plan")
}

/// Writes the text in bay A 1 that claims the rows 2 and 1 to be the first best plan.
fn write<W: Sink>(
    rt: &impl Abort,
    alloc: Global,
    sink: &mut W,
    case: &(Problem, Cert),
) -> Result<(), WriteFault> {
    let plan = first_plan(rt, &case.0);
    write_first(alloc, sink, &bay_a(rt), &case.0, &case.1, &plan)
}

#[test]
fn a_claim_of_the_first_plan_goes_to_a_sink(rt: HostRuntime) -> Result<(), Fail> {
    let mut sink = Received::new(rt.alloc());
    let case = branched_twice(&rt, rt.alloc())?;
    write(&rt, rt.alloc(), &mut sink, &case)?;
    assert_same(&rt, &sink.bytes.as_slice(), &FIRST);
    Ok(())
}

#[test]
fn a_full_sink_holds_a_front_of_such_a_claim(rt: HostRuntime) -> Result<(), Fail> {
    let mut sink = make_small(rt.alloc(), 20);
    let case = branched_twice(&rt, rt.alloc())?;
    let answer = write(&rt, rt.alloc(), &mut sink, &case);
    assert_same(&rt, &answer, &Err(WriteFault::Failed));
    assert_same(&rt, &sink.bytes.as_slice(), &&FIRST[..20]);
    assert_same(&rt, &sink.failed, &1);
    Ok(())
}
