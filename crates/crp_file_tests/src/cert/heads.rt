use super::{SIX_CONTAINERS, assert_fault, plan_of};
use crate::calls::read_head;
use crate::compare::{assert_same, assert_same_at};
use crp_cert::{CertFault, Claim, Head, Rows};
use std::alloc::{AllocError, Global};
use std::process::Abort;
use std::test::Fail;

/// The head of the six containers with another line, counted from 1, in place of its own.
fn with_line(alloc: Global, number: usize, other: &[u8]) -> Result<Vec<u8>, AllocError> {
    let mut text = Vec::new(alloc);
    for (i, line) in SIX_CONTAINERS.iter().enumerate() {
        if i + 1 == number {
            text.extend_from_slice(other)?;
        } else {
            text.extend_from_slice(line)?;
        }
        text.push(b'\n')?;
    }
    Ok(text)
}

/// The fault that a text is refused with, if it is.
pub(super) fn refusal(alloc: Global, text: &[u8]) -> Option<CertFault> {
    match read_head(alloc, text) {
        Ok(_) => None,
        Err(fault) => Some(fault),
    }
}

/// The head of a text, with no clauses: who compares it need not know what is promised of it.
fn head_of(alloc: Global, text: &[u8]) -> Result<Head, CertFault> {
    read_head(alloc, text)
}

/// The text is refused with this fault, or begins with a head.
pub(super) fn assert_refused(
    rt: &(impl Abort + AllocGlobal),
    text: &[u8],
    fault: Option<CertFault>,
) {
    assert_fault(rt, refusal(rt.alloc(), text), fault, text);
}

/// The plan of the six containers' head with this line in place of that of its own plan.
fn plan_read(alloc: Global, line: &[u8]) -> Result<Option<Rows>, CertFault> {
    let text = with_line(alloc, 8, line)?;
    let head = head_of(alloc, &text)?;
    Ok(head.plan)
}

fn made_again(rows: Vec<u8>) -> Rows {
    Rows::of(Rows::of(rows).into_vec())
}

#[test]
fn rows_of_a_plan(rt: HostRuntime) -> Result<(), Fail> {
    let rows = made_again(b"\x03\x01".to_vec(rt.alloc())?);
    assert_same(&rt, &plan_of(&Some(rows)), &Some(b"\x03\x01".as_slice()));
    Ok(())
}

/// A plan of this line has these rows.
fn assert_plan(
    rt: &(impl Abort + AllocGlobal),
    line: &[u8],
    rows: Option<&[u8]>,
) -> Result<(), CertFault> {
    let plan = plan_read(rt.alloc(), line)?;
    assert_same_at(rt, &plan_of(&plan), &rows, &line);
    Ok(())
}

#[test]
fn plan_or_none(rt: HostRuntime) -> Result<(), Fail> {
    let plans: [(&[u8], Option<&[u8]>); 5] = [
        (b"plan -", None),
        (b"plan", Some(b"")),
        (b"plan 0", Some(b"\x00")),
        (b"plan 99 0 12", Some(b"\x63\x00\x0c")),
        (b"plan 7", Some(b"\x07")),
    ];
    for (line, rows) in plans {
        assert_plan(&rt, line, rows)?;
    }
    Ok(())
}

/// The line of a plan of so many relocations to row 12.
fn long_line(alloc: Global, relocations: usize) -> Result<Vec<u8>, AllocError> {
    let mut line = b"plan".to_vec(alloc)?;
    for _ in 0..relocations {
        line.extend_from_slice(b" 12")?;
    }
    Ok(line)
}

/// How many rows the plan of this line has.
fn count_read(alloc: Global, line: &[u8]) -> Result<usize, CertFault> {
    let plan = plan_read(alloc, line)?;
    Ok(plan_of(&plan).unwrap_or(&[]).len())
}

#[test]
fn longest_plan(rt: HostRuntime) -> Result<(), Fail> {
    let line = long_line(rt.alloc(), 672)?;
    assert_same(&rt, &count_read(rt.alloc(), &line)?, &672);
    Ok(())
}

/// What the six containers' head claims with this line in place of that of its claim.
fn claim_read(alloc: Global, line: &[u8]) -> Result<Claim, CertFault> {
    let text = with_line(alloc, 7, line)?;
    let head = head_of(alloc, &text)?;
    Ok(head.claim)
}

#[test]
fn highest_claim(rt: HostRuntime) -> Result<(), Fail> {
    let highest = claim_read(rt.alloc(), b"at least 13")?;
    assert_same(&rt, &highest, &Claim::AtLeast(13));
    Ok(())
}
