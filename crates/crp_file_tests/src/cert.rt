//! What no contract says and no command shows: what is read of texts, damaged texts, sinks, and the texts of faults.
mod certs;
mod claims;
mod damaged;
mod first;
mod heads;
mod heights;
mod writing;

use crate::compare::{assert_same, assert_same_at};
use crp_cert::{CertFault, Claim, Head, Rows};
use crp_plan::{BayName, Problem};
use std::alloc::{AllocError, Global};
use std::process::Abort;
use std::test::Fail;

/// Six containers in three rows, which three relocations clear.
const SIX_CONTAINERS: [&[u8]; 8] = [
    b"CRP-CERT 1",
    b"bay A 1",
    b"size 3 3 6 6",
    b"row 1 5 4",
    b"row 6",
    b"row 3 2",
    b"at least 3",
    b"plan 2 2 1",
];

/// The fault of a line of that head.
fn fault_at(line: u32) -> CertFault {
    match line {
        1 | 2 => CertFault::Opening { line },
        3 => CertFault::Size { line },
        4..=6 => CertFault::Row { line },
        7 => CertFault::Claim { line },
        _ => CertFault::Plan { line },
    }
}

/// The lines, each with its line feed.
fn joined(alloc: Global, lines: &[&[u8]]) -> Result<Vec<u8>, AllocError> {
    let mut text = Vec::new(alloc);
    for line in lines {
        text.extend_from_slice(line)?;
        text.push(b'\n')?;
    }
    Ok(text)
}

/// The number of the line that stands behind these bytes.
fn line_after(text: &[u8]) -> u32 {
    let mut line: u32 = 1;
    for byte in text {
        if *byte == b'\n' {
            line = line.saturating_add(1);
        }
    }
    line
}

/// What a head says.
#[derive(Drop)]
struct Said<'a> {
    block: &'a [u8],
    bay: u16,
    /// The rows, the tiers, the ordered containers and all of them.
    size: [u8; 4],
    stacks: &'a [&'a [u8]],
    claim: Claim,
    plan: Option<&'a [u8]>,
}

/// What the head of the six containers says.
const SAID_OF_SIX: Said<'static> = Said {
    block: b"A",
    bay: 1,
    size: [3, 3, 6, 6],
    stacks: &[&[1, 5, 4], &[6], &[3, 2]],
    claim: Claim::AtLeast(3),
    plan: Some(&[2, 2, 1]),
};

// What is compared comes from functions without clauses: so the tests above know nothing of it, and are soon checked.

fn block_of(bay: &BayName) -> &[u8] {
    bay.block()
}

fn number_of(bay: &BayName) -> u16 {
    bay.bay()
}

fn size_of(problem: &Problem) -> [u8; 4] {
    let rows = problem.rows();
    let tiers = problem.tiers();
    let ordered = problem.ordered();
    let total = problem.total();
    [rows, tiers, ordered, total]
}

fn rows_in(problem: &Problem) -> usize {
    problem.rows() as usize
}

/// The stack of a row, from 0; none where there is no such row.
fn stack_of(problem: &Problem, row: usize) -> &[u8] {
    if row < problem.rows() as usize {
        problem.stack(row as u8 + 1)
    } else {
        &[]
    }
}

/// The rows of a plan that is read, if one is.
fn plan_of(plan: &Option<Rows>) -> Option<&[u8]> {
    match plan {
        Some(rows) => Some(rows.as_slice()),
        None => None,
    }
}

fn assert_stacks(rt: &impl Abort, problem: &Problem, stacks: &[&[u8]]) {
    assert_same(rt, &rows_in(problem), &stacks.len());
    for (row, stack) in stacks.iter().enumerate() {
        assert_same_at(rt, &stack_of(problem, row), stack, &row);
    }
}

fn assert_head(rt: &impl Abort, head: &Head, said: &Said) {
    assert_same(rt, &block_of(&head.bay), &said.block);
    assert_same(rt, &number_of(&head.bay), &said.bay);
    assert_same(rt, &size_of(&head.problem), &said.size);
    assert_stacks(rt, &head.problem, said.stacks);
    assert_same(rt, &head.claim, &said.claim);
    assert_same(rt, &plan_of(&head.plan), &said.plan);
}

fn assert_fault(
    rt: &impl Abort,
    fault: Option<CertFault>,
    expected: Option<CertFault>,
    text: &[u8],
) {
    assert_same_at(rt, &fault, &expected, &text);
}

fn assert_text(
    rt: &(impl Abort + AllocGlobal),
    fault: CertFault,
    expected: &str,
) -> Result<(), AllocError> {
    let text = format!(in rt.alloc(); "{fault}")?;
    assert_same(rt, &text.as_str(), &expected);
    Ok(())
}

#[test]
fn texts_of_faults(rt: HostRuntime) -> Result<(), Fail> {
    let texts = [
        (
            CertFault::End {
                line: 4_294_967_295,
            },
            "C11 at line 4294967295",
        ),
        (CertFault::Memory, "no memory is left"),
    ];
    for (fault, expected) in texts {
        assert_text(&rt, fault, expected)?;
    }
    Ok(())
}
