//! Statements of problems that are refused.
use crate::bays::stacks_of;
use crate::compare::assert_same_at;
use crp_plan::{Problem, ProblemFault};
use std::alloc::{AllocError, Global};
use std::test::Fail;

/// How high the rows are.
#[derive(Clone, Copy)]
enum Heights {
    /// Each has so many tiers.
    Same(u8),
    /// Each has its own.
    Each(&'static [u8]),
}

/// The heights, how many are to leave, the stacks, and the first thing that is wrong with them, if anything is.
type Statement = (Heights, u8, &'static [&'static [u8]], &'static str);

const STATEMENTS: [Statement; 23] = [
    (Heights::Same(0), 1, &[], "P1"),
    (
        Heights::Same(8),
        0,
        &[
            &[],
            &[],
            &[],
            &[],
            &[],
            &[],
            &[],
            &[],
            &[],
            &[],
            &[],
            &[],
            &[],
        ],
        "P1",
    ),
    (Heights::Same(0), 3, &[&[1, 1]], "P2"),
    (Heights::Same(9), 1, &[&[1]], "P2"),
    (Heights::Same(1), 3, &[&[1, 1]], "P3"),
    (Heights::Same(7), 8, &[&[1, 2, 3, 4, 5, 6, 7, 8]], "P3"),
    (Heights::Same(2), 3, &[&[1, 1]], "P4"),
    (Heights::Same(2), 1, &[&[0, 1]], "P4"),
    (Heights::Same(2), 1, &[&[1, 3]], "P4"),
    (Heights::Same(2), 1, &[&[2, 2]], "P4"),
    (Heights::Same(1), 1, &[&[1], &[1]], "P4"),
    (Heights::Same(2), 3, &[&[2, 1]], "P5"),
    (Heights::Same(2), 2, &[&[2, 1]], ""),
    (Heights::Each(&[3, 1, 3]), 4, &[&[1, 4], &[2], &[3]], ""),
    (Heights::Each(&[2, 1]), 3, &[&[1, 2], &[3]], ""),
    (Heights::Each(&[]), 1, &[], "P1"),
    (Heights::Each(&[2]), 3, &[&[1, 2], &[3]], "P1"),
    (Heights::Each(&[2, 1, 0]), 3, &[&[1, 2], &[3]], "P1"),
    (Heights::Each(&[1, 0]), 3, &[&[1, 1], &[]], "P2"),
    (Heights::Each(&[9, 1]), 3, &[&[1, 2], &[3]], "P2"),
    (Heights::Each(&[1, 2]), 4, &[&[1, 2], &[2]], "P3"),
    (Heights::Each(&[2, 1]), 4, &[&[1, 2], &[2]], "P4"),
    (Heights::Each(&[2, 1]), 4, &[&[1, 2], &[3]], "P5"),
];

// What is compared comes from functions without clauses: so the tests know nothing of it, and are soon checked.

fn fault_of(heights: Heights, ordered: u8, stacks: &[Vec<u8>]) -> Option<ProblemFault> {
    match heights {
        Heights::Same(tiers) => Problem::new(tiers, ordered, stacks).err(),
        Heights::Each(heights) => Problem::with_heights(heights, ordered, stacks).err(),
    }
}

/// The text of what is wrong; nothing where nothing is.
fn text_of(alloc: Global, fault: Option<ProblemFault>) -> Result<String, AllocError> {
    match fault {
        Some(fault) => format!(in alloc; "{fault}"),
        None => Ok(String::new(alloc)),
    }
}

#[test]
fn first_fault_of_a_statement(rt: HostRuntime) -> Result<(), Fail> {
    for (heights, ordered, rows, fault) in STATEMENTS {
        let stacks = stacks_of(rt.alloc(), rows)?;
        let text = text_of(rt.alloc(), fault_of(heights, ordered, &stacks))?;
        assert_same_at(&rt, &text.as_str(), &fault, &(ordered, rows));
    }
    Ok(())
}
