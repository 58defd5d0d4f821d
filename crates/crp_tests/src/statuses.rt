//! Faults that no command shows: their lines, and exit statuses.
use crate::calls::exit_of;
use crate::compare::{assert_same, assert_same_at};
use crp_jobs::ToolFault;
use crp_report::{Fault, Output, Status};
use std::alloc::AllocError;
use std::process::Abort;
use std::test::Fail;

// Faults, each with its exit status and its line.
const FAULTS: [(ToolFault, u8, &str); 5] = [
    (
        ToolFault::Run(Fault::Write(Output::Report)),
        5,
        "a write of the report failed",
    ),
    (ToolFault::Run(Fault::Memory), 4, "no memory is left"),
    (ToolFault::Write, 5, "a write failed"),
    (ToolFault::TooLarge, 3, "the input is too large"),
    (ToolFault::Memory, 4, "no memory is left"),
];

// The exit status after this fault is that, and its line.
fn assert_fault(
    rt: &(impl Abort + AllocGlobal),
    fault: ToolFault,
    status: u8,
    line: &str,
) -> Result<(), AllocError> {
    let text = format!(in rt.alloc(); "{fault}")?;
    assert_same(rt, &text.as_str(), &line);
    assert_same_at(rt, &exit_of(&Err(fault)), &status, &line);
    Ok(())
}

#[test]
fn exit_statuses_and_fault_lines(rt: HostRuntime) -> Result<(), Fail> {
    assert_same(&rt, &exit_of(&Ok(Status::Memory)), &4);
    for (fault, status, line) in FAULTS {
        assert_fault(&rt, fault, status, line)?;
    }
    Ok(())
}
