//! Which file is to be looked at, where no file that is not there shows it.
use crate::calls::job;
use crate::compare::assert_same_at;
use crp_jobs::{ToolFault, place_of};
use crp_report::{Fault, Output};
use std::alloc::Global;
use std::process::Abort;
use std::test::Fail;

// Words of a job over one file.
const ONE_FILE: [&[&str]; 6] = [
    &["replay", "a.crp"],
    &["bound", "b.crp"],
    &["check", "c.crp"],
    &["prove", "--budget=1", "d.crp"],
    &["check", "-"],
    &[],
];

// What could not be read or written, in words; nothing where that is not the fault.
fn place_in(alloc: Global, words: &[&str], fault: &ToolFault) -> Result<String, Fail> {
    let Ok(job) = job(alloc, words) else {
        return Err(Fail::from("the words ask for nothing"));
    };
    match place_of(&job, fault) {
        Some(place) => Ok(format!(in alloc; "{place}")?),
        None => Ok(String::new(alloc)),
    }
}

// Ends the test where the words of the place are others.
fn assert_place(
    rt: &impl Abort,
    alloc: Global,
    words: &[&str],
    fault: &ToolFault,
    place: &str,
) -> Result<(), Fail> {
    let got = place_in(alloc, words, fault)?;
    assert_same_at(rt, &got.as_str(), &place, fault);
    Ok(())
}

#[test]
fn the_standard_input_that_is_not_read_is_named(rt: HostRuntime) -> Result<(), Fail> {
    let standard_input: [&[&str]; 2] = [&["check", "-"], &[]];
    for words in standard_input {
        let place = "look at the standard input";
        assert_place(&rt, rt.alloc(), words, &ToolFault::Read, place)?;
    }
    Ok(())
}

#[test]
fn the_report_of_one_file_goes_to_the_standard_output(rt: HostRuntime) -> Result<(), Fail> {
    for words in ONE_FILE {
        let place = "look at the standard output";
        assert_place(&rt, rt.alloc(), words, &ToolFault::Write, place)?;
    }
    Ok(())
}

// Words of `solve` with both outputs, and without.
const SOLVE: [&str; 7] = [
    "solve",
    "yard.csv",
    "-",
    "--cert",
    "proofs.crp",
    "--after",
    "after.csv",
];

const SOLVE_WITHOUT_OUTPUTS: [&str; 3] = ["solve", "yard.csv", "ship.edi"];

#[test]
fn the_report_of_a_run_goes_to_the_standard_output(rt: HostRuntime) -> Result<(), Fail> {
    let (fault, place) = (
        ToolFault::Run(Fault::Write(Output::Report)),
        "look at the standard output",
    );
    assert_place(&rt, rt.alloc(), &SOLVE, &fault, place)?;
    assert_place(&rt, rt.alloc(), &SOLVE_WITHOUT_OUTPUTS, &fault, place)
}

#[test]
fn a_file_that_is_not_asked_for_is_not_named(rt: HostRuntime) -> Result<(), Fail> {
    for output in [Output::Certificates, Output::YardAfter] {
        let fault = ToolFault::Run(Fault::Write(output));
        assert_place(&rt, rt.alloc(), &SOLVE_WITHOUT_OUTPUTS, &fault, "")?;
    }
    Ok(())
}

#[test]
fn other_faults_name_no_file(rt: HostRuntime) -> Result<(), Fail> {
    for fault in [ToolFault::TooLarge, ToolFault::Memory] {
        assert_place(&rt, rt.alloc(), &["check", "a.crp"], &fault, "")?;
    }
    Ok(())
}
