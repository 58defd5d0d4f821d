//! The lines after faults: what is wrong, and which file is to be looked at.
mod faults;
mod places;

use crate::advice::faults::{
    OF_CERTIFICATES, OF_INTERCHANGES, OF_MESSAGES, OF_PLANS, OF_RUNS, OF_SETTINGS, OF_SIZES,
    OF_YARD_LISTS,
};
use crate::compare::{assert_at, assert_same, assert_same_at};
use crp_audit::AuditFault;
use crp_checker::{Path, Refused};
use crp_files::{Role, Shared};
use crp_follow::{FollowFault, Unstated};
use crp_jobs::{Statement, ToolFault, advice_on};
use crp_loading::LoadingFault;
use crp_movins::MovinsFault;
use crp_plan::BayName;
use crp_report::{Fault, Output};
use crp_sizes::SizesFault;
use crp_words::advice_on_setting;
use crp_yard::YardFault;
use edi_text::EdiFault;
use std::alloc::{AllocError, Global};
use std::test::Fail;

fn checked(refused: Refused) -> ToolFault {
    ToolFault::Checked { number: 2, refused }
}

// Faults that no small input and no command shows, each with its line and the line after it.
fn unseen() -> [(ToolFault, &'static str, &'static str); 15] {
    [
        (
            ToolFault::Run(Fault::Interchange(EdiFault::TooLong { offset: 6 })),
            "E7 at offset 6",
            "a message may have at most 8388608 bytes",
        ),
        (
            ToolFault::Run(Fault::Message(MovinsFault::TooManyOrders { segment: 13 })),
            "V13 at segment 13",
            "a file may order at most 10000 containers",
        ),
        (
            ToolFault::Run(Fault::Yard(YardFault::TooMany { record: 8 })),
            "Y8 at record 8",
            "a yard list may have at most 20000 containers",
        ),
        (
            ToolFault::Run(Fault::Yard(YardFault::TooLarge)),
            "Y10 at record 0",
            "a yard list may have at most 8388608 bytes",
        ),
        (
            ToolFault::Sizes(SizesFault::TooLarge),
            "Z6 at record 0",
            "a list of sizes may have at most 8388608 bytes",
        ),
        (
            checked(Refused::OtherProblem),
            "certificate 2: K1",
            "the certificate states another problem than the one that was asked for",
        ),
        (
            ToolFault::Run(Fault::Write(Output::Report)),
            "a write of the report failed",
            "the report could not be written: its disk must not be full, and the program that reads it must not have ended",
        ),
        (
            ToolFault::Write,
            "a write failed",
            "the output could not be written: its disk must not be full, and the program that reads it must not have ended",
        ),
        (
            ToolFault::TooLarge,
            "the input is too large",
            "a file of certificates may have at most 268435456 bytes; crp check takes a larger one with --any-size",
        ),
        (
            ToolFault::TooLargeOf(Statement::Report),
            "the report: too many bytes",
            "a report may have at most 16777216 bytes",
        ),
        (
            ToolFault::TooLargeOf(Statement::Certificates),
            "the certificates: too many bytes",
            "certificates may have at most 9223372036854775808 bytes",
        ),
        (
            ToolFault::Followed(FollowFault::TooLong),
            "F10 at line 0",
            "a report may have at most 8388608 bytes",
        ),
        (
            ToolFault::WriteTable,
            "a write of the table failed",
            "the table could not be written: its disk must not be full, and the program that reads it must not have ended",
        ),
        (
            ToolFault::WritePage,
            "a write of the page failed",
            "the page could not be written: the folder must be there and let you write, and its disk must not be full",
        ),
        (
            ToolFault::Memory,
            "no memory is left",
            "close other programs, or use a machine with more memory; solve and prove need less with a smaller --budget",
        ),
    ]
}

#[test]
fn each_unseen_fault_has_its_two_lines(rt: HostRuntime) -> Result<(), Fail> {
    for (fault, text, advice) in &unseen() {
        assert_same(&rt, &format!(in rt.alloc(); "{fault}")?.as_str(), text);
        assert_same_at(&rt, &advice_on(fault), advice, text);
    }
    Ok(())
}

// The faults of the inputs of a run, and of its reads and writes.
fn add_runs(faults: &mut Vec<ToolFault>) -> Result<(), AllocError> {
    for fault in OF_INTERCHANGES {
        faults.push(ToolFault::Run(Fault::Interchange(fault)))?;
    }
    for fault in OF_MESSAGES {
        faults.push(ToolFault::Run(Fault::Message(fault)))?;
    }
    for fault in OF_YARD_LISTS {
        faults.push(ToolFault::Run(Fault::Yard(fault)))?;
    }
    for fault in OF_SIZES {
        faults.push(ToolFault::Sizes(fault))?;
    }
    faults.push(ToolFault::ReadSizes)?;
    for fault in OF_RUNS {
        faults.push(ToolFault::Run(fault))?;
    }
    Ok(())
}

// The path without rows.
fn root(alloc: Global) -> Path {
    Path::of(Vec::new(alloc))
}

// What a check finds beside the text and the plan.
fn claims(alloc: Global) -> [Refused; 7] {
    [
        Refused::OtherProblem,
        Refused::NoFirstPlan,
        Refused::Low {
            part: root(alloc),
            symbol: 2,
        },
        Refused::Finished {
            part: root(alloc),
            symbol: 1,
        },
        Refused::Unshown {
            part: root(alloc),
            symbol: 1,
        },
        Refused::Missing { name: root(alloc) },
        Refused::Unneeded { name: root(alloc) },
    ]
}

// The faults of certificates.
fn add_certificates(alloc: Global, faults: &mut Vec<ToolFault>) -> Result<(), AllocError> {
    for fault in OF_CERTIFICATES {
        faults.push(ToolFault::Cert(fault))?;
    }
    for fault in OF_PLANS {
        faults.push(ToolFault::Plan(fault))?;
        faults.push(checked(Refused::Plan(fault)))?;
    }
    for refused in claims(alloc) {
        faults.push(checked(refused))?;
    }
    Ok(())
}

// The faults of a bay that is audited.
fn audited(bay: &BayName) -> [AuditFault; 6] {
    [
        AuditFault::Bay {
            line: 2,
            wanted: Some(bay.copy()),
        },
        AuditFault::Plan { bay: bay.copy() },
        AuditFault::Certificate {
            bay: bay.copy(),
            refused: Refused::OtherProblem,
        },
        AuditFault::Other { bay: bay.copy() },
        AuditFault::Lacking { bay: bay.copy() },
        AuditFault::Outside { bay: bay.copy() },
    ]
}

// The faults of an audit that are none of a run or a check.
fn add_audits(faults: &mut Vec<ToolFault>) -> Result<(), AllocError> {
    for fault in [
        AuditFault::Spelling { line: 3 },
        AuditFault::Numbers,
        AuditFault::Bay {
            line: 2,
            wanted: None,
        },
        AuditFault::Move { line: 4 },
        AuditFault::LeftOver,
        AuditFault::Closing,
    ] {
        faults.push(ToolFault::Audited(fault))?;
    }
    if let Some(bay) = BayName::new(b"A", 1) {
        for fault in audited(&bay) {
            faults.push(ToolFault::Audited(fault))?;
        }
    }
    faults.push(ToolFault::ReadOf(Statement::Report))?;
    faults
        .push(ToolFault::TooLargeOf(Statement::Report))
        .map_err(AllocError::from)
}

// The faults of a report that is followed.
fn add_followed(faults: &mut Vec<ToolFault>) -> Result<(), AllocError> {
    for fault in [
        FollowFault::TooLong,
        FollowFault::Orders { line: 1 },
        FollowFault::NoLine { line: 2 },
        FollowFault::Count { line: 3 },
        FollowFault::NoBay { line: 2 },
        FollowFault::Again { line: 5 },
        FollowFault::Relocations { line: 2 },
        FollowFault::Lift { line: 3 },
        FollowFault::Container { line: 3 },
        FollowFault::SetDown { line: 3 },
    ] {
        faults.push(ToolFault::Followed(fault))?;
    }
    faults.push(ToolFault::Loaded(LoadingFault::OutOfOrder { line: 4 }))?;
    faults.push(ToolFault::Loaded(LoadingFault::NotOrdered { line: 4 }))?;
    faults.push(ToolFault::Unstated(Unstated::Bay(2)))?;
    faults.push(ToolFault::Unstated(Unstated::Block(1)))?;
    faults.push(ToolFault::ReadSecond)?;
    faults.push(ToolFault::WriteTable)?;
    faults.push(ToolFault::WritePage).map_err(AllocError::from)
}

// Every fault of a job.
fn every_fault(alloc: Global) -> Result<Vec<ToolFault>, AllocError> {
    let mut faults = Vec::new(alloc);
    add_runs(&mut faults)?;
    add_certificates(alloc, &mut faults)?;
    add_audits(&mut faults)?;
    add_followed(&mut faults)?;
    faults.push(ToolFault::Read)?;
    faults.push(ToolFault::Write)?;
    faults.push(ToolFault::TooLarge)?;
    faults.push(ToolFault::OneFile(Shared {
        written: Role::Page,
        other: Role::YardList,
    }))?;
    faults.push(ToolFault::Memory)?;
    Ok(faults)
}

// The lines after all faults.
fn every_advice(alloc: Global) -> Result<Vec<&'static str>, AllocError> {
    let mut lines = Vec::new(alloc);
    for fault in &every_fault(alloc)? {
        lines.push(advice_on(fault))?;
    }
    for fault in OF_SETTINGS {
        lines.push(advice_on_setting(&fault))?;
    }
    Ok(lines)
}

// Whether the line is short enough for a terminal.
fn is_short(advice: &str) -> bool {
    advice.len() <= 120
}

#[test]
fn each_line_is_short_and_of_one_code(rt: HostRuntime) -> Result<(), Fail> {
    let lines = every_advice(rt.alloc())?;
    assert_same(&rt, &lines.len(), &114);
    for (i, advice) in lines.iter().enumerate() {
        assert_at(&rt, is_short(advice), advice);
        let is_new = lines[..i].iter().all(|line| line != advice);
        assert_at(&rt, is_new, advice);
    }
    Ok(())
}

#[test]
fn a_certificate_that_is_checked_has_the_line_of_its_code(rt: HostRuntime) {
    for fault in OF_CERTIFICATES {
        let line = advice_on(&ToolFault::Cert(fault));
        assert_same(&rt, &advice_on(&checked(Refused::Cert(fault))), &line);
    }
}
