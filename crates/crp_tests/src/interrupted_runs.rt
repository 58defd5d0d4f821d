//! Runs over sinks that are interrupted and sources that never end, and the moves of one plan.
use crate::calls::{exit_of, run};
use crate::compare::assert_same;
use crate::devices::{Busy, Endless, Slow};
use crate::six::{Choice, SIX_CONTAINERS, SIX_ORDERS, message, settings_of};
use crp_jobs::ToolFault;
use crp_order::Mode;
use crp_plan::{Plan, Problem, Source};
use crp_report::{Devices, Fault, Output, Status, print_moves};
use std::alloc::Global;
use std::sync::Wait;
use std::test::Fail;
use std::thread::Threads;

fn busy(interrupted: u32) -> Busy {
    Busy {
        interrupted,
        failed: 0,
    }
}

// How a run over these sources ends whose sinks are interrupted so often.
fn ended<T: Threads + Wait + Sync, Y: Source + Drop, M: Source + Drop>(
    rt: &T,
    alloc: Global,
    yard: Y,
    movins: M,
    interrupted: [u32; 3],
) -> Result<Result<Status, Fault>, Fail> {
    let choice = Choice {
        budget: 1000000,
        rows: 3,
        tiers: 3,
        mode: Mode::Listed,
    };
    let settings = settings_of(alloc, &choice)?;
    let mut devices = Devices {
        yard,
        movins,
        certificates: busy(interrupted[1]),
        yard_after: busy(interrupted[2]),
        separator: b',',
    };
    Ok(run(
        rt,
        alloc,
        &mut devices,
        &settings,
        &mut busy(interrupted[0]),
    ))
}

#[test]
fn a_thousand_interruptions_are_passed_over(rt: HostRuntime) -> Result<(), Fail> {
    let movins = message(rt.alloc(), &[SIX_ORDERS], b"16")?;
    let cases: [(u32, [u32; 3], Result<Status, Fault>); 6] = [
        (0, [1000, 0, 0], Ok(Status::Decided)),
        (0, [1001, 0, 0], Err(Fault::Write(Output::Report))),
        (0, [0, 1001, 0], Err(Fault::Write(Output::Certificates))),
        (0, [0, 0, 1001], Err(Fault::Write(Output::YardAfter))),
        (250, [250, 250, 250], Ok(Status::Decided)),
        (250, [250, 250, 251], Err(Fault::Write(Output::YardAfter))),
    ];
    for (reads, writes, answer) in cases {
        let yard = Slow {
            interrupted: reads,
            rest: SIX_CONTAINERS,
            fails: false,
            failed: 0,
        };
        let got = ended(&rt, rt.alloc(), yard, movins.as_slice(), writes)?;
        assert_same(&rt, &got, &answer);
    }
    Ok(())
}

#[test]
fn moves_that_are_interrupted(rt: HostRuntime) -> Result<(), Fail> {
    let stacks = vec![in rt.alloc(); vec![in rt.alloc(); 1]?]?;
    let problem = Problem::new(1, 1, &stacks)?;
    let plan = Plan::from_rows(&problem, &[])?;
    let names = vec![in rt.alloc(); Vec::from_slice(rt.alloc(), b"BOX1")?]?;
    let got = print_moves(rt.alloc(), &mut busy(1000), &plan, &names);
    assert_same(&rt, &got, &Ok(()));
    let got = print_moves(rt.alloc(), &mut busy(1001), &plan, &names);
    assert_same(&rt, &got, &Err(Fault::Write(Output::Report)));
    Ok(())
}

// The fault that ended a run, in words, and the exit status.
fn refused(alloc: Global, got: Result<Status, Fault>) -> Result<(String, u8), Fail> {
    match got {
        Err(fault) => Ok((
            format!(in alloc; "{fault}")?,
            exit_of(&Err(ToolFault::Run(fault))),
        )),
        Ok(_) => Ok((String::new(alloc), 0)),
    }
}

#[test]
fn sources_that_never_end(rt: HostRuntime) -> Result<(), Fail> {
    let movins = message(rt.alloc(), &[SIX_ORDERS], b"16")?;
    let got = ended(&rt, rt.alloc(), Endless, movins.as_slice(), [0, 0, 0])?;
    let (line, status) = refused(rt.alloc(), got)?;
    assert!(rt; line.as_str() == "Y10 at record 0" && status == 3);
    let got = ended(&rt, rt.alloc(), SIX_CONTAINERS, Endless, [0, 0, 0])?;
    let (line, status) = refused(rt.alloc(), got)?;
    assert!(rt; line.as_str() == "E7 at offset 8388608" && status == 3);
    Ok(())
}
