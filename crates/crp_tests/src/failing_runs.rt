//! Runs over sources that are interrupted, and the moves of one plan.
use crate::calls::run;
use crate::compare::assert_same;
use crate::devices::{Slow, Small};
use crate::six::{Choice, SIX_CONTAINERS, SIX_ORDERS, message, settings_of};
use crp_order::Mode;
use crp_plan::{Nowhere, Plan, Problem, Received};
use crp_report::{Devices, Fault, Input, Output, Status, print_moves};
use std::alloc::Global;
use std::sync::Wait;
use std::test::Fail;
use std::thread::Threads;

// A sink with room for so many bytes.
fn small(alloc: Global, room: usize) -> Small {
    Small {
        bytes: Vec::new(alloc),
        room,
        failed: 0,
    }
}

// How a run ends whose sources are interrupted so often.
fn with_slow<T: Threads + Wait + Sync>(
    rt: &T,
    alloc: Global,
    movins: &[u8],
    interrupted: (u32, u32),
) -> Result<Result<Status, Fault>, Fail> {
    let choice = Choice {
        budget: 1000000,
        rows: 3,
        tiers: 3,
        mode: Mode::Listed,
    };
    let settings = settings_of(alloc, &choice)?;
    let mut devices = Devices {
        yard: Slow {
            interrupted: interrupted.0,
            rest: SIX_CONTAINERS,
            fails: false,
            failed: 0,
        },
        movins: Slow {
            interrupted: interrupted.1,
            rest: movins,
            fails: false,
            failed: 0,
        },
        certificates: Nowhere,
        yard_after: Nowhere,
        separator: b',',
    };
    Ok(run(rt, alloc, &mut devices, &settings, &mut Nowhere))
}

#[test]
fn interrupted_reads(rt: HostRuntime) -> Result<(), Fail> {
    let movins = message(rt.alloc(), &[SIX_ORDERS], b"16")?;
    let cases: [((u32, u32), Result<Status, Fault>); 4] = [
        ((600, 400), Ok(Status::Decided)),
        ((600, 401), Err(Fault::Read(Input::Movins))),
        ((1001, 0), Err(Fault::Read(Input::Yard))),
        ((0, 1000), Ok(Status::Decided)),
    ];
    for (interrupted, answer) in cases {
        let got = with_slow(&rt, rt.alloc(), &movins, interrupted)?;
        assert_same(&rt, &got, &answer);
    }
    Ok(())
}

#[test]
fn moves_of_one_plan(rt: HostRuntime) -> Result<(), Fail> {
    let stacks = vec![in rt.alloc(); vec![in rt.alloc(); 1, 2]?, Vec::new(rt.alloc())]?;
    let problem = Problem::new(2, 1, &stacks)?;
    let plan = Plan::from_rows(&problem, &[2])?;
    let box_1 = Vec::from_slice(rt.alloc(), b"BOX1")?;
    let keep = Vec::from_slice(rt.alloc(), b"KEEP")?;
    let names = vec![in rt.alloc(); box_1, keep]?;
    let mut sink = Received::new(rt.alloc());
    assert_same(
        &rt,
        &print_moves(rt.alloc(), &mut sink, &plan, &names),
        &Ok(()),
    );
    assert_same(
        &rt,
        &sink.bytes.as_slice(),
        &b"shift 1.2 2.1 KEEP\ntake 1.1 BOX1\n".as_slice(),
    );
    let mut sink = small(rt.alloc(), 3);
    assert_same(
        &rt,
        &print_moves(rt.alloc(), &mut sink, &plan, &names),
        &Err(Fault::Write(Output::Report)),
    );
    assert_same(&rt, &sink.bytes.as_slice(), &b"shi".as_slice());
    Ok(())
}
