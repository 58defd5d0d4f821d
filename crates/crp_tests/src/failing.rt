//! Commands over devices that fail, are slow, or never end.
use crate::calls::{bound, prove, replay};
use crate::compare::assert_same;
use crate::devices::{Endless, Slow};
use crp_jobs::ToolFault;
use crp_plan::Received;
use crp_report::Status;
use crp_solve::Settings;
use std::test::Fail;

const TWO_CONTAINERS: &[u8] =
    b"CRP-CERT 1\nbay A 1\nsize 2 2 1 2\nrow 1 2\nrow\nat least 1\nplan 2\n";

const TWO_CONTAINERS_REPLAYED: &[u8] =
    b"bay A 1\nmoves 2 relocations 1\nshift 1.2 2.1 2\ntake 1.1 1\n";

fn make_slow(interrupted: u32, fails: bool) -> Slow<'static> {
    Slow {
        interrupted,
        rest: TWO_CONTAINERS,
        fails,
        failed: 0,
    }
}

#[test]
fn slow_sources(rt: HostRuntime) -> Result<(), Fail> {
    // A failure behind the head is not met.
    for mut source in [make_slow(1000, false), make_slow(0, true)] {
        let mut sink = Received::new(rt.alloc());
        let answer = replay(rt.alloc(), &mut source, &mut sink)?;
        assert_same(&rt, &answer, &Status::Decided);
        assert_same(&rt, &sink.bytes.as_slice(), &TWO_CONTAINERS_REPLAYED);
    }
    let mut sink = Received::new(rt.alloc());
    let answer = replay(rt.alloc(), &mut make_slow(1001, false), &mut sink);
    assert!(rt; answer == Err(ToolFault::Read) && sink.bytes.is_empty());
    Ok(())
}

#[test]
fn heads_that_never_end(rt: HostRuntime) -> Result<(), Fail> {
    let mut sink = Received::new(rt.alloc());
    let settings = Settings::new(1, 0, 0)?;
    let answers = [
        replay(rt.alloc(), &mut Endless, &mut sink),
        bound(rt.alloc(), &mut Endless, &mut sink),
        prove(&rt, rt.alloc(), &mut Endless, &mut sink, settings),
    ];
    for answer in answers {
        assert_same(&rt, &answer, &Err(ToolFault::TooLarge));
        assert!(rt; sink.bytes.is_empty());
    }
    Ok(())
}
