//! Commands over devices of which each call fails in turn: every read, and every byte that is written.
use crate::calls::{bound, check, prove, replay};
use crate::compare::assert_same_at;
use crate::devices::{Slow, Small};
use crate::six::SIX_CERTIFIED;
use crp_jobs::ToolFault;
use crp_report::Status;
use crp_solve::Settings;
use std::alloc::Global;
use std::process::Abort;
use std::sync::Wait;
use std::test::Fail;
use std::thread::Threads;

#[derive(Clone, Copy, Debug, PartialEq, Eq)]
enum Command {
    Replay,
    Bound,
    Check,
    Prove,
}

// What each command writes of the certificate of the six containers.
const REPORTS: [(Command, &[u8]); 4] = [
    (
        Command::Replay,
        b"bay A 1\n\
            moves 9 relocations 3\n\
            shift 1.3 2.2 4\n\
            shift 1.2 2.3 5\n\
            take 1.1 1\n\
            take 3.2 2\n\
            take 3.1 3\n\
            shift 2.3 1.1 5\n\
            take 2.2 4\n\
            take 1.1 5\n\
            take 2.1 6\n",
    ),
    (Command::Bound, b"bay A 1\nblocking 2\nlook-ahead 2\n"),
    (Command::Check, b"bay A 1: optimal 3\n"),
    (Command::Prove, SIX_CERTIFIED),
];

// More room than each of the reports needs.
const ROOM: usize = 1000;

// How a command ended, and what its sink holds then.
#[derive(Drop)]
struct CommandRun {
    answer: Result<Status, ToolFault>,
    held: Vec<u8>,
}

// How a command ends over a source that gives its bytes one by one, and a sink that takes them so and has so much room.
fn ended<T: Threads + Wait + Sync>(
    rt: &T,
    alloc: Global,
    command: Command,
    mut source: Slow<'_>,
    room: usize,
) -> Result<CommandRun, Fail> {
    let mut sink = Small {
        bytes: Vec::new(alloc),
        room,
        failed: 0,
    };
    let answer = match command {
        Command::Replay => replay(alloc, &mut source, &mut sink),
        Command::Bound => bound(alloc, &mut source, &mut sink),
        Command::Check => check(rt, alloc, &mut source, &mut sink, 1),
        Command::Prove => {
            let settings = Settings::new(1, 1000000, 0)?;
            prove(rt, alloc, &mut source, &mut sink, settings)
        }
    };
    Ok(CommandRun {
        answer,
        held: sink.bytes,
    })
}

fn front(text: &[u8], length: usize) -> &[u8] {
    text.get(..length).unwrap_or(text)
}

fn slow(rest: &[u8], fails: bool) -> Slow<'_> {
    Slow {
        interrupted: 0,
        rest,
        fails,
        failed: 0,
    }
}

// With so much room the command is done, or ends with a failed write, and the sink holds as much of the report.
fn assert_written<T: Threads + Wait + Abort + Sync>(
    rt: &T,
    alloc: Global,
    command: Command,
    report: &[u8],
    room: usize,
) -> Result<(), Fail> {
    let got = ended(rt, alloc, command, slow(SIX_CERTIFIED, false), room)?;
    let answer = if room < report.len() {
        Err(ToolFault::Write)
    } else {
        Ok(Status::Decided)
    };
    assert_same_at(rt, &got.answer, &answer, &(command, room));
    let held = front(report, room);
    assert_same_at(rt, &got.held.as_slice(), &held, &(command, room));
    Ok(())
}

#[test]
fn each_write_of_a_command_fails_in_turn(rt: HostRuntime) -> Result<(), Fail> {
    for (command, report) in REPORTS {
        for room in 0..report.len() + 1 {
            assert_written(&rt, rt.alloc(), command, report, room)?;
        }
    }
    Ok(())
}

// So long is its head, behind which all commands but `check` read no further, where its bytes come one by one.
const HEAD: usize = 78;

// A command whose read fails after so many bytes ends so, if it reads so far. It has written nothing then, but `check` the line of a
// certificate that has ended.
fn assert_unread<T: Threads + Wait + Abort + Sync>(
    rt: &T,
    alloc: Global,
    command: Command,
    report: &[u8],
    given: usize,
) -> Result<(), Fail> {
    let source = slow(front(SIX_CERTIFIED, given), true);
    let got = ended(rt, alloc, command, source, ROOM)?;
    let is_done = command != Command::Check && given >= HEAD;
    let answer = if is_done {
        Ok(Status::Decided)
    } else {
        Err(ToolFault::Read)
    };
    assert_same_at(rt, &got.answer, &answer, &(command, given));
    let has_report = is_done || given == SIX_CERTIFIED.len();
    let held: &[u8] = if has_report { report } else { b"" };
    assert_same_at(rt, &got.held.as_slice(), &held, &(command, given));
    Ok(())
}

#[test]
fn each_read_of_a_command_fails_in_turn(rt: HostRuntime) -> Result<(), Fail> {
    for (command, report) in REPORTS {
        for given in 0..SIX_CERTIFIED.len() + 1 {
            assert_unread(&rt, rt.alloc(), command, report, given)?;
        }
    }
    Ok(())
}
