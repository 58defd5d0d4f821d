//! Runs over devices of which each call fails in turn: every read, and every byte that is written.
use crate::calls::run;
use crate::compare::assert_same_at;
use crate::devices::{Slow, Small};
use crate::six::{
    Choice, HEADER, SIX_ANSWERED, SIX_CERTIFIED, SIX_CONTAINERS, SIX_ORDERS, Texts, message,
    settings_of,
};
use crp_order::Mode;
use crp_plan::Source;
use crp_report::{Devices, Fault, Input, Output, Status};
use std::alloc::Global;
use std::process::Abort;
use std::sync::Wait;
use std::test::Fail;
use std::thread::Threads;

// The last line of the report of the six containers.
const LAST_LINE: &[u8] = b"bays 1 decided 1\n";

// More room than each of the three texts needs.
const ROOM: usize = 1000;

const CHOICE: Choice = Choice {
    budget: 1000000,
    rows: 3,
    tiers: 3,
    mode: Mode::Listed,
};

fn small(alloc: Global, room: usize) -> Small {
    Small {
        bytes: Vec::new(alloc),
        room,
        failed: 0,
    }
}

// How a run ends over these sources, and what its sinks hold then, which have so much room and take a byte a call.
fn ended<T: Threads + Wait + Sync, Y: Source + Drop, M: Source + Drop>(
    rt: &T,
    alloc: Global,
    yard: Y,
    movins: M,
    rooms: [usize; 3],
) -> Result<Texts, Fail> {
    let settings = settings_of(alloc, &CHOICE)?;
    let mut out = small(alloc, rooms[0]);
    let mut devices = Devices {
        yard,
        movins,
        certificates: small(alloc, rooms[1]),
        yard_after: small(alloc, rooms[2]),
        separator: b',',
    };
    let answer = run(rt, alloc, &mut devices, &settings, &mut out);
    Ok(Texts {
        report: out.bytes,
        certificates: devices.certificates.bytes,
        yard_after: devices.yard_after.bytes,
        answer,
    })
}

fn front(text: &[u8], length: usize) -> &[u8] {
    text.get(..length).unwrap_or(text)
}

// The run ended so, and the sinks hold fronts of their texts of these lengths.
fn assert_ended(
    rt: &impl Abort,
    got: &Texts,
    answer: &Result<Status, Fault>,
    held: [usize; 3],
    at: usize,
) {
    assert_same_at(rt, &got.answer, answer, &at);
    let fronts = [
        (&got.report, SIX_ANSWERED, held[0]),
        (&got.certificates, SIX_CERTIFIED, held[1]),
        (&got.yard_after, HEADER, held[2]),
    ];
    for (bytes, text, length) in fronts {
        assert_same_at(rt, &bytes.as_slice(), &front(text, length), &at);
    }
}

// So much room for one output, and enough for the others.
fn rooms_of(output: Output, room: usize) -> [usize; 3] {
    match output {
        Output::Report => [room, ROOM, ROOM],
        Output::Certificates => [ROOM, room, ROOM],
        Output::YardAfter => [ROOM, ROOM, room],
    }
}

// How much the sinks hold where one of them has room for so many bytes of its text. The report is written up to the lines of the bay, then
// the certificate, then the report's last line, and then the yard after.
fn held_of(output: Output, room: usize) -> [usize; 3] {
    let (report, certificate) = (SIX_ANSWERED.len(), SIX_CERTIFIED.len());
    let bay = report.saturating_sub(LAST_LINE.len());
    match output {
        Output::Report => [room, if room < bay { 0 } else { certificate }, 0],
        Output::Certificates => [bay, room, 0],
        Output::YardAfter => [report, certificate, room],
    }
}

// A run with so much room for one output ends with a failed write to it.
fn assert_unwritten<T: Threads + Wait + Abort + Sync>(
    rt: &T,
    alloc: Global,
    movins: &[u8],
    output: Output,
    room: usize,
) -> Result<(), Fail> {
    let got = ended(rt, alloc, SIX_CONTAINERS, movins, rooms_of(output, room))?;
    let fault = Err(Fault::Write(output));
    assert_ended(rt, &got, &fault, held_of(output, room), room);
    Ok(())
}

#[test]
fn each_write_fails_in_turn(rt: HostRuntime) -> Result<(), Fail> {
    let movins = message(rt.alloc(), &[SIX_ORDERS], b"16")?;
    let outputs = [
        (Output::Report, SIX_ANSWERED),
        (Output::Certificates, SIX_CERTIFIED),
        (Output::YardAfter, HEADER),
    ];
    for (output, text) in outputs {
        for room in 0..text.len() {
            assert_unwritten(&rt, rt.alloc(), &movins, output, room)?;
        }
    }
    Ok(())
}

// Gives its bytes one by one, and then ends or fails.
fn slow(rest: &[u8], fails: bool) -> Slow<'_> {
    Slow {
        interrupted: 0,
        rest,
        fails,
        failed: 0,
    }
}

// A run over these sources, of which one fails, ends with a failed read of it, and nothing is written.
fn assert_unread<T: Threads + Wait + Abort + Sync>(
    rt: &T,
    alloc: Global,
    sources: (Slow<'_>, Slow<'_>),
    input: Input,
    at: usize,
) -> Result<(), Fail> {
    let (yard, movins) = sources;
    let got = ended(rt, alloc, yard, movins, [ROOM; 3])?;
    assert_ended(rt, &got, &Err(Fault::Read(input)), [0; 3], at);
    Ok(())
}

#[test]
fn each_read_of_the_yard_list_fails_in_turn(rt: HostRuntime) -> Result<(), Fail> {
    let movins = message(rt.alloc(), &[SIX_ORDERS], b"16")?;
    for given in 0..SIX_CONTAINERS.len() + 1 {
        let sources = (
            slow(front(SIX_CONTAINERS, given), true),
            slow(&movins, false),
        );
        assert_unread(&rt, rt.alloc(), sources, Input::Yard, given)?;
    }
    Ok(())
}

#[test]
fn each_read_of_the_message_fails_in_turn(rt: HostRuntime) -> Result<(), Fail> {
    let movins = message(rt.alloc(), &[SIX_ORDERS], b"16")?;
    for given in 0..movins.len().saturating_add(1) {
        let sources = (
            slow(SIX_CONTAINERS, false),
            slow(front(&movins, given), true),
        );
        assert_unread(&rt, rt.alloc(), sources, Input::Movins, given)?;
    }
    Ok(())
}

#[test]
fn a_byte_a_call(rt: HostRuntime) -> Result<(), Fail> {
    let movins = message(rt.alloc(), &[SIX_ORDERS], b"16")?;
    let got = ended(
        &rt,
        rt.alloc(),
        slow(SIX_CONTAINERS, false),
        slow(&movins, false),
        [ROOM; 3],
    )?;
    assert_ended(&rt, &got, &Ok(Status::Decided), [ROOM; 3], 0);
    Ok(())
}
