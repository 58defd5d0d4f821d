//! Checks of certificates that are cut or changed, or whose source fails.
use crate::calls::check;
use crate::compare::{assert_at, assert_same_at};
use crate::devices::Slow;
use crp_cert::CertFault;
use crp_checker::Refused;
use crp_jobs::ToolFault;
use crp_plan::Received;
use crp_report::Status;
use std::alloc::Global;
use std::process::Abort;
use std::sync::Wait;
use std::test::Fail;
use std::thread::Threads;

const SIX_CONTAINERS: &[u8] =
    b"CRP-CERT 1\nbay A 1\nsize 3 3 6 6\nrow 1 5 4\nrow 6\nrow 3 2\nat least 3\nplan 2 2 1\npart /: XLB\nend 1\n";

// Where the block of this certificate's bay stands, and where its part line and its last line begin.
const BLOCK: usize = 15;

const PART_LINE: usize = 78;

const END_LINE: usize = 90;

// What `check` writes, or its fault after what it wrote.
fn checked<T: Threads + Wait + Sync>(
    rt: &T,
    alloc: Global,
    mut text: &[u8],
) -> (Vec<u8>, Result<Status, ToolFault>) {
    let mut sink = Received::new(alloc);
    let answer = check(rt, alloc, &mut text, &mut sink, 1);
    (sink.bytes, answer)
}

// What `check` with so many workers writes where its source fails after these bytes, and its answer.
fn checked_until_failed<T: Threads + Wait + Sync>(
    rt: &T,
    alloc: Global,
    rest: &[u8],
    workers: u32,
) -> (Vec<u8>, Result<Status, ToolFault>) {
    let mut sink = Received::new(alloc);
    let mut source = Slow {
        interrupted: 0,
        rest,
        fails: true,
        failed: 0,
    };
    let answer = check(rt, alloc, &mut source, &mut sink, workers);
    (sink.bytes, answer)
}

// So many whole certificates, and the front of one more.
fn some_certificates(alloc: Global, whole: usize, front: usize) -> Result<Vec<u8>, Fail> {
    let mut text = Vec::new(alloc);
    for _ in 0..whole {
        text.extend_from_slice(SIX_CONTAINERS)?;
    }
    text.extend_from_slice(&SIX_CONTAINERS[..front.min(SIX_CONTAINERS.len())])?;
    Ok(text)
}

// However much of the next certificate comes before the read fails, these lines are written for the whole ones, by any number of workers.
fn assert_lines_before(
    rt: &(impl Abort + AllocGlobal + Threads + Wait + Sync),
    whole: usize,
    lines: &[u8],
) -> Result<(), Fail> {
    for front in 0..SIX_CONTAINERS.len() {
        let text = some_certificates(rt.alloc(), whole, front)?;
        for workers in [1, 3] {
            let (written, answer) = checked_until_failed(rt, rt.alloc(), &text, workers);
            assert_same_at(rt, &answer, &Err(ToolFault::Read), &front);
            assert_same_at(rt, &written.as_slice(), &lines, &front);
        }
    }
    Ok(())
}

#[test]
fn a_read_fault_comes_after_the_lines_before_it(rt: HostRuntime) -> Result<(), Fail> {
    let cases: [(usize, &[u8]); 3] = [
        (0, b""),
        (1, b"bay A 1: optimal 3\n"),
        (2, b"bay A 1: optimal 3\nbay A 1: optimal 3\n"),
    ];
    for (whole, lines) in cases {
        assert_lines_before(&rt, whole, lines)?;
    }
    Ok(())
}

// The number of the line in which a front of this length ends.
fn line_at(length: usize) -> u32 {
    let mut line: u32 = 1;
    for byte in &SIX_CONTAINERS[..length.min(SIX_CONTAINERS.len())] {
        if *byte == b'\n' {
            line = line.saturating_add(1);
        }
    }
    line
}

// Whether a certificate that is cut to this length may have this fault: that of the line where it ends.
fn is_cut_fault(fault: &CertFault, length: usize) -> bool {
    let line = line_at(length);
    match fault {
        CertFault::Opening { line: at } => *at == line && line <= 2,
        CertFault::Size { line: at } => *at == line && line == 3,
        CertFault::Row { line: at } => *at == line && line >= 4 && line <= 6,
        CertFault::Claim { line: at } => *at == line && line == 7,
        CertFault::Plan { line: at } => *at == line && line == 8,
        CertFault::Part { line: at } => *at == line && line == 9 && length >= 83,
        CertFault::End { line: at } => { *at == line && (line == 10 || (line == 9 && length < 83)) }
        _ => false,
    }
}

// Whether the first certificate is refused with such a fault.
fn is_cut(answer: &Result<Status, ToolFault>, length: usize) -> bool {
    match answer {
        Err(
            ToolFault::Checked {
                number: 1,
                refused: Refused::Cert(fault),
            },
        ) => is_cut_fault(fault, length),
        _ => false,
    }
}

fn assert_cut(rt: &(impl Abort + AllocGlobal + Threads + Wait + Sync), front: &[u8]) {
    let (written, answer) = checked(rt, rt.alloc(), front);
    let length = front.len();
    assert_at(rt, written.is_empty(), &length);
    assert_at(rt, is_cut(&answer, length), &length);
}

#[test]
fn a_certificate_that_is_cut(rt: HostRuntime) {
    for length in 1..SIX_CONTAINERS.len() {
        assert_cut(&rt, &SIX_CONTAINERS[..length]);
    }
}

// The fault of the certificate with another byte at this place of its last two lines.
fn last_fault(place: usize) -> CertFault {
    let word = PART_LINE + b"part ".len();
    let symbols = PART_LINE + b"part /: ".len();
    if place < word {
        CertFault::End { line: 9 }
    } else if place < symbols {
        CertFault::Part { line: 9 }
    } else if place < END_LINE {
        CertFault::Symbol { line: 9 }
    } else {
        CertFault::End { line: 10 }
    }
}

// The fault of the certificate with another byte at this place.
fn changed_fault(place: usize) -> CertFault {
    let line = line_at(place);
    match line {
        1 | 2 => CertFault::Opening { line },
        3 => CertFault::Size { line },
        4 | 5 | 6 => CertFault::Row { line },
        7 => CertFault::Claim { line },
        8 => CertFault::Plan { line },
        _ => last_fault(place),
    }
}

// The certificate with this byte at this place is refused, or accepted under another name of its block.
fn assert_changed(
    rt: &(impl Abort + AllocGlobal + Threads + Wait + Sync),
    place: usize,
    byte: u8,
    line: &[u8],
) -> Result<(), Fail> {
    let mut text = SIX_CONTAINERS.to_vec(rt.alloc())?;
    if let Some(changed) = text.get_mut(place) {
        *changed = byte;
    }
    let (written, answer) = checked(rt, rt.alloc(), text.as_slice());
    let refused = ToolFault::Checked {
        number: 1,
        refused: Refused::Cert(changed_fault(place)),
    };
    let wanted = if line.is_empty() {
        Err(refused)
    } else {
        Ok(Status::Decided)
    };
    assert_same_at(rt, &answer, &wanted, &(place, byte));
    assert_same_at(rt, &written.as_slice(), &line, &(place, byte));
    Ok(())
}

#[test]
fn each_byte_of_a_certificate_changed(rt: HostRuntime) -> Result<(), Fail> {
    let cases: [(u8, &[u8]); 4] = [
        (0x00, b""),
        (0x27, b"bay ' 1: optimal 3\n"),
        (0x2c, b"bay , 1: optimal 3\n"),
        (0xff, b""),
    ];
    for (byte, line) in cases {
        for place in 0..SIX_CONTAINERS.len() {
            let got: &[u8] = if place == BLOCK { line } else { b"" };
            assert_changed(&rt, place, byte, got)?;
        }
    }
    Ok(())
}
