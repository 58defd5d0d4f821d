//! A yard of many bays, solved over files by one worker and by several.
use crate::compare::{assert_at, assert_same};
use crate::six::HEADER;
use crp_commands::{NoTerminal, Streams, run_job};
use crp_files::SystemFiles;
use crp_jobs::ToolFault;
use crp_plan::{Counted, Nowhere, Received};
use crp_report::Status;
use crp_words::job;
use std::alloc::{AllocError, Global};
use std::fs;
use std::sync::Wait;
use std::test::Fail;
use std::thread::Threads;

const BAYS: u32 = 16;

const CONTAINERS: u32 = 12;

// Numbers from a fixed source.
#[derive(Drop)]
struct Numbers {
    state: u32,
}

impl Numbers {
    fn next(&mut self) -> u32 {
        self.state = self
            .state
            .wrapping_mul(1_664_525)
            .wrapping_add(1_013_904_223);
        self.state >> 16
    }
}

// The records of a bay of four rows, three containers in each.
fn push_bay(list: &mut Vec<u8>, alloc: Global, bay: u32) -> Result<(), AllocError> {
    for i in 0..CONTAINERS {
        let (row, tier) = (i % 4, i / 4);
        let record = format!(in alloc; "A,{bay},{},{},B{bay}C{i}\n", row + 1, tier + 1)?;
        list.extend_from_slice(record.as_bytes())?;
    }
    Ok(())
}

pub(crate) fn yard_of_many_bays(alloc: Global) -> Result<Vec<u8>, AllocError> {
    let mut list = HEADER.to_vec(alloc)?;
    for bay in 1..=BAYS {
        push_bay(&mut list, alloc, bay)?;
    }
    Ok(list)
}

// The numbers 0 to 11 in an order from the source.
fn shuffled(alloc: Global, numbers: &mut Numbers) -> Result<Vec<u32>, AllocError> {
    let mut order: Vec<u32> = (0..CONTAINERS).collect(alloc)?;
    for i in 0..order.len() {
        let other = numbers.next() as usize % order.len();
        order.swap(i, other);
    }
    Ok(order)
}

// A message that orders ten containers of each bay, in an order from the source.
pub(crate) fn message_of_many_bays(alloc: Global) -> Result<String, AllocError> {
    let mut text = String::from_str(
        alloc,
        "UNB+UNOA:1+YARD+SHIP+250101:0800+1'\nUNH+1+MOVINS:D:95B:UN'\nHAN+LOA'\n",
    )?;
    let mut numbers = Numbers { state: 7 };
    for bay in 1..=BAYS {
        for i in shuffled(alloc, &mut numbers)?.iter().take(10) {
            write!(text, "LOC+147+0010182'\nEQD+CN+B{bay}C{i}'\n")?;
        }
    }
    write!(text, "UNT+{}+1'\nUNZ+1+1'\n", 3 + 20 * BAYS)?;
    Ok(text)
}

// The lines of a report that name a bay.
fn bay_lines(alloc: Global, report: &[u8]) -> Result<Vec<u8>, AllocError> {
    let mut lines = Vec::new(alloc);
    for line in report.split_inclusive(|byte| *byte == b'\n') {
        if line.starts_with(b"bay ") {
            lines.extend_from_slice(line)?;
        }
    }
    Ok(lines)
}

// Does what the words ask for, and gives how it ended and what was reported.
pub(crate) fn run_words<T: Threads + Wait + Sync>(
    rt: &HostRuntime,
    threads: &T,
    words: &[&str],
) -> Result<(Result<Status, ToolFault>, Vec<u8>), Fail> {
    let mut streams = Streams {
        input: Counted::new(rt.stdin()),
        out: Received::new(rt.alloc()),
        errors: Nowhere,
    };
    match job(rt.alloc(), words) {
        Ok(job) => {
            let answer = run_job(
                threads,
                rt.alloc(),
                &mut SystemFiles::new(rt),
                &mut streams,
                &job,
                &NoTerminal,
            );
            Ok((answer, streams.out.bytes))
        }
        Err(_) => Err(Fail::from("the words ask for nothing")),
    }
}

// Solves the yard over the files, and gives the lines of its bays, and what `check` writes of its certificates.
fn solve_by<T: Threads + Wait + Sync>(
    rt: &HostRuntime,
    threads: &T,
    workers: &str,
) -> Result<(Vec<u8>, Vec<u8>), Fail> {
    let words = [
        "solve",
        "many-list.csv",
        "many-loading.edi",
        "--rows=4",
        "--tiers=4",
        "--cert=many-proofs.crp",
        workers,
    ];
    let (_, report) = run_words(rt, threads, &words)?;
    let (_, verdicts) = run_words(rt, threads, &["check", "many-proofs.crp"])?;
    Ok((bay_lines(rt.alloc(), &report)?, verdicts))
}

#[test]
fn any_number_of_workers_finds_the_fewest(rt: HostRuntime) -> Result<(), Fail> {
    fs::write(
        &rt,
        "many-list.csv",
        yard_of_many_bays(rt.alloc())?.as_slice(),
    )?;
    fs::write(
        &rt,
        "many-loading.edi",
        message_of_many_bays(rt.alloc())?.as_str(),
    )?;
    let (alone, _) = solve_by(&rt, &rt, "--workers=1")?;
    assert_same(
        &rt,
        &alone.iter().filter(|byte| **byte == b'\n').count(),
        &16,
    );
    for workers in ["--workers=1", "--workers=2", "--workers=4", "--workers=64"] {
        let (lines, verdicts) = solve_by(&rt, &rt, workers)?;
        assert_at(&rt, lines == alone && verdicts == alone, &workers);
    }
    for name in ["many-list.csv", "many-loading.edi", "many-proofs.crp"] {
        fs::remove_file(&rt, name)?;
    }
    Ok(())
}
