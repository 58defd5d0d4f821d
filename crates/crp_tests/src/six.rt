//! The run over a yard of six containers, which the tests of devices repeat: its inputs, and what it writes.
use crp_order::Mode;
use crp_report::{Fault, InputSettings, RunSettings, Status};
use crp_solve::Settings;
use std::alloc::Global;
use std::test::Fail;

pub(crate) const SIX_CONTAINERS: &[u8] =
    b"block,bay,row,tier,container\nA,1,1,1,C1\nA,1,1,2,C5\nA,1,1,3,C4\nA,1,2,1,C6\nA,1,3,1,C3\nA,1,3,2,C2\n";

pub(crate) const HEADER: &[u8] = b"block,bay,row,tier,container\n";

const ONE_MESSAGE: &[u8] =
    b"UNB+UNOA:1+YARD+SHIP+250101:0800+1'\nUNH+1+MOVINS:D:95B:UN'\nBGM++8+9'\nHAN+LOA'\n";

pub(crate) const SIX_ORDERS: &[u8] = b"LOC+147+0010182'\n\
    EQD+CN+C1'\n\
    LOC+147+0010184'\n\
    EQD+CN+C2'\n\
    LOC+147+0010186'\n\
    EQD+CN+C3'\n\
    LOC+147+0010188'\n\
    EQD+CN+C4'\n\
    LOC+147+0010190'\n\
    EQD+CN+C5'\n\
    LOC+147+0010192'\n\
    EQD+CN+C6'\n";

pub(crate) const SIX_ANSWERED: &[u8] = b"orders 6 open 0 absent 0\n\
    bay A 1: optimal 3\n\
    shift 1.3 2.2 C4\n\
    shift 1.2 2.3 C5\n\
    take 1.1 C1\n\
    take 3.2 C2\n\
    take 3.1 C3\n\
    shift 2.3 1.1 C5\n\
    take 2.2 C4\n\
    take 1.1 C5\n\
    take 2.1 C6\n\
    bays 1 decided 1\n";

pub(crate) const SIX_CERTIFIED: &[u8] =
    b"CRP-CERT 1\nbay A 1\nsize 3 3 6 6\nrow 1 5 4\nrow 6\nrow 3 2\nat least 3\nplan 2 2 1\npart /: XLB\nend 1\n";

// A message of the example's head, these segments, and a trailer that counts so many.
pub(crate) fn message(alloc: Global, segments: &[&[u8]], count: &[u8]) -> Result<Vec<u8>, Fail> {
    let mut text = Vec::new(alloc);
    text.extend_from_slice(ONE_MESSAGE)?;
    for segment in segments {
        text.extend_from_slice(segment)?;
    }
    text.extend_from_slice(b"UNT+")?;
    text.extend_from_slice(count)?;
    text.extend_from_slice(b"+1'\nUNZ+1+1'\n")?;
    Ok(text)
}

// What a planner chooses in a test.
#[derive(Clone, Copy)]
pub(crate) struct Choice {
    pub budget: u64,
    pub rows: u8,
    pub tiers: u8,
    pub mode: Mode,
}

pub(crate) fn settings_of(alloc: Global, choice: &Choice) -> Result<RunSettings, Fail> {
    let search = Settings::new(1, choice.budget, 0)?;
    let input = InputSettings::new(alloc, choice.rows, choice.tiers, choice.mode, b"LOA")?;
    Ok(RunSettings::new(search, input))
}

// The three texts of a run, and how it ended.
#[derive(Drop)]
pub(crate) struct Texts {
    pub report: Vec<u8>,
    pub certificates: Vec<u8>,
    pub yard_after: Vec<u8>,
    pub answer: Result<Status, Fault>,
}
