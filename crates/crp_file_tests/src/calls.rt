//! The calls that the tests make, each in a function with no clause: so a test knows nothing of what is promised, and is soon checked.
ghost use Rattle.std.specs.Prelude.{◌≤◌};

use crp_cert::{CertFault, Head, Script};
use crp_checker::{Checker, FileRefused, Refused, Verdict, Verdicts};
use crp_movins::{Loading, MovinsFault, Orders};
use crp_plan::{BayName, Plan, Problem, Sink, Source, WriteFault};
use crp_tree::Cert;
use crp_yard::{Yard, YardFault};
use edi_text::{EdiFault, Segments};
use std::alloc::{AllocError, Global};

pub(crate) fn read_head(alloc: Global, bytes: &[u8]) -> Result<Head, CertFault> {
    crp_cert::read_head(alloc, bytes)
}

pub(crate) fn read_cert(alloc: Global, bytes: &[u8]) -> Result<Script, CertFault> {
    crp_cert::read_cert(alloc, bytes)
}

pub(crate) fn cert_text(
    alloc: Global,
    bay: &BayName,
    problem: &Problem,
    cert: &Cert,
    plan: Option<&Plan>,
) -> Result<Vec<u8>, AllocError> {
    crp_cert::cert_text(alloc, bay, problem, cert, plan)
}

pub(crate) fn write_cert<W: Sink>(
    alloc: Global,
    writer: &mut W,
    bay: &BayName,
    problem: &Problem,
    cert: &Cert,
    plan: Option<&Plan>,
) -> Result<(), WriteFault> {
    crp_cert::write_cert(alloc, writer, bay, problem, cert, plan)
}

pub(crate) fn write_first<W: Sink>(
    alloc: Global,
    writer: &mut W,
    bay: &BayName,
    problem: &Problem,
    cert: &Cert,
    plan: &Plan,
) -> Result<(), WriteFault> {
    crp_cert::write_first(alloc, writer, bay, problem, cert, plan)
}

pub(crate) fn check(alloc: Global, bytes: &[u8]) -> Result<Verdict, Refused> {
    crp_checker::check(alloc, bytes)
}

/// What a checker answers that is fed byte by byte.
fn fed_bytes(mut checker: Checker, bytes: &[u8]) -> Result<Verdict, Refused> {
    for i in 0..bytes.len() {
        checker.feed(&bytes[i..i + 1])?;
    }
    checker.finish()
}

/// The same, fed byte by byte.
pub(crate) fn check_bytes(alloc: Global, bytes: &[u8]) -> Result<Verdict, Refused> {
    fed_bytes(Checker::new(alloc, None), bytes)
}

/// The same for a problem.
pub(crate) fn check_bytes_for(
    alloc: Global,
    problem: &Problem,
    bytes: &[u8],
) -> Result<Verdict, Refused> {
    fed_bytes(Checker::new(alloc, Some(problem)), bytes)
}

/// The same, fed in two pieces.
pub(crate) fn check_pieces(alloc: Global, piece: &[u8], more: &[u8]) -> Result<Verdict, Refused> {
    let mut checker = Checker::new(alloc, None);
    checker.feed(piece)?;
    checker.feed(more)?;
    checker.finish()
}

/// The bay that a checker names after these bytes.
pub(crate) fn bay_after(alloc: Global, bytes: &[u8]) -> Result<Option<BayName>, AllocError> {
    let mut checker = Checker::new(alloc, None);
    checker.feed(bytes)?;
    Ok(checker.bay())
}

pub(crate) fn check_for(
    alloc: Global,
    problem: &Problem,
    bytes: &[u8],
) -> Result<Verdict, Refused> {
    crp_checker::check_for(alloc, problem, bytes)
}

pub(crate) fn check_file(alloc: Global, bytes: &[u8]) -> Result<Verdicts, FileRefused> {
    crp_checker::check_file(alloc, bytes)
}

pub(crate) fn read_segments(alloc: Global, text: &[u8]) -> Result<Segments, EdiFault> {
    edi_text::read_segments(alloc, text)
}

pub(crate) fn load_orders(
    alloc: Global,
    segments: &Segments,
    code: &[u8],
) -> Result<Orders, MovinsFault> {
    crp_movins::load_orders(alloc, segments, &Loading::new(alloc, code)?)
}

pub(crate) fn yard_of(alloc: Global, text: &[u8], rows: u8, tiers: u8) -> Result<Yard, YardFault>
    requires some_rows { 1 ≤ rows }
    requires few_rows { rows ≤ 12 }
    requires some_tiers { 1 ≤ tiers }
    requires few_tiers { tiers ≤ 8 }
{
    crp_yard::yard_of(alloc, text, rows, tiers)
}

pub(crate) fn read_yard<R: Source>(
    alloc: Global,
    source: &mut R,
    rows: u8,
    tiers: u8,
) -> Result<Yard, YardFault>
    requires some_rows { 1 ≤ rows }
    requires few_rows { rows ≤ 12 }
    requires some_tiers { 1 ≤ tiers }
    requires few_tiers { tiers ≤ 8 }
{
    crp_yard::read_yard(alloc, source, rows, tiers)
}

pub(crate) fn write_yard<W: Sink>(
    alloc: Global,
    sink: &mut W,
    yard: &Yard,
) -> Result<(), WriteFault> {
    crp_yard::write_yard(alloc, sink, yard)
}
