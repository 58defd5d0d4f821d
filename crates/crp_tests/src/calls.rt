//! The calls that the tests make, each in a function with no clause: so a test knows nothing of what is promised, and is soon checked.
use crp_commands::{FollowSettings, Listed, NoTerminal, TextFiles};
use crp_jobs::{Job, ToolFault};
use crp_plan::{Nowhere, Sink, Source};
use crp_report::{Devices, Fault, NoClock, RunSettings, Status, Watch};
use crp_solve::Settings;
use crp_words::Usage;
use std::alloc::Global;
use std::sync::Wait;
use std::thread::Threads;

pub(crate) fn replay<R: Source, W: Sink>(
    alloc: Global,
    reader: &mut R,
    writer: &mut W,
) -> Result<Status, ToolFault> {
    crp_commands::replay(alloc, reader, writer)
}

pub(crate) fn bound<R: Source, W: Sink>(
    alloc: Global,
    reader: &mut R,
    writer: &mut W,
) -> Result<Status, ToolFault> {
    crp_commands::bound(alloc, reader, writer, false)
}

pub(crate) fn check<T: Threads + Wait + Sync, R: Source, W: Sink>(
    rt: &T,
    alloc: Global,
    reader: &mut R,
    writer: &mut W,
    workers: u32,
) -> Result<Status, ToolFault> {
    crp_commands::check(rt, alloc, reader, writer, &mut Nowhere, false, workers)
}

pub(crate) fn check_any<T: Threads + Wait + Sync, R: Source, W: Sink>(
    rt: &T,
    alloc: Global,
    reader: &mut R,
    writer: &mut W,
    workers: u32,
) -> Result<Status, ToolFault> {
    crp_commands::check(rt, alloc, reader, writer, &mut Nowhere, true, workers)
}

pub(crate) fn prove<T: Threads + Wait + Sync, R: Source, W: Sink>(
    rt: &T,
    alloc: Global,
    reader: &mut R,
    writer: &mut W,
    settings: Settings,
) -> Result<Status, ToolFault> {
    crp_commands::prove(rt, alloc, &NoTerminal, reader, writer, settings)
}

pub(crate) fn run<T: Threads + Wait + Sync, Y: Source, M: Source, W: Sink, C: Sink, A: Sink>(
    rt: &T,
    alloc: Global,
    devices: &mut Devices<Y, M, C, A>,
    settings: &RunSettings,
    out: &mut W,
) -> Result<Status, Fault> {
    crp_report::run(rt, alloc, devices, settings, out)
}

pub(crate) fn run_watched<
    T: Threads + Wait + Sync,
    Y: Source,
    M: Source,
    W: Sink,
    C: Sink,
    A: Sink,
    V: Watch,
    E: Sink,
>(
    rt: &T,
    alloc: Global,
    devices: &mut Devices<Y, M, C, A>,
    settings: &RunSettings,
    out: &mut W,
    watch: &mut V,
    errors: &mut E,
) -> Result<Status, Fault> {
    crp_report::run_watched(rt, alloc, &NoClock, devices, settings, out, watch, errors)
}

pub(crate) fn exit_of(answer: &Result<Status, ToolFault>) -> u8 {
    crp_jobs::exit_of(answer)
}

pub(crate) fn job<'a>(alloc: Global, words: &'a [&'a str]) -> Result<Job<'a>, Usage> {
    crp_words::job(alloc, words)
}

pub(crate) fn follow<Y: Source, M: Source, R: Source, P: Sink, A: Sink, W: Sink>(
    alloc: Global,
    listed: &mut Listed<Y, M>,
    report: &mut R,
    settings: &FollowSettings<'_>,
    files: &mut TextFiles<P, A>,
    out: &mut W,
) -> Result<Status, ToolFault> {
    crp_commands::follow(alloc, listed, report, settings, files, out, &mut Nowhere)
}
