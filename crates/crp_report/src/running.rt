//! A run from a yard list and a message to the report, the certificates and the yard after.
ghost use Rattle.std.specs.Prelude.{◌≡◌, ◌≤◌, List, All, map, IfOk, MatchResult};
ghost use Rattle.std.specs.List.{IsDistinct};
ghost use Rattle.crp_plan.specs.Bay.{IsProblem};
ghost use Rattle.crp_plan.specs.BayNames.{same_bay};
ghost use Rattle.crp_plan.specs.Devices.{most_interruptions};
ghost use Rattle.crp_yard.specs.After.{IsPlanForBay, IsCompletePlan};
ghost use Rattle.crp_order.specs.BayProblems.{IsNamed, problems_of};
ghost use Rattle.crp_order.specs.OfBays.{IsSequenceOf};
ghost use Rattle.crp_report.specs.Answered.{Answered, status_of_all};
ghost use Rattle.crp_report.specs.Runs.{RunSeen, source_seen, sink_seen, first_line, RunEnds, RunFails};
ghost use Rattle.crp_report.specs.Writing.{Sinks, sinks_of, AreSameSinks, IsTextAfter, WritesEnd, StopsEnd, WritesRun, StopsRun};
ghost use Rattle.crp_report.specs.Watching.{ShowsMore};

use crate::bays::write_bays;
use crate::fault::{Fault, Output};
use crate::input::{Message, message_from, yard_from};
use crate::kept::BaysDone;
use crate::numbers::numbers_with;
use crate::settings::RunSettings;
use crate::status::Status;
use crate::timing::{Clock, NoClock, Timer};
use crate::watching::{Unwatched, Watch};
use crate::writing::{RunSinks, write_piece};
use crp_movins::Orders;
use crp_order::{BayProblem, Sequence, problems, sequence_of_bays};
use crp_plan::{Nowhere, Sink, Source};
use crp_said::{last_text, numbers_text};
use crp_separated::with_separator;
use crp_solve::Settings;
use crp_yard::{BayPlan, Yard, after, yard_text};
use std::alloc::{AllocError, Global};
use std::sync::Wait;
use std::thread::Threads;

// What is known before a byte is written.
#[derive(Drop)]
struct Work {
    // The yard that is listed.
    yard: Yard,
    // The containers in the order in which they leave, without those of other bays.
    sequence: Sequence,
    // The first line of the report.
    first: Vec<u8>,
    // The problem of each bay from which one of them leaves.
    problems: Vec<BayProblem>,
}

// What is to be done in a yard.
fn work_of(
    alloc: Global,
    yard: Yard,
    orders: Orders,
    settings: &RunSettings,
) -> Result<Work, AllocError>
    ensures yard { IfOk result (λ work. work.yard ≡ yard) }
    ensures sequence { IfOk result (λ work. IsSequenceOf settings.now.input.mode settings.now.input.bays yard orders.list work.sequence) }
    ensures first { IfOk result (λ work. work.first.items ≡ first_line yard orders work.sequence) }
    ensures problems { IfOk result (λ work. work.problems.items ≡ problems_of yard work.sequence) }
    ensures named { IfOk result (λ work. All (IsNamed yard) work.problems.items) }
    ensures once { IfOk result (λ work. IsDistinct same_bay (map (λ made. made.bay) work.problems.items)) }
{
    let (listed, vacant) = (orders.list().len(), orders.vacant());
    let input = settings.input();
    let sequence = sequence_of_bays(alloc, &yard, input.bays(), orders, input.mode())?;
    let numbers = numbers_with(&yard, listed, vacant, &sequence);
    let first = numbers_text(alloc, numbers)?;
    let problems = problems(alloc, &yard, &sequence)?;
    Ok(Work {
        yard,
        sequence,
        first,
        problems,
    })
}

// The yard list after the plans, with this byte between fields.
fn text_after(
    alloc: Global,
    separator: u8,
    yard: &Yard,
    plans: &[BayPlan],
) -> Result<Vec<u8>, AllocError>
    requires plans { All (IsPlanForBay yard.now) plans.now }
    requires once { IsDistinct same_bay (map (λ plan. plan.bay) plans.now) }
    ensures { IfOk result (λ text. IsTextAfter separator yard.now plans.now text.items) }
{
    let left = after(alloc, yard, plans)?;
    let list = yard_text(alloc, &left)?;
    with_separator(alloc, list, separator)
}

// Writes what stands behind the bays: the line that counts them, and the yard after, with this byte between fields.
fn write_end<W: Sink, C: Sink, A: Sink>(
    alloc: Global,
    separator: u8,
    yard: &Yard,
    done: &BaysDone,
    sinks: &mut RunSinks<'_, '_, W, C, A>,
) -> Result<(), Fault>
    requires plans { All (IsPlanForBay yard.now) done.now.plans.items }
    requires complete { All IsCompletePlan done.now.plans.items }
    requires once { IsDistinct same_bay (map (λ plan. plan.bay) done.now.plans.items) }
    requires passed { sinks.old.interruptions ≤ most_interruptions }
    ensures same { AreSameSinks sinks.old sinks.new }
    ensures written { let before : Sinks = sinks_of W.contents W.failures C.contents C.failures A.contents A.failures sinks.old in
        let after : Sinks = sinks_of W.contents W.failures C.contents C.failures A.contents A.failures sinks.new in
        MatchResult result (λ _. WritesEnd separator yard.now done.now before after) (StopsEnd separator yard.now done.now before after) }
{
    let last = last_text(alloc, done.bays, done.decided)?;
    let yard_after = text_after(alloc, separator, yard, &done.plans)?;
    write_piece(sinks, Output::Report, &last)?;
    write_piece(sinks, Output::YardAfter, &yard_after)
}

// Writes the first line, bay by bay what is stated of it, and the end, with this byte between the fields of the yard after.
fn write_run<
    T: Threads + Wait + Sync,
    K: Clock + Sync,
    W: Sink,
    C: Sink,
    A: Sink,
    V: Watch,
    E: Sink,
>(
    rt: &T,
    alloc: Global,
    timer: &Timer<'_, K>,
    work: Work,
    settings: Settings,
    separator: u8,
    sinks: &mut RunSinks<'_, '_, W, C, A>,
    watch: &mut V,
    errors: &mut E,
) -> Result<Status, Fault>
    requires named { All (IsNamed work.yard) work.problems.items }
    requires once { IsDistinct same_bay (map (λ made. made.bay) work.problems.items) }
    requires passed { sinks.old.interruptions ≤ most_interruptions }
    ensures same { AreSameSinks sinks.old sinks.new }
    ensures written { let before : Sinks = sinks_of W.contents W.failures C.contents C.failures A.contents A.failures sinks.old in
        let after : Sinks = sinks_of W.contents W.failures C.contents C.failures A.contents A.failures sinks.new in
        MatchResult result
        (λ status. (answered : List Answered) × WritesRun separator settings work.yard work.first.items work.problems.items before after answered × (status ≡ status_of_all answered))
        (StopsRun separator settings work.yard work.first.items work.problems.items before after) }
    ensures shown { ShowsMore (E.contents errors.old) (E.contents errors.new) }
{
    let Work {
        yard,
        sequence: _sequence,
        first,
        problems,
    } = work;
    write_piece(sinks, Output::Report, &first)?;
    let done = write_bays(rt, alloc, timer, problems, settings, sinks, watch, errors)?;
    write_end(alloc, separator, &yard, &done, sinks)?;
    Ok(done.status)
}

/// The devices of a run beside the sink of its report: what is read, where the certificates and the yard after the plans go, and how the last is written.
#[derive(Drop)]
pub struct Devices<Y, M, C, A> {
    /// The yard list.
    pub yard: Y,
    /// The message.
    pub movins: M,
    /// Gets the certificates.
    pub certificates: C,
    /// Gets the yard list after the plans.
    pub yard_after: A,
    /// The byte between the fields of that list.
    pub separator: u8,
}

/// Reads a yard list and a message with load orders, answers the problem of each bay from which an ordered container leaves,
/// and writes the report, the certificates and the yard list after the plans. A text that is not wanted goes to `Nowhere`.
///
/// All input is read and accepted before a byte is written. Then the first line is written, the lines and the certificate of each
/// bay as soon as it is answered, the last line, and the yard list; where a write fails, or memory runs out, nothing behind it is
/// written. An interrupted call is tried again, at most 1,000 times in one run. Who watches may show something on `errors`.
///
/// The limits of time that the settings have are seen by this clock: that of all bays counts from the begin of the run, before any input is
/// read, that of a bay from where its search begins.
pub fn run_watched<
    T: Threads + Wait + Sync,
    K: Clock + Sync,
    Y: Source,
    M: Source,
    W: Sink,
    C: Sink,
    A: Sink,
    V: Watch,
    E: Sink,
>(
    rt: &T,
    alloc: Global,
    clock: &K,
    devices: &mut Devices<Y, M, C, A>,
    settings: &RunSettings,
    out: &mut W,
    watch: &mut V,
    errors: &mut E,
) -> Result<Status, Fault>
    ensures written { let seen : RunSeen = record {
      yard = source_seen Y.remaining Y.failures devices.old.yard devices.new.yard;
      movins = source_seen M.remaining M.failures devices.old.movins devices.new.movins;
      report = sink_seen W.contents W.failures out.old out.new;
      certificates = sink_seen C.contents C.failures devices.old.certificates devices.new.certificates;
      yard_after = sink_seen A.contents A.failures devices.old.yard_after devices.new.yard_after;
      separator = devices.old.separator;
    } in MatchResult result (RunEnds settings.now seen) (RunFails settings.now seen) }
    ensures shown { ShowsMore (E.contents errors.old) (E.contents errors.new) }
{
    let timer = Timer::start(clock);
    let mut interruptions = 0;
    let separator = devices.separator;
    let input = settings.input();
    let yard = yard_from(alloc, &mut devices.yard, input.sizes(), &mut interruptions)?;
    let Message { segments, orders } = message_from(
        alloc,
        &mut devices.movins,
        input.loading(),
        &mut interruptions,
    )?;
    let work = work_of(alloc, yard, orders, settings)?;
    watch.accepts(
        alloc,
        &work.yard,
        &segments,
        &work.sequence,
        settings,
        errors,
    );
    let mut sinks = RunSinks {
        report: out,
        certificates: &mut devices.certificates,
        yard_after: &mut devices.yard_after,
        interruptions,
    };
    let ended = write_run(
        rt,
        alloc,
        &timer,
        work,
        settings.search(),
        separator,
        &mut sinks,
        watch,
        errors,
    );
    watch.ends(alloc, errors);
    ended
}

/// A run that nobody watches, and without a clock: no limit of time above 0 is ever reached.
pub fn run<T: Threads + Wait + Sync, Y: Source, M: Source, W: Sink, C: Sink, A: Sink>(
    rt: &T,
    alloc: Global,
    devices: &mut Devices<Y, M, C, A>,
    settings: &RunSettings,
    out: &mut W,
) -> Result<Status, Fault>
    ensures { let seen : RunSeen = record {
      yard = source_seen Y.remaining Y.failures devices.old.yard devices.new.yard;
      movins = source_seen M.remaining M.failures devices.old.movins devices.new.movins;
      report = sink_seen W.contents W.failures out.old out.new;
      certificates = sink_seen C.contents C.failures devices.old.certificates devices.new.certificates;
      yard_after = sink_seen A.contents A.failures devices.old.yard_after devices.new.yard_after;
      separator = devices.old.separator;
    } in MatchResult result (RunEnds settings.now seen) (RunFails settings.now seen) }
{
    run_watched(
        rt,
        alloc,
        &NoClock,
        devices,
        settings,
        out,
        &mut Unwatched::new(),
        &mut Nowhere,
    )
}
