//! The bays of a run, one after the other: the lines and the certificate of each are written before those of the next.
ghost use Rattle.std.specs.Prelude.{◌≡◌, ◌≤◌, All, IfErr, IfOk, IfSome, MatchResult};
ghost use Rattle.std.specs.Thread.{IsSync};
ghost use Rattle.crp_plan.specs.Bay.{IsProblem};
ghost use Rattle.crp_plan.specs.Devices.{most_interruptions};
ghost use Rattle.crp_report.specs.Writing.{Sinks, sinks_of, sinks_at, AreSameSinks, WritesBay, StopsBay, WritesBays, StopsBays};
ghost use Rattle.crp_report.specs.Watching.{ShowsMore};
ghost use Rattle.crp_report.specs.Looks.{IsReady};

use crate::ahead::{look_together, ready_at};
use crate::bay_texts::texts_by;
use crate::fault::{Fault, Output};
use crate::kept::BaysDone;
use crate::look::Posed;
use crate::ready::Ready;
use crate::shelf::Shelf;
use crate::timing::{Clock, Timer};
use crate::watching::Watch;
use crate::writing::{RunSinks, bytes_of, write_certificate, write_piece};
use crp_incumbent::Board;
use crp_order::BayProblem;
use crp_plan::Sink;
use crp_solve::{Gate, Settings, Solved, solve};
use std::alloc::{AllocError, Global};
use std::marker::Brand;
use std::sync::Wait;
use std::thread::{Threads, join_mut};

// The answer to the problem of a bay that a look found or, where it found none, the one that all workers find.
fn answer<T: Threads + Wait + Sync, K: Clock + Sync, V: Watch>(
    rt: &T,
    alloc: Global,
    timer: &Timer<'_, K>,
    bay: &BayProblem,
    ready: Option<Ready>,
    settings: Settings,
    watch: &mut V,
) -> Result<Ready, AllocError>
    requires { IfSome ready (IsReady settings bay.now) }
    ensures { IfOk result (IsReady settings bay.now) }
{
    if let Some(ready) = ready {
        watch.searched();
        return Ok(ready);
    }
    let board = Board::new(&bay.problem);
    let gate = timer.gate(watch.gate(), settings.time());
    let solved = solve(rt, alloc, &bay.problem, settings, &board, &gate)?;
    watch.searched();
    let texts = texts_by(rt, alloc, settings.workers(), bay, &solved)?;
    Ok(Ready { solved, texts })
}

// Answers the problem of a bay, and writes what is stated of it.
fn write_bay<
    T: Threads + Wait + Sync,
    K: Clock + Sync,
    W: Sink,
    C: Sink,
    A: Sink,
    V: Watch,
    E: Sink,
>(
    rt: &T,
    alloc: Global,
    timer: &Timer<'_, K>,
    bay: &BayProblem,
    ready: Option<Ready>,
    settings: Settings,
    sinks: &mut RunSinks<'_, '_, W, C, A>,
    watch: &mut V,
    errors: &mut E,
) -> Result<Solved, Fault>
    requires problem { IsProblem bay.now.problem }
    requires ready { IfSome ready (IsReady settings bay.now) }
    requires passed { sinks.old.interruptions ≤ most_interruptions }
    ensures same { AreSameSinks sinks.old sinks.new }
    ensures written { let before : Sinks = sinks_of W.contents W.failures C.contents C.failures A.contents A.failures sinks.old in
        let after : Sinks = sinks_of W.contents W.failures C.contents C.failures A.contents A.failures sinks.new in
        MatchResult result (WritesBay settings bay.now before after) (StopsBay settings bay.now before after) }
    ensures shown { ShowsMore (E.contents errors.old) (E.contents errors.new) }
{
    let found = answer(rt, alloc, timer, bay, ready, settings, watch)?;
    write_piece(sinks, Output::Report, &found.texts.report)?;
    let certificate = found.texts.certificate.as_slice();
    write_certificate(sinks, certificate)?;
    watch.answers(alloc, bay, &found.solved, bytes_of(certificate), errors);
    Ok(found.solved)
}

// Answers the problem of each bay, and writes what is stated of it before the next.
fn write_each<
    T: Threads + Wait + Sync,
    K: Clock + Sync,
    W: Sink,
    C: Sink,
    A: Sink,
    V: Watch,
    E: Sink,
    Y: Posed,
>(
    rt: &T,
    alloc: Global,
    timer: &Timer<'_, K>,
    bays: &[BayProblem],
    settings: Settings,
    shelf: &Shelf<Y>,
    sinks: &mut RunSinks<'_, '_, W, C, A>,
    watch: &mut V,
    errors: &mut E,
) -> Result<BaysDone, Fault>
    requires bays { Y.bays ≡ bays.now }
    requires chosen { Y.chosen ≡ settings }
    requires problems { All (λ bay. IsProblem bay.problem) bays.now }
    requires passed { sinks.old.interruptions ≤ most_interruptions }
    ensures same { AreSameSinks sinks.old sinks.new }
    ensures written { let before : Sinks = sinks_of W.contents W.failures C.contents C.failures A.contents A.failures sinks.old in
        let after : Sinks = sinks_of W.contents W.failures C.contents C.failures A.contents A.failures sinks.new in
        MatchResult result (WritesBays settings bays.now before after) (StopsBays settings bays.now before after) }
    ensures shown { ShowsMore (E.contents errors.old) (E.contents errors.new) }
{
    let mut done = BaysDone::none(alloc);
    let mut rest = bays;
    while let Some((bay, behind)) = rest.split_first() {
        watch.begins(alloc, bay, done.bays, bays.len(), errors);
        let ready = ready_at(rt, alloc, timer, bays, settings, shelf, done.bays);
        let solved = write_bay(rt, alloc, timer, bay, ready, settings, sinks, watch, errors)?;
        done.push(alloc, bay, solved)?;
        rest = behind;
    }
    Ok(done)
}

// The same, over sinks that stand alone; behind it nobody looks at a bay any more.
fn write_to_end<
    T: Threads + Wait + Sync,
    K: Clock + Sync,
    W: Sink,
    C: Sink,
    A: Sink,
    V: Watch,
    E: Sink,
    Y: Posed,
>(
    rt: &T,
    alloc: Global,
    timer: &Timer<'_, K>,
    bays: &[BayProblem],
    settings: Settings,
    shelf: &Shelf<Y>,
    report: &mut W,
    certificates: &mut C,
    yard_after: &mut A,
    interruptions: &mut u32,
    watch: &mut V,
    errors: &mut E,
) -> Result<BaysDone, Fault>
    requires bays { Y.bays ≡ bays.now }
    requires chosen { Y.chosen ≡ settings }
    requires problems { All (λ bay. IsProblem bay.problem) bays.now }
    requires passed { interruptions.old ≤ most_interruptions }
    ensures written { let before : Sinks = sinks_at W.contents W.failures C.contents C.failures A.contents A.failures report.old certificates.old yard_after.old interruptions.old in
        let after : Sinks = sinks_at W.contents W.failures C.contents C.failures A.contents A.failures report.new certificates.new yard_after.new interruptions.new in
        MatchResult result (WritesBays settings bays.now before after) (StopsBays settings bays.now before after) }
    ensures shown { ShowsMore (E.contents errors.old) (E.contents errors.new) }
{
    let mut sinks = RunSinks {
        report,
        certificates,
        yard_after,
        interruptions: *interruptions,
    };
    let done = write_each(
        rt, alloc, timer, bays, settings, shelf, &mut sinks, watch, errors,
    );
    *interruptions = sinks.interruptions;
    shelf.end(rt);
    done
}

// The same, while so many workers look at bays whose turn has not come. What is written is written by the calling thread.
fn write_beside<
    T: Threads + Wait + Sync,
    K: Clock + Sync,
    W: Sink,
    C: Sink,
    A: Sink,
    V: Watch,
    E: Sink,
    Y: Posed + Send + Sync,
>(
    rt: &T,
    alloc: Global,
    timer: &Timer<'_, K>,
    bays: &[BayProblem],
    settings: Settings,
    workers: usize,
    shelf: &Shelf<Y>,
    report: &mut W,
    certificates: &mut C,
    yard_after: &mut A,
    interruptions: &mut u32,
    watch: &mut V,
    errors: &mut E,
) -> Result<BaysDone, Fault>
    requires bays { Y.bays ≡ bays.now }
    requires chosen { Y.chosen ≡ settings }
    requires problems { All (λ bay. IsProblem bay.problem) bays.now }
    requires passed { interruptions.old ≤ most_interruptions }
    ensures written { let before : Sinks = sinks_at W.contents W.failures C.contents C.failures A.contents A.failures report.old certificates.old yard_after.old interruptions.old in
        let after : Sinks = sinks_at W.contents W.failures C.contents C.failures A.contents A.failures report.new certificates.new yard_after.new interruptions.new in
        MatchResult result (WritesBays settings bays.now before after) (StopsBays settings bays.now before after) }
    ensures shown { ShowsMore (E.contents errors.old) (E.contents errors.new) }
{
    let (_looked, done) = join_mut(
        rt,
        &mut ||
            requires { IsSync T.row × IsSync K.row × (Y.bays ≡ bays.now) × (Y.chosen ≡ settings) }
        { look_together(rt, alloc, timer, bays, settings, shelf, workers) },
        &mut || -> Result<BaysDone, Fault>
            requires sync { IsSync T.row × IsSync K.row }
            requires posed { (Y.bays ≡ bays.now) × (Y.chosen ≡ settings) }
            requires problems { All (λ bay. IsProblem bay.problem) bays.now }
            requires passed { interruptions.now ≤ most_interruptions }
            ensures written { let before : Sinks = sinks_at W.contents W.failures C.contents C.failures A.contents A.failures report.entry.now certificates.entry.now yard_after.entry.now interruptions.entry.now in
                let after : Sinks = sinks_at W.contents W.failures C.contents C.failures A.contents A.failures report.exit.now certificates.exit.now yard_after.exit.now interruptions.exit.now in
                MatchResult result (WritesBays settings bays.entry.now before after) (StopsBays settings bays.entry.now before after) }
            ensures shown { ShowsMore (E.contents errors.entry.now) (E.contents errors.exit.now) }
        {
            write_to_end(
                rt,
                alloc,
                timer,
                bays,
                settings,
                shelf,
                report,
                certificates,
                yard_after,
                interruptions,
                watch,
                errors,
            )
        },
    );
    done
}

// How many workers look ahead: none where the gate asks for no look, and where fewer bays than workers are left.
fn lookers<V: Watch>(watch: &V, settings: Settings, bays: usize) -> usize {
    let workers = settings.workers() as usize;
    if workers < 2 || bays < workers || !watch.gate().looks_first() {
        0
    } else {
        workers
    }
}

// The same. Where there are several workers, they look ahead meanwhile.
fn write_ahead<
    T: Threads + Wait + Sync,
    K: Clock + Sync,
    W: Sink,
    C: Sink,
    A: Sink,
    V: Watch,
    E: Sink,
    Y: Posed + Send + Sync,
>(
    rt: &T,
    alloc: Global,
    timer: &Timer<'_, K>,
    bays: &[BayProblem],
    settings: Settings,
    sinks: &mut RunSinks<'_, '_, W, C, A>,
    watch: &mut V,
    errors: &mut E,
) -> Result<BaysDone, Fault>
    requires bays { Y.bays ≡ bays.now }
    requires chosen { Y.chosen ≡ settings }
    requires problems { All (λ bay. IsProblem bay.problem) bays.now }
    requires passed { sinks.old.interruptions ≤ most_interruptions }
    ensures same { AreSameSinks sinks.old sinks.new }
    ensures written { let before : Sinks = sinks_of W.contents W.failures C.contents C.failures A.contents A.failures sinks.old in
        let after : Sinks = sinks_of W.contents W.failures C.contents C.failures A.contents A.failures sinks.new in
        MatchResult result (WritesBays settings bays.now before after) (StopsBays settings bays.now before after) }
    ensures shown { ShowsMore (E.contents errors.old) (E.contents errors.new) }
{
    let workers = lookers(watch, settings, bays.len());
    if workers == 0 {
        let shelf = Shelf::<Y>::new(alloc, 0, 0);
        return write_each(
            rt, alloc, timer, bays, settings, &shelf, sinks, watch, errors,
        );
    }
    let shelf = Shelf::<Y>::new(alloc, workers, bays.len());
    write_beside(
        rt,
        alloc,
        timer,
        bays,
        settings,
        workers,
        &shelf,
        sinks.report,
        sinks.certificates,
        sinks.yard_after,
        &mut sinks.interruptions,
        watch,
        errors,
    )
}

/// Answers the problem of each bay, and writes what is stated of it before the next.
pub(crate) fn write_bays<
    T: Threads + Wait + Sync,
    K: Clock + Sync,
    W: Sink,
    C: Sink,
    A: Sink,
    V: Watch,
    E: Sink,
>(
    rt: &T,
    alloc: Global,
    timer: &Timer<'_, K>,
    problems: Vec<BayProblem>,
    settings: Settings,
    sinks: &mut RunSinks<'_, '_, W, C, A>,
    watch: &mut V,
    errors: &mut E,
) -> Result<BaysDone, Fault>
    requires problems { All (λ bay. IsProblem bay.problem) problems.items }
    requires passed { sinks.old.interruptions ≤ most_interruptions }
    ensures same { AreSameSinks sinks.old sinks.new }
    ensures written { let before : Sinks = sinks_of W.contents W.failures C.contents C.failures A.contents A.failures sinks.old in
        let after : Sinks = sinks_of W.contents W.failures C.contents C.failures A.contents A.failures sinks.new in
        MatchResult result (WritesBays settings problems.items before after) (StopsBays settings problems.items before after) }
    ensures shown { ShowsMore (E.contents errors.old) (E.contents errors.new) }
{
    write_ahead::<T, K, W, C, A, V, E, Brand>(
        rt,
        alloc,
        timer,
        problems.as_slice(),
        settings,
        sinks,
        watch,
        errors,
    )
}
