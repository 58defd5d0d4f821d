//! A block of a file of certificates, checked by several workers.
//!
//! Each worker takes the next part of the block while one is left, checks it, and keeps the lines of its certificates; then the lines are
//! written in the order of the parts. A part begins and ends where a certificate ends, and parts become smaller towards the end of the
//! block, since parts of as many bytes do not take as long. What no worker has accepted is checked in turn. Nothing is proved of who
//! checks what, nor that anybody does.
ghost use Rattle.std.specs.Prelude.{◌≡◌, ◌≤◌, ◌<◌, ◌+◌, ◌-◌, ◌^◌, All, length, take, drop, IfSome, IfOk, IfErr, OnOk, MatchResult};
ghost use Rattle.std.specs.Thread.{IsSync};
ghost use Rattle.crp_plan.specs.Devices.{most_interruptions};
ghost use Rattle.crp_commands.specs.Apart.{IsFoundIn};
ghost use Rattle.crp_commands.specs.Calls.{failures_of_tool_fault};
ghost use Rattle.crp_commands.specs.Checks.{IsChecking, ChecksPiece, PieceFailsWith};

use crate::checking::check_piece;
use crp_checker::FileChecker;
use crp_jobs::ToolFault;
use crp_plan::{Received, Sink, write_all};
use std::alloc::Global;
use std::sync::atomic::{AtomicUsize, Ordering};
use std::thread;
use std::thread::Threads;

// A part is one in so many of what would be each worker's of the rest of the block.
const PARTS: usize = 3;

// A part has so many bytes at least.
const LEAST_PART: usize = 1 << 16;

/// What a worker found in a part of a block.
#[derive(Drop)]
pub(crate) struct Found {
    // Where the part begins.
    from: usize,
    // Where it ends.
    to: usize,
    // The checker that has read it, and nothing else.
    files: FileChecker,
    // The number of the certificate that comes next, where those of the part are counted from 1.
    number: u64,
    // The lines of the certificates that have ended in it.
    lines: Received,
}

// Where the first certificate ends whose last line begins behind the line in which this place stands; the end of the block, if none does.
fn end_behind(block: &[u8], place: usize) -> usize
    ensures { result ≤ length block.now }
{
    let mut is_last = false;
    for i in place..block.len() {
        if block[i] == b'\n' {
            if is_last {
                return i + 1;
            }
            is_last = block[i + 1..].starts_with(b"end ");
        }
    }
    block.len()
}

// Where the part ends that begins here: behind its share of the rest of the block, where a certificate ends.
fn part_end(block: &[u8], from: usize, workers: usize) -> usize
    ensures { result ≤ length block.now }
{
    let rest = block.len().saturating_sub(from);
    let share = rest / workers.saturating_mul(PARTS).max(1);
    end_behind(block, from.saturating_add(share.max(LEAST_PART)))
}

/// Whether a certificate reaches over one of so many shares of a block.
pub(crate) fn has_large(block: &[u8], workers: usize) -> bool {
    let share = block.len() / workers.max(1);
    for worker in 1..workers {
        let from = share.saturating_mul(worker);
        if end_behind(block, from) > from.saturating_add(share) {
            return true;
        }
    }
    false
}

// Checks a part of a block. Nothing is found where a certificate is refused, or where memory is wanted.
fn found_in(alloc: Global, block: &[u8], from: usize, to: usize) -> Option<Found>
    requires part { (from ≤ to) × (to ≤ length block.now) }
    requires room { 1 + length block.now < 2 ^ 64 }
    ensures { IfSome result (IsFoundIn block.now) }
{
    let mut files = FileChecker::new(alloc);
    let mut number = 1;
    let mut lines = Received::new(alloc);
    let mut interruptions = 0;
    let Ok(()) = check_piece(
        alloc,
        &mut files,
        &mut number,
        &block[from..to],
        &mut lines,
        &mut interruptions,
    ) else {
        return None;
    };
    Some(Found {
        from,
        to,
        files,
        number,
        lines,
    })
}

// What a worker finds: it takes the next part as long as one is left, or until memory is wanted. `next` says where that begins.
fn found_of(alloc: Global, block: &[u8], next: &AtomicUsize, workers: usize) -> Vec<Option<Found>>
    requires { 1 + length block.now < 2 ^ 64 }
    ensures { All (λ found. IfSome found (IsFoundIn block.now)) result.items }
{
    let mut all = Vec::new(alloc);
    for _turn in 0..block.len() {
        let from = next.load(Ordering::Relaxed);
        let to = part_end(block, from, workers);
        if from >= to {
            return all;
        }
        let taken = next.compare_exchange(from, to, Ordering::Relaxed, Ordering::Relaxed);
        if taken.is_ok() {
            let Ok(()) = all.push(found_in(alloc, block, from, to)) else {
                return all;
            };
        }
    }
    all
}

// Moves what a worker found behind what others found; nothing, where memory is wanted.
fn move_all(_block: &[u8], found: &mut Vec<Option<Found>>, all: &mut Vec<Option<Found>>)
    requires found { All (λ found. IfSome found (IsFoundIn _block.now)) found.old.items }
    requires all { All (λ found. IfSome found (IsFoundIn _block.now)) all.old.items }
    ensures found { All (λ found. IfSome found (IsFoundIn _block.now)) found.new.items }
    ensures all { All (λ found. IfSome found (IsFoundIn _block.now)) all.new.items }
{
    let _moved = all.append(found);
}

// Where a part begins in which something was found. Others come last.
fn begin_of(found: &Option<Found>) -> usize {
    match found {
        Some(found) => found.from,
        None => usize::MAX,
    }
}

// Puts what was found in the order of the parts.
fn put_in_order(_block: &[u8], all: &mut Vec<Option<Found>>)
    requires { All (λ found. IfSome found (IsFoundIn _block.now)) all.old.items }
    ensures { All (λ found. IfSome found (IsFoundIn _block.now)) all.new.items }
{
    all.sort_unstable_by_key(|found: &Option<Found>| begin_of(found));
}

// What so many workers find behind this place, at the same time.
#[tactic(auto, using(std::proofs::lemmas::Grind::common_steps))]
fn found_by<T: Threads + Sync>(
    rt: &T,
    alloc: Global,
    block: &[u8],
    first: usize,
    workers: usize,
) -> Vec<Option<Found>>
    requires { 1 + length block.now < 2 ^ 64 }
    ensures { All (λ found. IfSome found (IsFoundIn block.now)) result.items }
{
    let next = AtomicUsize::new(first);
    let mut all = Vec::new(alloc);
    let found = thread::map_indices(
        rt,
        alloc,
        workers,
        &|_worker: usize| -> Vec<Option<Found>>
            requires { 1 + length block.now < 2 ^ 64 }
            ensures { All (λ found. IfSome found (IsFoundIn block.entry.now)) result.items }
        { found_of(alloc, block, &next, workers) },
    );
    let Ok(mut lists) = found else {
        return all;
    };
    for i in 0..lists.len() {
        move_all(block, &mut lists[i], &mut all);
    }
    put_in_order(block, &mut all);
    all
}

// Takes over what a worker found, if its part begins at this place and no certificate has begun before it. The answer is where it goes on.
fn take_over<W: Sink>(
    files: &mut FileChecker,
    number: &mut u64,
    block: &[u8],
    at: usize,
    found: Option<Found>,
    writer: &mut W,
    interruptions: &mut u32,
) -> Result<usize, ToolFault>
    requires within { at ≤ length block.now }
    requires found { IfSome found (IsFoundIn block.now) }
    requires room { number.old + (length block.now - at) < 2 ^ 64 }
    requires passed { interruptions.old ≤ most_interruptions }
    ensures bound { IfOk result (λ n. (at ≤ n) × (n ≤ length block.now) × (number.new ≤ number.old + (n - at))) }
    ensures on { IfOk result (λ n. ChecksPiece (take (n - at) (drop at block.now)) (W.contents writer.old) files.old number.old (W.contents writer.new) files.new number.new) }
    ensures fault { IfErr result (PieceFailsWith (drop at block.now) (W.contents writer.old) files.old number.old (W.contents writer.new) (W.failures writer.old) (W.failures writer.new)) }
    ensures counted { MatchResult result (λ _. W.failures writer.new + interruptions.old ≤ W.failures writer.old + interruptions.new)
        (λ fault. W.failures writer.new + interruptions.old ≤ W.failures writer.old + interruptions.new + failures_of_tool_fault fault) }
    ensures count { W.failures writer.old ≤ W.failures writer.new }
    ensures passed { (interruptions.old ≤ interruptions.new) × (interruptions.new ≤ most_interruptions) }
{
    let Some(found) = found else {
        return Ok(at);
    };
    if found.from != at || files.has_begun() {
        return Ok(at);
    }
    write_all(writer, &found.lines.bytes, interruptions)?;
    *files = found.files;
    *number += found.number - 1;
    Ok(found.to)
}

/// Checks a piece by so many workers, and writes the line of each certificate that ends in it: as `check_piece` does.
pub(crate) fn check_apart<T: Threads + Sync, W: Sink>(
    rt: &T,
    alloc: Global,
    workers: usize,
    files: &mut FileChecker,
    number: &mut u64,
    block: &[u8],
    writer: &mut W,
    interruptions: &mut u32,
) -> Result<(), ToolFault>
    requires reading { IsChecking (W.contents writer.old) files.old number.old }
    requires room { number.old + length block.now < 2 ^ 64 }
    requires passed { interruptions.old ≤ most_interruptions }
    ensures bound { OnOk result (number.new ≤ number.old + length block.now) }
    ensures on { OnOk result (ChecksPiece block.now (W.contents writer.old) files.old number.old (W.contents writer.new) files.new number.new) }
    ensures fault { IfErr result (PieceFailsWith block.now (W.contents writer.old) files.old number.old (W.contents writer.new) (W.failures writer.old) (W.failures writer.new)) }
    ensures counted { MatchResult result (λ _. W.failures writer.new + interruptions.old ≤ W.failures writer.old + interruptions.new)
        (λ fault. W.failures writer.new + interruptions.old ≤ W.failures writer.old + interruptions.new + failures_of_tool_fault fault) }
    ensures count { W.failures writer.old ≤ W.failures writer.new }
    ensures passed { (interruptions.old ≤ interruptions.new) × (interruptions.new ≤ most_interruptions) }
{
    let mut at = 0;
    if files.has_begun() {
        at = end_behind(block, 0);
    }
    check_piece(alloc, files, number, &block[..at], writer, interruptions)?;
    let parts = found_by(rt, alloc, block, at, workers);
    for found in parts {
        at = take_over(files, number, block, at, found, writer, interruptions)?;
    }
    check_piece(alloc, files, number, &block[at..], writer, interruptions)
}
