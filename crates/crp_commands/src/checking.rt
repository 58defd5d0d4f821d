//! The command `check`: from the bytes of a file of certificates to a line for each.
ghost use Rattle.std.specs.Prelude.{◌≡◌, ◌≤◌, ◌<◌, ◌+◌, ◌^◌, ◌++◌, true, false, length, take, IfOk, IfErr, OnOk, MatchResult};
ghost use Rattle.std.specs.Io.KnownBytes.{Appends, IsAtEnd};
ghost use Rattle.crp_plan.specs.Devices.{most_interruptions};
ghost use Rattle.crp_commands.specs.Calls.{CallSeen, call_failures, failures_of_tool_fault, most_call_failures, IsTextWithin, WritesReport};
ghost use Rattle.crp_commands.specs.Check.{plan_words, verdict_words, verdict_line, fault_of_refusal, IsCheck, CheckFailsWith, most_bytes};
ghost use Rattle.crp_report.specs.Runs.{SinkSeen, sink_seen};
ghost use Rattle.crp_jobs.specs.Opened.{IsLeftAlone};
ghost use Rattle.crp_commands.specs.Noted.{TellsWhetherEmpty};
ghost use Rattle.crp_commands.specs.Checks.{TextFailsWith, IsChecking, ChecksPiece, PieceFailsWith, CheckHasGoneOn, CheckStopsAt};

use crate::apart::check_apart;
use crate::blocks::{Left, fill};
use crate::heads::{ANY_SIZE, MOST_BYTES};
use crate::noting::note_if_none;
use crp_cert::push_decimal;
use crp_checker::{Fed, FileChecker, Refused, Verdict};
use crp_jobs::ToolFault;
use crp_plan::{BayName, Sink, Source, read_some, write_all};
use crp_report::Status;
use crp_said::push_bay_words;
use std::alloc::{AllocError, Global};
use std::thread::Threads;

// How many bytes are read at a time, at most.
const PIECE: usize = 16_384;

// Adds the relocations of a plan, if there is one.
fn push_plan_words(text: &mut Vec<u8>, count: Option<u32>) -> Result<(), AllocError>
    ensures { OnOk result (text.new.items ≡ text.old.items ++ plan_words count) }
{
    let Some(count) = count else {
        return Ok(());
    };
    text.extend_from_slice(b", plan of ")?;
    push_decimal(text, count)
}

// Adds what a certificate shows.
fn push_verdict_words(text: &mut Vec<u8>, verdict: Verdict) -> Result<(), AllocError>
    ensures { OnOk result (text.new.items ≡ text.old.items ++ verdict_words verdict) }
{
    match verdict {
        Verdict::Optimal(count) => {
            text.extend_from_slice(b"optimal ")?;
            push_decimal(text, count)
        }
        Verdict::First(count) => {
            text.extend_from_slice(b"optimal ")?;
            push_decimal(text, count)?;
            text.extend_from_slice(b" first")
        }
        Verdict::NoPlan => text.extend_from_slice(b"no plan"),
        Verdict::Bounds { lower, upper } => {
            text.extend_from_slice(b"at least ")?;
            push_decimal(text, lower)?;
            push_plan_words(text, upper)
        }
    }
}

/// Adds the line of a certificate.
pub(crate) fn push_verdict(
    text: &mut Vec<u8>,
    bay: &BayName,
    verdict: Verdict,
) -> Result<(), AllocError>
    ensures { OnOk result (text.new.items ≡ text.old.items ++ verdict_line (bay.now, verdict)) }
{
    push_bay_words(text, bay)?;
    push_verdict_words(text, verdict)?;
    text.push(b'\n')?;
    Ok(())
}

// Writes the line of a certificate.
fn write_verdict<W: Sink>(
    alloc: Global,
    writer: &mut W,
    bay: &BayName,
    verdict: Verdict,
    interruptions: &mut u32,
) -> Result<(), ToolFault>
    requires { interruptions.old ≤ most_interruptions }
    ensures all { OnOk result (Appends (W.contents writer.old) (W.contents writer.new) (verdict_line (bay.now, verdict))) }
    ensures fault { IfErr result (TextFailsWith (W.contents writer.old) (W.contents writer.new) (W.failures writer.old) (W.failures writer.new) (verdict_line (bay.now, verdict))) }
    ensures counted { MatchResult result (λ _. W.failures writer.new + interruptions.old ≤ W.failures writer.old + interruptions.new)
        (λ fault. W.failures writer.new + interruptions.old ≤ W.failures writer.old + interruptions.new + failures_of_tool_fault fault) }
    ensures count { W.failures writer.old ≤ W.failures writer.new }
    ensures passed { (interruptions.old ≤ interruptions.new) × (interruptions.new ≤ most_interruptions) }
{
    let mut line = Vec::new(alloc);
    push_verdict(&mut line, bay, verdict)?;
    write_all(writer, &line, interruptions)?;
    Ok(())
}

// How the refusal of a certificate is stated.
fn refused_at(number: u64, refused: Refused) -> ToolFault
    ensures { result ≡ fault_of_refusal number refused }
{
    match refused {
        Refused::Memory => ToolFault::Memory,
        refused => ToolFault::Checked { number, refused },
    }
}

// Checks a piece down to the end of a certificate, if one ends there, and writes its line. The answer is how much of the piece was read.
fn check_some<W: Sink>(
    alloc: Global,
    files: &mut FileChecker,
    number: &mut u64,
    piece: &[u8],
    writer: &mut W,
    interruptions: &mut u32,
) -> Result<usize, ToolFault>
    requires reading { IsChecking (W.contents writer.old) files.old number.old }
    requires some { 0 < length piece.now }
    requires room { number.old + length piece.now < 2 ^ 64 }
    requires passed { interruptions.old ≤ most_interruptions }
    ensures bound { IfOk result (λ n. (1 ≤ n) × (n ≤ length piece.now) × (number.new ≤ number.old + n)) }
    ensures on { IfOk result (λ n. ChecksPiece (take n piece.now) (W.contents writer.old) files.old number.old (W.contents writer.new) files.new number.new) }
    ensures fault { IfErr result (PieceFailsWith piece.now (W.contents writer.old) files.old number.old (W.contents writer.new) (W.failures writer.old) (W.failures writer.new)) }
    ensures counted { MatchResult result (λ _. W.failures writer.new + interruptions.old ≤ W.failures writer.old + interruptions.new)
        (λ fault. W.failures writer.new + interruptions.old ≤ W.failures writer.old + interruptions.new + failures_of_tool_fault fault) }
    ensures count { W.failures writer.old ≤ W.failures writer.new }
    ensures passed { (interruptions.old ≤ interruptions.new) × (interruptions.new ≤ most_interruptions) }
{
    match files.feed(piece) {
        Ok(Fed::Open) => Ok(piece.len()),
        Ok(
            Fed::Ended {
                taken,
                bay,
                verdict,
            },
        ) => {
            write_verdict(alloc, writer, &bay, verdict, interruptions)?;
            *number += 1;
            Ok(taken)
        }
        Err(refused) => Err(refused_at(*number, refused)),
    }
}

/// Checks a piece, and writes the line of each certificate that ends in it.
pub(crate) fn check_piece<W: Sink>(
    alloc: Global,
    files: &mut FileChecker,
    number: &mut u64,
    piece: &[u8],
    writer: &mut W,
    interruptions: &mut u32,
) -> Result<(), ToolFault>
    requires reading { IsChecking (W.contents writer.old) files.old number.old }
    requires room { number.old + length piece.now < 2 ^ 64 }
    requires passed { interruptions.old ≤ most_interruptions }
    ensures bound { OnOk result (number.new ≤ number.old + length piece.now) }
    ensures on { OnOk result (ChecksPiece piece.now (W.contents writer.old) files.old number.old (W.contents writer.new) files.new number.new) }
    ensures fault { IfErr result (PieceFailsWith piece.now (W.contents writer.old) files.old number.old (W.contents writer.new) (W.failures writer.old) (W.failures writer.new)) }
    ensures counted { MatchResult result (λ _. W.failures writer.new + interruptions.old ≤ W.failures writer.old + interruptions.new)
        (λ fault. W.failures writer.new + interruptions.old ≤ W.failures writer.old + interruptions.new + failures_of_tool_fault fault) }
    ensures count { W.failures writer.old ≤ W.failures writer.new }
    ensures passed { (interruptions.old ≤ interruptions.new) × (interruptions.new ≤ most_interruptions) }
{
    let mut rest = piece;
    while !rest.is_empty() {
        let n = check_some(alloc, files, number, rest, writer, interruptions)?;
        rest = &rest[n..];
    }
    Ok(())
}

// Reads a block, has so many workers check what of it is within the limit, and keeps it to be filled again. The answer says whether more may come. A read that fails is stated behind what the bytes
// before it show.
fn check_block<T: Threads + Sync, R: Source, W: Sink>(
    rt: &T,
    alloc: Global,
    workers: u32,
    files: &mut FileChecker,
    number: &mut u64,
    left: &mut usize,
    block: &mut Vec<u8>,
    reader: &mut R,
    writer: &mut W,
    interruptions: &mut u32,
) -> Result<bool, ToolFault>
    requires some { 0 < workers }
    requires reading { IsChecking (W.contents writer.old) files.old number.old }
    requires room { number.old + left.old < 2 ^ 64 }
    requires passed { interruptions.old ≤ most_interruptions }
    ensures nearer { IfOk result (λ more. more ≡ true → left.new < left.old) }
    ensures end { IfOk result (λ more. more ≡ false → IsAtEnd (R.remaining reader.new)) }
    ensures room { OnOk result (number.new + left.new ≤ number.old + left.old) }
    ensures on { OnOk result (CheckHasGoneOn
        (record { remaining = R.remaining reader.old; holds = W.contents writer.old; files = files.old; number = number.old; left = left.old })
        (record { remaining = R.remaining reader.new; holds = W.contents writer.new; files = files.new; number = number.new; left = left.new })) }
    ensures fault { IfErr result (CheckStopsAt
        (record { remaining = R.remaining reader.old; holds = W.contents writer.old; files = files.old; number = number.old; left = left.old })
        (W.contents writer.new) (R.failures reader.old) (R.failures reader.new) (W.failures writer.old) (W.failures writer.new)) }
    ensures counted { MatchResult result
        (λ _. R.failures reader.new + W.failures writer.new + interruptions.old ≤ R.failures reader.old + W.failures writer.old + interruptions.new)
        (λ fault. R.failures reader.new + W.failures writer.new + interruptions.old ≤ R.failures reader.old + W.failures writer.old + interruptions.new + failures_of_tool_fault fault) }
    ensures count { (R.failures reader.old ≤ R.failures reader.new) × (W.failures writer.old ≤ W.failures writer.new) }
    ensures passed { (interruptions.old ≤ interruptions.new) × (interruptions.new ≤ most_interruptions) }
{
    let more = fill(reader, block, workers, interruptions)?;
    let fed = block.len().min(*left);
    check_apart(
        rt,
        alloc,
        workers as usize,
        files,
        number,
        &block[..fed],
        writer,
        interruptions,
    )?;
    if fed < block.len() {
        return Err(ToolFault::TooLarge);
    }
    *left -= block.len();
    match more {
        Left::More => Ok(true),
        Left::Nothing => Ok(false),
        Left::Failure => Err(ToolFault::Read),
    }
}

// Reads a piece and checks what of it is within the limit; a block, where several workers check. The answer says whether more may come.
fn check_next<T: Threads + Sync, R: Source, W: Sink>(
    rt: &T,
    alloc: Global,
    workers: u32,
    files: &mut FileChecker,
    number: &mut u64,
    left: &mut usize,
    block: &mut Vec<u8>,
    reader: &mut R,
    writer: &mut W,
    interruptions: &mut u32,
) -> Result<bool, ToolFault>
    requires reading { IsChecking (W.contents writer.old) files.old number.old }
    requires room { number.old + left.old < 2 ^ 64 }
    requires passed { interruptions.old ≤ most_interruptions }
    ensures nearer { IfOk result (λ more. more ≡ true → left.new < left.old) }
    ensures end { IfOk result (λ more. more ≡ false → IsAtEnd (R.remaining reader.new)) }
    ensures room { OnOk result (number.new + left.new ≤ number.old + left.old) }
    ensures on { OnOk result (CheckHasGoneOn
        (record { remaining = R.remaining reader.old; holds = W.contents writer.old; files = files.old; number = number.old; left = left.old })
        (record { remaining = R.remaining reader.new; holds = W.contents writer.new; files = files.new; number = number.new; left = left.new })) }
    ensures fault { IfErr result (CheckStopsAt
        (record { remaining = R.remaining reader.old; holds = W.contents writer.old; files = files.old; number = number.old; left = left.old })
        (W.contents writer.new) (R.failures reader.old) (R.failures reader.new) (W.failures writer.old) (W.failures writer.new)) }
    ensures counted { MatchResult result
        (λ _. R.failures reader.new + W.failures writer.new + interruptions.old ≤ R.failures reader.old + W.failures writer.old + interruptions.new)
        (λ fault. R.failures reader.new + W.failures writer.new + interruptions.old ≤ R.failures reader.old + W.failures writer.old + interruptions.new + failures_of_tool_fault fault) }
    ensures count { (R.failures reader.old ≤ R.failures reader.new) × (W.failures writer.old ≤ W.failures writer.new) }
    ensures passed { (interruptions.old ≤ interruptions.new) × (interruptions.new ≤ most_interruptions) }
{
    if workers > 1 {
        return check_block(
            rt,
            alloc,
            workers,
            files,
            number,
            left,
            block,
            reader,
            writer,
            interruptions,
        );
    }
    let mut piece = [0u8; PIECE];
    let n = read_some(reader, &mut piece, interruptions)?;
    if n == 0 {
        return Ok(false);
    }
    let fed = n.min(*left);
    check_piece(alloc, files, number, &piece[..fed], writer, interruptions)?;
    if fed < n {
        return Err(ToolFault::TooLarge);
    }
    *left -= n;
    Ok(true)
}

/// The most bytes of a file of certificates that is checked.
fn most_bytes(any_size: bool) -> usize
    ensures value { result ≡ most_bytes any_size }
    ensures few { result + 1 < 2 ^ 64 }
{
    if any_size { ANY_SIZE } else { MOST_BYTES }
}

/// Writes for each certificate of a source's bytes whose it is and what it shows, as soon as it has ended. A fault comes after
/// the lines of the certificates that ended before. Several workers check side by side, and their lines come when a block is checked; with
/// any number of them the same is written. Where no certificate is there, `errors` gets a note that says so, and nothing else.
pub fn check<T: Threads + Sync, R: Source, W: Sink, E: Sink>(
    rt: &T,
    alloc: Global,
    reader: &mut R,
    writer: &mut W,
    errors: &mut E,
    any_size: bool,
    workers: u32,
) -> Result<Status, ToolFault>
    ensures done { let seen : CallSeen = record {
      given = R.remaining reader.old;
      held = W.contents writer.old;
      holds = W.contents writer.new;
      source_before = R.failures reader.old;
      source_after = R.failures reader.new;
      sink_before = W.failures writer.old;
      sink_after = W.failures writer.new;
    } in MatchResult result
        (λ status. ((status ≡ Status.Decided) × WritesReport (IsTextWithin (most_bytes any_size)) IsCheck seen) × (call_failures seen ≤ most_interruptions))
        (λ fault. CheckFailsWith (most_bytes any_size) seen fault × (call_failures seen ≤ most_call_failures fault)) }
    ensures noted { let lines : SinkSeen = sink_seen W.contents W.failures writer.old writer.new
        in let noted : SinkSeen = sink_seen E.contents E.failures errors.old errors.new
        in MatchResult result (λ _. TellsWhetherEmpty lines noted) (λ _. IsLeftAlone noted) }
{
    let mut files = FileChecker::new(alloc);
    let mut number = 1;
    let mut left = most_bytes(any_size);
    let mut block = Vec::new(alloc);
    let mut interruptions = 0;
    while check_next(
        rt,
        alloc,
        workers,
        &mut files,
        &mut number,
        &mut left,
        &mut block,
        reader,
        writer,
        &mut interruptions,
    )? {}
    drop(block);
    match files.finish() {
        Ok(None) => {
            note_if_none(errors, number);
            Ok(Status::Decided)
        }
        Ok(Some((bay, verdict))) => {
            write_verdict(alloc, writer, &bay, verdict, &mut interruptions)?;
            Ok(Status::Decided)
        }
        Err(refused) => Err(refused_at(number, refused)),
    }
}
