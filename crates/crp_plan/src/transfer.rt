//! A whole text, from a source or to a sink.
ghost use Rattle.std.specs.Prelude.{◌≡◌, ◌↔◌, ℕ, List, ◌+◌, ◌-◌, ◌<◌, ◌≤◌, ◌++◌, false, true, length, take, vec_len, IsTrue, IfOk, IfErr, IfSome, OnOk, OnErr, IsErrOf, flat_map};
ghost use Rattle.std.specs.Bool.{OnTrue, OnFalse};
ghost use Rattle.std.specs.Io.KnownBytes.{Appends, Consumes, Keeps, IsAtEnd};
ghost use Rattle.crp_plan.specs.Devices.{AppendsPart, IsPassedOver, Transfers, TransfersAlone, failures_of_read, most_interruptions};

use crate::device::{Failure, Sink, Source};
use std::alloc::{AllocError, Global};
use thiserror::Error;

/// Why a text was not read.
#[derive(Clone, Copy, Debug, Drop, PartialEq, Eq, Error)]
pub enum ReadFault {
    /// The source failed, or was interrupted once too often.
    #[error("a read failed")]
    Failed,
    /// More bytes came than are allowed.
    #[error("too many bytes")]
    TooLarge,
    /// No memory is left.
    #[error("no memory is left")]
    Memory,
}

/// The source failed, or was interrupted once too often.
#[derive(Clone, Copy, Debug, Drop, PartialEq, Eq, Error)]
#[error("a read failed")]
pub struct ReadFailed;

/// The sink failed, was interrupted once too often, or took nothing of a piece.
#[derive(Clone, Copy, Debug, Drop, PartialEq, Eq, Error)]
#[error("a write failed")]
pub struct WriteFailed;

/// Why a text that was to be made and then written was not.
#[derive(Clone, Copy, Debug, Drop, PartialEq, Eq, Error)]
pub enum WriteFault {
    /// The sink failed, was interrupted once too often, or took nothing of a piece.
    #[error("a write failed")]
    Failed,
    /// No memory is left.
    #[error("no memory is left")]
    Memory,
}

impl From<AllocError> for WriteFault {
    ghost use Rattle.crp_plan.specs.declared.transfer.WriteFault.TheVariants.{Memory};

    ghost from_gives = { λ _ fault. fault ≡ Memory };

    fn from(_error: AllocError) -> WriteFault {
        WriteFault::Memory
    }
}

impl From<WriteFailed> for WriteFault {
    ghost use Rattle.crp_plan.specs.declared.transfer.WriteFault.TheVariants.{Failed};

    ghost from_gives = { λ _ fault. fault ≡ Failed };

    fn from(_error: WriteFailed) -> WriteFault {
        WriteFault::Failed
    }
}

/// How many interrupted calls a run passes over.
pub const MOST_INTERRUPTIONS: u32 = 1000;

const PIECE: usize = 4096;

// Counts a failure that is passed over. The answer says whether it is.
fn pass_over(failure: Failure, interruptions: &mut u32) -> bool
    ensures answer { IsTrue result ↔ IsPassedOver failure interruptions.old }
    ensures counted { OnTrue result (interruptions.new ≡ interruptions.old + 1) }
    ensures kept { OnFalse result (interruptions.new ≡ interruptions.old) }
{
    if failure == Failure::Interrupted && *interruptions < MOST_INTERRUPTIONS {
        *interruptions += 1;
        return true;
    }
    false
}

// One read. The answer says whether more may come.
fn read_piece<R: Source>(
    reader: &mut R,
    bytes: &mut Vec<u8>,
    limit: usize,
    interruptions: &mut u32,
) -> Result<bool, ReadFault>
    requires within { vec_len bytes.old ≤ limit }
    requires passed { interruptions.old ≤ most_interruptions }
    ensures grows { OnOk result ((got : List ℕ) × (bytes.new.items ≡ bytes.old.items ++ got)
        × Consumes (R.remaining reader.old) (R.remaining reader.new) got) }
    ensures end { IfOk result (λ more. more ≡ false → IsAtEnd (R.remaining reader.new)) }
    ensures within { OnOk result (vec_len bytes.new ≤ limit) }
    ensures nearer { IfOk result (λ more. more ≡ true
        → limit + most_interruptions + vec_len bytes.old + interruptions.old < limit + most_interruptions + vec_len bytes.new + interruptions.new) }
    ensures large { IsErrOf result ReadFault.TooLarge
        → IfSome (R.remaining reader.old) (λ xs. limit < vec_len bytes.old + length xs) }
    ensures done { OnOk result (Transfers 0 interruptions.old interruptions.new (R.failures reader.old) (R.failures reader.new) (R.interrupted reader.old) (R.interrupted reader.new)) }
    ensures ended { IfErr result (λ fault. Transfers (failures_of_read fault) interruptions.old interruptions.new (R.failures reader.old) (R.failures reader.new) (R.interrupted reader.old) (R.interrupted reader.new)) }
{
    let mut piece = [0u8; PIECE];
    match reader.read(&mut piece) {
        Ok(0) => Ok(false),
        Ok(n) => {
            if limit - bytes.len() < n {
                return Err(ReadFault::TooLarge);
            }
            match bytes.extend_from_slice(&piece[..n]) {
                Ok(()) => Ok(true),
                Err(_) => Err(ReadFault::Memory),
            }
        }
        Err(failure) => {
            if !pass_over(failure, interruptions) {
                return Err(ReadFault::Failed);
            }
            Ok(true)
        }
    }
}

/// All that a source has left, where that is no more than `limit` bytes.
#[tactic(auto, using(crate::proofs::Interruptions::transfers_on, crate::proofs::Interruptions::no_transfer))]
pub fn read_all<R: Source>(
    alloc: Global,
    reader: &mut R,
    limit: usize,
    interruptions: &mut u32,
) -> Result<Vec<u8>, ReadFault>
    requires { interruptions.old ≤ most_interruptions }
    ensures all { IfOk result (λ bytes. IfSome (R.remaining reader.old) (λ xs. bytes.items ≡ xs)) }
    ensures end { OnOk result (IsAtEnd (R.remaining reader.new)) }
    ensures within { IfOk result (λ bytes. vec_len bytes ≤ limit) }
    ensures large { IsErrOf result ReadFault.TooLarge
        → IfSome (R.remaining reader.old) (λ xs. limit < length xs) }
    ensures done { OnOk result (Transfers 0 interruptions.old interruptions.new (R.failures reader.old) (R.failures reader.new) (R.interrupted reader.old) (R.interrupted reader.new)) }
    ensures ended { IfErr result (λ fault. Transfers (failures_of_read fault) interruptions.old interruptions.new (R.failures reader.old) (R.failures reader.new) (R.interrupted reader.old) (R.interrupted reader.new)) }
{
    let mut bytes = Vec::new(alloc);
    while read_piece(reader, &mut bytes, limit, interruptions)? {}
    Ok(bytes)
}

/// Puts the next bytes of a source at the front of a piece, and says how many. None come only at the end.
#[tactic(auto, using(crate::proofs::Interruptions::transfers_on, crate::proofs::Interruptions::no_transfer))]
pub fn read_some<R: Source>(
    reader: &mut R,
    piece: &mut [u8],
    interruptions: &mut u32,
) -> Result<usize, ReadFailed>
    requires room { 0 < length piece.old }
    requires passed { interruptions.old ≤ most_interruptions }
    ensures bound { IfOk result (λ n. n ≤ length piece.new) }
    ensures got { IfOk result (λ n. Consumes (R.remaining reader.old) (R.remaining reader.new) (take n piece.new)) }
    ensures end { IfOk result (λ n. n ≡ 0 → IsAtEnd (R.remaining reader.new)) }
    ensures kept { OnErr result (Keeps (R.remaining reader.old) (R.remaining reader.new)) }
    ensures done { OnOk result (Transfers 0 interruptions.old interruptions.new (R.failures reader.old) (R.failures reader.new) (R.interrupted reader.old) (R.interrupted reader.new)) }
    ensures gave_up { OnErr result (Transfers 1 interruptions.old interruptions.new (R.failures reader.old) (R.failures reader.new) (R.interrupted reader.old) (R.interrupted reader.new)) }
{
    loop {
        match reader.read(piece) {
            Ok(n) => return Ok(n),
            Err(failure) => {
                if !pass_over(failure, interruptions) {
                    return Err(ReadFailed);
                }
            }
        }
    }
}

// One write of a text that is not empty. The answer is how much of it was taken.
fn write_piece<W: Sink>(
    writer: &mut W,
    text: &[u8],
    interruptions: &mut u32,
) -> Result<usize, WriteFailed>
    requires some { 0 < length text.now }
    requires passed { interruptions.old ≤ most_interruptions }
    ensures bound { IfOk result (λ n. n ≤ length text.now) }
    ensures ok { IfOk result (λ n. Appends (W.contents writer.old) (W.contents writer.new) (take n text.now)) }
    ensures err { OnErr result (Keeps (W.contents writer.old) (W.contents writer.new)) }
    ensures nearer { IfOk result (λ n. interruptions.old < n + interruptions.new) }
    ensures done { OnOk result (Transfers 0 interruptions.old interruptions.new (W.failures writer.old) (W.failures writer.new) (W.interrupted writer.old) (W.interrupted writer.new)) }
    ensures gave_up { OnErr result (Transfers 1 interruptions.old interruptions.new (W.failures writer.old) (W.failures writer.new) (W.interrupted writer.old) (W.interrupted writer.new)) }
{
    match writer.write(text) {
        Ok(0) => Err(WriteFailed),
        Ok(n) => Ok(n),
        Err(failure) => {
            if !pass_over(failure, interruptions) {
                return Err(WriteFailed);
            }
            Ok(0)
        }
    }
}

/// Hands a whole text to a sink.
#[tactic(auto, using(crate::proofs::Interruptions::transfers_on, crate::proofs::Interruptions::no_transfer))]
pub fn write_all<W: Sink>(
    writer: &mut W,
    text: &[u8],
    interruptions: &mut u32,
) -> Result<(), WriteFailed>
    requires { interruptions.old ≤ most_interruptions }
    ensures all { OnOk result (Appends (W.contents writer.old) (W.contents writer.new) text.now) }
    ensures part { OnErr result (AppendsPart (W.contents writer.old) (W.contents writer.new) text.now) }
    ensures done { OnOk result (Transfers 0 interruptions.old interruptions.new (W.failures writer.old) (W.failures writer.new) (W.interrupted writer.old) (W.interrupted writer.new)) }
    ensures gave_up { OnErr result (Transfers 1 interruptions.old interruptions.new (W.failures writer.old) (W.failures writer.new) (W.interrupted writer.old) (W.interrupted writer.new)) }
{
    let mut rest = text;
    while !rest.is_empty() {
        let n = write_piece(writer, rest, interruptions)?;
        rest = &rest[n..];
    }
    Ok(())
}

/// Hands a whole text to a sink, and counts its interruptions by itself.
pub fn write_text<W: Sink>(writer: &mut W, text: &[u8]) -> Result<(), WriteFailed>
    ensures all { OnOk result (Appends (W.contents writer.old) (W.contents writer.new) text.now) }
    ensures part { OnErr result (AppendsPart (W.contents writer.old) (W.contents writer.new) text.now) }
    ensures done { OnOk result (TransfersAlone 0 (W.failures writer.old) (W.failures writer.new) (W.interrupted writer.old) (W.interrupted writer.new)) }
    ensures gave_up { OnErr result (TransfersAlone 1 (W.failures writer.old) (W.failures writer.new) (W.interrupted writer.old) (W.interrupted writer.new)) }
{
    let mut interruptions = 0;
    write_all(writer, text, &mut interruptions)
}

/// Hands several texts to a sink, one after the other.
#[tactic(auto, using(crate::proofs::Interruptions::transfers_on, crate::proofs::Interruptions::no_transfer))]
pub fn write_each<W: Sink>(
    writer: &mut W,
    texts: &[&[u8]],
    interruptions: &mut u32,
) -> Result<(), WriteFailed>
    requires { interruptions.old ≤ most_interruptions }
    ensures all { OnOk result (Appends (W.contents writer.old) (W.contents writer.new) (flat_map (λ text. text.now) texts.now)) }
    ensures part { OnErr result (AppendsPart (W.contents writer.old) (W.contents writer.new) (flat_map (λ text. text.now) texts.now)) }
    ensures done { OnOk result (Transfers 0 interruptions.old interruptions.new (W.failures writer.old) (W.failures writer.new) (W.interrupted writer.old) (W.interrupted writer.new)) }
    ensures gave_up { OnErr result (Transfers 1 interruptions.old interruptions.new (W.failures writer.old) (W.failures writer.new) (W.interrupted writer.old) (W.interrupted writer.new)) }
{
    for text in texts {
        write_all(writer, text, interruptions)?;
    }
    Ok(())
}
