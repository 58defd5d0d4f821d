//! Heads that are read from a source.
ghost use Rattle.std.specs.Prelude.{◌≡◌, ◌<◌, ◌≤◌, ◌⊎◌, List, ℕ, length, IfOk, IfErr, OnOk, IfSome, IsErrOf, MatchResult};
ghost use Rattle.crp_plan.specs.Devices.{Transfers, failures_of_read, most_interruptions};
ghost use Rattle.crp_cert.specs.FromSources.{BeginsWithHead, BeginsWithNone};

use crate::fault::CertFault;
use crate::head::Head;
use crate::open_head::{HeadFed, OpenHead};
use crp_plan::{ReadFault, Source, read_some};
use std::alloc::Global;

/// How many bytes are read at a time, at most.
const PIECE: usize = 4096;

/// Reads what a source has left, which may be so many bytes, and keeps nothing of it.
#[tactic(auto, using(crp_plan::proofs::Interruptions::transfers_on, crp_plan::proofs::Interruptions::no_transfer))]
fn pass_rest<R: Source>(
    reader: &mut R,
    room: usize,
    interruptions: &mut u32,
) -> Result<(), ReadFault>
    requires { interruptions.old ≤ most_interruptions }
    ensures within { OnOk result (IfSome (R.remaining reader.old) (λ xs. length xs ≤ room)) }
    ensures large { IsErrOf result ReadFault.TooLarge → IfSome (R.remaining reader.old) (λ xs. room < length xs) }
    ensures done { OnOk result (Transfers 0 interruptions.old interruptions.new (R.failures reader.old) (R.failures reader.new) (R.interrupted reader.old) (R.interrupted reader.new)) }
    ensures stopped { IfErr result (λ fault. Transfers (failures_of_read fault) interruptions.old interruptions.new (R.failures reader.old) (R.failures reader.new) (R.interrupted reader.old) (R.interrupted reader.new)) }
{
    let mut piece = [0u8; PIECE];
    let mut room = room;
    loop {
        let Ok(n) = read_some(reader, &mut piece, interruptions) else {
            return Err(ReadFault::Failed);
        };
        if n == 0 {
            return Ok(());
        }
        if n > room {
            return Err(ReadFault::TooLarge);
        }
        room -= n;
    }
}

/// The head that a source's bytes begin with: of what follows it no more than a piece of 4096 bytes is read. Else the first fault of
/// the bytes, of which `limit` may be read: that they are more is said first, so they are read to their end, and none is kept.
#[tactic(auto, using(crp_plan::proofs::Interruptions::transfers_on, crp_plan::proofs::Interruptions::no_transfer))]
pub fn head_from<R: Source>(
    alloc: Global,
    reader: &mut R,
    limit: usize,
    interruptions: &mut u32,
) -> Result<Result<Head, CertFault>, ReadFault>
    requires { interruptions.old ≤ most_interruptions }
    ensures read { IfOk result (λ answer. MatchResult answer
        (BeginsWithHead (R.remaining reader.old) (R.remaining reader.new))
        (BeginsWithNone limit (R.remaining reader.old))) }
    ensures large { IsErrOf result ReadFault.TooLarge → IfSome (R.remaining reader.old) (λ xs. limit < length xs) }
    ensures done { OnOk result (Transfers 0 interruptions.old interruptions.new (R.failures reader.old) (R.failures reader.new) (R.interrupted reader.old) (R.interrupted reader.new)) }
    ensures stopped { IfErr result (λ fault. Transfers (failures_of_read fault) interruptions.old interruptions.new (R.failures reader.old) (R.failures reader.new) (R.interrupted reader.old) (R.interrupted reader.new)) }
{
    let mut head = OpenHead::new(alloc);
    let mut piece = [0u8; PIECE];
    let mut room = limit;
    loop {
        let Ok(n) = read_some(reader, &mut piece, interruptions) else {
            return Err(ReadFault::Failed);
        };
        if n == 0 {
            return Ok(Err(head.fault()));
        }
        if n > room {
            return Err(ReadFault::TooLarge);
        }
        room -= n;
        let Ok((fed, _)) = head.read(alloc, &piece[..n]) else {
            return Err(ReadFault::Memory);
        };
        match fed {
            HeadFed::Open { head: next } => head = next,
            HeadFed::Whole { head } => return Ok(Ok(head)),
            HeadFed::Faulty { fault, .. } => {
                pass_rest(reader, room, interruptions)?;
                return Ok(Err(fault));
            }
        }
    }
}
