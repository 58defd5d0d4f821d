//! Writes the texts of a run, in pieces.
ghost use Rattle.std.specs.Prelude.{◌≤◌, [], ◌∷◌, OnOk, OnErr, IfErr, MatchResult};
ghost use Rattle.std.specs.List.{flat_map};
ghost use Rattle.std.specs.Io.KnownBytes.{Appends};
ghost use Rattle.crp_plan.specs.Devices.{AppendsPart, Transfers, most_interruptions};
ghost use Rattle.crp_report.specs.Runs.{failures_of_fault};
ghost use Rattle.crp_report.specs.Pieces.{piece};
ghost use Rattle.crp_report.specs.BayTexts.{AreFailuresCounted, IsWriteOf};
ghost use Rattle.crp_report.specs.Writing.{Sinks, sinks_of, AreSameSinks, Writes, StopsWith};

use crate::fault::{Fault, Output};
use crp_plan::{Sink, WriteFailed, write_all};

/// The sinks of a run, and how many interruptions it has passed over.
#[derive(Drop)]
pub(crate) struct RunSinks<'r, 'd, W, C, A> {
    pub report: &'r mut W,
    pub certificates: &'d mut C,
    pub yard_after: &'d mut A,
    pub interruptions: u32,
}

// Writes a piece to the sink that it goes to.
fn write_to<W: Sink>(
    sink: &mut W,
    bytes: &[u8],
    to: Output,
    interruptions: &mut u32,
) -> Result<(), Fault>
    requires { interruptions.old ≤ most_interruptions }
    ensures all { OnOk result (Appends (W.contents sink.old) (W.contents sink.new) bytes.now) }
    ensures part { OnErr result (AppendsPart (W.contents sink.old) (W.contents sink.new) bytes.now) }
    ensures refused { IfErr result (IsWriteOf to (W.failures sink.old) (W.failures sink.new)) }
    ensures counted { MatchResult result (λ _. AreFailuresCounted 0 (W.failures sink.old) (W.failures sink.new) interruptions.old interruptions.new)
        (λ fault. AreFailuresCounted (failures_of_fault fault) (W.failures sink.old) (W.failures sink.new) interruptions.old interruptions.new) }
    ensures grown { W.failures sink.old ≤ W.failures sink.new }
    ensures passed { interruptions.new ≤ most_interruptions }
{
    match write_all(sink, bytes, interruptions) {
        Ok(()) => Ok(()),
        Err(_) => Err(Fault::Write(to)),
    }
}

/// How many bytes the shares of a text have.
pub(crate) fn bytes_of(shares: &[Vec<u8>]) -> usize {
    let mut bytes: usize = 0;
    for share in shares {
        bytes = bytes.saturating_add(share.len());
    }
    bytes
}

/// Hands the shares of a text to a sink, one after the other.
#[tactic(auto, using(crp_plan::proofs::Interruptions::transfers_on, crp_plan::proofs::Interruptions::no_transfer))]
pub fn write_shares<W: Sink>(
    sink: &mut W,
    shares: &[Vec<u8>],
    interruptions: &mut u32,
) -> Result<(), WriteFailed>
    requires { interruptions.old ≤ most_interruptions }
    ensures all { OnOk result (Appends (W.contents sink.old) (W.contents sink.new) (flat_map (λ share. share.items) shares.now)) }
    ensures part { OnErr result (AppendsPart (W.contents sink.old) (W.contents sink.new) (flat_map (λ share. share.items) shares.now)) }
    ensures done { OnOk result (Transfers 0 interruptions.old interruptions.new (W.failures sink.old) (W.failures sink.new) (W.interrupted sink.old) (W.interrupted sink.new)) }
    ensures gave_up { OnErr result (Transfers 1 interruptions.old interruptions.new (W.failures sink.old) (W.failures sink.new) (W.interrupted sink.old) (W.interrupted sink.new)) }
{
    for share in shares {
        write_all(sink, share, interruptions)?;
    }
    Ok(())
}

// Writes the shares of a piece to the sink that it goes to.
fn write_shares_to<W: Sink>(
    sink: &mut W,
    shares: &[Vec<u8>],
    to: Output,
    interruptions: &mut u32,
) -> Result<(), Fault>
    requires { interruptions.old ≤ most_interruptions }
    ensures all { OnOk result (Appends (W.contents sink.old) (W.contents sink.new) (flat_map (λ share. share.items) shares.now)) }
    ensures part { OnErr result (AppendsPart (W.contents sink.old) (W.contents sink.new) (flat_map (λ share. share.items) shares.now)) }
    ensures refused { IfErr result (IsWriteOf to (W.failures sink.old) (W.failures sink.new)) }
    ensures counted { MatchResult result (λ _. AreFailuresCounted 0 (W.failures sink.old) (W.failures sink.new) interruptions.old interruptions.new)
        (λ fault. AreFailuresCounted (failures_of_fault fault) (W.failures sink.old) (W.failures sink.new) interruptions.old interruptions.new) }
    ensures grown { W.failures sink.old ≤ W.failures sink.new }
    ensures passed { interruptions.new ≤ most_interruptions }
{
    match write_shares(sink, shares, interruptions) {
        Ok(()) => Ok(()),
        Err(_) => Err(Fault::Write(to)),
    }
}

/// Writes a certificate, which is one piece.
pub(crate) fn write_certificate<W: Sink, C: Sink, A: Sink>(
    sinks: &mut RunSinks<'_, '_, W, C, A>,
    shares: &[Vec<u8>],
) -> Result<(), Fault>
    requires { sinks.old.interruptions ≤ most_interruptions }
    ensures same { AreSameSinks sinks.old sinks.new }
    ensures written { let before : Sinks = sinks_of W.contents W.failures C.contents C.failures A.contents A.failures sinks.old in
        let after : Sinks = sinks_of W.contents W.failures C.contents C.failures A.contents A.failures sinks.new in
        let all = piece Output.Certificates (flat_map (λ share. share.items) shares.now) ∷ [] in
        MatchResult result (λ _. Writes all before after) (StopsWith all before after) }
{
    write_shares_to(
        sinks.certificates,
        shares,
        Output::Certificates,
        &mut sinks.interruptions,
    )
}

/// Writes one piece.
pub(crate) fn write_piece<W: Sink, C: Sink, A: Sink>(
    sinks: &mut RunSinks<'_, '_, W, C, A>,
    to: Output,
    bytes: &[u8],
) -> Result<(), Fault>
    requires { sinks.old.interruptions ≤ most_interruptions }
    ensures same { AreSameSinks sinks.old sinks.new }
    ensures written { let before : Sinks = sinks_of W.contents W.failures C.contents C.failures A.contents A.failures sinks.old in
        let after : Sinks = sinks_of W.contents W.failures C.contents C.failures A.contents A.failures sinks.new in
        MatchResult result (λ _. Writes (piece to bytes.now ∷ []) before after) (StopsWith (piece to bytes.now ∷ []) before after) }
{
    match to {
        Output::Report => write_to(
            sinks.report,
            bytes,
            Output::Report,
            &mut sinks.interruptions,
        ),
        Output::Certificates => write_to(
            sinks.certificates,
            bytes,
            Output::Certificates,
            &mut sinks.interruptions,
        ),
        Output::YardAfter => write_to(
            sinks.yard_after,
            bytes,
            Output::YardAfter,
            &mut sinks.interruptions,
        ),
    }
}
