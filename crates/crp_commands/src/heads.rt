//! Heads of certificates, read from a source.
ghost use Rattle.std.specs.Prelude.{◌≤◌, ℕ, ◌+◌, IfOk, IfErr, MatchResult};
ghost use Rattle.crp_commands.specs.declared.heads.TheConstants.{MOST_BYTES};
ghost use Rattle.crp_plan.specs.Devices.{most_interruptions};
ghost use Rattle.crp_cert.specs.FromSources.{BeginsWithHead};
ghost use Rattle.crp_commands.specs.Calls.{IsNoHead, failures_of_tool_fault};

use crp_cert::Head;
use crp_jobs::ToolFault;
use crp_plan::Source;
use std::alloc::Global;

/// The most bytes of a certificate file.
pub const MOST_BYTES: usize = 268_435_456;

/// More bytes than any file has.
pub const ANY_SIZE: usize = 9_223_372_036_854_775_808;

/// The head that a source's bytes begin with.
pub fn head_from<R: Source>(
    alloc: Global,
    reader: &mut R,
    interruptions: &mut u32,
) -> Result<Head, ToolFault>
    requires { interruptions.old ≤ most_interruptions }
    ensures found { IfOk result (BeginsWithHead (R.remaining reader.old) (R.remaining reader.new)) }
    ensures none { IfErr result (IsNoHead MOST_BYTES (R.remaining reader.old) (R.failures reader.old) (R.failures reader.new)) }
    ensures counted { MatchResult result (λ _. R.failures reader.new + interruptions.old ≤ R.failures reader.old + interruptions.new)
        (λ fault. R.failures reader.new + interruptions.old ≤ R.failures reader.old + interruptions.new + failures_of_tool_fault fault) }
    ensures passed { interruptions.new ≤ most_interruptions }
{
    let answer = crp_cert::head_from(alloc, reader, MOST_BYTES, interruptions)?;
    let head = answer?;
    Ok(head)
}
