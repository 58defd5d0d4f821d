//! Blocks of a source's bytes, each of which is checked by several workers.
ghost use Rattle.std.specs.Prelude.{◌≡◌, ◌≤◌, ◌<◌, ◌+◌, ◌++◌, ◌⊎◌, ℕ, List, true, false, length, IfOk, IfErr, OnOk, MatchResult};
ghost use Rattle.std.specs.Io.KnownBytes.{Consumes, IsAtEnd};
ghost use Rattle.crp_plan.specs.Devices.{HasFailed, most_interruptions};
ghost use Rattle.crp_commands.specs.Calls.{failures_of_tool_fault};

use crate::apart::has_large;
use crp_jobs::ToolFault;
use crp_plan::{MOST_INTERRUPTIONS, Source, read_some};
use std::alloc::Global;

// How many bytes are read at a time, at most.
const PIECE: usize = 16_384;

// So many bytes are held for each worker.
const SHARE: usize = 1 << 24;

// So many are held for each worker where a certificate is larger than that.
const LARGE_SHARE: usize = 1 << 25;

/// What was left where the reading of a block has ended.
#[derive(Clone, Copy)]
pub(crate) enum Left {
    /// More bytes may come.
    More,
    /// The source has ended.
    Nothing,
    /// The source has failed.
    Failure,
}

// That a read has failed, which is stated when what was read before it is checked: so far it is one of those that are passed over. Where no more
// may be passed over, it is stated now.
fn put_off(interruptions: &mut u32) -> Result<Left, ToolFault>
    requires { interruptions.old ≤ most_interruptions }
    ensures left { IfOk result (λ left. (left ≡ Left.Failure) × (interruptions.new ≡ interruptions.old + 1)) }
    ensures now { IfErr result (λ fault. (fault ≡ ToolFault.Read) × (interruptions.new ≡ interruptions.old)) }
    ensures passed { interruptions.new ≤ most_interruptions }
{
    if *interruptions >= MOST_INTERRUPTIONS {
        return Err(ToolFault::Read);
    }
    *interruptions += 1;
    Ok(Left::Failure)
}

// Reads on in a block.
fn fill_some<R: Source>(
    reader: &mut R,
    block: &mut Vec<u8>,
    interruptions: &mut u32,
) -> Result<Left, ToolFault>
    requires passed { interruptions.old ≤ most_interruptions }
    ensures got { OnOk result ((got : List ℕ) × (block.new.items ≡ block.old.items ++ got) × Consumes (R.remaining reader.old) (R.remaining reader.new) got) }
    ensures more { IfOk result (λ left. left ≡ Left.More → length block.old.items < length block.new.items) }
    ensures end { IfOk result (λ left. left ≡ Left.Nothing → IsAtEnd (R.remaining reader.new)) }
    ensures failed { IfOk result (λ left. left ≡ Left.Failure → HasFailed (R.failures reader.old) (R.failures reader.new)) }
    ensures fault { IfErr result (λ fault. (fault ≡ ToolFault.Memory) ⊎ ((fault ≡ ToolFault.Read) × HasFailed (R.failures reader.old) (R.failures reader.new))) }
    ensures counted { MatchResult result (λ _. R.failures reader.new + interruptions.old ≤ R.failures reader.old + interruptions.new)
        (λ fault. R.failures reader.new + interruptions.old ≤ R.failures reader.old + interruptions.new + failures_of_tool_fault fault) }
    ensures count { R.failures reader.old ≤ R.failures reader.new }
    ensures passed { (interruptions.old ≤ interruptions.new) × (interruptions.new ≤ most_interruptions) }
{
    let mut piece = [0u8; PIECE];
    let Ok(n) = read_some(reader, &mut piece, interruptions) else {
        return put_off(interruptions);
    };
    block.extend_from_slice(&piece[..n])?;
    if n == 0 {
        return Ok(Left::Nothing);
    }
    Ok(Left::More)
}

/// Reads a block for so many workers, or down to where the source ends or fails.
pub(crate) fn fill<R: Source>(
    reader: &mut R,
    block: &mut Vec<u8>,
    workers: u32,
    interruptions: &mut u32,
) -> Result<Left, ToolFault>
    requires some { 0 < workers }
    requires passed { interruptions.old ≤ most_interruptions }
    ensures got { OnOk result (Consumes (R.remaining reader.old) (R.remaining reader.new) block.new.items) }
    ensures more { IfOk result (λ left. left ≡ Left.More → 0 < length block.new.items) }
    ensures end { IfOk result (λ left. left ≡ Left.Nothing → IsAtEnd (R.remaining reader.new)) }
    ensures failed { IfOk result (λ left. left ≡ Left.Failure → HasFailed (R.failures reader.old) (R.failures reader.new)) }
    ensures fault { IfErr result (λ fault. (fault ≡ ToolFault.Memory) ⊎ ((fault ≡ ToolFault.Read) × HasFailed (R.failures reader.old) (R.failures reader.new))) }
    ensures counted { MatchResult result (λ _. R.failures reader.new + interruptions.old ≤ R.failures reader.old + interruptions.new)
        (λ fault. R.failures reader.new + interruptions.old ≤ R.failures reader.old + interruptions.new + failures_of_tool_fault fault) }
    ensures count { R.failures reader.old ≤ R.failures reader.new }
    ensures passed { (interruptions.old ≤ interruptions.new) × (interruptions.new ≤ most_interruptions) }
{
    let workers = workers as usize;
    let most = workers * LARGE_SHARE;
    let mut size = workers * SHARE;
    block.clear();
    while block.len() < size {
        match fill_some(reader, block, interruptions)? {
            Left::More => {}
            left => return Ok(left),
        }
        if size < most && block.len() >= size && has_large(block, workers) {
            size = most;
        }
    }
    Ok(Left::More)
}
