//! Reads a list of sizes.

ghost use Rattle.std.specs.Prelude.{◌≡◌, ◌⊎◌, ℕ, List, IfOk, OnOk, IfErr};
ghost use Rattle.crp_plan.specs.Devices.{TransfersAlone};
ghost use Rattle.crp_sizes.specs.Fields.{IsTextOf};
ghost use Rattle.crp_sizes.specs.Heights.{CanBeHeights};
ghost use Rattle.crp_sizes.specs.Records.{IsSizesListOf};
ghost use Rattle.crp_sizes.specs.Faults.{IsFirstFault};
ghost use Rattle.crp_sizes.specs.Reading.{ReadingFailsWith, failures_of_sizes};
ghost use Rattle.crp_sizes.specs.declared.fault.SizesFault.TheVariants.{Memory};

use crate::fault::SizesFault;
use crate::records::listed_in;
use crate::sizes::Sizes;
use crp_plan::{ReadFault, Source, read_all};
use std::alloc::Global;

/// More bytes are not read.
pub const MAX_BYTES: usize = 8388608;

/// The sizes that a text lists, with the common ones of bays that it has not, and else the first fault of the text.
pub fn read_sizes(alloc: Global, text: &[u8], common: &[u8]) -> Result<Sizes, SizesFault>
    requires { CanBeHeights common.now }
    ensures accepted { IfOk result (IsSizesListOf common.now text.now) }
    ensures refused { IfErr result (λ fault. (fault ≡ Memory) ⊎ IsFirstFault text.now fault) }
{
    if text.len() > MAX_BYTES {
        return Err(SizesFault::TooLarge);
    }
    listed_in(alloc, text, common)
}

/// The sizes that a source lists: all its bytes are read first. An interrupted call is tried again, at most 1,000 times.
pub fn sizes_from<R: Source>(
    alloc: Global,
    source: &mut R,
    common: &[u8],
) -> Result<Sizes, SizesFault>
    requires { CanBeHeights common.now }
    ensures accepted { IfOk result (λ sizes. (text : List ℕ) × IsTextOf (R.remaining source.old) text × IsSizesListOf common.now text sizes) }
    ensures refused { IfErr result (ReadingFailsWith (R.remaining source.old) (R.failures source.old) (R.failures source.new)) }
    ensures done { OnOk result (TransfersAlone 0 (R.failures source.old) (R.failures source.new) (R.interrupted source.old) (R.interrupted source.new)) }
    ensures ended { IfErr result (λ fault. TransfersAlone (failures_of_sizes fault) (R.failures source.old) (R.failures source.new) (R.interrupted source.old) (R.interrupted source.new)) }
{
    let mut interruptions = 0;
    match read_all(alloc, source, MAX_BYTES, &mut interruptions) {
        Ok(text) => read_sizes(alloc, &text, common),
        Err(ReadFault::Failed) => Err(SizesFault::Read),
        Err(ReadFault::TooLarge) => Err(SizesFault::TooLarge),
        Err(ReadFault::Memory) => Err(SizesFault::Memory),
    }
}
