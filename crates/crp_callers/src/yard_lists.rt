//! Yard lists out of bytes and into them.

ghost use Rattle.std.specs.Prelude.{◌≡◌, ◌<◌, ◌≤◌, ◌+◌, ◌-◌, ◌++◌, ◌⊎◌, ℕ, Some, IfOk, IfErr, OnOk, IsErrOf, length, take, replicate};
ghost use Rattle.std.specs.List.{AllByRecursion};
ghost use Rattle.crp_plan.specs.Devices.{CountsOne};
ghost use Rattle.crp_sizes.specs.Sizes.{one_size};
ghost use Rattle.crp_yard.specs.Faults.{fault_of_text};
ghost use Rattle.crp_yard.specs.Naming.{IsNamedBay};
ghost use Rattle.crp_yard.specs.Reading.{IsYardList, IsYardListOf, failures_of_yard};
ghost use Rattle.crp_yard.specs.Text.{yard_text};

use crp_plan::{Received, Source, WriteFault};
use crp_sizes::Sizes;
use crp_yard::{Yard, YardFault, read_yard, read_yard_sizes, write_yard};
use std::alloc::Global;

/// The yard that these bytes state, and else their first fault. No read of bytes fails.
pub fn yard_of_bytes(alloc: Global, bytes: &[u8], sizes: &Sizes) -> Result<Yard, YardFault>
    ensures accepted { IfOk result (λ yard. IsYardListOf sizes.now bytes.now yard) }
    ensures named { IfOk result (λ yard. AllByRecursion IsNamedBay yard.bays) }
    ensures refused { IfErr result (λ fault. (fault ≡ YardFault.Memory) ⊎ (fault_of_text sizes.now bytes.now ≡ Some fault)) }
{
    let mut source = bytes;
    read_yard_sizes(alloc, &mut source, sizes)
}

/// The same where all rows have as many tiers.
pub fn even_yard_of_bytes(
    alloc: Global,
    bytes: &[u8],
    rows: u8,
    tiers: u8,
) -> Result<Yard, YardFault>
    requires some_rows { 1 ≤ rows }
    requires few_rows { rows ≤ 12 }
    requires some_tiers { 1 ≤ tiers }
    requires few_tiers { tiers ≤ 8 }
    ensures accepted { IfOk result (λ yard. IsYardList rows tiers bytes.now yard) }
    ensures named { IfOk result (λ yard. AllByRecursion IsNamedBay yard.bays) }
    ensures refused { IfErr result (λ fault. (fault ≡ YardFault.Memory) ⊎ (fault_of_text (one_size (replicate rows tiers)) bytes.now ≡ Some fault)) }
{
    let mut source = bytes;
    read_yard(alloc, &mut source, rows, tiers)
}

/// Reads from a source none of whose reads has failed. A yard comes after at most a thousand failed reads, and
/// where the source counts its interruptions, each of them was one. A fault comes after one more, where it
/// states a failed read: the only one that was no interruption, or one behind a thousand interruptions.
pub fn read_from_start<R: Source>(
    alloc: Global,
    source: &mut R,
    sizes: &Sizes,
) -> Result<Yard, YardFault>
    requires { R.failures source.old ≡ 0 }
    ensures few { OnOk result (R.failures source.new ≤ 1000) }
    ensures interruptions { OnOk result (R.interrupted source.old ≡ Some 0 → R.interrupted source.new ≡ Some (R.failures source.new)) }
    ensures some_more { IfErr result (λ fault. failures_of_yard fault ≤ R.failures source.new) }
    ensures few_more { IfErr result (λ fault. R.failures source.new ≤ 1000 + failures_of_yard fault) }
    ensures failed { IsErrOf result YardFault.Read → R.interrupted source.old ≡ Some 0
        → (R.failures source.new ≡ 1001) ⊎ (R.interrupted source.new ≡ Some (R.failures source.new - 1)) }
{
    read_yard_sizes(alloc, source, sizes)
}

/// The same where all rows have as many tiers.
pub fn read_evenly_from_start<R: Source>(
    alloc: Global,
    source: &mut R,
    rows: u8,
    tiers: u8,
) -> Result<Yard, YardFault>
    requires some_rows { 1 ≤ rows }
    requires few_rows { rows ≤ 12 }
    requires some_tiers { 1 ≤ tiers }
    requires few_tiers { tiers ≤ 8 }
    requires fresh { R.failures source.old ≡ 0 }
    ensures few { OnOk result (R.failures source.new ≤ 1000) }
    ensures interruptions { OnOk result (R.interrupted source.old ≡ Some 0 → R.interrupted source.new ≡ Some (R.failures source.new)) }
    ensures some_more { IfErr result (λ fault. failures_of_yard fault ≤ R.failures source.new) }
    ensures few_more { IfErr result (λ fault. R.failures source.new ≤ 1000 + failures_of_yard fault) }
    ensures failed { IsErrOf result YardFault.Read → R.interrupted source.old ≡ Some 0
        → (R.failures source.new ≡ 1001) ⊎ (R.interrupted source.new ≡ Some (R.failures source.new - 1)) }
{
    read_yard(alloc, source, rows, tiers)
}

/// Writes the text of a yard behind what was received: all of it, or a front where memory was refused, or
/// nothing where there was none for the text.
pub fn receive_yard(alloc: Global, received: &mut Received, yard: &Yard) -> Result<(), WriteFault>
    ensures all { OnOk result (received.new.bytes.items ≡ received.old.bytes.items ++ yard_text yard.now) }
    ensures part { IsErrOf result WriteFault.Failed → (n : ℕ) × (n < length (yard_text yard.now))
        × (received.new.bytes.items ≡ received.old.bytes.items ++ take n (yard_text yard.now)) }
    ensures nothing { IsErrOf result WriteFault.Memory → received.new ≡ received.old }
    ensures counted { OnOk result (received.new.failed ≡ received.old.failed) }
    ensures failed { IsErrOf result WriteFault.Failed → CountsOne received.old.failed received.new.failed }
{
    write_yard(alloc, received, yard)
}
