//! Sizes of bays: what a list of them says, and a yard one of whose bays is larger than the others.

ghost use Rattle.std.specs.Prelude.{◌≡◌, ◌≢◌, ◌≤◌, ◌+◌, ◌⊎◌, ◌∷◌, [], ℕ, List, Some, length, slice_get, IfOk, IfErr, IfSome, IfNone, IsSome};
ghost use Rattle.crp_plan.specs.BayNames.{YardBay};
ghost use Rattle.crp_sizes.specs.Sizes.{BaySize, YardSizes, heights_at};
ghost use Rattle.crp_sizes.specs.Records.{IsSizesListOf};
ghost use Rattle.crp_callers.specs.TwoSizes.{two_sizes, sized_yard};

use arrayvec::ArrayVec;
use crp_plan::{BayName, MAX_ROWS};
use crp_sizes::{
    Sizes, SizesFault, heights_in, one_list, one_outcome, read_sizes, sized_as_listed, worked_cases,
};
use crp_yard::{Yard, YardFault, yard_of_sizes};
use std::alloc::{AllocError, Global};

/// A bay has the heights that its record gives it, and one without a record has the common ones.
pub fn sized_by_records()
    ensures own { (common text : List ℕ) (sizes : YardSizes) (i : ℕ) (size : BaySize) → IsSizesListOf common text sizes
        → slice_get sizes.listed i ≡ Some size → heights_at sizes size.0 ≡ size.1 }
    ensures others { (common text : List ℕ) (sizes : YardSizes) (bay : YardBay) → IsSizesListOf common text sizes
        → ((i : ℕ) (size : BaySize) → slice_get sizes.listed i ≡ Some size → size.0 ≢ bay) → heights_at sizes bay ≡ common }
{
    sized_as_listed();
}

/// The heights of three rows.
pub fn heights_of_three() -> ArrayVec<u8, MAX_ROWS>
    ensures { result.items ≡ 3 ∷ 1 ∷ 3 ∷ [] }
{
    one_list();
    let Some(heights) = heights_in(b"3.1.3") else {
        unreachable!()
    };
    heights
}

/// What a list says of two bays; there is no other outcome but that memory runs out.
pub fn read_two_sizes(alloc: Global) -> Result<Sizes, SizesFault>
    ensures accepted { IfOk result (λ sizes. sizes ≡ two_sizes) }
    ensures refused { IfErr result (λ fault. fault ≡ SizesFault.Memory) }
{
    one_list();
    one_outcome();
    worked_cases();
    read_sizes(alloc, b"block,bay,heights\nA,7,5.5.5.5.4\nB,12,3\n", &[1])
}

// A yard list: two containers stand in the bay A 7, one on the other, and one in the bay A 8.
static LIST: &[u8] = b"block,bay,row,tier,container\nA,7,1,1,LOWER\nA,7,1,2,UPPER\nA,8,1,1,ALONE\n";

/// Where the bay A 7 has a size of its own, its containers stand in it.
pub fn yard_of_two_sizes(alloc: Global, sizes: &Sizes) -> Result<Yard, YardFault>
    requires { sizes.now ≡ two_sizes }
    ensures accepted { IfOk result (λ yard. yard ≡ sized_yard) }
    ensures refused { IfErr result (λ fault. fault ≡ YardFault.Memory) }
{
    yard_of_sizes(alloc, LIST, sizes)
}

/// Where it has the common size, the upper one stands outside of it.
pub fn fault_of_common(alloc: Global, sizes: &Sizes) -> Option<YardFault>
    requires { sizes.now ≡ two_sizes }
    ensures some { IsSome result }
    ensures fault { IfSome result (λ fault. (fault ≡ YardFault.Memory) ⊎ (fault ≡ YardFault.Outside 3)) }
{
    let common = Sizes::of_heights(alloc, sizes.common());
    match yard_of_sizes(alloc, LIST, &common) {
        Ok(_) => None,
        Err(fault) => Some(fault),
    }
}

/// How many rows the bay has in a copy of the sizes.
pub fn rows_in_copy(alloc: Global, sizes: &Sizes, bay: &BayName) -> Result<usize, AllocError>
    ensures { IfOk result (λ rows. (rows ≡ length (heights_at sizes.now bay.now)) × (1 ≤ rows) × (rows ≤ 12)) }
{
    let copy = sizes.copy(alloc)?;
    Ok(copy.heights_at(bay).len())
}

/// How many rows the bay has of its own; none where it has those of the others.
pub fn own_rows(sizes: &Sizes, bay: &BayName) -> Option<usize>
    ensures some { IfSome result (λ rows. (rows ≡ length (heights_at sizes.now bay.now)) × (rows ≤ 12)) }
    ensures none { IfNone result (heights_at sizes.now bay.now ≡ sizes.now.common) }
{
    match sizes.heights_of(bay) {
        Some(heights) => Some(heights.len()),
        None => None,
    }
}

/// How many records a list of these sizes has, its header among them.
pub fn records_of_list(sizes: &Sizes) -> usize
    ensures { result ≡ length sizes.now.listed + 1 }
{
    sizes.len() + 1
}
