//! What the lines of a head state of a bay, as far as they were read.
ghost use Rattle.std.specs.Prelude.{◌≡◌, true, length};
ghost use Rattle.std.proofs.Props.{props};
ghost use Rattle.crp_plan.specs.Faults.{stacks_of};
ghost use Rattle.crp_cert.specs.Text.{IsSize, has_heights};
ghost use Rattle.crp_cert.specs.Faults.{AreHeightsOf, AreFirstStacks, FitRows-prop};

use crate::claim::Claim;
use crate::size::Size;
use crate::version::Version;
use arrayvec::ArrayVec;
use crp_plan::{BayName, MAX_ROWS};

/// A bay and its size, whose heights a line states.
#[derive(Drop)]
pub struct BaySize {
    /// The version of the text.
    pub version: Version,
    /// Whose certificate it is.
    pub bay: BayName,
    /// The size.
    pub size: Size,
    /// It is within the limits.
    ghost is_size: { IsSize size },
    /// The version has a line of heights.
    ghost with_heights: { has_heights version ≡ true },
}

/// A bay, its size, its heights and its first stacks, or all of them.
#[derive(Drop)]
pub struct BayRows {
    /// The version of the text.
    pub version: Version,
    /// Whose certificate it is.
    pub bay: BayName,
    /// The size.
    pub size: Size,
    /// How high each row may be.
    pub heights: ArrayVec<u8, MAX_ROWS>,
    /// The stacks, from bottom to top.
    pub stacks: Vec<Vec<u8>>,
    /// The size is within the limits.
    ghost is_size: { IsSize size },
    /// The heights fit the size.
    ghost are_heights: { AreHeightsOf size heights.items },
    /// The stacks may be the first ones.
    ghost first: { AreFirstStacks size heights.items (stacks_of stacks.items) } by { Prim.hlevel (props, FitRows-prop) },
}

/// A whole bay, and what is claimed of it.
#[derive(Drop)]
pub struct BayClaim {
    /// The bay.
    pub rows: BayRows,
    /// The claim.
    pub claim: Claim,
    /// All stacks were read.
    ghost all: { length (stacks_of rows.stacks.items) ≡ rows.size.rows },
}
