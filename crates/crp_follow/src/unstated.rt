//! What a report that is followed says of a part, and what is named there and not in the report.
ghost use Rattle.std.specs.Prelude.{◌≡◌, List, map, not};
ghost use Rattle.std.specs.List.{AllByRecursion, position_from};
ghost use Rattle.crp_yard.specs.Inventory.{Inventory};
ghost use Rattle.crp_follow.specs.Followed.{AreFollowed};
ghost use Rattle.crp_follow.specs.Unstated.{first_unstated, has_bay, has_block, bays_of_part};
ghost use Rattle.crp_follow.specs.Stated.{BayStated};
ghost use Rattle.crp_follow.specs.Table.{StandFew};
ghost use Rattle.crp_follow.specs.Views.{bay_followed};

use crate::followed::{Followed, FollowedBay};
use crate::part::Part;
use crp_plan::BayName;
use thiserror::Error;

/// F13: what is named and that a report has not, by its number from 1.
#[derive(Clone, Copy, Debug, Error, PartialEq, Eq)]
pub enum Unstated {
    /// A bay.
    #[error("F13 at --bay {0}")]
    Bay(u64),
    /// A block of which there is no bay.
    #[error("F13 at --block {0}")]
    Block(u64),
}

fn has_bay(bays: &[FollowedBay], name: &BayName) -> bool
    ensures { result ≡ has_bay (map bay_followed bays.now) name.now }
{
    for bay in bays {
        if *name == bay.stated.bay {
            return true;
        }
    }
    false
}

fn has_block(bays: &[FollowedBay], block: &str) -> bool
    ensures { result ≡ has_block (map bay_followed bays.now) block.now }
{
    for bay in bays {
        if block.as_bytes() == bay.stated.bay.block() {
            return true;
        }
    }
    false
}

// The number of the first of these names that the report has not.
fn first_bay(bays: &[FollowedBay], names: &[BayName]) -> Option<u64>
    ensures { result ≡ position_from (λ name. not (has_bay (map bay_followed bays.now) name)) 1 names.now }
{
    for (i, name) in names.iter().enumerate() {
        if !has_bay(bays, name) {
            return Some(i as u64 + 1);
        }
    }
    None
}

// The number of the first of these blocks of which the report has no bay.
fn first_block(bays: &[FollowedBay], blocks: &[&str]) -> Option<u64>
    ensures { result ≡ position_from (λ block. not (has_block (map bay_followed bays.now) block)) 1 (map (λ block. block.now) blocks.now) }
{
    for (i, block) in blocks.iter().enumerate() {
        if !has_block(bays, block) {
            return Some(i as u64 + 1);
        }
    }
    None
}

/// The first that is named and that a report has not, if there is one.
pub fn first_unstated(followed: &Followed, part: &Part<'_>) -> Option<Unstated>
    ensures { result ≡ first_unstated part.now (map bay_followed followed.now.bays.items) }
{
    if let Some(bay) = first_bay(&followed.bays, part.bays()) {
        return Some(Unstated::Bay(bay));
    }
    match first_block(&followed.bays, part.blocks()) {
        Some(block) => Some(Unstated::Block(block)),
        None => None,
    }
}

/// What a report that is followed says of a part. Takes no memory.
pub fn choose_part(followed: Followed, part: &Part<'_>) -> Followed
    ensures numbers { result.numbers ≡ followed.numbers }
    ensures bays { map bay_followed result.bays.items ≡ bays_of_part part.now (map bay_followed followed.bays.items) }
    ensures followed { (yard : Inventory) (stated : List BayStated) → AreFollowed yard stated (map bay_followed followed.bays.items)
        → (left : List BayStated) × AreFollowed yard left (map bay_followed result.bays.items) }
    ensures few { AllByRecursion StandFew (map bay_followed followed.bays.items) → AllByRecursion StandFew (map bay_followed result.bays.items) }
{
    let Followed { numbers, mut bays } = followed;
    bays.retain(|bay| part.has(&bay.stated.bay));
    Followed { numbers, bays }
}
