//! Bays that several tests use.
use crp_plan::Problem;
use std::alloc::{AllocError, Global};
use std::test::Fail;

/// A bay: its tiers, how many of its containers leave, its stacks by rank, from bottom to top, and the fewest relocations, if it has a
/// plan.
#[derive(Clone, Copy)]
pub struct Bay {
    pub name: &'static str,
    pub tiers: u8,
    pub ordered: u8,
    pub stacks: &'static [&'static [u8]],
    pub fewest: Option<u32>,
}

pub const ONE_EMPTY: Bay = Bay {
    name: "one empty row",
    tiers: 2,
    ordered: 2,
    stacks: &[&[1, 2], &[]],
    fewest: Some(1),
};

pub const FOUR: Bay = Bay {
    name: "four containers, two relocations",
    tiers: 3,
    ordered: 4,
    stacks: &[&[1, 4], &[2], &[3]],
    fewest: Some(2),
};

pub const SIX: Bay = Bay {
    name: "six containers, three relocations",
    tiers: 3,
    ordered: 6,
    stacks: &[&[1, 5, 4], &[6], &[3, 2]],
    fewest: Some(3),
};

pub const FULL: Bay = Bay {
    name: "full",
    tiers: 2,
    ordered: 4,
    stacks: &[&[1, 2], &[3, 4]],
    fewest: None,
};

pub const BLOCKED_AGAIN: Bay = Bay {
    name: "blocked again",
    tiers: 3,
    ordered: 6,
    stacks: &[&[4, 1, 6], &[2, 5], &[3]],
    fewest: Some(4),
};

pub const BETTER_THAN_GREEDY: Bay = Bay {
    name: "better than greedy",
    tiers: 3,
    ordered: 6,
    stacks: &[&[1, 3, 6], &[5, 4], &[2]],
    fewest: Some(3),
};

pub const FOUR_ROWS: Bay = Bay {
    name: "four rows",
    tiers: 3,
    ordered: 7,
    stacks: &[&[1, 6, 5], &[7], &[4, 3], &[2]],
    fewest: Some(3),
};

pub const REFUSED_AND_OPTIMAL: Bay = Bay {
    name: "refused a claim, and yet optimal",
    tiers: 4,
    ordered: 8,
    stacks: &[&[5, 2, 8, 4], &[7, 3], &[1, 6]],
    fewest: Some(5),
};

pub const STAYS: Bay = Bay {
    name: "a container that stays",
    tiers: 2,
    ordered: 1,
    stacks: &[&[1, 2], &[]],
    fewest: Some(1),
};

pub const IN_ORDER: Bay = Bay {
    name: "nothing to relocate",
    tiers: 2,
    ordered: 2,
    stacks: &[&[2, 1], &[]],
    fewest: Some(0),
};

pub const ONE_ROW: Bay = Bay {
    name: "no other row",
    tiers: 3,
    ordered: 2,
    stacks: &[&[1, 2]],
    fewest: None,
};

pub const EMPTY: Bay = Bay {
    name: "no containers",
    tiers: 1,
    ordered: 0,
    stacks: &[&[]],
    fewest: Some(0),
};

pub const ONE_ROW_IN_ORDER: Bay = Bay {
    name: "one row, nothing to relocate",
    tiers: 3,
    ordered: 3,
    stacks: &[&[3, 2, 1]],
    fewest: Some(0),
};

pub const SEVEN: Bay = Bay {
    name: "seven containers, five relocations",
    tiers: 3,
    ordered: 7,
    stacks: &[&[4, 7], &[1, 3, 6], &[2, 5]],
    fewest: Some(5),
};

pub const PACKED: Bay = Bay {
    name: "three full rows, one empty",
    tiers: 3,
    ordered: 9,
    stacks: &[&[4, 3, 9], &[7, 8, 2], &[5, 1, 6], &[]],
    fewest: Some(4),
};

pub const BAYS: [Bay; 8] = [
    ONE_EMPTY,
    SIX,
    FULL,
    BLOCKED_AGAIN,
    BETTER_THAN_GREEDY,
    FOUR_ROWS,
    REFUSED_AND_OPTIMAL,
    STAYS,
];

pub const MORE_BAYS: [Bay; 6] = [FOUR, IN_ORDER, ONE_ROW, EMPTY, ONE_ROW_IN_ORDER, SEVEN];

pub fn stacks_of(alloc: Global, rows: &[&[u8]]) -> Result<Vec<Vec<u8>>, AllocError> {
    let mut stacks = Vec::new(alloc);
    for row in rows {
        stacks.push(row.to_vec(alloc)?)?;
    }
    Ok(stacks)
}

/// A bay whose rows have a height each.
#[derive(Clone, Copy)]
pub struct UnequalBay {
    pub heights: &'static [u8],
    pub ordered: u8,
    pub stacks: &'static [&'static [u8]],
}

pub const LOW_IN_THE_MIDDLE: UnequalBay = UnequalBay {
    heights: &[3, 1, 3],
    ordered: 4,
    stacks: &[&[1, 4], &[2], &[3]],
};

pub const FULL_AND_LOW: UnequalBay = UnequalBay {
    heights: &[2, 1],
    ordered: 3,
    stacks: &[&[1, 2], &[3]],
};

pub fn unequal_problem_of(alloc: Global, bay: &UnequalBay) -> Result<Problem, Fail> {
    let stacks = stacks_of(alloc, bay.stacks)?;
    Ok(Problem::with_heights(bay.heights, bay.ordered, &stacks)?)
}

pub fn problem_of(alloc: Global, bay: &Bay) -> Result<Problem, Fail> {
    let stacks = stacks_of(alloc, bay.stacks)?;
    Ok(Problem::new(bay.tiers, bay.ordered, &stacks)?)
}
