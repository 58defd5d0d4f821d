//! The containers that leave a bay.
ghost use Rattle.std.specs.Prelude.{◌≡◌, map, option_map, IfOk};
ghost use Rattle.crp_follow.specs.Stated.{moves_of};
ghost use Rattle.crp_follow.specs.Table.{takes_from, leaves_at, next_to_leave, left_behind};
ghost use Rattle.crp_follow.specs.Views.{taken_as};

use crate::stated::StatedMove;
use crp_plan::Container;
use crp_said::SaidMove;
use std::alloc::{AllocError, Global};

/// A container that leaves its bay, and the step at which it does, from 1.
#[derive(Clone, Copy)]
pub struct Taken<'a> {
    pub step: u64,
    pub container: &'a Container,
}

/// The containers that leave, each with its step.
pub fn takes_of<'a>(alloc: Global, moves: &'a [StatedMove]) -> Result<Vec<Taken<'a>>, AllocError>
    ensures { IfOk result (λ takes. map taken_as takes.items ≡ takes_from 1 (moves_of moves.now)) }
{
    let mut takes = Vec::new(alloc);
    for (i, stated) in moves.iter().enumerate() {
        match &stated.said {
            SaidMove::Shift { .. } => {}
            SaidMove::Take { container, .. } => {
                let step = i as u64 + 1;
                takes.push(Taken { step, container })?;
            }
        }
    }
    Ok(takes)
}

/// The step at which the container leaves, if it does.
pub fn leaves_at(takes: &[Taken], container: &[u8]) -> Option<u64>
    ensures { result ≡ leaves_at (map taken_as takes.now) container.now }
{
    for taken in takes {
        if taken.container.bytes() == container {
            return Some(taken.step);
        }
    }
    None
}

/// The container that leaves at this step, or as the next one.
pub(crate) fn next_to_leave<'a>(takes: &[Taken<'a>], step: u64) -> Option<&'a Container>
    ensures { option_map (λ container. container.now) result ≡ next_to_leave (map taken_as takes.now) step }
{
    for taken in takes {
        if step <= taken.step {
            return Some(taken.container);
        }
    }
    None
}

/// How many of so many containers are left behind this step.
pub(crate) fn left_behind(count: u64, takes: &[Taken], step: u64) -> u64
    ensures { result ≡ left_behind count (map taken_as takes.now) step }
{
    let mut gone: u64 = 0;
    for taken in takes {
        if taken.step <= step {
            gone += 1;
        }
    }
    count.saturating_sub(gone)
}
