//! The moves that are made when the ship has its first containers.
ghost use Rattle.std.specs.Prelude.{◌≡◌, map, take, IfOk};
ghost use Rattle.crp_follow.specs.Behind.{first_moves};
ghost use Rattle.crp_follow.specs.Stated.{moves_of};
ghost use Rattle.crp_follow.specs.Views.{bay_followed};
ghost use Rattle.crp_loading.specs.Loaded.{takes_up_to, moves_up_to, made_up_to};

use crate::ship::Ship;
use crp_follow::{Followed, StatedMove};
use crp_movins::Orders;
use crp_order::Sequence;
use crp_said::SaidMove;
use std::alloc::{AllocError, Global};

// Whether the move takes a container of one of the first turns, so many.
fn takes_up_to(ship: &Ship, said: &SaidMove, loaded: u64) -> bool
    ensures { result ≡ takes_up_to ship.now.sequence loaded said.now }
{
    match said {
        SaidMove::Shift { .. } => false,
        SaidMove::Take { container, .. } => match ship.turn_of(container) {
            Some(turn) => turn <= loaded,
            None => false,
        },
    }
}

// How many moves there are up to the last of these takes.
fn count_up_to(ship: &Ship, moves: &[StatedMove], loaded: u64) -> usize
    ensures { take result (moves_of moves.now) ≡ moves_up_to ship.now.sequence loaded (moves_of moves.now) }
{
    let mut count = 0;
    for (i, stated) in moves.iter().enumerate() {
        if takes_up_to(ship, &stated.said, loaded) {
            count = i + 1;
        }
    }
    count
}

/// How many moves of each bay are made when the ship has its first containers, so many.
pub fn counts_up_to(
    alloc: Global,
    followed: &Followed,
    orders: &Orders,
    sequence: &Sequence,
    loaded: u64,
) -> Result<Vec<usize>, AllocError>
    ensures { IfOk result (λ counts. first_moves counts.items (map bay_followed followed.now.bays.items) ≡ made_up_to sequence.now loaded (map bay_followed followed.now.bays.items)) }
{
    let ship = Ship::new(alloc, sequence, orders)?;
    let mut counts = Vec::new(alloc);
    for bay in &followed.bays {
        counts.push(count_up_to(&ship, &bay.stated.moves, loaded))?;
    }
    Ok(counts)
}
