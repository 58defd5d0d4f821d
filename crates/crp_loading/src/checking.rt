//! Whether the takes of a report fit the ship's order.
ghost use Rattle.std.specs.Prelude.{◌≡◌, ◌<◌, ◌⊎◌, List, [], map, Some, IfOk, OnOk, IfErr};
ghost use Rattle.crp_loading.specs.Turns.{turn_of};
ghost use Rattle.crp_loading.specs.Faults.{TakeStated, faults_behind, faults_in, faults_of, IsFirst};
ghost use Rattle.crp_loading.specs.Views.{EndWith};
ghost use Rattle.crp_follow.specs.Views.{bay_followed};

use crate::fault::LoadingFault;
use crate::ship::Ship;
use crp_follow::{Followed, FollowedBay, StatedMove};
use crp_movins::Orders;
use crp_order::Sequence;
use crp_plan::Container;
use crp_said::SaidMove;
use std::alloc::Global;

// The turn of a container that is taken behind others of its bay, the last of which had this turn, or 0.
fn turn_behind(
    ship: &Ship,
    last: u64,
    line: u64,
    container: &Container,
) -> Result<u64, LoadingFault>
    ensures turn { IfOk result (λ turn. turn_of ship.now.sequence container.now ≡ Some turn) }
    ensures rises { IfOk result (λ turn. last < turn) }
    ensures right { OnOk result ((before : List TakeStated) → EndWith before last → faults_behind before line (turn_of ship.now.sequence container.now) ≡ []) }
    ensures wrong { IfErr result (λ fault. (before : List TakeStated) → EndWith before last
        → IsFirst (faults_behind before line (turn_of ship.now.sequence container.now)) fault) }
{
    let Some(turn) = ship.turn_of(container) else {
        return Err(LoadingFault::NotOrdered { line });
    };
    if turn <= last {
        return Err(LoadingFault::OutOfOrder { line });
    }
    Ok(turn)
}

// Whether the takes of a bay fit.
fn check_moves(ship: &Ship, moves: &[StatedMove]) -> Result<(), LoadingFault>
    ensures right { OnOk result (faults_in ship.now.sequence moves.now ≡ []) }
    ensures wrong { IfErr result (IsFirst (faults_in ship.now.sequence moves.now)) }
{
    let mut last = 0;
    for stated in moves {
        match &stated.said {
            SaidMove::Shift { .. } => {}
            SaidMove::Take { container, .. } => {
                last = turn_behind(ship, last, stated.line, container)?;
            }
        }
    }
    Ok(())
}

// Whether the takes of bays fit, or the first fault.
fn check_bays(ship: &Ship, bays: &[FollowedBay]) -> Result<(), LoadingFault>
    ensures right { OnOk result (faults_of ship.now.sequence (map bay_followed bays.now) ≡ []) }
    ensures wrong { IfErr result (IsFirst (faults_of ship.now.sequence (map bay_followed bays.now))) }
{
    for bay in bays {
        check_moves(ship, &bay.stated.moves)?;
    }
    Ok(())
}

/// Whether the takes of a report that is followed load the ship in its order, which gets its containers in this sequence and is to have
/// them where these orders say; or the first fault. Memory may run out in place of either.
pub fn check_takes(
    alloc: Global,
    followed: &Followed,
    orders: &Orders,
    sequence: &Sequence,
) -> Result<(), LoadingFault>
    ensures right { OnOk result (faults_of sequence.now (map bay_followed followed.now.bays.items) ≡ []) }
    ensures wrong { IfErr result (λ fault. (fault ≡ LoadingFault.Memory)
        ⊎ IsFirst (faults_of sequence.now (map bay_followed followed.now.bays.items)) fault) }
{
    let ship = Ship::new(alloc, sequence, orders)?;
    check_bays(&ship, &followed.bays)
}
