//! The records of the moves, bay by bay.
ghost use Rattle.std.specs.Prelude.{◌≡◌, map, option_map, option_and_then, IfOk};
ghost use Rattle.std.specs.List.{AllByRecursion};
ghost use Rattle.crp_follow.specs.Table.{StandFew};
ghost use Rattle.crp_follow.specs.Views.{bay_followed, columns_as};
ghost use Rattle.crp_loading.specs.Turns.{turn_of};
ghost use Rattle.crp_loading.specs.Loading.{slot_at, record_at, records_of};
ghost use Rattle.crp_loading.specs.Views.{recorded};

use crate::ship::Ship;
use crp_follow::{Columns, FollowedBay, columns_of};
use crp_movins::Slot;
use crp_plan::Container;
use crp_said::SaidMove;
use std::alloc::{AllocError, Global};

/// What a record says of a move: what the table of moves says, the turn that it belongs to, and the slot of the ship that it fills.
#[derive(Clone, Copy)]
pub struct TurnColumns<'a> {
    pub of_move: Columns<'a>,
    pub turn: Option<u64>,
    pub slot: Option<Slot>,
}

// The turn of the container that leaves next, if one does.
fn turn_of(ship: &Ship, next: Option<&Container>) -> Option<u64>
    ensures { result ≡ option_and_then (turn_of ship.now.sequence) (option_map (λ c. c.now) next.entry) }
{
    match next {
        Some(container) => ship.turn_of(container),
        None => None,
    }
}

// The slot of the ship that a move fills.
fn slot_at(ship: &Ship, said: &SaidMove) -> Option<Slot>
    ensures { result ≡ slot_at ship.now.orders said.now }
{
    match said {
        SaidMove::Shift { .. } => None,
        SaidMove::Take { container, .. } => ship.slot_for(container),
    }
}

// The record of a move.
fn record_at<'a>(ship: &Ship, columns: &Columns<'a>) -> TurnColumns<'a>
    ensures { recorded result ≡ record_at ship.now.sequence ship.now.orders (columns_as columns.now) }
{
    TurnColumns {
        of_move: *columns,
        turn: turn_of(ship, columns.next),
        slot: slot_at(ship, columns.said),
    }
}

/// The records of the moves, bay by bay in the order of the report.
pub(crate) fn records_of<'a>(
    alloc: Global,
    ship: &Ship,
    bays: &'a [FollowedBay],
) -> Result<Vec<TurnColumns<'a>>, AllocError>
    requires { AllByRecursion StandFew (map bay_followed bays.now) }
    ensures { IfOk result (λ records. map recorded records.items ≡ records_of ship.now.sequence ship.now.orders (map bay_followed bays.now)) }
{
    let moves = columns_of(alloc, bays)?;
    let mut records = Vec::new(alloc);
    for columns in &moves {
        records.push(record_at(ship, columns))?;
    }
    Ok(records)
}
