//! Moves by their turns.
ghost use Rattle.std.specs.Prelude.{◌≡◌, ◌<◌, map, length, IfOk};
ghost use Rattle.std.specs.List.{AllByRecursion};
ghost use Rattle.crp_follow.specs.Table.{StandFew};
ghost use Rattle.crp_follow.specs.Views.{bay_followed};
ghost use Rattle.crp_loading.specs.Loading.{records_of, by_turns};
ghost use Rattle.crp_loading.specs.Views.{recorded, AreTurns};

use crate::recording::{TurnColumns, records_of};
use crate::ship::Ship;
use crp_follow::FollowedBay;
use std::alloc::{AllocError, Global};

// The moves turn by turn, where there are so many turns, and those of none behind the others. Those of one turn stay as they were.
fn by_turns(turns: u64, records: Vec<TurnColumns>) -> Result<Vec<TurnColumns>, AllocError>
    requires few { turns < 18446744073709551615 }
    requires turns { AreTurns turns (map recorded records.items) }
    ensures { IfOk result (λ sorted. map recorded sorted.items ≡ by_turns turns (map recorded records.entry.items)) }
{
    let mut sorted = records;
    sorted.sort_by_key(|columns| columns.turn.unwrap_or(u64::MAX))?;
    Ok(sorted)
}

/// The moves of a report in the order in which the ship is loaded: those of each turn, one turn after the other, and then those of none.
pub fn moves_by_turns<'a>(
    alloc: Global,
    ship: &Ship,
    bays: &'a [FollowedBay],
) -> Result<Vec<TurnColumns<'a>>, AllocError>
    requires { AllByRecursion StandFew (map bay_followed bays.now) }
    ensures { IfOk result (λ moves. map recorded moves.items
        ≡ by_turns (length ship.now.sequence) (records_of ship.now.sequence ship.now.orders (map bay_followed bays.now))) }
{
    let records = records_of(alloc, ship, bays)?;
    by_turns(ship.sequence().len() as u64, records)
}
