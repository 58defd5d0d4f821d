//! The table of a report that is followed.
ghost use Rattle.std.specs.Prelude.{◌≡◌, ◌⊎◌, [], map, false, true, IfOk, OnOk, IfErr};
ghost use Rattle.std.specs.List.{AllByRecursion};
ghost use Rattle.crp_follow.specs.Table.{StandFew};
ghost use Rattle.crp_follow.specs.Views.{bay_followed};
ghost use Rattle.crp_loading.specs.Faults.{IsFirst};
ghost use Rattle.crp_commands.specs.Follow.{loading_faults, table_for};

use crp_follow::{Followed, summary_text, table_text};
use crp_loading::{LoadingFault, load_summary, load_table};
use crp_movins::Orders;
use crp_order::Sequence;
use std::alloc::{AllocError, Global};

// The table of the moves of a report that is followed: in the order of the ship, where there is one, or else bay by bay.
fn table_of_moves(
    alloc: Global,
    followed: &Followed,
    ship: &Option<(Orders, Sequence)>,
) -> Result<Vec<u8>, AllocError>
    requires { AllByRecursion StandFew (map bay_followed followed.now.bays.items) }
    ensures { IfOk result (λ text. text.items ≡ table_for false ship.now (map bay_followed followed.now.bays.items)) }
{
    match ship {
        Some((orders, sequence)) => load_table(alloc, followed, orders, sequence),
        None => table_text(alloc, followed),
    }
}

// The table of its bays: with what no move takes of each, where there is a ship.
fn table_of_bays(
    alloc: Global,
    followed: &Followed,
    ship: &Option<(Orders, Sequence)>,
) -> Result<Vec<u8>, AllocError>
    ensures { IfOk result (λ text. text.items ≡ table_for true ship.now (map bay_followed followed.now.bays.items)) }
{
    match ship {
        Some((orders, sequence)) => load_summary(alloc, followed, orders, sequence),
        None => summary_text(alloc, followed),
    }
}

/// The table of a report that is followed: that of its bays, where this is asked for, or else that of its moves.
pub(crate) fn table_for(
    alloc: Global,
    followed: &Followed,
    ship: &Option<(Orders, Sequence)>,
    summary: bool,
) -> Result<Vec<u8>, AllocError>
    requires { AllByRecursion StandFew (map bay_followed followed.now.bays.items) }
    ensures { IfOk result (λ text. text.items ≡ table_for summary ship.now (map bay_followed followed.now.bays.items)) }
{
    if summary {
        return table_of_bays(alloc, followed, ship);
    }
    table_of_moves(alloc, followed, ship)
}

/// Whether the takes of a report that is followed load the ship in its order, where there is one, or the first fault.
pub(crate) fn check_takes(
    alloc: Global,
    followed: &Followed,
    ship: &Option<(Orders, Sequence)>,
) -> Result<(), LoadingFault>
    ensures right { OnOk result (loading_faults ship.now (map bay_followed followed.now.bays.items) ≡ []) }
    ensures wrong { IfErr result (λ fault. (fault ≡ LoadingFault.Memory) ⊎ IsFirst (loading_faults ship.now (map bay_followed followed.now.bays.items)) fault) }
{
    match ship {
        Some((orders, sequence)) => crp_loading::check_takes(alloc, followed, orders, sequence),
        None => Ok(()),
    }
}
