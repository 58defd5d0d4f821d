//! What the table says of the moves.
ghost use Rattle.std.specs.Prelude.{◌≡◌, ◌≤◌, ◌++◌, map, IfOk, OnOk};
ghost use Rattle.std.specs.List.{AllByRecursion};
ghost use Rattle.crp_follow.specs.Table.{standing, columns_at, columns_in, columns_of, StandFew};
ghost use Rattle.crp_follow.specs.Views.{bay_followed, columns_as, taken_as};

use crate::followed::FollowedBay;
use crate::moving::container_of;
use crate::row::Row;
use crate::taking::{Taken, leaves_at, left_behind, next_to_leave, takes_of};
use crp_plan::{BayName, Container};
use crp_said::SaidMove;
use std::alloc::{AllocError, Global};

/// What the table says of a move: its bay and its step there, from 1, the move, the step at which its container leaves the bay, if it
/// does, the container that leaves at this step or as the next one, and how many containers stand in the bay after the move.
#[derive(Clone, Copy)]
pub struct Columns<'a> {
    pub bay: &'a BayName,
    pub step: u64,
    pub said: &'a SaidMove,
    pub leaves: Option<u64>,
    pub next: Option<&'a Container>,
    pub left: u64,
}

/// How many containers stand in the rows.
pub fn standing(rows: &[Row]) -> u64
    requires { standing rows.now ≤ 96 }
    ensures { result ≡ standing rows.now }
{
    let mut count: u64 = 0;
    for row in rows {
        count += row.containers().len() as u64;
    }
    count
}

/// The columns of the move at this step, where these leave the bay, of so many containers.
fn columns_at<'a>(
    bay: &'a BayName,
    count: u64,
    takes: &[Taken<'a>],
    step: u64,
    said: &'a SaidMove,
) -> Columns<'a>
    ensures { columns_as result ≡ columns_at bay.now count (map taken_as takes.now) step said.now }
{
    Columns {
        bay,
        step,
        said,
        leaves: leaves_at(takes, container_of(said).bytes()),
        next: next_to_leave(takes, step),
        left: left_behind(count, takes, step),
    }
}

/// Adds those of the moves of a bay.
#[tactic(auto, using(crate::proofs::TableSteps::move_more))]
fn add_bay<'a>(
    alloc: Global,
    columns: &mut Vec<Columns<'a>>,
    bay: &'a FollowedBay,
) -> Result<(), AllocError>
    requires { StandFew (bay_followed bay.now) }
    ensures { OnOk result (map columns_as columns.new.items ≡ map columns_as columns.old.items ++ columns_in (bay_followed bay.now)) }
{
    let takes = takes_of(alloc, &bay.stated.moves)?;
    let count = standing(&bay.start);
    for (i, stated) in bay.stated.moves.iter().enumerate() {
        let next = columns_at(&bay.stated.bay, count, &takes, i as u64 + 1, &stated.said);
        columns.push(next)?;
    }
    Ok(())
}

/// What the table says of the moves, bay by bay in the order of the report.
pub fn columns_of<'a>(
    alloc: Global,
    bays: &'a [FollowedBay],
) -> Result<Vec<Columns<'a>>, AllocError>
    requires { AllByRecursion StandFew (map bay_followed bays.now) }
    ensures { IfOk result (λ columns. map columns_as columns.items ≡ columns_of (map bay_followed bays.now)) }
{
    let mut columns = Vec::new(alloc);
    for bay in bays {
        add_bay(alloc, &mut columns, bay)?;
    }
    Ok(columns)
}
