//! Bays of a yard, and what a report states of them.
ghost use Rattle.std.specs.Prelude.{◌≡◌, ◌<◌, ◌≤◌, ◌↔◌, ◌++◌, ◌∷◌, [], false, List, Some, None, length, map, slice_get, option_map, count_by, IfOk, OnOk, IfSome, IfNone, IsTrue};
ghost use Rattle.std.specs.List.{list_any};
ghost use Rattle.crp_plan.specs.BayNames.{same_bay};
ghost use Rattle.crp_sizes.specs.Sizes.{heights_at};
ghost use Rattle.crp_yard.specs.Inventory.{heights_in_bay};
ghost use Rattle.crp_follow.specs.Faults.{rows_in, is_named, is_shift, CountsShifts};
ghost use Rattle.crp_follow.specs.Stated.{BayStated, moves_of};
ghost use Rattle.crp_follow.specs.Views.{bay_stated};

use crate::pushing::add;
use crate::row::Row;
use crate::stated::{StatedBay, StatedMove};
use crp_plan::BayName;
use crp_said::SaidMove;
use crp_yard::Yard;
use indexmap::IndexSet;
use std::alloc::{AllocError, Global};

/// Adds the name of a bay behind names, where it is none of them.
pub(crate) fn add_name(names: &mut IndexSet<BayName>, bay: &BayName) -> Result<(), AllocError>
    requires { list_any (same_bay bay.now) names.old.keys ≡ false }
    ensures { OnOk result (names.new.keys ≡ names.old.keys ++ bay.now ∷ []) }
{
    names.insert(bay.copy())?;
    Ok(())
}

/// The names of the bays of a yard, in their order.
pub(crate) fn names_of_yard(alloc: Global, yard: &Yard) -> Result<IndexSet<BayName>, AllocError>
    ensures { IfOk result (λ names. names.keys ≡ map (λ b. b.0) yard.now.bays) }
{
    let mut names = IndexSet::new(alloc);
    for i in 0..yard.count() {
        add_name(&mut names, yard.name(i))?;
    }
    Ok(names)
}

/// The number of the bay of this name, from 0, if the yard has one. The names are those of its bays.
pub(crate) fn find(yard: &Yard, names: &IndexSet<BayName>, bay: &BayName) -> Option<usize>
    requires { names.now.keys ≡ map (λ b. b.0) yard.now.bays }
    ensures there { IfSome result (λ i. (i < length yard.now.bays) × (heights_in_bay yard.now i ≡ Some (heights_at yard.now.sizes bay.now))
        × (rows_in yard.now bay.now ≡ option_map (λ b. b.1) (slice_get yard.now.bays i))) }
    ensures none { IfNone result (rows_in yard.now bay.now ≡ None) }
{
    names.get_index_of(bay)
}

/// What stands in the rows of a bay.
pub(crate) fn rows_of(alloc: Global, yard: &Yard, bay: usize) -> Result<Vec<Row>, AllocError>
    requires { bay < length yard.now.bays }
    ensures { IfOk result (λ rows. option_map (λ b. b.1) (slice_get yard.now.bays bay) ≡ Some rows.items) }
{
    let heights = yard.heights(bay);
    let mut rows = Vec::new(alloc);
    for i in 0..heights.len() as u8 {
        let row = Row::of(alloc, yard.stack(bay, i + 1))?;
        add(&mut rows, row)?;
    }
    Ok(rows)
}

/// Whether one of the bays has this name, where these are their names.
pub(crate) fn is_named(names: &IndexSet<BayName>, bay: &BayName) -> bool
    ensures { (bays : List BayStated) → names.now.keys ≡ map (λ b. b.bay) bays → result ≡ is_named bays bay.now }
{
    names.contains(bay)
}

/// How many of the moves are relocations.
pub fn relocations_of(moves: &[StatedMove]) -> usize
    ensures value { result ≡ count_by is_shift (moves_of moves.now) }
    ensures few { result ≤ length moves.now }
{
    let mut count: usize = 0;
    for stated in moves {
        if matches!(stated.said, SaidMove::Shift { .. }) {
            count += 1;
        }
    }
    count
}

/// Whether the line of a bay counts the relocations below it.
pub(crate) fn counts_shifts(stated: &StatedBay) -> bool
    ensures { IsTrue result ↔ CountsShifts (bay_stated stated.now) }
{
    match stated.said.count() {
        Some(count) => relocations_of(&stated.moves) == count as usize,
        None => stated.moves.is_empty(),
    }
}
