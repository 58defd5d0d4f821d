//! The yard as it stands when moves of a report were made.
ghost use Rattle.std.specs.Prelude.{◌≡◌, ◌++◌, ◌<◌, ◌≤◌, List, All, map, take, length, slice_get, IfOk, IfSome};
ghost use Rattle.std.specs.List.{IsDistinct};
ghost use Rattle.crp_plan.specs.BayNames.{same_bay};
ghost use Rattle.crp_sizes.specs.Sizes.{heights_at};
ghost use Rattle.crp_yard.specs.Text.{records_of_rows, text_of_records};
ghost use Rattle.crp_follow.specs.Crane.{Stack, Leads};
ghost use Rattle.crp_follow.specs.Stated.{BayStated, moves_of};
ghost use Rattle.crp_follow.specs.Followed.{AreFollowed};
ghost use Rattle.crp_follow.specs.Behind.{first_moves, all_moves, made_in, IsListBehind};
ghost use Rattle.crp_follow.specs.Views.{bay_followed};

use crate::bays::{add_name, rows_of};
use crate::fault::FollowFault;
use crate::followed::{Followed, FollowedBay};
use crate::moving::make_moves;
use crate::row::Row;
use crate::stated::StatedMove;
use crp_plan::BayName;
use crp_yard::{Yard, YardList};
use indexmap::IndexSet;
use std::alloc::{AllocError, Global};

/// How many moves each bay of a report has.
pub fn move_counts(alloc: Global, followed: &Followed) -> Result<Vec<usize>, AllocError>
    ensures { IfOk result (λ counts. first_moves counts.items (map bay_followed followed.now.bays.items) ≡ all_moves (map bay_followed followed.now.bays.items)) }
{
    let mut counts = Vec::new(alloc);
    for bay in &followed.bays {
        counts.push(bay.stated.moves.len())?;
    }
    Ok(counts)
}

// The first of these moves, so many.
fn first_of(moves: &[StatedMove], count: usize) -> &[StatedMove]
    ensures { result.now ≡ take count moves.now }
{
    match moves.get(..count) {
        Some(first) => first,
        None => moves,
    }
}

/// The names of bays that are followed, in their order.
pub(crate) fn names_of(alloc: Global, bays: &[FollowedBay]) -> Result<IndexSet<BayName>, AllocError>
    requires { IsDistinct same_bay (map (λ b. b.stated.bay) bays.now) }
    ensures { IfOk result (λ names. names.keys ≡ map (λ b. b.stated.bay) bays.now) }
{
    let mut names = IndexSet::new(alloc);
    for bay in bays {
        add_name(&mut names, &bay.stated.bay)?;
    }
    Ok(names)
}

// Those of the first moves of each bay, as many as are counted, that are made in the bay of this name. The names are those of the bays.
fn made_in<'a>(
    bays: &'a [FollowedBay],
    names: &IndexSet<BayName>,
    counts: &[usize],
    name: &BayName,
) -> &'a [StatedMove]
    requires { names.now.keys ≡ map (λ b. b.stated.bay) bays.now }
    ensures { moves_of result.now ≡ made_in (first_moves counts.now (map bay_followed bays.now)) name.now }
{
    let none: &[StatedMove] = &[];
    let Some(i) = names.get_index_of(name) else {
        return none;
    };
    match counts.get(i) {
        Some(count) => first_of(&bays[i].stated.moves, *count),
        None => none,
    }
}

// The fault of moves that can be made: no memory is left.
fn out_of_memory(fault: FollowFault) -> AllocError
    requires { fault ≡ FollowFault.Memory }
{
    match fault {
        FollowFault::Memory => AllocError,
        _ => unreachable!(),
    }
}

// What stands in the rows of a bay when moves were made that the crane can make.
fn rows_behind(
    alloc: Global,
    yard: &Yard,
    bay: usize,
    moves: &[StatedMove],
) -> Result<Vec<Row>, AllocError>
    requires there { bay < length yard.now.bays }
    requires can { IfSome (slice_get yard.now.bays bay) (λ b. (after : List Stack) × Leads (heights_at yard.now.sizes b.0) b.1 (moves_of moves.now) after) }
    ensures { IfOk result (λ rows. IfSome (slice_get yard.now.bays bay) (λ b. Leads (heights_at yard.now.sizes b.0) b.1 (moves_of moves.now) rows.items)) }
{
    let mut rows = rows_of(alloc, yard, bay)?;
    match make_moves(yard.heights(bay), &mut rows, moves) {
        Ok(()) => Ok(rows),
        Err(fault) => Err(out_of_memory(fault)),
    }
}

// The list, and the records of the rows of a bay.
fn push_rows(list: YardList, bay: &BayName, rows: &[Row]) -> Result<YardList, AllocError>
    requires rows { length rows.now ≤ 12 }
    requires tiers { All (λ row. length row ≤ 8) rows.now }
    ensures { IfOk result (λ longer. longer ≡ list ++ text_of_records (records_of_rows bay.now 1 rows.now)) }
{
    let mut longer = list;
    for (i, row) in rows.iter().enumerate() {
        longer = longer.push(bay, i as u8 + 1, row.containers())?;
    }
    Ok(longer)
}

/// The list of the yard as it stands when as many of the first moves of each bay were made as are counted.
pub fn list_behind(
    alloc: Global,
    yard: &Yard,
    followed: &Followed,
    counts: &[usize],
) -> Result<Vec<u8>, AllocError>
    requires { (stated : List BayStated) × AreFollowed yard.now stated (map bay_followed followed.now.bays.items) }
    ensures { IfOk result (λ text. IsListBehind yard.now (first_moves counts.now (map bay_followed followed.now.bays.items)) text.items) }
{
    let names = names_of(alloc, &followed.bays)?;
    let mut list = YardList::new(alloc)?;
    for i in 0..yard.count() {
        let name = yard.name(i);
        let moves = made_in(&followed.bays, &names, counts, name);
        let rows = rows_behind(alloc, yard, i, moves)?;
        list = push_rows(list, name, &rows)?;
    }
    list.text()
}
