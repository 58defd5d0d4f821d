//! Following a report over a yard.
ghost use Rattle.std.specs.Prelude.{◌≡◌, ◌⊎◌, List, false, map, IfOk, IfErr, IsErr};
ghost use Rattle.std.specs.List.{AllByRecursion};
ghost use Rattle.crp_said.specs.declared.numbers.Numbers.{Numbers as Counts};
ghost use Rattle.crp_follow.specs.declared.fault.FollowFault.{FollowFault as Fault};
ghost use Rattle.crp_follow.specs.Faults.{is_named, LeadsIn, IsBayFault, IsBaysFault, IsFirstFault};
ghost use Rattle.crp_follow.specs.Followed.{BayFollowed, IsFollowed, AreFollowed};
ghost use Rattle.crp_follow.specs.Stated.{BayStated};
ghost use Rattle.crp_follow.specs.Table.{StandFew};
ghost use Rattle.crp_follow.specs.Views.{bay_stated, bay_followed};

use crate::bays::{add_name, counts_shifts, find, is_named, names_of_yard, rows_of};
use crate::fault::FollowFault;
use crate::followed::{Followed, FollowedBay};
use crate::moving::make_moves;
use crate::pushing::add;
use crate::stated::StatedBay;
use crate::stating::state;
use crp_plan::BayName;
use crp_yard::Yard;
use indexmap::IndexSet;
use std::alloc::Global;

/// Follows the moves of a bay that stands behind bays of these names. The others are those of the bays of the yard.
fn follow_bay(
    alloc: Global,
    yard: &Yard,
    names: &IndexSet<BayName>,
    before: &IndexSet<BayName>,
    stated: StatedBay,
) -> Result<FollowedBay, FollowFault>
    requires { names.now.keys ≡ map (λ b. b.0) yard.now.bays }
    ensures same { IfOk result (λ bay. bay_stated bay.stated ≡ bay_stated stated) }
    ensures fresh { (bays : List BayStated) → before.now.keys ≡ map (λ b. b.bay) bays → IfOk result (λ bay. is_named bays stated.bay ≡ false) }
    ensures leads { IfOk result (λ bay. LeadsIn yard.now (bay_stated stated) bay.start.items bay.after.items) }
    ensures few { IfOk result (λ bay. StandFew (bay_followed bay)) }
    ensures wrong { (bays : List BayStated) → before.now.keys ≡ map (λ b. b.bay) bays
        → IfErr result (λ fault. (fault ≡ FollowFault.Memory) ⊎ IsBayFault yard.now bays (bay_stated stated) fault) }
{
    let line = stated.line;
    let Some(bay) = find(yard, names, &stated.bay) else {
        return Err(FollowFault::NoBay { line });
    };
    if is_named(before, &stated.bay) {
        return Err(FollowFault::Again { line });
    }
    if !counts_shifts(&stated) {
        return Err(FollowFault::Relocations { line });
    }
    let start = rows_of(alloc, yard, bay)?;
    let mut after = rows_of(alloc, yard, bay)?;
    make_moves(yard.heights(bay), &mut after, &stated.moves)?;
    Ok(FollowedBay {
        stated,
        start,
        after,
    })
}

/// Follows the moves of bays.
fn follow_bays(
    alloc: Global,
    yard: &Yard,
    bays: Vec<StatedBay>,
) -> Result<Vec<FollowedBay>, FollowFault>
    ensures followed { IfOk result (λ followed. AreFollowed yard.now (map bay_stated bays.items) (map bay_followed followed.items)) }
    ensures few { IfOk result (λ followed. AllByRecursion StandFew (map bay_followed followed.items)) }
    ensures wrong { IfErr result (λ fault. (fault ≡ FollowFault.Memory) ⊎ IsBaysFault yard.now (map bay_stated bays.items) fault) }
{
    let names = names_of_yard(alloc, yard)?;
    let mut before = IndexSet::new(alloc);
    let mut followed = Vec::new(alloc);
    for stated in bays {
        let bay = follow_bay(alloc, yard, &names, &before, stated)?;
        add_name(&mut before, &bay.stated.bay)?;
        add(&mut followed, bay)?;
    }
    Ok(followed)
}

/// Follows a report over a yard, whoever wrote it: its bays with their moves, and what stands in them before and after, exactly where
/// it is a report of bays of the yard whose moves the crane can make; else the first fault. Memory may run out in place of either.
/// The report may begin with a byte order mark, its lines may end with CR LF, and empty lines are passed over, and counted.
pub fn follow(alloc: Global, yard: &Yard, report: &[u8]) -> Result<Followed, FollowFault>
    ensures followed { IfOk result (λ followed. IsFollowed yard.now report.now followed.numbers (map bay_followed followed.bays.items)) }
    ensures few { IfOk result (λ followed. AllByRecursion StandFew (map bay_followed followed.bays.items)) }
    ensures refused { IfErr result (λ fault. (fault ≡ FollowFault.Memory) ⊎ IsFirstFault yard.now report.now fault) }
    ensures accepts { (numbers : Counts) (bays : List BayFollowed) → IsFollowed yard.now report.now numbers bays
        → IfErr result (λ fault. fault ≡ FollowFault.Memory) }
    ensures refuses { (fault : Fault) → IsFirstFault yard.now report.now fault → IsErr result }
{
    let (numbers, bays) = state(alloc, report)?;
    let bays = follow_bays(alloc, yard, bays)?;
    Ok(Followed { numbers, bays })
}
