//! The table of the bays of two reports of one yard, for spreadsheets.
ghost use Rattle.std.specs.Prelude.{◌≡◌, ◌++◌, ◌∷◌, [], ℕ, List, map, option_map, IfOk};
ghost use Rattle.std.specs.List.{IsDistinct};
ghost use Rattle.crp_plan.specs.BayNames.{same_bay};
ghost use Rattle.crp_yard.specs.Inventory.{Inventory};
ghost use Rattle.crp_yard.specs.Text.{text_of_records};
ghost use Rattle.crp_follow.specs.Compare.{bay_named, compare_text, compared_fields, difference_field, fields_beside, name_fields, plan_relocations, second_alone, second_alone_fields, second_header};
ghost use Rattle.crp_follow.specs.Followed.{IsFollowed};
ghost use Rattle.crp_follow.specs.Summary.{summary_fields};
ghost use Rattle.crp_follow.specs.Table.{record_text};
ghost use Rattle.crp_follow.specs.Views.{bay_followed};

use crate::bays::relocations_of;
use crate::behind::names_of;
use crate::followed::{Followed, FollowedBay};
use crate::summary::{push_summary, summary_table, verdict_of};
use crate::table::Table;
use crp_plan::BayName;
use indexmap::IndexSet;
use itoa::Buffer;
use std::alloc::{AllocError, Global};

/// The bay of this name, if one of these has it. The names are theirs.
fn bay_named<'a>(
    bays: &'a [FollowedBay],
    names: &IndexSet<BayName>,
    name: &BayName,
) -> Option<&'a FollowedBay>
    requires { names.now.keys ≡ map (λ b. b.stated.bay) bays.now }
    ensures { option_map (λ b. bay_followed b.now) result ≡ bay_named (map bay_followed bays.now) name.now }
{
    match names.get_index_of(name) {
        Some(i) => Some(&bays[i]),
        None => None,
    }
}

/// The relocations of the plan of a bay, if its line says that one is printed.
fn plan_relocations(bay: &FollowedBay) -> Option<usize>
    ensures { result ≡ plan_relocations (bay_followed bay.now) }
{
    match bay.stated.said.count() {
        Some(_) => Some(relocations_of(&bay.stated.moves)),
        None => None,
    }
}

/// How many relocations more the second plan has than the first, where there are both.
fn difference_field(buffer: &mut Buffer, first: Option<usize>, second: Option<usize>) -> &[u8]
    ensures { result.now ≡ difference_field first second }
{
    match (first, second) {
        (Some(first), Some(second)) => buffer.format(second as i128 - first as i128).as_bytes(),
        _ => b"",
    }
}

/// The table and the record of a bay of the first report, and of the same bay in the second, if that has it.
fn push_compared(
    alloc: Global,
    table: Table,
    bay: &FollowedBay,
    second: Option<&FollowedBay>,
) -> Result<Table, AllocError>
    ensures { IfOk result (λ longer. longer ≡ table
        ++ record_text (summary_fields (bay_followed bay.now) ++ fields_beside (bay_followed bay.now) (option_map (λ b. bay_followed b.now) second.entry))) }
{
    let Some(second) = second else {
        let none: [&[u8]; 4] = [b"", b"", b"", b""];
        return push_summary(alloc, table, bay, none.as_slice());
    };
    let (mut counts, mut shifts, mut differences) = (Buffer::new(), Buffer::new(), Buffer::new());
    let moves = &second.stated.moves;
    let difference = difference_field(
        &mut differences,
        plan_relocations(bay),
        plan_relocations(second),
    );
    let more = [
        verdict_of(&second.stated.said),
        counts.format(moves.len()).as_bytes(),
        shifts.format(relocations_of(moves)).as_bytes(),
        difference,
    ];
    push_summary(alloc, table, bay, more.as_slice())
}

/// The table and the record of a bay of which nothing is known but its name, with these fields behind.
fn push_name(
    alloc: Global,
    table: Table,
    bay: &BayName,
    more: &[&[u8]],
) -> Result<Table, AllocError>
    ensures { IfOk result (λ longer. longer ≡ table ++ record_text (name_fields bay.now ++ map (λ field. field.now) more.now)) }
{
    let mut bays = Buffer::new();
    let fields = [
        bay.block(),
        bays.format(bay.bay()).as_bytes(),
        b"",
        b"",
        b"",
        b"",
        b"",
        b"",
        b"",
        b"",
    ];
    table.push_record(alloc, fields.as_slice(), more)
}

/// The table and the record of a bay that the second report alone has.
fn push_second(alloc: Global, table: Table, bay: &FollowedBay) -> Result<Table, AllocError>
    ensures { IfOk result (λ longer. longer ≡ table ++ record_text (second_alone_fields (bay_followed bay.now))) }
{
    let (mut counts, mut shifts) = (Buffer::new(), Buffer::new());
    let moves = &bay.stated.moves;
    let more = [
        verdict_of(&bay.stated.said),
        counts.format(moves.len()).as_bytes(),
        shifts.format(relocations_of(moves)).as_bytes(),
        b"",
    ];
    push_name(alloc, table, &bay.stated.bay, more.as_slice())
}

/// The table and the record of a bay of the second report, unless the first report has the bay.
fn push_unless_named(
    alloc: Global,
    table: Table,
    firsts: &[FollowedBay],
    names: &IndexSet<BayName>,
    bay: &FollowedBay,
) -> Result<Table, AllocError>
    requires { names.now.keys ≡ map (λ b. b.stated.bay) firsts.now }
    ensures { IfOk result (λ longer. longer ≡ table
        ++ text_of_records (map second_alone_fields (second_alone (map bay_followed firsts.now) (bay_followed bay.now ∷ [])))) }
{
    match bay_named(firsts, names, &bay.stated.bay) {
        Some(_) => Ok(table),
        None => push_second(alloc, table, bay),
    }
}

/// The table and the records of the bays of the first report.
fn push_firsts(
    alloc: Global,
    table: Table,
    firsts: &[FollowedBay],
    seconds: &[FollowedBay],
) -> Result<Table, AllocError>
    requires { IsDistinct same_bay (map (λ b. b.stated.bay) seconds.now) }
    ensures { IfOk result (λ longer. longer ≡ table
        ++ text_of_records (map (compared_fields (map bay_followed seconds.now)) (map bay_followed firsts.now))) }
{
    let names = names_of(alloc, seconds)?;
    let mut longer = table;
    for bay in firsts {
        let second = bay_named(seconds, &names, &bay.stated.bay);
        longer = push_compared(alloc, longer, bay, second)?;
    }
    Ok(longer)
}

/// The table and the records of the bays that the second report alone has.
fn push_seconds(
    alloc: Global,
    table: Table,
    firsts: &[FollowedBay],
    seconds: &[FollowedBay],
) -> Result<Table, AllocError>
    requires { IsDistinct same_bay (map (λ b. b.stated.bay) firsts.now) }
    ensures { IfOk result (λ longer. longer ≡ table
        ++ text_of_records (map second_alone_fields (second_alone (map bay_followed firsts.now) (map bay_followed seconds.now)))) }
{
    let names = names_of(alloc, firsts)?;
    let mut longer = table;
    for bay in seconds {
        longer = push_unless_named(alloc, longer, firsts, &names, bay)?;
    }
    Ok(longer)
}

/// The table of the bays of two reports: the header, a record for each bay of the first report in its order, with what the second one
/// says of the same bay, and then one for each bay that the second report alone has, in its order.
pub fn compare_text(
    alloc: Global,
    first: &Followed,
    second: &Followed,
) -> Result<Vec<u8>, AllocError>
    requires first { (yard : Inventory) × (report : List ℕ) × IsFollowed yard report first.now.numbers (map bay_followed first.now.bays.items) }
    requires second { (yard : Inventory) × (report : List ℕ) × IsFollowed yard report second.now.numbers (map bay_followed second.now.bays.items) }
    ensures { IfOk result (λ text. text.items ≡ compare_text (map bay_followed first.now.bays.items) (map bay_followed second.now.bays.items)) }
{
    let header: [&[u8]; 4] = [
        b"second_verdict",
        b"second_moves",
        b"second_relocations",
        b"difference",
    ];
    let table = summary_table(alloc, header.as_slice())?;
    let table = push_firsts(alloc, table, &first.bays, &second.bays)?;
    let table = push_seconds(alloc, table, &first.bays, &second.bays)?;
    table.text()
}
