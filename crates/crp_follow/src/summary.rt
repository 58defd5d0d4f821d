//! The table of the bays, for spreadsheets.
ghost use Rattle.std.specs.Prelude.{◌≡◌, ◌++◌, map, IfOk};
ghost use Rattle.crp_said.specs.Said.{count_said};
ghost use Rattle.crp_follow.specs.Summary.{verdict_of, lower_of, cause_of, summary_header, summary_fields, summary_text};
ghost use Rattle.crp_follow.specs.Table.{standing, record_text};
ghost use Rattle.crp_follow.specs.Views.{bay_followed};

use crate::bays::relocations_of;
use crate::followed::{Followed, FollowedBay};
use crate::row::Row;
use crate::table::{Table, number_field};
use crp_said::{Said, SaidCause};
use itoa::Buffer;
use std::alloc::{AllocError, Global};

/// The verdict of the line of a bay, without its numbers.
pub(crate) fn verdict_of(said: &Said) -> &[u8]
    ensures { result.now ≡ verdict_of said.now }
{
    match said {
        Said::Optimal(_) => b"optimal",
        Said::First(_) => b"optimal first",
        Said::NoPlan => b"no plan",
        Said::Between { .. } => b"between",
        Said::Outside(_) => b"outside the rule",
    }
}

/// The number that no plan has fewer relocations than, if one is said.
fn lower_of(said: Said) -> Option<u64>
    ensures { result ≡ lower_of said }
{
    match said {
        Said::Optimal(count) | Said::First(count) => Some(u64::from(count)),
        Said::NoPlan | Said::Outside(_) => None,
        Said::Between { lower, .. } => Some(u64::from(lower)),
    }
}

/// The relocations of the plan that is said to be printed, if one is.
fn upper_of(said: Said) -> Option<u64>
    ensures { result ≡ count_said said }
{
    match said.count() {
        Some(count) => Some(u64::from(count)),
        None => None,
    }
}

/// Why the bay is left open, if it is.
fn cause_of(said: &Said) -> &[u8]
    ensures { result.now ≡ cause_of said.now }
{
    let cause = match said {
        Said::Between { cause, .. } => *cause,
        Said::Outside(_) => SaidCause::Edited,
        Said::Optimal(_) | Said::First(_) | Said::NoPlan => return b"",
    };
    match cause {
        SaidCause::Budget => b"budget",
        SaidCause::Memory => b"memory",
        SaidCause::Time => b"time",
        SaidCause::Edited => b"edited",
    }
}

/// How many containers stand in any rows.
fn standing(rows: &[Row]) -> u128
    ensures { result ≡ standing rows.now }
{
    let mut count: u128 = 0;
    for row in rows {
        count += row.containers().len() as u128;
    }
    count
}

/// A table with the header of the table of the bays, and with columns of these names behind its own.
pub fn summary_table(alloc: Global, more: &[&[u8]]) -> Result<Table, AllocError>
    ensures { IfOk result (λ table. table ≡ record_text (summary_header ++ map (λ name. name.now) more.now)) }
{
    let header: [&[u8]; 10] = [
        b"block",
        b"bay",
        b"verdict",
        b"lower",
        b"upper",
        b"cause",
        b"moves",
        b"relocations",
        b"takes",
        b"left",
    ];
    Table::empty(alloc).push_record(alloc, header.as_slice(), more)
}

/// The table and the record of a bay, with these fields behind its own.
pub fn push_summary(
    alloc: Global,
    table: Table,
    bay: &FollowedBay,
    more: &[&[u8]],
) -> Result<Table, AllocError>
    ensures { IfOk result (λ longer. longer ≡ table ++ record_text (summary_fields (bay_followed bay.now) ++ map (λ field. field.now) more.now)) }
{
    let (mut bays, mut lowers, mut uppers) = (Buffer::new(), Buffer::new(), Buffer::new());
    let (mut counts, mut shifts, mut takes, mut lefts) = (
        Buffer::new(),
        Buffer::new(),
        Buffer::new(),
        Buffer::new(),
    );
    let stated = &bay.stated;
    let moves = stated.moves.len();
    let relocations = relocations_of(&stated.moves);
    let fields = [
        stated.bay.block(),
        bays.format(stated.bay.bay()).as_bytes(),
        verdict_of(&stated.said),
        number_field(&mut lowers, lower_of(stated.said)),
        number_field(&mut uppers, upper_of(stated.said)),
        cause_of(&stated.said),
        counts.format(moves).as_bytes(),
        shifts.format(relocations).as_bytes(),
        takes.format(moves - relocations).as_bytes(),
        lefts.format(standing(&bay.after)).as_bytes(),
    ];
    table.push_record(alloc, fields.as_slice(), more)
}

/// The table of the bays: the header, and then a record for each bay in the order of the report.
pub fn summary_text(alloc: Global, followed: &Followed) -> Result<Vec<u8>, AllocError>
    ensures { IfOk result (λ text. text.items ≡ summary_text (map bay_followed followed.now.bays.items)) }
{
    let mut table = summary_table(alloc, [].as_slice())?;
    for bay in &followed.bays {
        table = push_summary(alloc, table, bay, [].as_slice())?;
    }
    table.text()
}
