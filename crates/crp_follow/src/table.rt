//! The table of the moves.
ghost use Rattle.std.specs.Prelude.{◌≡◌, ◌++◌, [], map, option_map, IfOk, OnOk, IsErrOf};
ghost use Rattle.std.specs.List.{AllByRecursion};
ghost use Rattle.std.specs.Io.KnownBytes.{Appends};
ghost use Rattle.crp_plan.specs.Devices.{AppendsPart, TransfersAlone};
ghost use Rattle.crp_follow.specs.Table.{header, number_field, container_field, word_of, to_of, fields_of, record_text, table_text, StandFew};
ghost use Rattle.crp_follow.specs.Views.{bay_followed, columns_as};

use crate::columns::{Columns, columns_of};
use crate::followed::Followed;
use crate::moving::{container_of, from_of};
use crp_plan::{Container, Sink, WriteFault, write_text};
use crp_said::{Place, SaidMove};
use csv::{Writer, WriterBuilder};
use itoa::Buffer;
use std::alloc::{AllocError, Global};
use std::marker::Model;

/// A number in digits, or nothing.
pub fn number_field(buffer: &mut Buffer, number: Option<u64>) -> &[u8]
    ensures { result.now ≡ number_field number }
{
    match number {
        Some(number) => buffer.format(number).as_bytes(),
        None => b"",
    }
}

/// The name of a container, or nothing.
fn container_field(container: Option<&Container>) -> &[u8]
    ensures { result.now ≡ container_field (option_map (λ c. c.now) container.entry) }
{
    match container {
        Some(container) => container.bytes(),
        None => b"",
    }
}

/// The word of a move.
fn word_of(said: &SaidMove) -> &[u8]
    ensures { result.now ≡ word_of said.now }
{
    match said {
        SaidMove::Shift { .. } => b"shift",
        SaidMove::Take { .. } => b"take",
    }
}

/// Where a move sets its container down, if it does.
fn to_of(said: &SaidMove) -> Option<Place>
    ensures { result ≡ to_of said.now }
{
    match said {
        SaidMove::Shift { to, .. } => Some(*to),
        SaidMove::Take { .. } => None,
    }
}

/// The row of a place, if there is one.
fn row_of(place: Option<Place>) -> Option<u64>
    ensures { result ≡ option_map (λ p. p.row) place }
{
    match place {
        Some(place) => Some(u64::from(place.row)),
        None => None,
    }
}

/// Its tier.
fn tier_of(place: Option<Place>) -> Option<u64>
    ensures { result ≡ option_map (λ p. p.tier) place }
{
    match place {
        Some(place) => Some(u64::from(place.tier)),
        None => None,
    }
}

/// A table of moves that is being written. Contracts see its text so far.
#[derive(Drop)]
pub struct Table {
    writer: Writer<Vec<u8>>,
}

impl Model for Table {
    ghost use Rattle.std.specs.Prelude.{ℕ, List};
    ghost use Rattle.crp_yard.specs.Written.{text_written_by, IsBetweenRecords};

    ghost Value = { List ℕ };

    ghost view = { λ a. text_written_by a.writer };

    ghost invariant = { λ a. IsBetweenRecords a.writer };
}

impl Table {
    /// A table without a record.
    pub(crate) fn empty(alloc: Global) -> Table
        ensures { result ≡ [] }
    {
        Table {
            writer: WriterBuilder::new().from_writer(Vec::new(alloc)),
        }
    }

    /// A table with the header of the table of the moves, and with columns of these names behind its own.
    pub fn new(alloc: Global, more: &[&[u8]]) -> Result<Table, AllocError>
        ensures { IfOk result (λ table. table ≡ record_text (header ++ map (λ name. name.now) more.now)) }
    {
        let header: [&[u8]; 12] = [
            b"block",
            b"bay",
            b"step",
            b"move",
            b"container",
            b"from_row",
            b"from_tier",
            b"to_row",
            b"to_tier",
            b"leaves",
            b"for",
            b"left",
        ];
        Table::empty(alloc).push_record(alloc, header.as_slice(), more)
    }

    /// The table and the record of a move, with these fields behind its own.
    pub fn push(self, alloc: Global, columns: &Columns, more: &[&[u8]]) -> Result<Table, AllocError>
        ensures { IfOk result (λ table. table ≡ self ++ record_text (fields_of (columns_as columns.now) ++ map (λ field. field.now) more.now)) }
    {
        let (mut bays, mut steps, mut rows, mut tiers) = (
            Buffer::new(),
            Buffer::new(),
            Buffer::new(),
            Buffer::new(),
        );
        let (mut to_rows, mut to_tiers, mut leaving, mut lefts) = (
            Buffer::new(),
            Buffer::new(),
            Buffer::new(),
            Buffer::new(),
        );
        let said = columns.said;
        let (from, to) = (from_of(said), to_of(said));
        let fields = [
            columns.bay.block(),
            bays.format(columns.bay.bay()).as_bytes(),
            steps.format(columns.step).as_bytes(),
            word_of(said),
            container_of(said).bytes(),
            rows.format(from.row).as_bytes(),
            tiers.format(from.tier).as_bytes(),
            number_field(&mut to_rows, row_of(to)),
            number_field(&mut to_tiers, tier_of(to)),
            number_field(&mut leaving, columns.leaves),
            container_field(columns.next),
            lefts.format(columns.left).as_bytes(),
        ];
        self.push_record(alloc, fields.as_slice(), more)
    }

    /// The table and the record of these fields, and of others behind them.
    pub(crate) fn push_record<'a>(
        self,
        alloc: Global,
        fields: &[&'a [u8]],
        more: &[&'a [u8]],
    ) -> Result<Table, AllocError>
        ensures { IfOk result (λ table. table ≡ self ++ record_text (map (λ field. field.now) fields.now ++ map (λ field. field.now) more.now)) }
    {
        let mut all = Vec::new(alloc);
        all.extend_from_slice(fields)?;
        all.extend_from_slice(more)?;
        let mut writer = self.writer;
        match writer.write_fields(&all) {
            Ok(()) => Ok(Table { writer }),
            Err(_) => Err(AllocError),
        }
    }

    /// Its text.
    pub fn text(self) -> Result<Vec<u8>, AllocError>
        ensures { IfOk result (λ text. text.items ≡ self) }
    {
        match self.writer.into_inner() {
            Ok(text) => Ok(text),
            Err(_) => Err(AllocError),
        }
    }
}

/// The table of the moves: the header, and then a record for each move, bay by bay in the order of the report.
pub fn table_text(alloc: Global, followed: &Followed) -> Result<Vec<u8>, AllocError>
    requires { AllByRecursion StandFew (map bay_followed followed.now.bays.items) }
    ensures { IfOk result (λ text. text.items ≡ table_text (map bay_followed followed.now.bays.items)) }
{
    let moves = columns_of(alloc, &followed.bays)?;
    let mut table = Table::new(alloc, [].as_slice())?;
    for columns in &moves {
        table = table.push(alloc, columns, [].as_slice())?;
    }
    table.text()
}

/// Writes the table of the moves to a sink. An interrupted call is tried again, at most 1,000 times.
pub fn write_table<W: Sink>(
    alloc: Global,
    sink: &mut W,
    followed: &Followed,
) -> Result<(), WriteFault>
    requires { AllByRecursion StandFew (map bay_followed followed.now.bays.items) }
    ensures all { OnOk result (Appends (W.contents sink.old) (W.contents sink.new) (table_text (map bay_followed followed.now.bays.items))) }
    ensures part { IsErrOf result WriteFault.Failed → AppendsPart (W.contents sink.old) (W.contents sink.new) (table_text (map bay_followed followed.now.bays.items)) }
    ensures memory { IsErrOf result WriteFault.Memory → sink.new ≡ sink.old }
    ensures done { OnOk result (TransfersAlone 0 (W.failures sink.old) (W.failures sink.new) (W.interrupted sink.old) (W.interrupted sink.new)) }
    ensures gave_up { IsErrOf result WriteFault.Failed → TransfersAlone 1 (W.failures sink.old) (W.failures sink.new) (W.interrupted sink.old) (W.interrupted sink.new) }
{
    let text = table_text(alloc, followed)?;
    write_text(sink, &text)?;
    Ok(())
}
