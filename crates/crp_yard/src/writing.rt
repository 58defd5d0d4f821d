//! Writes a yard list.

ghost use Rattle.std.specs.Prelude.{◌≡◌, ◌≤◌, ◌∷◌, ◌++◌, [], All, IfOk, OnOk, IsErrOf, length, map};
ghost use Rattle.std.specs.Io.KnownBytes.{Appends};
ghost use Rattle.csv.specs.Writing.{default_writer, row_text};
ghost use Rattle.crp_plan.specs.Devices.{AppendsPart, TransfersAlone};
ghost use Rattle.crp_yard.specs.Written.{text_written_by, IsBetweenRecords, WritesRecords};
ghost use Rattle.crp_yard.specs.Text.{header, fields_at, records_of_stack, records_of_rows, text_of_records, yard_text};

use crate::containers::Containers;
use crate::yard::Yard;
use crp_plan::{BayName, Container, Sink, WriteFault, write_text};
use csv::{Writer, WriterBuilder};
use itoa::Buffer;
use std::alloc::{AllocError, Global};
use std::marker::Model;

/// Writes a record.
fn push_record(writer: &mut Writer<Vec<u8>>, fields: &[&[u8]]) -> Result<(), AllocError>
    requires { IsBetweenRecords writer.old }
    ensures { OnOk result (WritesRecords writer.old writer.new (row_text default_writer (map (λ field. field.now) fields.now))) }
{
    match writer.write_fields(fields) {
        Ok(()) => Ok(()),
        Err(_) => Err(AllocError),
    }
}

fn push_container(
    writer: &mut Writer<Vec<u8>>,
    bay: &BayName,
    row: u8,
    tier: u8,
    container: &Container,
) -> Result<(), AllocError>
    requires { IsBetweenRecords writer.old }
    ensures { OnOk result (WritesRecords writer.old writer.new (row_text default_writer (fields_at bay.now row tier container.now))) }
{
    let (mut bays, mut rows, mut tiers) = (Buffer::new(), Buffer::new(), Buffer::new());
    let fields = [
        bay.block(),
        bays.format(bay.bay()).as_bytes(),
        rows.format(row).as_bytes(),
        tiers.format(tier).as_bytes(),
        container.bytes(),
    ];
    push_record(writer, fields.as_slice())
}

fn push_stack(
    writer: &mut Writer<Vec<u8>>,
    bay: &BayName,
    row: u8,
    stack: &[Container],
) -> Result<(), AllocError>
    requires between { IsBetweenRecords writer.old }
    requires tiers { length stack.now ≤ 8 }
    ensures { OnOk result (WritesRecords writer.old writer.new (text_of_records (records_of_stack bay.now row 1 stack.now))) }
{
    for (i, container) in stack.iter().enumerate() {
        push_container(writer, bay, row, i as u8 + 1, container)?;
    }
    Ok(())
}

/// A yard list that is being written. Contracts see its text so far.
#[derive(Drop)]
pub struct YardList {
    writer: Writer<Vec<u8>>,
}

impl Model for YardList {
    ghost use Rattle.std.specs.Prelude.{ℕ, List};
    ghost use Rattle.crp_yard.specs.Written.{text_written_by, IsBetweenRecords};

    ghost Value = { List ℕ };

    ghost view = { λ a. text_written_by a.writer };

    ghost invariant = { λ a. IsBetweenRecords a.writer };
}

impl YardList {
    /// A list with its header.
    pub fn new(alloc: Global) -> Result<YardList, AllocError>
        ensures { IfOk result (λ list. list ≡ text_of_records (header ∷ [])) }
    {
        let mut writer = new_writer(alloc);
        let header: [&[u8]; 5] = [b"block", b"bay", b"row", b"tier", b"container"];
        push_record(&mut writer, header.as_slice())?;
        Ok(YardList { writer })
    }

    /// The list and the records of a row, whose containers stand there from bottom to top.
    pub fn push(self, bay: &BayName, row: u8, stack: &[Container]) -> Result<YardList, AllocError>
        requires { length stack.now ≤ 8 }
        ensures { IfOk result (λ list. list ≡ self ++ text_of_records (records_of_stack bay.now row 1 stack.now)) }
    {
        let mut writer = self.writer;
        push_stack(&mut writer, bay, row, stack)?;
        Ok(YardList { writer })
    }

    /// Its text.
    pub fn text(self) -> Result<Vec<u8>, AllocError>
        ensures { IfOk result (λ text. text.items ≡ self) }
    {
        match self.writer.into_inner() {
            Ok(text) => Ok(text),
            Err(_) => Err(AllocError),
        }
    }
}

// The list and the records of the rows of a bay.
fn push_bay(list: YardList, bay: &BayName, stacks: &[Containers]) -> Result<YardList, AllocError>
    requires rows { length stacks.now ≤ 12 }
    requires tiers { All (λ stack. length stack ≤ 8) stacks.now }
    ensures { IfOk result (λ longer. longer ≡ list ++ text_of_records (records_of_rows bay.now 1 stacks.now)) }
{
    let mut longer = list;
    for (i, stack) in stacks.iter().enumerate() {
        longer = longer.push(bay, i as u8 + 1, stack.list())?;
    }
    Ok(longer)
}

/// csv's writer, with its defaults, in front of an empty list.
fn new_writer(alloc: Global) -> Writer<Vec<u8>>
    ensures between { IsBetweenRecords result }
    ensures empty { text_written_by result ≡ [] }
{
    WriterBuilder::new().from_writer(Vec::new(alloc))
}

/// The text of a yard: the header, and then a record for each container, by bay in first-seen order, row
/// and tier.
pub fn yard_text(alloc: Global, yard: &Yard) -> Result<Vec<u8>, AllocError>
    ensures { IfOk result (λ text. text.items ≡ yard_text yard.now) }
{
    let mut list = YardList::new(alloc)?;
    for i in 0..yard.count() {
        let (bay, stacks) = yard.bay(i);
        list = push_bay(list, bay, stacks)?;
    }
    list.text()
}

/// Writes the text of a yard to a sink. An interrupted call is tried again, at most 1,000 times.
pub fn write_yard<W: Sink>(alloc: Global, sink: &mut W, yard: &Yard) -> Result<(), WriteFault>
    ensures all { OnOk result (Appends (W.contents sink.old) (W.contents sink.new) (yard_text yard.now)) }
    ensures part { IsErrOf result WriteFault.Failed → AppendsPart (W.contents sink.old) (W.contents sink.new) (yard_text yard.now) }
    ensures memory { IsErrOf result WriteFault.Memory → sink.new ≡ sink.old }
    ensures done { OnOk result (TransfersAlone 0 (W.failures sink.old) (W.failures sink.new) (W.interrupted sink.old) (W.interrupted sink.new)) }
    ensures gave_up { IsErrOf result WriteFault.Failed → TransfersAlone 1 (W.failures sink.old) (W.failures sink.new) (W.interrupted sink.old) (W.interrupted sink.new) }
{
    let text = yard_text(alloc, yard)?;
    write_text(sink, &text)?;
    Ok(())
}
