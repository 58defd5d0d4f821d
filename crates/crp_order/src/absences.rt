//! Ordered containers that are not in the yard.

ghost use Rattle.std.specs.Prelude.{◌≡◌, ◌∷◌, ◌++◌, [], IfOk, map, decimal, option_map, unwrap_or};
ghost use Rattle.csv.specs.Writing.{default_writer, row_text};
ghost use Rattle.crp_yard.specs.Text.{text_of_records};
ghost use Rattle.crp_order.specs.BayProblems.{absent_of};
ghost use Rattle.crp_order.specs.SlotDigits.{slot_text};
ghost use Rattle.crp_order.specs.Absences.{header, absent_text};

use crate::digits::slot_digits;
use crate::likeness::{containers_of, first_alike};
use crate::sequences::Sequence;
use crp_movins::Order;
use crp_yard::Yard;
use csv::{Writer, WriterBuilder};
use itoa::Buffer;
use std::alloc::{AllocError, Global};
use std::marker::Model;

/// How many containers of the sequence stand nowhere in the yard.
pub fn absent(yard: &Yard, sequence: &Sequence) -> u32
    ensures { result ≡ absent_of yard.now sequence.now }
{
    let mut absent: u32 = 0;
    for container in sequence.list() {
        if !yard.holds(container.bytes()) {
            absent += 1;
        }
    }
    absent
}

/// A name, or nothing.
fn like_field(like: Option<&[u8]>) -> &[u8]
    ensures { result.now ≡ unwrap_or (option_map (λ other. other.now) like.entry) [] }
{
    match like {
        Some(other) => other,
        None => b"",
    }
}

/// A list of absent containers that is being written. Contracts see its text so far.
#[derive(Drop)]
struct AbsentList {
    writer: Writer<Vec<u8>>,
}

impl Model for AbsentList {
    ghost use Rattle.std.specs.Prelude.{ℕ, List};
    ghost use Rattle.crp_yard.specs.Written.{text_written_by, IsBetweenRecords};

    ghost Value = { List ℕ };

    ghost view = { λ a. text_written_by a.writer };

    ghost invariant = { λ a. IsBetweenRecords a.writer };
}

impl AbsentList {
    /// A list with its header.
    fn new(alloc: Global) -> Result<AbsentList, AllocError>
        ensures { IfOk result (λ list. list ≡ text_of_records (header ∷ [])) }
    {
        let list = AbsentList {
            writer: WriterBuilder::new().from_writer(Vec::new(alloc)),
        };
        let header: [&[u8]; 4] = [b"container", b"order", b"slot", b"like"];
        list.push_record(header.as_slice())
    }

    /// The list and a record of these fields.
    fn push_record(self, fields: &[&[u8]]) -> Result<AbsentList, AllocError>
        ensures { IfOk result (λ list. list ≡ self ++ row_text default_writer (map (λ field. field.now) fields.now)) }
    {
        let mut writer = self.writer;
        match writer.write_fields(fields) {
            Ok(()) => Ok(AbsentList { writer }),
            Err(_) => Err(AllocError),
        }
    }

    /// The list and the record of an order with its number, and a container of the yard with a name that is alike.
    fn push(
        self,
        number: usize,
        order: &Order,
        like: Option<&[u8]>,
    ) -> Result<AbsentList, AllocError>
        ensures { IfOk result (λ list. list ≡ self ++ row_text default_writer
            (order.now.container ∷ decimal number ∷ slot_text order.now.slot ∷ unwrap_or (option_map (λ other. other.now) like.entry) [] ∷ [])) }
    {
        let mut numbers = Buffer::new();
        let slot = slot_digits(order.slot);
        let fields = [
            order.container.bytes(),
            numbers.format(number).as_bytes(),
            slot.as_slice(),
            like_field(like),
        ];
        self.push_record(fields.as_slice())
    }

    /// Its text.
    fn text(self) -> Result<Vec<u8>, AllocError>
        ensures { IfOk result (λ text. text.items ≡ self) }
    {
        match self.writer.into_inner() {
            Ok(text) => Ok(text),
            Err(_) => Err(AllocError),
        }
    }
}

/// The list of the ordered containers that are not in the yard, in the order of the message: each with the
/// number of its order, from 1, its slot, and the first container of the yard whose name differs from its own by
/// blanks, dashes and the case of letters alone.
pub fn absent_list(alloc: Global, yard: &Yard, orders: &[Order]) -> Result<Vec<u8>, AllocError>
    ensures { IfOk result (λ text. text.items ≡ absent_text yard.now orders.now) }
{
    let containers = containers_of(alloc, yard)?;
    let mut list = AbsentList::new(alloc)?;
    for (i, order) in orders.iter().enumerate() {
        let name = order.container.bytes();
        if !yard.holds(name) {
            let like = first_alike(alloc, &containers, name)?;
            list = list.push(i + 1, order, like)?;
        }
    }
    list.text()
}
