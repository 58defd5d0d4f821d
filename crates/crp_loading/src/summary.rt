//! The table of the bays beside the message.
ghost use Rattle.std.specs.Prelude.{◌≡◌, ◌≤◌, ◌++◌, length, map, count_by, IfOk};
ghost use Rattle.crp_follow.specs.Table.{record_text};
ghost use Rattle.crp_follow.specs.Views.{bay_followed};
ghost use Rattle.crp_loading.specs.Summary.{is_called, called_in, fields, load_summary};

use crate::ship::Ship;
use crp_follow::{Followed, FollowedBay, Row, Table, push_summary, summary_table};
use crp_movins::Orders;
use crp_order::Sequence;
use crp_plan::Container;
use itoa::Buffer;
use std::alloc::{AllocError, Global};

// How many of these containers the ship gets.
fn count_called(ship: &Ship, containers: &[Container]) -> usize
    ensures value { result ≡ count_by (is_called ship.now.sequence) containers.now }
    ensures few { result ≤ length containers.now }
{
    let mut count: usize = 0;
    for container in containers {
        if ship.turn_of(container).is_some() {
            count += 1;
        }
    }
    count
}

// How many of those that stand in any rows.
fn called_in(ship: &Ship, rows: &[Row]) -> u128
    ensures { result ≡ called_in ship.now.sequence rows.now }
{
    let mut count: u128 = 0;
    for row in rows {
        count += count_called(ship, row.containers()) as u128;
    }
    count
}

// The table and the record of a bay.
fn push_bay(
    alloc: Global,
    table: Table,
    ship: &Ship,
    bay: &FollowedBay,
) -> Result<Table, AllocError>
    ensures { IfOk result (λ longer. longer ≡ table ++ record_text (fields ship.now.sequence (bay_followed bay.now))) }
{
    let mut counts = Buffer::new();
    let more = [counts.format(called_in(ship, &bay.after)).as_bytes()];
    push_summary(alloc, table, bay, more.as_slice())
}

/// The table of the bays of a followed report in its order, each with how many of the containers that its moves leave in it the ship was to
/// get, which gets its containers in this sequence.
pub fn load_summary(
    alloc: Global,
    followed: &Followed,
    orders: &Orders,
    sequence: &Sequence,
) -> Result<Vec<u8>, AllocError>
    ensures { IfOk result (λ text. text.items ≡ load_summary sequence.now (map bay_followed followed.now.bays.items)) }
{
    let ship = Ship::new(alloc, sequence, orders)?;
    let names: [&[u8]; 1] = [b"not_taken"];
    let mut table = summary_table(alloc, names.as_slice())?;
    for bay in &followed.bays {
        table = push_bay(alloc, table, &ship, bay)?;
    }
    table.text()
}
