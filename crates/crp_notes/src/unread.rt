//! Orders that are not read, since they stand under another handling code than the asked one.
ghost use Rattle.std.specs.Prelude.{◌≡◌, ◌≤◌, ◌++◌, ℕ, List, IfOk, OnOk, length, map, filter, option_to_list};
ghost use Rattle.std.specs.Option.{option_map};
ghost use Rattle.crp_notes.specs.Repeated.{times, kept_with};
ghost use Rattle.crp_notes.specs.Unread.{is_unread, is_same, unread, counted, are_several, note_on, unread_notes};
ghost use Rattle.crp_notes.specs.Orders.{ordered, shown, HasCounts, AreCounted};

use crate::message::said_by;
use crate::standing::Standing;
use crate::wording::unread_note;
use crp_movins::Loading;
use edi_text::Segments;
use std::alloc::{AllocError, Global};
use std::collections::{HashMap, HashSet};

/// An order: the number of its message, and the code under which it stands.
#[derive(Clone, Copy, PartialEq, Eq, Hash, Drop)]
pub(crate) struct Ordered<'a> {
    pub message: usize,
    pub code: &'a [u8],
}

/// How many orders a message has under a code.
#[derive(Drop)]
pub(crate) struct Tally<'a> {
    pub of: Ordered<'a>,
    pub orders: usize,
}

// Adds the order of this message under this code, if there is one, and the code is not the asked one.
fn push<'a>(
    orders: &mut Vec<Ordered<'a>>,
    message: usize,
    code: Option<&'a [u8]>,
    loading: &Loading,
) -> Result<(), AllocError>
    ensures { OnOk result (map ordered orders.new.items
        ≡ map ordered orders.old.items ++ filter (is_unread loading.now) (option_to_list (option_map (λ code. (message, code.now)) code.entry))) }
{
    if let Some(code) = code {
        if code != loading.code() {
            orders.push(Ordered { message, code })?;
        }
    }
    Ok(())
}

// The orders that are not read, by place, and whether there are several messages.
fn unread<'a>(
    alloc: Global,
    segments: &'a Segments,
    loading: &Loading,
) -> Result<(Vec<Ordered<'a>>, bool), AllocError>
    ensures orders { IfOk result (λ r. map ordered r.0.items ≡ unread segments.now loading.now) }
    ensures several { IfOk result (λ r. r.1 ≡ are_several segments.now) }
{
    let mut orders = Vec::new(alloc);
    let mut standing = Standing::start();
    for i in 0..segments.count() {
        let says = said_by(segments, i + 1);
        push(
            &mut orders,
            standing.messages,
            standing.ordered(&says),
            loading,
        )?;
        standing = standing.after(&says, loading);
    }
    Ok((orders, 1 < standing.messages))
}

// How many of the orders are this one.
fn count_of(counts: &HashMap<Ordered<'_>, usize>, order: Ordered<'_>) -> usize
    ensures { (orders : List Ordered) → HasCounts counts.now.entries orders → result ≡ times is_same (ordered order.entry) (map ordered orders) }
{
    match counts.get(&order) {
        Some(count) => *count,
        None => 0,
    }
}

// How many there are of each.
fn counts<'a>(
    alloc: Global,
    orders: &[Ordered<'a>],
) -> Result<HashMap<Ordered<'a>, usize>, AllocError>
    ensures { IfOk result (λ counts. HasCounts counts.entries orders.now) }
{
    let mut counts = HashMap::new(alloc);
    for order in orders {
        let count = count_of(&counts, *order);
        counts.insert(*order, count + 1)?;
    }
    Ok(counts)
}

// One more, with how many there are of it, unless it is there.
fn keep<'a>(
    kept: &mut HashSet<Ordered<'a>>,
    found: &mut Vec<Tally<'a>>,
    of: Ordered<'a>,
    orders: usize,
) -> Result<(), AllocError>
    ensures { OnOk result ((all before : List (ℕ × List ℕ)) → orders ≡ times is_same (ordered of.entry) all → AreCounted all before kept.old.keys found.old.items
        → AreCounted all (kept_with is_same before (ordered of.entry)) kept.new.keys found.new.items) }
{
    if kept.insert(of)? {
        found.push(Tally { of, orders })?;
    }
    Ok(())
}

// Each once, with how many there are of it.
fn counted<'a>(alloc: Global, orders: &[Ordered<'a>]) -> Result<Vec<Tally<'a>>, AllocError>
    ensures { IfOk result (λ found. map shown found.items ≡ counted (map ordered orders.now)) }
{
    let counts = counts(alloc, orders)?;
    let mut kept: HashSet<Ordered> = HashSet::new(alloc);
    let mut found = Vec::new(alloc);
    for order in orders {
        keep(&mut kept, &mut found, *order, count_of(&counts, *order))?;
    }
    Ok(found)
}

// The note on the orders of a message under a code.
fn note_on(alloc: Global, several: bool, found: &Tally<'_>) -> Result<Vec<u8>, AllocError>
    ensures { IfOk result (λ note. note.items ≡ note_on several (shown found.now)) }
{
    unread_note(
        alloc,
        several,
        found.of.message,
        found.of.code,
        found.orders,
    )
}

/// The notes on the orders that are not read.
pub(crate) fn unread_notes(
    alloc: Global,
    segments: &Segments,
    loading: &Loading,
) -> Result<Vec<Vec<u8>>, AllocError>
    ensures { IfOk result (λ notes. map (λ note. note.items) notes.items ≡ unread_notes segments.now loading.now) }
{
    let (orders, several) = unread(alloc, segments, loading)?;
    let counted = counted(alloc, &orders)?;
    let mut notes = Vec::new(alloc);
    for found in &counted {
        notes.push(note_on(alloc, several, found)?)?;
    }
    Ok(notes)
}
