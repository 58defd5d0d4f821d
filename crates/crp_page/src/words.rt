//! What the page says in words.
ghost use Rattle.std.specs.Prelude.{◌≡◌, ◌++◌, ◌∷◌, map, flat_map, codes, OnOk};
ghost use Rattle.crp_picture.specs.Names.{escaped};
ghost use Rattle.crp_page.specs.Words.{counted, place_words, code_of, code, lifted_words, move_in_item, move_item, slot_of, slot_words, move_to_slot, bay_name, kind_of, verdict, stack_words, row_words, rows_words};

use crp_cert::push_decimal;
use crp_follow::Row;
use crp_loading::Ship;
use crp_movins::Slot;
use crp_order::slot_digits;
use crp_picture::{cut_name, push_escaped};
use crp_plan::{BayName, Container};
use crp_said::{Place, Said, SaidMove, push_said};
use std::alloc::AllocError;

/// Adds a number of things, of which one is called so.
pub(crate) fn push_counted(text: &mut Vec<u8>, n: u64, one: &[u8]) -> Result<(), AllocError>
    ensures { OnOk result (text.new.items ≡ text.old.items ++ counted n one.now) }
{
    push_decimal(text, n)?;
    text.push(b' ')?;
    text.extend_from_slice(one)?;
    if n != 1 {
        text.push(b's')?;
    }
    Ok(())
}

/// Adds a place.
pub(crate) fn push_place(text: &mut Vec<u8>, place: Place) -> Result<(), AllocError>
    ensures { OnOk result (text.new.items ≡ text.old.items ++ place_words place) }
{
    push_decimal(text, place.row)?;
    text.push(b'.')?;
    push_decimal(text, place.tier)
}

/// Adds the parts of a container's name.
fn push_code_of(text: &mut Vec<u8>, front: &[u8], last: &[u8]) -> Result<(), AllocError>
    ensures { OnOk result (text.new.items ≡ text.old.items ++ code_of front.now last.now) }
{
    text.extend_from_slice(b"<code>")?;
    push_escaped(text, front)?;
    text.extend_from_slice(b"<b>")?;
    push_escaped(text, last)?;
    text.extend_from_slice(b"</b></code>")
}

/// Adds a container.
pub(crate) fn push_code(text: &mut Vec<u8>, container: &Container) -> Result<(), AllocError>
    ensures { OnOk result (text.new.items ≡ text.old.items ++ code container.now) }
{
    let (front, last) = cut_name(container.bytes());
    push_code_of(text, front, last)
}

/// Adds which container is lifted, and where.
fn push_lifted(text: &mut Vec<u8>, container: &Container, from: Place) -> Result<(), AllocError>
    ensures { OnOk result (text.new.items ≡ text.old.items ++ lifted_words container.now from) }
{
    push_code(text, container)?;
    text.extend_from_slice(b" from ")?;
    push_place(text, from)
}

/// Adds a move, up to the end of its item.
pub(crate) fn push_move_in_item(text: &mut Vec<u8>, said: &SaidMove) -> Result<(), AllocError>
    ensures { OnOk result (text.new.items ≡ text.old.items ++ move_in_item said.now) }
{
    match said {
        SaidMove::Shift {
            from,
            to,
            container,
        } => {
            text.extend_from_slice(b"<li>shift ")?;
            push_lifted(text, container, *from)?;
            text.extend_from_slice(b" to ")?;
            push_place(text, *to)
        }
        SaidMove::Take { from, container } => {
            text.extend_from_slice(b"<li class=\"t\">take ")?;
            push_lifted(text, container, *from)
        }
    }
}

/// Adds a move.
pub(crate) fn push_move(text: &mut Vec<u8>, said: &SaidMove) -> Result<(), AllocError>
    ensures { OnOk result (text.new.items ≡ text.old.items ++ move_item said.now) }
{
    push_move_in_item(text, said)?;
    text.extend_from_slice(b"</li>")
}

/// The slot of the ship that a move fills, where there is a ship.
fn slot_of(ship: &Option<Ship<'_>>, said: &SaidMove) -> Option<Slot>
    ensures { result ≡ slot_of ship.now said.now }
{
    match (ship, said) {
        (Some(ship), SaidMove::Take { container, .. }) => ship.slot_for(container),
        _ => None,
    }
}

/// Adds it, if it is one.
fn push_slot_words(text: &mut Vec<u8>, slot: Option<Slot>) -> Result<(), AllocError>
    ensures { OnOk result (text.new.items ≡ text.old.items ++ slot_words slot) }
{
    match slot {
        Some(slot) => {
            let digits = slot_digits(slot);
            text.extend_from_slice(b" to slot ")?;
            text.extend_from_slice(digits.as_slice())
        }
        None => Ok(()),
    }
}

/// Adds a move, with the slot that it fills.
pub(crate) fn push_move_to_slot(
    text: &mut Vec<u8>,
    ship: &Option<Ship<'_>>,
    said: &SaidMove,
) -> Result<(), AllocError>
    ensures { OnOk result (text.new.items ≡ text.old.items ++ move_to_slot ship.now said.now) }
{
    push_move_in_item(text, said)?;
    push_slot_words(text, slot_of(ship, said))?;
    text.extend_from_slice(b"</li>")?;
    Ok(())
}

/// Adds the name of a bay.
pub(crate) fn push_bay_name(text: &mut Vec<u8>, bay: &BayName) -> Result<(), AllocError>
    ensures { OnOk result (text.new.items ≡ text.old.items ++ bay_name bay.now) }
{
    push_escaped(text, bay.block())?;
    text.push(b' ')?;
    push_decimal(text, bay.bay())
}

/// Of which kind a verdict is.
fn kind_of(said: Said) -> &'static [u8]
    ensures { result.now ≡ kind_of said }
{
    match said {
        Said::Optimal(_) | Said::First(_) => b"vo",
        Said::NoPlan => b"vn",
        Said::Between { .. } | Said::Outside(_) => b"vb",
    }
}

/// Adds a verdict, and that it is the report that says so.
pub(crate) fn push_verdict(text: &mut Vec<u8>, said: Said) -> Result<(), AllocError>
    ensures { OnOk result (text.new.items ≡ text.old.items ++ verdict said) }
{
    text.extend_from_slice(b"<span class=\"")?;
    text.extend_from_slice(kind_of(said))?;
    text.extend_from_slice(b"\">")?;
    push_said(text, said)?;
    text.extend_from_slice(b"</span>, as the report says")
}

/// Adds the names of containers that stand above another.
fn push_above(text: &mut Vec<u8>, above: &[Container]) -> Result<(), AllocError>
    ensures { OnOk result (text.new.items ≡ text.old.items ++ flat_map (λ n. codes ", " ++ escaped n) above.now) }
{
    for container in above {
        text.extend_from_slice(b", ")?;
        push_escaped(text, container.bytes())?;
    }
    Ok(())
}

/// Adds what stands in a row.
fn push_stack(text: &mut Vec<u8>, row: &Row) -> Result<(), AllocError>
    ensures { OnOk result (text.new.items ≡ text.old.items ++ stack_words row.now) }
{
    match row.containers() {
        [] => text.extend_from_slice(b"empty"),
        [lowest, above @ ..] => {
            push_escaped(text, lowest.bytes())?;
            push_above(text, above)
        }
    }
}

/// Adds the row with this number.
fn push_row(text: &mut Vec<u8>, number: u64, row: &Row) -> Result<(), AllocError>
    ensures { OnOk result (text.new.items ≡ text.old.items ++ row_words number row.now) }
{
    text.extend_from_slice(b" Row ")?;
    push_decimal(text, number)?;
    text.extend_from_slice(b": ")?;
    push_stack(text, row)?;
    text.push(b'.')?;
    Ok(())
}

/// Adds what stands in all rows.
pub(crate) fn push_rows(text: &mut Vec<u8>, rows: &[Row]) -> Result<(), AllocError>
    ensures { OnOk result (text.new.items ≡ text.old.items ++ rows_words rows.now) }
{
    for (i, row) in rows.iter().enumerate() {
        push_row(text, i as u64 + 1, row)?;
    }
    Ok(())
}
