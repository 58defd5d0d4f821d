//! The section in the order in which the ship is loaded.
ghost use Rattle.std.specs.Prelude.{◌≡◌, ◌≤◌, ◌++◌, List, length, map, flat_map, IfOk, OnOk};
ghost use Rattle.std.specs.List.{AllByRecursion};
ghost use Rattle.crp_follow.specs.Faults.{is_shift};
ghost use Rattle.crp_follow.specs.Table.{StandFew};
ghost use Rattle.crp_follow.specs.Views.{bay_followed};
ghost use Rattle.crp_loading.specs.Loading.{TurnRecord, is_turn, by_turns, slot_field};
ghost use Rattle.crp_loading.specs.Views.{recorded};
ghost use Rattle.crp_page.specs.Numbered.{numbered_text};
ghost use Rattle.crp_page.specs.Turns.{leading, moves_behind, relocations_among, relocation_item, relocations_words, taken_from, taken_words, turn_words, turn_text, turn_item, behind_item, behind_part, turns_head, turns_body, turns_section, turns_part};

use crate::words::{
    push_bay_name, push_code, push_counted, push_move, push_move_in_item, push_place,
};
use crp_cert::push_decimal;
use crp_follow::FollowedBay;
use crp_loading::{Ship, TurnColumns, moves_by_turns};
use crp_movins::Slot;
use crp_order::slot_digits;
use crp_plan::{BayName, Container};
use crp_said::SaidMove;
use std::alloc::{AllocError, Global};

/// Whether it is this turn.
fn is_turn(number: u64, turn: Option<u64>) -> bool
    ensures { result ≡ is_turn number turn }
{
    match turn {
        Some(turn) => turn == number,
        None => false,
    }
}

/// Whether a move is a relocation.
fn is_shift(said: &SaidMove) -> bool
    ensures { result ≡ is_shift said.now }
{
    matches!(said, SaidMove::Shift { .. })
}

/// How many of the first moves have this turn.
fn count_leading(moves: &[TurnColumns<'_>], number: u64) -> usize
    ensures value { result ≡ leading number (map recorded moves.now) }
    ensures within { result ≤ length moves.now }
{
    for (i, columns) in moves.iter().enumerate() {
        if !is_turn(number, columns.turn) {
            return i;
        }
    }
    moves.len()
}

/// How many of the moves are relocations.
fn relocations_among(moves: &[TurnColumns<'_>]) -> usize
    ensures { result ≡ relocations_among (map recorded moves.now) }
{
    let mut count = 0;
    for columns in moves {
        if is_shift(columns.of_move.said) {
            count += 1;
        }
    }
    count
}

/// Adds a move as an item, if it is a relocation.
fn push_relocation(text: &mut Vec<u8>, columns: &TurnColumns<'_>) -> Result<(), AllocError>
    ensures { OnOk result (text.new.items ≡ text.old.items ++ relocation_item (recorded columns.now)) }
{
    if is_shift(columns.of_move.said) {
        push_move(text, columns.of_move.said)?;
    }
    Ok(())
}

/// Adds the relocations among moves.
fn push_relocations(text: &mut Vec<u8>, moves: &[TurnColumns<'_>]) -> Result<(), AllocError>
    ensures { OnOk result (text.new.items ≡ text.old.items ++ flat_map relocation_item (map recorded moves.now)) }
{
    for columns in moves {
        push_relocation(text, columns)?;
    }
    Ok(())
}

/// Adds how many they are, and which.
fn push_relocations_words(text: &mut Vec<u8>, moves: &[TurnColumns<'_>]) -> Result<(), AllocError>
    ensures { OnOk result (text.new.items ≡ text.old.items ++ relocations_words (map recorded moves.now)) }
{
    let count = relocations_among(moves);
    if count == 0 {
        return text.extend_from_slice(b"none");
    }
    push_decimal(text, count)?;
    text.extend_from_slice(b"<ol>")?;
    push_relocations(text, moves)?;
    text.extend_from_slice(b"</ol>")
}

/// Adds the bay and the place that a container is taken from.
fn push_taken_from(text: &mut Vec<u8>, bay: &BayName, said: &SaidMove) -> Result<(), AllocError>
    ensures { OnOk result (text.new.items ≡ text.old.items ++ taken_from bay.now said.now) }
{
    match said {
        SaidMove::Shift { .. } => Ok(()),
        SaidMove::Take { from, .. } => {
            text.extend_from_slice(b" from bay ")?;
            push_bay_name(text, bay)?;
            text.extend_from_slice(b", ")?;
            push_place(text, *from)
        }
    }
}

/// Adds where the containers that moves take are taken from.
fn push_takes(text: &mut Vec<u8>, moves: &[TurnColumns<'_>]) -> Result<(), AllocError>
    ensures { OnOk result (text.new.items ≡ text.old.items ++ flat_map taken_words (map recorded moves.now)) }
{
    for columns in moves {
        push_taken_from(text, columns.of_move.bay, columns.of_move.said)?;
    }
    Ok(())
}

/// Adds what is done at a turn of these moves.
fn push_turn_words(text: &mut Vec<u8>, moves: &[TurnColumns<'_>]) -> Result<(), AllocError>
    ensures { OnOk result (text.new.items ≡ text.old.items ++ turn_words (map recorded moves.now)) }
{
    if moves.is_empty() {
        return text.extend_from_slice(b", not taken");
    }
    push_takes(text, moves)?;
    text.extend_from_slice(b"; relocations before it: ")?;
    push_relocations_words(text, moves)?;
    Ok(())
}

/// Adds a slot, or nothing.
fn push_slot(text: &mut Vec<u8>, slot: Option<Slot>) -> Result<(), AllocError>
    ensures { OnOk result (text.new.items ≡ text.old.items ++ slot_field slot) }
{
    match slot {
        Some(slot) => {
            let digits = slot_digits(slot);
            text.extend_from_slice(digits.as_slice())
        }
        None => Ok(()),
    }
}

/// Adds the item of the turn with these moves, at which the ship gets the container.
fn push_turn(
    text: &mut Vec<u8>,
    slot: Option<Slot>,
    container: &Container,
    moves: &[TurnColumns<'_>],
) -> Result<(), AllocError>
    ensures { OnOk result (text.new.items ≡ text.old.items ++ turn_text slot container.now (map recorded moves.now)) }
{
    text.extend_from_slice(b"<li class=\"t\"><b>")?;
    push_slot(text, slot)?;
    text.extend_from_slice(b"</b> ")?;
    push_code(text, container)?;
    push_turn_words(text, moves)?;
    text.extend_from_slice(b"</li>\n")?;
    Ok(())
}

/// Adds the turns of the ship, and gives the moves of none. The moves are sorted by turns.
fn push_turns<'a, 'b>(
    text: &mut Vec<u8>,
    ship: &Ship<'_>,
    moves: &'b [TurnColumns<'a>],
) -> Result<&'b [TurnColumns<'a>], AllocError>
    ensures { IfOk result (λ rest. (records : List TurnRecord) → map recorded moves.now ≡ by_turns (length ship.now.sequence) records
        → (text.new.items ≡ text.old.items ++ numbered_text (turn_item ship.now.orders records) 1 ship.now.sequence) × (map recorded rest.now ≡ moves_behind records)) }
{
    let sequence = ship.sequence();
    let mut rest = moves;
    for (i, container) in sequence.iter().enumerate() {
        let count = count_leading(rest, i as u64 + 1);
        push_turn(text, ship.slot_for(container), container, &rest[..count])?;
        rest = &rest[count..];
    }
    Ok(rest)
}

/// Adds a move of no turn.
fn push_behind_item(text: &mut Vec<u8>, columns: &TurnColumns<'_>) -> Result<(), AllocError>
    ensures { OnOk result (text.new.items ≡ text.old.items ++ behind_item (recorded columns.now)) }
{
    push_move_in_item(text, columns.of_move.said)?;
    text.extend_from_slice(b" in bay ")?;
    push_bay_name(text, columns.of_move.bay)?;
    text.extend_from_slice(b"</li>\n")?;
    Ok(())
}

/// Adds moves of no turn.
fn push_behind_items(text: &mut Vec<u8>, moves: &[TurnColumns<'_>]) -> Result<(), AllocError>
    ensures { OnOk result (text.new.items ≡ text.old.items ++ flat_map behind_item (map recorded moves.now)) }
{
    for columns in moves {
        push_behind_item(text, columns)?;
    }
    Ok(())
}

/// Adds the moves of no turn, if there are any.
fn push_behind(text: &mut Vec<u8>, moves: &[TurnColumns<'_>]) -> Result<(), AllocError>
    ensures { OnOk result (text.new.items ≡ text.old.items ++ behind_part (map recorded moves.now)) }
{
    if moves.is_empty() {
        return Ok(());
    }
    text.extend_from_slice(
        b"<p>Behind the last take of the bay:</p><ol style=\"columns:auto;padding-left:3.5em\">\n",
    )?;
    push_behind_items(text, moves)?;
    text.extend_from_slice(b"</ol>")?;
    Ok(())
}

/// Adds the head of the section of so many turns.
fn push_turns_head(text: &mut Vec<u8>, turns: u64) -> Result<(), AllocError>
    ensures { OnOk result (text.new.items ≡ text.old.items ++ turns_head turns) }
{
    text.extend_from_slice(
        b"<section id=\"ship\"><header><h2><a href=\"#ship\">Ship&#39;s order</a></h2><p>",
    )?;
    push_counted(text, turns, b"container")?;
    text.extend_from_slice(
        b", each with its slot<a class=\"h\" href=\"#\">all bays</a></p></header><div><ol style=\"columns:auto;padding-left:3.5em\">\n",
    )?;
    Ok(())
}

/// Adds the turns, and what is done behind them. The moves are sorted by turns.
fn push_turns_body(
    text: &mut Vec<u8>,
    ship: &Ship<'_>,
    moves: &[TurnColumns<'_>],
) -> Result<(), AllocError>
    ensures { OnOk result ((records : List TurnRecord) → map recorded moves.now ≡ by_turns (length ship.now.sequence) records
        → text.new.items ≡ text.old.items ++ turns_body ship.now records) }
{
    let behind = push_turns(text, ship, moves)?;
    text.extend_from_slice(b"</ol>")?;
    push_behind(text, behind)?;
    text.extend_from_slice(b"</div></section>\n")?;
    Ok(())
}

/// The section of the moves of bays.
fn turns_section(
    alloc: Global,
    ship: &Ship<'_>,
    bays: &[FollowedBay],
) -> Result<Vec<u8>, AllocError>
    requires { AllByRecursion StandFew (map bay_followed bays.now) }
    ensures { IfOk result (λ text. text.items ≡ turns_section ship.now (map bay_followed bays.now)) }
{
    let moves = moves_by_turns(alloc, ship, bays)?;
    let mut text = Vec::new(alloc);
    push_turns_head(&mut text, ship.sequence().len() as u64)?;
    push_turns_body(&mut text, ship, &moves)?;
    Ok(text)
}

/// The section, where there is a ship.
pub(crate) fn turns_part(
    alloc: Global,
    ship: &Option<Ship<'_>>,
    bays: &[FollowedBay],
) -> Result<Vec<u8>, AllocError>
    requires { AllByRecursion StandFew (map bay_followed bays.now) }
    ensures { IfOk result (λ text. text.items ≡ turns_part ship.now (map bay_followed bays.now)) }
{
    match ship {
        Some(ship) => turns_section(alloc, ship, bays),
        None => Ok(Vec::new(alloc)),
    }
}
