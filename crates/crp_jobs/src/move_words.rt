//! What is said of a move of a report that a crane cannot make.
ghost use Rattle.std.specs.Prelude.{◌≡◌, ◌==◌, ◌++◌, IfOk, OnOk, length, option_map};
ghost use Rattle.crp_yard.specs.Records.{height_of};
ghost use Rattle.crp_follow.specs.Crane.{container_of, from_of, stack_of};
ghost use Rattle.crp_jobs.specs.Found.{IsPlainText};
ghost use Rattle.crp_jobs.specs.Placed.{shown};
ghost use Rattle.crp_jobs.specs.Moves.{container_on, container_text, free_words, highest, highest_words, is_full, lift_text, lift_words, lowest_words, move_text, own_words, place_words, row_words, rows_words, set_down_text, set_down_words, stands_words, there_words, wrong_text};

use crate::bay_words::push_counted;
use crate::placed::shown;
use crate::plain::FoundLine;
use crp_cert::push_decimal;
use crp_follow::{Row, Stopping};
use crp_plan::Container;
use crp_said::{Place, SaidMove};
use std::alloc::{AllocError, Global};

/// What is wrong about a move.
#[derive(Clone, Copy, Debug, PartialEq, Eq)]
pub(crate) enum Wrong {
    /// The place to lift from.
    Lift,
    /// The container that is named.
    Container,
    /// The place to set down on.
    SetDown,
}

// Adds a place, as reports spell it.
fn push_place(words: &mut Vec<u8>, row: u32, tier: u64) -> Result<(), AllocError>
    ensures { OnOk result (words.new.items ≡ words.old.items ++ place_words row tier) }
{
    push_decimal(words, row)?;
    words.extend_from_slice(b".")?;
    push_decimal(words, tier)?;
    Ok(())
}

// Adds how many rows there are.
fn push_rows(words: &mut Vec<u8>, rows: usize) -> Result<(), AllocError>
    ensures { OnOk result (words.new.items ≡ words.old.items ++ rows_words rows) }
{
    words.extend_from_slice(b"; the bay has ")?;
    push_counted(words, rows, b" row", b" rows")?;
    Ok(())
}

// Adds something of a row.
fn push_row(words: &mut Vec<u8>, row: u32, what: &[u8]) -> Result<(), AllocError>
    ensures { OnOk result (words.new.items ≡ words.old.items ++ row_words row what.now) }
{
    words.extend_from_slice(b"; row ")?;
    push_decimal(words, row)?;
    words.extend_from_slice(what)?;
    Ok(())
}

// The highest container of a stack.
fn highest(stack: &[Container]) -> &[u8]
    ensures { result.now ≡ highest stack.now }
{
    match stack.last() {
        Some(container) => container.bytes(),
        None => b"",
    }
}

// Adds the words on the highest container of a row.
fn push_highest(words: &mut Vec<u8>, row: u32, stack: &[Container]) -> Result<(), AllocError>
    ensures { OnOk result (words.new.items ≡ words.old.items ++ highest_words row stack.now) }
{
    words.extend_from_slice(b"; the highest container of row ")?;
    push_decimal(words, row)?;
    words.extend_from_slice(b" is ")?;
    push_place(words, row, stack.len() as u64)?;
    words.extend_from_slice(b" ")?;
    words.extend_from_slice(highest(stack))?;
    Ok(())
}

// What stands in a row, if there is such a row.
fn stack_of(rows: &[Row], row: u32) -> Option<&[Container]>
    ensures { option_map (λ stack. stack.now) result ≡ stack_of rows.now row }
{
    if row == 0 {
        return None;
    }
    match rows.get(row as usize - 1) {
        Some(row) => Some(row.containers()),
        None => None,
    }
}

// Adds the words on what could be lifted of a row.
fn push_lift(
    words: &mut Vec<u8>,
    rows: usize,
    row: u32,
    stack: Option<&[Container]>,
) -> Result<(), AllocError>
    ensures { OnOk result (words.new.items ≡ words.old.items ++ lift_words rows row (option_map (λ stack. stack.now) stack.entry)) }
{
    match stack {
        None => push_rows(words, rows),
        Some([]) => push_row(words, row, b" is empty"),
        Some(stack) => push_highest(words, row, stack),
    }
}

// Whether a row of this height is full.
fn is_full(height: u8, stack: &[Container]) -> bool
    ensures { result ≡ is_full height stack.now }
{
    usize::from(height) <= stack.len()
}

// Whether it is the row that the container is lifted from.
fn is_own(from: u32, row: u32) -> bool
    ensures { result ≡ (row == from) }
{
    row == from
}

// Adds the words on the row that a container is lifted from.
fn push_own(words: &mut Vec<u8>, row: u32) -> Result<(), AllocError>
    ensures { OnOk result (words.new.items ≡ words.old.items ++ own_words row) }
{
    words.extend_from_slice(b"; it is lifted from row ")?;
    push_decimal(words, row)?;
    Ok(())
}

// Adds the words on the lowest free place of a row.
fn push_lowest(words: &mut Vec<u8>, row: u32, stack: &[Container]) -> Result<(), AllocError>
    ensures { OnOk result (words.new.items ≡ words.old.items ++ lowest_words row stack.now) }
{
    words.extend_from_slice(b"; the lowest free place of row ")?;
    push_decimal(words, row)?;
    words.extend_from_slice(b" is ")?;
    push_place(words, row, stack.len() as u64 + 1)?;
    Ok(())
}

// Adds the words on where a container could be set down in a row.
fn push_free(
    words: &mut Vec<u8>,
    from: u32,
    row: u32,
    height: u8,
    stack: &[Container],
) -> Result<(), AllocError>
    ensures { OnOk result (words.new.items ≡ words.old.items ++ free_words from row height stack.now) }
{
    if is_own(from, row) {
        return push_own(words, row);
    }
    if is_full(height, stack) {
        return push_row(words, row, b" is full");
    }
    push_lowest(words, row, stack)
}

// The same of a row of which there may be none.
fn push_set_down(
    words: &mut Vec<u8>,
    rows: usize,
    from: u32,
    row: u32,
    height: u8,
    stack: Option<&[Container]>,
) -> Result<(), AllocError>
    ensures { OnOk result (words.new.items ≡ words.old.items ++ set_down_words rows from row height (option_map (λ stack. stack.now) stack.entry)) }
{
    match stack {
        None => push_rows(words, rows),
        Some(stack) => push_free(words, from, row, height, stack),
    }
}

// How many tiers a row has.
fn height_of(heights: &[u8], row: u32) -> u8
    ensures { result ≡ height_of heights.now row }
{
    match heights.get((row as usize).saturating_sub(1)) {
        Some(height) => *height,
        None => 0,
    }
}

// What stands at a place.
fn container_on(rows: &[Row], place: Place) -> Option<&Container>
    ensures { option_map (λ container. container.now) result ≡ container_on rows.now place }
{
    let stack = stack_of(rows, place.row)?;
    if place.tier == 0 {
        return None;
    }
    stack.get(place.tier as usize - 1)
}

// Adds that this container stands there.
fn push_there(words: &mut Vec<u8>, container: &Container) -> Result<(), AllocError>
    ensures { OnOk result (words.new.items ≡ words.old.items ++ there_words container.now) }
{
    words.extend_from_slice(b"; ")?;
    words.extend_from_slice(container.bytes())?;
    words.extend_from_slice(b" stands there")?;
    Ok(())
}

// Adds the words on what stands at a place.
fn push_stands(words: &mut Vec<u8>, container: Option<&Container>) -> Result<(), AllocError>
    ensures { OnOk result (words.new.items ≡ words.old.items ++ stands_words (option_map (λ container. container.now) container.entry)) }
{
    match container {
        None => words.extend_from_slice(b"; nothing stands there"),
        Some(container) => push_there(words, container),
    }
}

// Adds the words on the place to lift from.
fn push_lift_text(words: &mut Vec<u8>, rows: &[Row], from: Place) -> Result<(), AllocError>
    ensures { OnOk result (words.new.items ≡ words.old.items ++ lift_text rows.now from) }
{
    words.extend_from_slice(b" lifts from ")?;
    push_place(words, from.row, u64::from(from.tier))?;
    push_lift(words, rows.len(), from.row, stack_of(rows, from.row))?;
    Ok(())
}

// Adds the words on the container that is named.
fn push_container_text(
    words: &mut Vec<u8>,
    rows: &[Row],
    from: Place,
    container: &Container,
) -> Result<(), AllocError>
    ensures { OnOk result (words.new.items ≡ words.old.items ++ container_text rows.now from container.now) }
{
    words.extend_from_slice(b" lifts ")?;
    words.extend_from_slice(container.bytes())?;
    words.extend_from_slice(b" from ")?;
    push_place(words, from.row, u64::from(from.tier))?;
    push_stands(words, container_on(rows, from))?;
    Ok(())
}

// Adds the words on the place to set down on.
fn push_set_down_text(
    words: &mut Vec<u8>,
    heights: &[u8],
    rows: &[Row],
    from: Place,
    to: Place,
) -> Result<(), AllocError>
    ensures { OnOk result (words.new.items ≡ words.old.items ++ set_down_text heights.now rows.now from to) }
{
    words.extend_from_slice(b" sets down on ")?;
    push_place(words, to.row, u64::from(to.tier))?;
    let height = height_of(heights, to.row);
    let stack = stack_of(rows, to.row);
    push_set_down(words, rows.len(), from.row, to.row, height, stack)?;
    Ok(())
}

// Adds the words on what is wrong about a move.
fn push_wrong(
    words: &mut Vec<u8>,
    what: Wrong,
    heights: &[u8],
    rows: &[Row],
    said: &SaidMove,
) -> Result<(), AllocError>
    ensures { OnOk result (words.new.items ≡ words.old.items ++ wrong_text what heights.now rows.now said.now) }
{
    match said {
        SaidMove::Take { from, container } => match what {
            Wrong::Lift | Wrong::SetDown => push_lift_text(words, rows, *from),
            Wrong::Container => push_container_text(words, rows, *from, container),
        },
        SaidMove::Shift {
            from,
            to,
            container,
        } => match what {
            Wrong::Lift => push_lift_text(words, rows, *from),
            Wrong::Container => push_container_text(words, rows, *from, container),
            Wrong::SetDown => push_set_down_text(words, heights, rows, *from, *to),
        },
    }
}

// What is said of a move at this line.
fn move_text(
    alloc: Global,
    number: u64,
    what: Wrong,
    heights: &[u8],
    rows: &[Row],
    said: &SaidMove,
) -> Result<Vec<u8>, AllocError>
    ensures { IfOk result (λ words. words.items ≡ move_text number what heights.now rows.now said.now) }
{
    let mut words = Vec::new(alloc);
    words.extend_from_slice(b"line ")?;
    push_decimal(&mut words, number)?;
    push_wrong(&mut words, what, heights, rows, said)?;
    Ok(words)
}

/// The line on a move at this line, of which this is wrong.
pub(crate) fn line_on_stopping(
    alloc: Global,
    number: u64,
    what: Wrong,
    stopping: &Stopping,
) -> Result<FoundLine, AllocError>
    ensures plain { IfOk result (λ line. IsPlainText line.items) }
    ensures said { IfOk result (λ line. line.items ≡ shown (move_text number what stopping.now.heights.items stopping.now.rows.items stopping.now.said)) }
{
    let words = move_text(
        alloc,
        number,
        what,
        &stopping.heights,
        &stopping.rows,
        &stopping.said,
    )?;
    Ok(shown(words.as_slice()))
}
