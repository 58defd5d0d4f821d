//! What the page says of all bays: the paragraph of counts, and the table.
ghost use Rattle.std.specs.Prelude.{◌≡◌, ◌++◌, ◌≤◌, ◌^◌, ◌*◌, ◌-◌, map, OnOk};
ghost use Rattle.std.specs.List.{AllByRecursion};
ghost use Rattle.crp_follow.specs.Views.{bay_followed};
ghost use Rattle.crp_page.specs.Few.{LeaveFew};
ghost use Rattle.crp_page.specs.Numbered.{numbered_text};
ghost use Rattle.crp_page.specs.Summary.{not_taken, ordered, ordered_by, numbers_in, taken, paragraph, cell, cells, table_row, table_foot, table};

use crate::constants::TABLE_HEAD;
use crate::counting::{Counts, counts_of, decided_in, sums_of};
use crate::ordered::OrderNumbers;
use crate::words::{push_bay_name, push_counted, push_verdict};
use crp_cert::push_decimal;
use crp_follow::{Followed, FollowedBay};
use crp_said::Numbers;
use std::alloc::AllocError;

/// Adds how many of so many ordered containers are not taken, where so many are known.
fn push_not_taken(text: &mut Vec<u8>, orders: u128, known: u128) -> Result<(), AllocError>
    ensures { OnOk result (text.new.items ≡ text.old.items ++ not_taken orders known) }
{
    if known < orders {
        text.extend_from_slice(b", ")?;
        push_decimal(text, orders - known)?;
        text.extend_from_slice(b" not taken")?;
    }
    Ok(())
}

/// Adds the loading orders and groups, and the orders of containers that are not in the yard.
fn push_ordered(text: &mut Vec<u8>, numbers: Numbers) -> Result<(), AllocError>
    ensures { OnOk result (text.new.items ≡ text.old.items ++ ordered numbers) }
{
    push_counted(text, numbers.orders, b"container")?;
    text.extend_from_slice(b" ordered, ")?;
    push_counted(text, numbers.vacant, b"slot")?;
    text.extend_from_slice(b" open, ")?;
    push_decimal(text, numbers.absent)?;
    text.extend_from_slice(b" not in the yard")?;
    Ok(())
}

/// Adds these, and who says so.
fn push_ordered_by(text: &mut Vec<u8>, numbers: OrderNumbers) -> Result<(), AllocError>
    ensures { OnOk result (text.new.items ≡ text.old.items ++ ordered_by numbers) }
{
    match numbers {
        OrderNumbers::Counted(numbers) => push_ordered(text, numbers),
        OrderNumbers::Stated(numbers) => {
            push_ordered(text, numbers)?;
            text.extend_from_slice(b", as the report says")
        }
    }
}

fn numbers_in(numbers: OrderNumbers) -> Numbers
    ensures { result ≡ numbers_in numbers }
{
    match numbers {
        OrderNumbers::Counted(numbers) | OrderNumbers::Stated(numbers) => numbers,
    }
}

/// Adds how many are taken, and how many are not.
fn push_taken(text: &mut Vec<u8>, numbers: Numbers, takes: u128) -> Result<(), AllocError>
    requires { takes ≤ (2 ^ 64 - 1) * (2 ^ 64 - 1) }
    ensures { OnOk result (text.new.items ≡ text.old.items ++ taken numbers takes) }
{
    push_decimal(text, takes)?;
    text.extend_from_slice(b" taken by the moves")?;
    push_not_taken(text, numbers.orders as u128, takes + numbers.absent as u128)
}

/// Adds the paragraph of these counts and those of the bays, of a yard of so many bays.
pub(crate) fn push_paragraph(
    text: &mut Vec<u8>,
    count: usize,
    numbers: OrderNumbers,
    followed: &Followed,
) -> Result<(), AllocError>
    requires { AllByRecursion LeaveFew (map bay_followed followed.now.bays.items) }
    ensures { OnOk result (text.new.items ≡ text.old.items ++ paragraph count numbers (map bay_followed followed.now.bays.items)) }
{
    let takes = sums_of(&followed.bays).takes;
    let others = count.saturating_sub(followed.bays.len());
    text.extend_from_slice(b"<p>")?;
    push_ordered_by(text, numbers)?;
    text.extend_from_slice(b"; ")?;
    push_taken(text, numbers_in(numbers), takes)?;
    text.extend_from_slice(b". ")?;
    push_counted(text, others as u64, b"bay")?;
    text.extend_from_slice(b" of the yard not in the report.</p>\n")?;
    Ok(())
}

/// Adds a number in its cell.
fn push_cell(text: &mut Vec<u8>, n: u128) -> Result<(), AllocError>
    ensures { OnOk result (text.new.items ≡ text.old.items ++ cell n) }
{
    text.extend_from_slice(b"<td>")?;
    push_decimal(text, n)?;
    text.extend_from_slice(b"</td>")
}

/// Adds the last four cells of a row.
fn push_cells(text: &mut Vec<u8>, counts: Counts) -> Result<(), AllocError>
    ensures { OnOk result (text.new.items ≡ text.old.items ++ cells counts) }
{
    push_cell(text, counts.moves)?;
    push_cell(text, counts.relocations)?;
    push_cell(text, counts.takes)?;
    push_cell(text, counts.left)?;
    text.extend_from_slice(b"</tr>")
}

/// Adds the row of the bay with this number.
fn push_table_row(text: &mut Vec<u8>, number: u64, bay: &FollowedBay) -> Result<(), AllocError>
    requires { LeaveFew (bay_followed bay.now) }
    ensures { OnOk result (text.new.items ≡ text.old.items ++ table_row number (bay_followed bay.now)) }
{
    text.extend_from_slice(b"<tr><th scope=\"row\"><a href=\"#b")?;
    push_decimal(text, number)?;
    text.extend_from_slice(b"\">")?;
    push_bay_name(text, &bay.stated.bay)?;
    text.extend_from_slice(b"</a></th><td>")?;
    push_verdict(text, bay.stated.said)?;
    text.extend_from_slice(b"</td>")?;
    push_cells(text, counts_of(bay))?;
    text.push(b'\n')?;
    Ok(())
}

/// Adds the rows of the bays.
fn push_table_rows(text: &mut Vec<u8>, bays: &[FollowedBay]) -> Result<(), AllocError>
    requires { AllByRecursion LeaveFew (map bay_followed bays.now) }
    ensures { OnOk result (text.new.items ≡ text.old.items ++ numbered_text table_row 1 (map bay_followed bays.now)) }
{
    for (i, bay) in bays.iter().enumerate() {
        push_table_row(text, i as u64 + 1, bay)?;
    }
    Ok(())
}

/// Adds the last row.
fn push_table_foot(text: &mut Vec<u8>, bays: &[FollowedBay]) -> Result<(), AllocError>
    requires { AllByRecursion LeaveFew (map bay_followed bays.now) }
    ensures { OnOk result (text.new.items ≡ text.old.items ++ table_foot (map bay_followed bays.now)) }
{
    text.extend_from_slice(b"</tbody><tfoot><tr><th scope=\"row\">")?;
    push_counted(text, bays.len() as u64, b"bay")?;
    text.extend_from_slice(b"</th><td>")?;
    push_decimal(text, decided_in(bays))?;
    text.extend_from_slice(b" decided, as the report says</td>")?;
    push_cells(text, sums_of(bays))?;
    text.extend_from_slice(b"</tfoot></table>\n")?;
    Ok(())
}

/// Adds the table of the bays.
pub(crate) fn push_table(text: &mut Vec<u8>, bays: &[FollowedBay]) -> Result<(), AllocError>
    requires { AllByRecursion LeaveFew (map bay_followed bays.now) }
    ensures { OnOk result (text.new.items ≡ text.old.items ++ table (map bay_followed bays.now)) }
{
    text.extend_from_slice(TABLE_HEAD)?;
    push_table_rows(text, bays)?;
    push_table_foot(text, bays)
}
