//! The lines of a report.
ghost use Rattle.std.specs.Prelude.{◌≡◌, ◌++◌, IfOk, OnOk};
ghost use Rattle.crp_said.specs.Said.{counts_line, bay_words, upper_words, cause_words, said_words, bay_line, bays_line};

use crate::numbers::Numbers;
use crate::said::{Said, SaidCause};
use crp_cert::push_decimal;
use crp_plan::BayName;
use std::alloc::{AllocError, Global};

/// Adds the name of a bay, and a colon.
pub fn push_bay_words(text: &mut Vec<u8>, bay: &BayName) -> Result<(), AllocError>
    ensures { OnOk result (text.new.items ≡ text.old.items ++ bay_words bay.now) }
{
    text.extend_from_slice(b"bay ")?;
    text.extend_from_slice(bay.block())?;
    text.push(b' ')?;
    push_decimal(text, bay.bay())?;
    text.extend_from_slice(b": ")
}

// Adds the relocations of a plan, if there is one.
fn push_upper(text: &mut Vec<u8>, upper: Option<u32>) -> Result<(), AllocError>
    ensures { OnOk result (text.new.items ≡ text.old.items ++ upper_words upper) }
{
    match upper {
        Some(count) => push_decimal(text, count),
        None => text.extend_from_slice(b"none"),
    }
}

// Adds why a bay is left open.
fn push_cause(text: &mut Vec<u8>, cause: SaidCause) -> Result<(), AllocError>
    ensures { OnOk result (text.new.items ≡ text.old.items ++ cause_words cause) }
{
    match cause {
        SaidCause::Budget => text.extend_from_slice(b"budget"),
        SaidCause::Memory => text.extend_from_slice(b"memory"),
        SaidCause::Time => text.extend_from_slice(b"time"),
        SaidCause::Edited => text.extend_from_slice(b"edited"),
    }
}

/// Adds what is said of the fewest relocations, in words.
pub fn push_said(text: &mut Vec<u8>, said: Said) -> Result<(), AllocError>
    ensures { OnOk result (text.new.items ≡ text.old.items ++ said_words said) }
{
    match said {
        Said::Optimal(count) => {
            text.extend_from_slice(b"optimal ")?;
            push_decimal(text, count)
        }
        Said::First(count) => {
            text.extend_from_slice(b"optimal ")?;
            push_decimal(text, count)?;
            text.extend_from_slice(b" first")
        }
        Said::NoPlan => text.extend_from_slice(b"no plan"),
        Said::Between {
            lower,
            upper,
            cause,
        } => {
            text.extend_from_slice(b"between ")?;
            push_decimal(text, lower)?;
            text.extend_from_slice(b" and ")?;
            push_upper(text, upper)?;
            text.extend_from_slice(b", ")?;
            push_cause(text, cause)
        }
        Said::Outside(count) => {
            text.extend_from_slice(b"outside the rule ")?;
            push_decimal(text, count)?;
            text.extend_from_slice(b", edited")
        }
    }
}

/// Adds the line of a bay.
pub fn push_bay_line(text: &mut Vec<u8>, bay: &BayName, said: Said) -> Result<(), AllocError>
    ensures { OnOk result (text.new.items ≡ text.old.items ++ bay_line bay.now said) }
{
    push_bay_words(text, bay)?;
    push_said(text, said)?;
    text.push(b'\n')?;
    Ok(())
}

/// The first line of a report.
pub fn numbers_text(alloc: Global, numbers: Numbers) -> Result<Vec<u8>, AllocError>
    ensures { IfOk result (λ text. text.items ≡ counts_line numbers) }
{
    let mut text = Vec::new(alloc);
    text.extend_from_slice(b"orders ")?;
    push_decimal(&mut text, numbers.orders)?;
    text.extend_from_slice(b" open ")?;
    push_decimal(&mut text, numbers.vacant)?;
    text.extend_from_slice(b" absent ")?;
    push_decimal(&mut text, numbers.absent)?;
    text.push(b'\n')?;
    Ok(text)
}

/// The last line of a report.
pub fn last_text(alloc: Global, bays: usize, decided: usize) -> Result<Vec<u8>, AllocError>
    ensures { IfOk result (λ text. text.items ≡ bays_line bays decided) }
{
    let mut text = Vec::new(alloc);
    text.extend_from_slice(b"bays ")?;
    push_decimal(&mut text, bays)?;
    text.extend_from_slice(b" decided ")?;
    push_decimal(&mut text, decided)?;
    text.push(b'\n')?;
    Ok(text)
}
