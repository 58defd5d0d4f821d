//! Writing the object of an entry.
ghost use Rattle.std.specs.Prelude.{◌≡◌, ◌++◌, codes, flat_map, IfOk, OnOk};
ghost use Rattle.crp_said.specs.Said.{cause_words};
ghost use Rattle.crp_json.specs.Adding.{Adds};
ghost use Rattle.crp_json.specs.Objects.{member, array, text_token, verdict_words, lower_said, is_first, cause_tokens, said_members, place_tokens, container_member, move_members, move_tokens, numbers_object, bay_object, last_object, entry_object, head_object};
ghost use Rattle.crp_json.specs.Lines.{entry_line, first_line, json_of};

use crate::check_objects::{push_audited, push_bounds, push_shown_object};
use crate::entry::{BayEntry, Entry};
use crate::members::{push_bay, push_bytes, push_number, push_option, push_text};
use crp_said::{Numbers, Place, Said, SaidCause, SaidMove};
use json::Writer;
use std::alloc::{AllocError, Global};

// What is known of the fewest relocations.
fn verdict_of(said: Said) -> &'static str
    ensures { result.now ≡ verdict_words said }
{
    match said {
        Said::Optimal(_) | Said::First(_) => "optimal",
        Said::NoPlan => "no plan",
        Said::Between { .. } => "between",
        Said::Outside(_) => "outside the rule",
    }
}

// The relocations that each plan has at least.
fn lower_of(said: Said) -> Option<u32>
    ensures { result ≡ lower_said said }
{
    match said {
        Said::Optimal(count) | Said::First(count) => Some(count),
        Said::NoPlan | Said::Outside(_) => None,
        Said::Between { lower, .. } => Some(lower),
    }
}

// Whether the printed plan is the first of the best.
fn is_first(said: Said) -> bool
    ensures { result ≡ is_first said }
{
    matches!(said, Said::First(_))
}

// Why a bay is left open.
fn cause_of(cause: SaidCause) -> &'static str
    ensures { result.now ≡ cause_words cause }
{
    match cause {
        SaidCause::Budget => "budget",
        SaidCause::Memory => "memory",
        SaidCause::Time => "time",
        SaidCause::Edited => "edited",
    }
}

// Adds why a bay is left open, if it is.
fn push_cause(out: &mut Writer, said: Said) -> Result<(), AllocError>
    ensures { Adds result out.old out.new (member (codes "cause") (cause_tokens said)) }
{
    out.key("cause")?;
    match said {
        Said::Between { cause, .. } => out.string(cause_of(cause)),
        Said::Outside(_) => out.string(cause_of(SaidCause::Edited)),
        Said::Optimal(_) | Said::First(_) | Said::NoPlan => out.null(),
    }
}

// Adds a place.
fn push_place(out: &mut Writer, name: &str, place: Place) -> Result<(), AllocError>
    ensures { Adds result out.old out.new (member name.now (place_tokens place)) }
{
    out.key(name)?;
    out.begin_object()?;
    push_number(out, "row", place.row as u64)?;
    push_number(out, "tier", place.tier as u64)?;
    out.end_object()
}

// Adds the name of a container.
fn push_container(alloc: Global, out: &mut Writer, name: &[u8]) -> Result<(), AllocError>
    ensures { Adds result out.old out.new (container_member name.now) }
{
    push_bytes(alloc, out, "container", "container_hex", name)
}

// Adds what a move does, and where and to which container.
fn push_members(alloc: Global, out: &mut Writer, step: &SaidMove) -> Result<(), AllocError>
    ensures { Adds result out.old out.new (move_members step.now) }
{
    match step {
        SaidMove::Shift {
            from,
            to,
            container,
        } => {
            push_text(out, "move", "shift")?;
            push_place(out, "from", *from)?;
            push_place(out, "to", *to)?;
            push_container(alloc, out, container.bytes())
        }
        SaidMove::Take { from, container } => {
            push_text(out, "move", "take")?;
            push_place(out, "from", *from)?;
            push_container(alloc, out, container.bytes())
        }
    }
}

// Adds a move.
fn push_move(alloc: Global, out: &mut Writer, step: &SaidMove) -> Result<(), AllocError>
    ensures { Adds result out.old out.new (move_tokens step.now) }
{
    out.begin_object()?;
    push_members(alloc, out, step)?;
    out.end_object()
}

// Adds moves.
fn push_items(alloc: Global, out: &mut Writer, moves: &[SaidMove]) -> Result<(), AllocError>
    ensures { Adds result out.old out.new (flat_map move_tokens moves.now) }
{
    for step in moves {
        push_move(alloc, out, step)?;
    }
    Ok(())
}

// Adds the moves of a bay.
fn push_moves(alloc: Global, out: &mut Writer, moves: &[SaidMove]) -> Result<(), AllocError>
    ensures { Adds result out.old out.new (member (codes "moves") (array (flat_map move_tokens moves.now))) }
{
    out.key("moves")?;
    out.begin_array()?;
    push_items(alloc, out, moves)?;
    out.end_array()
}

// Adds the object of a first line.
fn push_numbers(out: &mut Writer, numbers: &Numbers) -> Result<(), AllocError>
    ensures { Adds result out.old out.new (numbers_object numbers.now) }
{
    out.begin_object()?;
    push_number(out, "orders", numbers.orders)?;
    push_number(out, "open", numbers.vacant)?;
    push_number(out, "absent", numbers.absent)?;
    out.end_object()
}

// Adds what is said of a bay.
fn push_said(out: &mut Writer, said: Said) -> Result<(), AllocError>
    ensures { Adds result out.old out.new (said_members said) }
{
    push_text(out, "verdict", verdict_of(said))?;
    push_option(out, "lower", lower_of(said))?;
    push_option(out, "upper", said.count())?;
    out.key("first")?;
    out.boolean(is_first(said))?;
    push_cause(out, said)
}

// Adds the object of a bay.
fn push_bay_object(alloc: Global, out: &mut Writer, bay: &BayEntry) -> Result<(), AllocError>
    ensures { Adds result out.old out.new (bay_object bay.now.bay bay.now.said bay.now.moves.items) }
{
    out.begin_object()?;
    push_bay(out, &bay.bay)?;
    push_said(out, bay.said)?;
    push_moves(alloc, out, &bay.moves)?;
    out.end_object()
}

// Adds the object of a last line.
fn push_last(out: &mut Writer, bays: u32, decided: u32) -> Result<(), AllocError>
    ensures { Adds result out.old out.new (last_object bays decided) }
{
    out.begin_object()?;
    push_number(out, "bays", bays as u64)?;
    push_number(out, "decided", decided as u64)?;
    out.end_object()
}

// Adds the object of an entry.
fn push_entry(alloc: Global, out: &mut Writer, entry: &Entry) -> Result<(), AllocError>
    ensures { Adds result out.old out.new (entry_object entry.now) }
{
    match entry {
        Entry::First(numbers) => push_numbers(out, numbers),
        Entry::Bay(bay) => push_bay_object(alloc, out, bay),
        Entry::Last { bays, decided } => push_last(out, *bays, *decided),
        Entry::Certified(bay) => push_shown_object(out, bay),
        Entry::Audited(bays) => push_audited(out, *bays),
        Entry::Bounds(bounds) => push_bounds(out, bounds),
    }
}

// Adds a text.
fn push_one(out: &mut Writer, text: &&str) -> Result<(), AllocError>
    ensures { Adds result out.old out.new (text_token text.now.now) }
{
    out.string(text)
}

// Adds texts.
fn push_texts(out: &mut Writer, texts: &[&str]) -> Result<(), AllocError>
    ensures { Adds result out.old out.new (flat_map (λ text. text_token text.now) texts.now) }
{
    for text in texts {
        push_one(out, text)?;
    }
    Ok(())
}

// Adds the words by which a report was asked for.
fn push_words(out: &mut Writer, words: &[&str]) -> Result<(), AllocError>
    ensures { Adds result out.old out.new (member (codes "words") (array (flat_map (λ word. text_token word.now) words.now))) }
{
    out.key("words")?;
    out.begin_array()?;
    push_texts(out, words)?;
    out.end_array()
}

// Adds the object of the first line.
fn push_head(out: &mut Writer, version: &str, words: &[&str]) -> Result<(), AllocError>
    ensures { Adds result out.old out.new (head_object version.now (flat_map (λ word. text_token word.now) words.now)) }
{
    out.begin_object()?;
    push_number(out, "format", 1)?;
    push_text(out, "program", "crp")?;
    push_text(out, "version", version)?;
    push_words(out, words)?;
    out.end_object()
}

/// The first line, of this version of the program and these words, by which it was asked for the report.
pub fn head_line(alloc: Global, version: &str, words: &[&str]) -> Result<Vec<u8>, AllocError>
    ensures { IfOk result (λ line. line.items ≡ first_line version.now (flat_map (λ word. text_token word.now) words.now)) }
{
    let mut out = Writer::new(Vec::new(alloc));
    push_head(&mut out, version, words)?;
    let mut line = out.into_inner();
    line.push(b'\n')?;
    Ok(line)
}

/// The line of an entry.
pub fn line_of(alloc: Global, entry: &Entry) -> Result<Vec<u8>, AllocError>
    ensures { IfOk result (λ line. line.items ≡ entry_line entry.now) }
{
    let mut out = Writer::new(Vec::new(alloc));
    push_entry(alloc, &mut out, entry)?;
    let mut line = out.into_inner();
    line.push(b'\n')?;
    Ok(line)
}

/// Adds the lines of entries.
pub(crate) fn push_lines(
    alloc: Global,
    text: &mut Vec<u8>,
    entries: &[Entry],
) -> Result<(), AllocError>
    ensures { OnOk result (text.new.items ≡ text.old.items ++ json_of entries.now) }
{
    for entry in entries {
        let line = line_of(alloc, entry)?;
        text.extend_from_slice(&line)?;
    }
    Ok(())
}
