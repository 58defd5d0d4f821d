//! A sink that writes what is printed as JSON Lines.
ghost use Rattle.std.specs.Prelude.{◌≡◌, ◌++◌, ◌∷◌, [], length, option_map, IfOk, OnOk, OnErr};
ghost use Rattle.std.specs.Io.{WritesAtMost};
ghost use Rattle.std.specs.Io.KnownBytes.{Appends};
ghost use Rattle.crp_plan.specs.Devices.{AppendsFront, CountsWrite};
ghost use Rattle.crp_json.specs.Lines.{json_of};
ghost use Rattle.crp_json.specs.Shown.{opening, holds_of, IsOneMore, IsNoMore, IsAnswer, IsShown};

use crate::entry::{Entry, Printed};
use crate::kept::Kept;
use crate::objects::push_lines;
use crate::reading::read_entries;
use crp_plan::{Failure, Sink, WriteFault, write_text};
use std::alloc::{AllocError, Global};
use std::marker::{Brand, Model, PhantomData};

/// What a sink held before another one was put in front of it. Who does that picks it, by the type `Brand`.
pub trait Begun {
    ghost use Rattle.std.specs.Prelude.{ℕ, List, Option};

    ghost held: { Option (List ℕ) };
}

impl Begun for Brand {
    ghost use Rattle.std.specs.Prelude.{None};

    ghost held = { None };
}

// What is printed, and the first line of JSON Lines, where these are asked for.
#[derive(Drop)]
struct Asked {
    printed: Printed,
    first: Option<Vec<u8>>,
}

/// A sink in front of another one. What it is given goes on as it is; or, where JSON Lines are asked for, what it is given are the pieces of
/// what is printed, each with the lines of some entries, and the other sink gets their JSON Lines. A piece that is none is a failure, and each
/// call behind a failure is one.
#[derive(Drop)]
pub struct JsonLines<S: Sink, B: Begun> {
    alloc: Global,
    out: S,
    asked: Asked,
    pieces: Kept<Entry>,
    failed: u64,
    begun: PhantomData<B>,
}

impl<S: Sink, B: Begun> Model for JsonLines<S, B> {
    ghost use Rattle.std.specs.Prelude.{option_map};
    ghost use Rattle.crp_json.specs.Shown.{Shown, IsShown};

    ghost Value = { Shown };

    ghost view = { λ d. record { printed = d.asked.printed; first = option_map (λ line. line.items) d.asked.first; pieces = d.pieces; holds = S.contents d.out; failures = d.failed } };

    ghost invariant = { λ d. IsShown B.held (record {
      printed = d.asked.printed;
      first = option_map (λ line. line.items) d.asked.first;
      pieces = d.pieces;
      holds = S.contents d.out;
      failures = d.failed;
    }) };
}

// The JSON Lines of a piece behind these, with the first line where it is the first one.
fn next_lines(
    alloc: Global,
    first: &[u8],
    pieces: &Kept<Entry>,
    entries: &[Entry],
) -> Result<Vec<u8>, AllocError>
    ensures { IfOk result (λ lines. lines.items ≡ opening first.now pieces.now ++ json_of entries.now) }
{
    let mut lines = Vec::new(alloc);
    if pieces.is_empty() {
        lines.extend_from_slice(first)?;
    }
    push_lines(alloc, &mut lines, entries)?;
    Ok(lines)
}

// Writes the JSON Lines of entries, and adds them as a piece; or adds none.
fn add<S: Sink>(
    alloc: Global,
    out: &mut S,
    first: &[u8],
    pieces: &mut Kept<Entry>,
    entries: Vec<Entry>,
) -> Result<(), WriteFault>
    ensures added { OnOk result ((pieces.new ≡ pieces.old ++ entries.items ∷ [])
        × Appends (S.contents out.old) (S.contents out.new) (opening first.now pieces.old ++ json_of entries.items)) }
    ensures kept { OnErr result ((pieces.new ≡ pieces.old) × AppendsFront (S.contents out.old) (S.contents out.new) (opening first.now pieces.old ++ json_of entries.items)) }
{
    let lines = next_lines(alloc, first, pieces, &entries)?;
    write_text(out, &lines)?;
    let _entries = pieces.add(entries);
    Ok(())
}

// Writes the JSON Lines of the entries whose lines a piece has, and adds it; or adds none.
fn show<S: Sink>(
    alloc: Global,
    out: &mut S,
    printed: Printed,
    first: &[u8],
    pieces: &mut Kept<Entry>,
    piece: &[u8],
) -> Result<usize, Failure>
    ensures all { IfOk result (λ n. n ≡ length piece.now) }
    ensures shown { OnOk result (IsOneMore printed first.now pieces.old pieces.new (S.contents out.old) (S.contents out.new) piece.now) }
    ensures kept { OnErr result (IsNoMore printed first.now pieces.old pieces.new (S.contents out.old) (S.contents out.new)) }
{
    let Ok(Some(entries)) = read_entries(alloc, printed, piece) else {
        return Err(Failure::Failed);
    };
    match add(alloc, out, first, pieces, entries) {
        Ok(()) => Ok(piece.len()),
        Err(_) => Err(Failure::Failed),
    }
}

// The answer to a piece, where so many calls have failed.
fn answer_to<S: Sink>(
    alloc: Global,
    out: &mut S,
    asked: &Asked,
    pieces: &mut Kept<Entry>,
    failed: u64,
    piece: &[u8],
) -> Result<usize, Failure>
    ensures bound { WritesAtMost result piece.now }
    ensures answer { IsAnswer asked.now.printed (option_map (λ line. line.items) asked.now.first) failed result pieces.old pieces.new (S.contents out.old) (S.contents out.new) piece.now }
{
    let Some(first) = &asked.first else {
        return out.write(piece);
    };
    if failed != 0 {
        return Err(Failure::Failed);
    }
    show(alloc, out, asked.printed, first, pieces, piece)
}

/// The count of failures with that of an answer to a piece, if it is one.
pub(crate) fn count(failed: u64, answer: Result<usize, Failure>, piece: &[u8]) -> u64
    ensures { CountsWrite failed result answer piece.now }
{
    match answer {
        Ok(n) if n != 0 || piece.is_empty() => failed,
        _ => failed.saturating_add(1),
    }
}

impl<S: Sink, B: Begun> JsonLines<S, B> {
    /// In front of a sink. Where a first line is given, JSON Lines are asked for, behind that line, of what is printed; else what it is given
    /// goes on as it is.
    pub fn new(alloc: Global, out: S, printed: Printed, first: Option<Vec<u8>>) -> JsonLines<S, B>
        requires { B.held ≡ S.contents out }
        ensures { result ≡ record { printed = printed; first = option_map (λ line. line.items) first; pieces = []; holds = S.contents out; failures = 0 } }
    {
        JsonLines {
            alloc,
            out,
            asked: Asked { printed, first },
            pieces: Kept::new(),
            failed: 0,
            begun: PhantomData,
        }
    }

    /// The other sink. Where JSON Lines are asked for, it has got those of the entries, and nothing else, as long as no call has failed; and in
    /// any case a front of those of some more at most behind them.
    pub fn out(&self) -> &S
        ensures holds { S.contents result.now ≡ self.now.holds }
        ensures shown { IsShown B.held self.now }
    {
        &self.out
    }
}

impl<S: Sink, B: Begun> Sink for JsonLines<S, B> {
    ghost contents = { λ d. holds_of B.held d };

    ghost failures = { λ d. d.failures };

    fn write(&mut self, piece: &[u8]) -> Result<usize, Failure> {
        let answer = answer_to(
            self.alloc,
            &mut self.out,
            &self.asked,
            &mut self.pieces,
            self.failed,
            piece,
        );
        self.failed = count(self.failed, answer, piece);
        answer
    }
}
