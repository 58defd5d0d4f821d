//! A sink that writes what is said on the standard error as objects.
ghost use Rattle.std.specs.Prelude.{◌≡◌, ◌≤◌, ◌++◌, ◌∷◌, [], length, take, IfOk, OnOk, OnErr};
ghost use Rattle.std.specs.Io.{WritesAtMost};
ghost use Rattle.std.specs.Io.KnownBytes.{Appends};
ghost use Rattle.crp_plan.specs.Devices.{AppendsFront};
ghost use Rattle.crp_json.specs.Errors.{error_line};
ghost use Rattle.crp_json.specs.Told.{holds_of, IsTaken, IsLeft, IsTold, IsToldAnswer};

use crate::error_objects::with_error_line;
use crate::kept::Kept;
use crate::lines::{Begun, count};
use crp_plan::{Failure, Sink, WriteFault, write_text};
use crp_said::cut_line;
use std::alloc::{AllocError, Global};
use std::marker::{Model, PhantomData};
use std::mem;

// The bytes that are kept free for a line: with them a few short lines take no memory, so that it can be said that memory is lacking.
const LINE: usize = 1024;

// The same for the object of a line.
const OBJECT: usize = 2048;

// The lines that are complete, of which no memory is kept, the one that is under way, and the room for an object.
#[derive(Drop)]
struct Lines {
    complete: Kept<u8>,
    line: Vec<u8>,
    room: Vec<u8>,
}

/// A sink in front of another one. What it is given goes on as it is; or, where objects are asked for, the other sink gets the object of each
/// line, as soon as its LF has come. Where a call of the other sink fails or memory is refused, that is a failure, and each call behind a failure
/// is one.
#[derive(Drop)]
pub struct JsonErrors<S: Sink, B: Begun> {
    alloc: Global,
    out: S,
    is_json: bool,
    lines: Lines,
    failed: u64,
    begun: PhantomData<B>,
}

impl<S: Sink, B: Begun> Model for JsonErrors<S, B> {
    ghost use Rattle.crp_json.specs.Told.{Told, IsTold};

    ghost Value = { Told };

    ghost view = { λ d. record { is_json = d.is_json; lines = d.lines.complete; line = d.lines.line.items; holds = S.contents d.out; failures = d.failed } };

    ghost invariant = { λ d. IsTold B.held (record { is_json = d.is_json; lines = d.lines.complete; line = d.lines.line.items; holds = S.contents d.out; failures = d.failed }) };
}

// No bytes, with room for so many where that is asked for, if memory is there.
fn with_room(alloc: Global, is_asked: bool, most: usize) -> Vec<u8>
    ensures { result.items ≡ [] }
{
    if !is_asked {
        return Vec::new(alloc);
    }
    match Vec::with_capacity(alloc, most) {
        Ok(room) => room,
        Err(_) => Vec::new(alloc),
    }
}

// Writes the object of a line.
fn write_object<S: Sink>(
    alloc: Global,
    out: &mut S,
    line: &[u8],
    room: &mut Vec<u8>,
) -> Result<(), WriteFault>
    ensures all { OnOk result (Appends (S.contents out.old) (S.contents out.new) (error_line line.now)) }
    ensures front { OnErr result (AppendsFront (S.contents out.old) (S.contents out.new) (error_line line.now)) }
{
    let mut free = mem::replace(room, Vec::new(alloc));
    free.clear();
    let object = with_error_line(alloc, free, line)?;
    write_text(out, &object)?;
    *room = object;
    Ok(())
}

// Ends the line under way with these bytes, and writes its object; or leaves it as it is.
fn end_line<S: Sink>(
    alloc: Global,
    out: &mut S,
    lines: &mut Lines,
    bytes: &[u8],
) -> Result<(), WriteFault>
    ensures ended { OnOk result ((lines.new.complete ≡ lines.old.complete ++ (lines.old.line.items ++ bytes.now) ∷ []) × (lines.new.line.items ≡ [])) }
    ensures all { OnOk result (Appends (S.contents out.old) (S.contents out.new) (error_line (lines.old.line.items ++ bytes.now))) }
    ensures left { OnErr result ((lines.new.complete ≡ lines.old.complete) × (lines.new.line.items ≡ lines.old.line.items)) }
    ensures front { OnErr result (AppendsFront (S.contents out.old) (S.contents out.new) (error_line (lines.old.line.items ++ bytes.now))) }
{
    let begun = lines.line.len();
    lines.line.extend_from_slice(bytes)?;
    if let Err(fault) = write_object(alloc, out, &lines.line, &mut lines.room) {
        lines.line.truncate(begun);
        return Err(fault);
    }
    let line = mem::replace(&mut lines.line, Vec::new(alloc));
    lines.line = lines.complete.add(line);
    lines.line.clear();
    Ok(())
}

// Takes a piece up to its first LF, and says how long that is; or takes nothing.
fn take_front<S: Sink>(
    alloc: Global,
    out: &mut S,
    lines: &mut Lines,
    piece: &[u8],
) -> Result<usize, WriteFault>
    ensures within { IfOk result (λ n. n ≤ length piece.now) }
    ensures taken { IfOk result (λ n. IsTaken lines.old.complete lines.new.complete lines.old.line.items lines.new.line.items (S.contents out.old) (S.contents out.new) (take n piece.now)) }
    ensures left { OnErr result (IsLeft lines.old.complete lines.new.complete lines.old.line.items lines.new.line.items (S.contents out.old) (S.contents out.new)) }
{
    let Some((bytes, _rest)) = cut_line(piece) else {
        lines.line.extend_from_slice(piece)?;
        return Ok(piece.len());
    };
    end_line(alloc, out, lines, bytes)?;
    Ok(bytes.len() + 1)
}

// The answer to a piece, where so many calls have failed.
fn answer_to<S: Sink>(
    alloc: Global,
    out: &mut S,
    is_json: bool,
    lines: &mut Lines,
    failed: u64,
    piece: &[u8],
) -> Result<usize, Failure>
    ensures bound { WritesAtMost result piece.now }
    ensures answer { IsToldAnswer is_json failed result lines.old.complete lines.new.complete lines.old.line.items lines.new.line.items (S.contents out.old) (S.contents out.new) piece.now }
{
    if !is_json {
        return out.write(piece);
    }
    if failed != 0 {
        return Err(Failure::Failed);
    }
    match take_front(alloc, out, lines, piece) {
        Ok(n) => Ok(n),
        Err(_) => Err(Failure::Failed),
    }
}

impl<S: Sink, B: Begun> JsonErrors<S, B> {
    /// In front of a sink. Where objects are not asked for, what it is given goes on as it is.
    pub fn new(alloc: Global, out: S, is_json: bool) -> JsonErrors<S, B>
        requires { B.held ≡ S.contents out }
        ensures { result ≡ record { is_json = is_json; lines = []; line = []; holds = S.contents out; failures = 0 } }
    {
        JsonErrors {
            alloc,
            out,
            is_json,
            lines: Lines {
                complete: Kept::new(),
                line: with_room(alloc, is_json, LINE),
                room: with_room(alloc, is_json, OBJECT),
            },
            failed: 0,
            begun: PhantomData,
        }
    }

    /// The other sink. Where objects are asked for, it has got those of the lines that are complete, and nothing else, as long as no call has
    /// failed; and in any case a front of that of one more at most behind them.
    pub fn out(&self) -> &S
        ensures holds { S.contents result.now ≡ self.now.holds }
        ensures told { IsTold B.held self.now }
    {
        &self.out
    }
}

impl<S: Sink, B: Begun> Sink for JsonErrors<S, B> {
    ghost contents = { λ d. holds_of B.held d };

    ghost failures = { λ d. d.failures };

    fn write(&mut self, piece: &[u8]) -> Result<usize, Failure> {
        let answer = answer_to(
            self.alloc,
            &mut self.out,
            self.is_json,
            &mut self.lines,
            self.failed,
            piece,
        );
        self.failed = count(self.failed, answer, piece);
        answer
    }
}
