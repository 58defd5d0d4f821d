//! How the program ends: the lines for the user, and the exit status.
ghost use Rattle.std.specs.Prelude.{Some, flat_map, option_map};
ghost use Rattle.crp_report.specs.Runs.{SinkSeen, sink_seen};
ghost use Rattle.crp_jobs.specs.Advice.{place_words};
ghost use Rattle.crp_commands.specs.Noted.{GetsLines};
ghost use Rattle.crp_words.specs.Endings.{HelpEnds, IsExplained, IsExplainedWith, UsageEnds, fault_lines, three_lines};

use crate::advice::advice_on_setting;
use crate::usage::{Mistake, Usage};
use arrayvec::ArrayVec;
use crp_jobs::{Place, ToolFault, advice_on, exit_of};
use crp_plan::{Sink, write_each, write_text};
use std::fmt::{self, Display, Write};

// The exit status where the words are wrong.
const WRONG_USAGE: u8 = 2;

// The most bytes of a text of a fault.
const MOST_TEXT: usize = 256;

// The text of a fault, which takes no memory.
#[derive(Drop)]
struct FaultText {
    bytes: ArrayVec<u8, MOST_TEXT>,
}

impl Write for FaultText {
    fn write_str(&mut self, piece: &str) -> fmt::Result {
        match self.bytes.try_extend_from_slice(piece.as_bytes()) {
            Ok(()) => Ok(()),
            Err(_) => Err(fmt::Error),
        }
    }
}

fn text_of<D: Display>(fault: &D) -> FaultText {
    let mut text = FaultText {
        bytes: ArrayVec::new(),
    };
    let _ = write!(text, "{fault}");
    text
}

// Writes the pieces, one after the other, as far as the sink takes them.
fn write_pieces<W: Sink>(sink: &mut W, pieces: &[&[u8]])
    ensures { let seen : SinkSeen = sink_seen W.contents W.failures sink.old sink.new
        in GetsLines seen (flat_map (λ piece. piece.now) pieces.now) }
{
    let mut interruptions = 0;
    let Ok(()) = write_each(sink, pieces, &mut interruptions) else {
        return;
    };
}

// Writes the lines of a fault of a read or a write, or of two files that are one: its text, and the advice behind the place.
fn explain_at<W: Sink>(sink: &mut W, text: &[u8], place: &Place<'_>, advice: &[u8])
    ensures { let seen : SinkSeen = sink_seen W.contents W.failures sink.old sink.new
        in GetsLines seen (fault_lines text.now (Some (place_words place.now)) advice.now) }
{
    match place {
        Place::File(name) => {
            let pieces: [&[u8]; 7] = [
                b"crp: ",
                text,
                b"\nlook at the file ",
                name.as_bytes(),
                b": ",
                advice,
                b"\n",
            ];
            write_pieces(sink, &pieces);
        }
        Place::StandardInput => {
            let pieces: [&[u8]; 5] = [
                b"crp: ",
                text,
                b"\nlook at the standard input: ",
                advice,
                b"\n",
            ];
            write_pieces(sink, &pieces);
        }
        Place::StandardOutput => {
            let pieces: [&[u8]; 5] = [
                b"crp: ",
                text,
                b"\nlook at the standard output: ",
                advice,
                b"\n",
            ];
            write_pieces(sink, &pieces);
        }
        Place::Names(name, other) => {
            let pieces: [&[u8]; 9] = [
                b"crp: ",
                text,
                b"\nthe names ",
                name.as_bytes(),
                b" and ",
                other.as_bytes(),
                b" are of one file: ",
                advice,
                b"\n",
            ];
            write_pieces(sink, &pieces);
        }
        Place::NameAndStream(name, stream) => {
            let pieces: [&[u8]; 9] = [
                b"crp: ",
                text,
                b"\nthe name ",
                name.as_bytes(),
                b" and ",
                stream.as_bytes(),
                b" are of one file: ",
                advice,
                b"\n",
            ];
            write_pieces(sink, &pieces);
        }
    }
}

// Writes the lines of a fault: its text, and the advice behind the place, if there is one.
fn explain<W: Sink>(sink: &mut W, text: &[u8], place: Option<Place<'_>>, advice: &str)
    ensures { let seen : SinkSeen = sink_seen W.contents W.failures sink.old sink.new
        in GetsLines seen (fault_lines text.now (option_map place_words place.entry) advice.now) }
{
    let advice = advice.as_bytes();
    match place {
        Some(place) => explain_at(sink, text, &place, advice),
        None => {
            let pieces: [&[u8]; 5] = [b"crp: ", text, b"\n", advice, b"\n"];
            write_pieces(sink, &pieces);
        }
    }
}

/// Writes the two lines of a fault: what it is, and what to look at.
pub(crate) fn explain_fault<W: Sink>(sink: &mut W, fault: &ToolFault, place: Option<Place<'_>>)
    ensures { let seen : SinkSeen = sink_seen W.contents W.failures sink.old sink.new
        in IsExplained (option_map place_words place.entry) seen }
{
    let text = text_of(fault);
    explain(sink, text.bytes.as_slice(), place, advice_on(fault));
}

// Writes the lines of a fault: its text, the advice, and what was found.
fn explain_with<W: Sink>(sink: &mut W, text: &[u8], advice: &str, found: &[u8])
    ensures { let seen : SinkSeen = sink_seen W.contents W.failures sink.old sink.new
        in GetsLines seen (three_lines text.now advice.now found.now) }
{
    let advice = advice.as_bytes();
    let pieces: [&[u8]; 7] = [b"crp: ", text, b"\n", advice, b"\n", found, b"\n"];
    write_pieces(sink, &pieces);
}

/// Writes the lines of a fault for which no read or write is the cause: what it is, what to look at, and what was found.
pub(crate) fn explain_found<W: Sink>(sink: &mut W, fault: &ToolFault, found: &[u8])
    ensures { let seen : SinkSeen = sink_seen W.contents W.failures sink.old sink.new
        in IsExplainedWith found.now seen }
{
    let text = text_of(fault);
    explain_with(sink, text.bytes.as_slice(), advice_on(fault), found);
}

fn show_help<W: Sink, E: Sink>(text: &str, out: &mut W, errors: &mut E) -> u8
    ensures { let out_seen : SinkSeen = sink_seen W.contents W.failures out.old out.new
        in let errors_seen : SinkSeen = sink_seen E.contents E.failures errors.old errors.new
        in HelpEnds text.now out_seen errors_seen result }
{
    let Ok(()) = write_text(out, text.as_bytes()) else {
        explain_fault(errors, &ToolFault::Write, Some(Place::StandardOutput));
        return exit_of(&Err(ToolFault::Write));
    };
    0
}

/// Ends the program whose words ask for nothing: shows help on the standard output, or says on the standard error what is wrong. Returns
/// the exit status.
pub fn end_with_usage<W: Sink, E: Sink>(usage: &Usage, out: &mut W, errors: &mut E) -> u8
    ensures { let out_seen : SinkSeen = sink_seen W.contents W.failures out.old out.new
        in let errors_seen : SinkSeen = sink_seen E.contents E.failures errors.old errors.new
        in UsageEnds usage.now out_seen errors_seen result }
{
    match usage {
        Usage::Help(text) => show_help(text.as_str(), out, errors),
        Usage::Wrong(Mistake::Words(text)) => {
            let pieces: [&[u8]; 1] = [text.as_bytes()];
            write_pieces(errors, &pieces);
            WRONG_USAGE
        }
        Usage::Wrong(Mistake::Setting(fault)) => {
            let text = text_of(fault);
            explain(
                errors,
                text.bytes.as_slice(),
                None,
                advice_on_setting(fault),
            );
            WRONG_USAGE
        }
        Usage::Memory => {
            explain_fault(errors, &ToolFault::Memory, None);
            exit_of(&Err(ToolFault::Memory))
        }
    }
}
