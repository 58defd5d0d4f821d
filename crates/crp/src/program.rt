//! The program over its words and its streams.
ghost use Rattle.std.specs.Prelude.{◌≡◌, ◌⊎◌, ◌&&◌, IfOk, MatchResult, map, string_bytes};
ghost use Rattle.crp_report.specs.Runs.{SinkSeen, sink_seen};
ghost use Rattle.crp_jobs.specs.Opened.{IsLeftAlone};
ghost use Rattle.crp_commands.specs.Noted.{GetsLines};
ghost use Rattle.crp_commands.specs.Performing.{JobSeen, job_seen};
ghost use Rattle.crp_words.specs.Endings.{EndsUntouched};
ghost use Rattle.crp.specs.declared.program.TheConstants.{READER_ENDED};
ghost use Rattle.crp.specs.Running.{MaySayLast, SaysIf, StartEnds, are_none};

use crate::piped::ReadBy;
use crp_commands::{Streams, Terminal};
use crp_files::Files;
use crp_plan::{Sink, Source, write_text};
use crp_words::{Usage, end_with_usage, run_words};
use std::alloc::{AllocError, Global};
use std::sync::Wait;
use std::thread::Threads;

// What is said where no words are given, to whoever sits before the terminal that is read then.
const AWAITED: &[u8] =
    b"crp: note: a certificate is read from the keyboard; crp help lists the commands\n";

// What is said where the standard output is a pipe that nobody reads any more.
const READER_ENDED: &[u8] =
    b"the program that reads the standard output has ended: nothing is wrong with a disk\n";

/// The texts behind the words.
pub(crate) fn texts_of<'a>(alloc: Global, words: &'a [String]) -> Result<Vec<&'a str>, AllocError>
    ensures { IfOk result (λ texts. map (λ text. text.now) texts.items ≡ map string_bytes words.entry.now) }
{
    let mut texts = Vec::new(alloc);
    for word in words {
        texts.push(word.as_str())?;
    }
    Ok(texts)
}

// Whether somebody who sits before the standard input is told what is awaited there.
fn is_told(is_awaited: bool, texts: &[&str]) -> bool
    ensures { result ≡ (is_awaited && are_none (map (λ text. text.now) texts.now)) }
{
    is_awaited && texts.is_empty()
}

// Says a text where that is asked for, as far as the sink takes it.
fn say_if<E: Sink>(asked: bool, errors: &mut E, text: &[u8])
    ensures { SaysIf asked text.now (sink_seen E.contents E.failures errors.old errors.new) }
{
    if asked {
        let _said = write_text(errors, text);
    }
}

// Does what the words ask for; before, where there are none and somebody sits before the standard input, it says what is awaited there.
fn start<T: Threads + Wait + Sync, F: Files, R: Source, W: Sink, E: Sink, S: Terminal + Sync>(
    threads: &T,
    alloc: Global,
    files: &mut F,
    streams: &mut Streams<R, W, E>,
    words: &[String],
    is_awaited: bool,
    terminal: &S,
) -> u8
    ensures { let seen : JobSeen = job_seen F.known F.failures R.remaining R.failures W.contents W.failures files.old files.new streams.old streams.new
        in let errors_seen : SinkSeen = sink_seen E.contents E.failures streams.old.errors streams.new.errors
        in StartEnds (map string_bytes words.now) is_awaited seen errors_seen result }
{
    let Ok(texts) = texts_of(alloc, words) else {
        return end_with_usage(&Usage::Memory, &mut streams.out, &mut streams.errors);
    };
    say_if(is_told(is_awaited, &texts), &mut streams.errors, AWAITED);
    run_words(threads, alloc, files, streams, &texts, terminal)
}

// Does what the words ask for, or says why they were not had.
fn begin<T: Threads + Wait + Sync, F: Files, R: Source, W: Sink, E: Sink, S: Terminal + Sync>(
    threads: &T,
    alloc: Global,
    files: &mut F,
    streams: &mut Streams<R, W, E>,
    words: &Result<Vec<String>, Usage>,
    is_awaited: bool,
    terminal: &S,
) -> u8
    ensures { let seen : JobSeen = job_seen F.known F.failures R.remaining R.failures W.contents W.failures files.old files.new streams.old streams.new
        in let errors_seen : SinkSeen = sink_seen E.contents E.failures streams.old.errors streams.new.errors
        in MatchResult words.now (λ words. StartEnds (map string_bytes words.items) is_awaited seen errors_seen result) (λ why. EndsUntouched why seen errors_seen result) }
{
    match words {
        Ok(words) => start(threads, alloc, files, streams, words, is_awaited, terminal),
        Err(usage) => end_with_usage(usage, &mut streams.out, &mut streams.errors),
    }
}

// Says that the reader of the standard output has ended, where it has.
fn say_if_ended<E: Sink>(has_no_reader: bool, errors: &mut E)
    ensures { let last : SinkSeen = sink_seen E.contents E.failures errors.old errors.new in IsLeftAlone last ⊎ GetsLines last READER_ENDED.now }
{
    say_if(has_no_reader, errors, READER_ENDED);
}

/// Runs the program over the words behind its name, or over why they were not had, over its files and its streams, and returns its exit
/// status. Where there are no words, and somebody sits before the standard input, it says first what is awaited there. Where the program
/// that reads the standard output has ended, it says so last.
pub fn run<
    T: Threads + Wait + Sync,
    F: Files,
    R: Source,
    W: Sink + ReadBy,
    E: Sink,
    S: Terminal + Sync,
>(
    threads: &T,
    alloc: Global,
    files: &mut F,
    streams: &mut Streams<R, W, E>,
    words: &Result<Vec<String>, Usage>,
    is_awaited: bool,
    terminal: &S,
) -> u8
    ensures { let seen : JobSeen = job_seen F.known F.failures R.remaining R.failures W.contents W.failures files.old files.new streams.old streams.new
        in let errors_seen : SinkSeen = sink_seen E.contents E.failures streams.old.errors streams.new.errors
        in MaySayLast (λ errors. MatchResult words.now
        (λ words. StartEnds (map string_bytes words.items) is_awaited seen errors result)
        (λ why. EndsUntouched why seen errors result)) errors_seen }
{
    let status = begin(threads, alloc, files, streams, words, is_awaited, terminal);
    say_if_ended(streams.out.has_no_reader(), &mut streams.errors);
    status
}
