//! A transcript, played block by block.
use crate::audits::{REPORT, audit_of};
use crate::blocks::{Block, Mark, blocks_of};
use crate::ticking::Ticking;
use crp_commands::{NoTerminal, Streams};
use crp_files::SystemFiles;
use crp_json::{Begun, JsonErrors, JsonLines, Printed};
use crp_plan::{Counted, Received, write_all};
use crp_words::{json_head, run_words};
use std::alloc::{AllocError, Global};
use std::os::unix::fs::symlink;
use std::sync::Wait;
use std::thread::Threads;
use std::{fs, io};

// What the standard output and the standard error of a run hold before it.
struct Empty;

impl Begun for Empty {
    ghost use Rattle.std.specs.Prelude.{[], Some};

    ghost held = { Some [] };
}

// What the last run wrote to the standard error, and its exit status, as far as no block has spoken of them; how many runs there were, and
// how many of them were audited.
#[derive(Drop)]
struct Played {
    errors: Vec<u8>,
    status: u8,
    runs: u32,
    audited: u32,
}

// The words between blanks; what stands between two quotes is one word.
fn unquoted<'a>(alloc: Global, text: &'a str) -> Result<Vec<&'a str>, AllocError> {
    let mut words = Vec::new(alloc);
    let mut is_quoted = false;
    for part in text.split('\'') {
        if is_quoted {
            words.push(part)?;
        } else {
            for word in part.split_whitespace() {
                words.push(word)?;
            }
        }
        is_quoted = !is_quoted;
    }
    Ok(words)
}

// The words of a run, and the file whose bytes are its standard input.
fn words_of<'a>(rt: &HostRuntime, words: &'a str) -> io::Result<(Vec<&'a str>, Option<&'a str>)> {
    let (words, input) = match words.split_once(" < ") {
        Some((words, input)) => (words, Some(input)),
        None => (words, None),
    };
    Ok((unquoted(rt.alloc(), words)?, input))
}

fn input_of(rt: &HostRuntime, name: Option<&str>) -> io::Result<Vec<u8>> {
    match name {
        Some(name) => fs::read(rt, name),
        None => Ok(Vec::new(rt.alloc())),
    }
}

// Shows bytes on the standard error, as far as it takes them.
fn show(rt: &HostRuntime, bytes: &[u8]) {
    let mut interruptions = 0;
    let _shown = write_all(&mut Counted::new(rt.stderr()), bytes, &mut interruptions);
}

// Whether the two are the same; shows both where they are not.
fn is_same(rt: &HostRuntime, line: usize, found: &[u8], wanted: &[u8]) -> io::Result<bool> {
    if found == wanted {
        return Ok(true);
    }
    eprintln!(rt; "line {line}: what was found and what the transcript has:")?;
    show(rt, found);
    eprintln!(rt; "--")?;
    show(rt, wanted);
    eprintln!(rt; "--")?;
    Ok(false)
}

// Whether a run of these words was an audit that is a yes.
fn is_accepted<T: Threads + Wait + Sync>(
    rt: &HostRuntime,
    threads: &T,
    words: &[&str],
) -> io::Result<bool> {
    let mut streams = Streams {
        input: b"".as_slice(),
        out: Received::new(rt.alloc()),
        errors: Received::new(rt.alloc()),
    };
    let status = run_words(
        threads,
        rt.alloc(),
        &mut SystemFiles::new(rt),
        &mut streams,
        words,
        &NoTerminal,
    );
    show(rt, &streams.errors.bytes);
    Ok(status == 0)
}

// Audits what a run of `solve` wrote, where it wrote certificates; returns whether that is a yes.
fn audit<T: Threads + Wait + Sync>(
    rt: &HostRuntime,
    threads: &T,
    played: &mut Played,
    line: usize,
    words: &[&str],
    report: &[u8],
) -> io::Result<bool> {
    if played.status > 1 {
        return Ok(true);
    }
    let Some(words) = audit_of(rt.alloc(), words)? else {
        return Ok(true);
    };
    fs::write(rt, REPORT, report)?;
    played.audited = played.audited.saturating_add(1);
    if is_accepted(rt, threads, &words)? {
        return Ok(true);
    }
    eprintln!(rt; "line {line}: the audit of the run is a no")?;
    Ok(false)
}

// Runs the program, and returns whether it wrote the text of the block, and whether an audit of a run of `solve` is a yes.
fn run<T: Threads + Wait + Sync>(
    rt: &HostRuntime,
    threads: &T,
    played: &mut Played,
    block: &Block<'_>,
) -> io::Result<bool> {
    let (words, input) = words_of(rt, block.words)?;
    let input = input_of(rt, input)?;
    let (printed, head) = json_head(rt.alloc(), &words).unwrap_or((Printed::Report, None));
    let is_json = head.is_some();
    let received = Received::new(rt.alloc());
    let errors = Received::new(rt.alloc());
    let mut streams = Streams {
        input: input.as_slice(),
        out: JsonLines::<_, Empty>::new(rt.alloc(), received, printed, head),
        errors: JsonErrors::<_, Empty>::new(rt.alloc(), errors, is_json),
    };
    played.status = run_words(
        threads,
        rt.alloc(),
        &mut SystemFiles::new(rt),
        &mut streams,
        &words,
        &Ticking::of(rt, &words),
    );
    played.errors = streams.errors.out().bytes.clone()?;
    let written = &streams.out.out().bytes;
    played.runs = played.runs.saturating_add(1);
    Ok(
        is_same(rt, block.line, written, &block.text)?
            && audit(rt, threads, played, block.line, &words, written)?,
    )
}

// Whether all has been said of the last run: its standard error is empty and its status 0, but for what blocks have said.
fn is_settled(rt: &HostRuntime, played: &Played, line: usize) -> io::Result<bool> {
    if played.status != 0 {
        eprintln!(rt;
            "line {line}: the run before ended with status {}",
            played.status
        )?;
        return Ok(false);
    }
    is_same(rt, line, &played.errors, b"")
}

// Whether the run before wrote this text to the standard error.
fn has_errors(rt: &HostRuntime, played: &mut Played, block: &Block<'_>) -> io::Result<bool> {
    let is_well = is_same(rt, block.line, &played.errors, &block.text)?;
    played.errors.clear();
    Ok(is_well)
}

// Whether the run before ended with this status.
fn has_status(rt: &HostRuntime, played: &mut Played, block: &Block<'_>) -> io::Result<bool> {
    let status = format!(in rt.alloc(); "{}", played.status)?;
    played.status = 0;
    is_same(rt, block.line, status.as_bytes(), block.words.as_bytes())
}

// Whether the file of this name holds this text.
fn holds(rt: &HostRuntime, block: &Block<'_>) -> io::Result<bool> {
    match fs::read(rt, block.words) {
        Ok(found) => is_same(rt, block.line, &found, &block.text),
        Err(_) => {
            eprintln!(rt; "line {}: there is no file {}", block.line, block.words)?;
            Ok(false)
        }
    }
}

// Whether there is no file of this name.
fn is_gone(rt: &HostRuntime, block: &Block<'_>) -> io::Result<bool> {
    match fs::read(rt, block.words) {
        Ok(_) => {
            eprintln!(rt; "line {}: there is a file {}", block.line, block.words)?;
            Ok(false)
        }
        Err(_) => Ok(true),
    }
}

// Makes a link, by its name and that of the file which it leads to.
fn link(rt: &HostRuntime, mark: Mark, words: &str) -> io::Result<()> {
    let Some((name, file)) = words.split_once(" ") else {
        return Err(io::Error::from(io::ErrorKind::InvalidInput));
    };
    if mark == Mark::HardLink {
        fs::hard_link(rt, file, name)
    } else {
        symlink(rt, file, name)
    }
}

// Does what a block says, and returns whether all is as it says.
fn step<T: Threads + Wait + Sync>(
    rt: &HostRuntime,
    threads: &T,
    played: &mut Played,
    block: &Block<'_>,
) -> io::Result<bool> {
    match block.mark {
        Mark::Note => Ok(block.text.is_empty()),
        Mark::Write => {
            fs::write(rt, block.words, block.text.as_slice())?;
            is_settled(rt, played, block.line)
        }
        Mark::Symlink | Mark::HardLink => {
            link(rt, block.mark, block.words)?;
            is_settled(rt, played, block.line)
        }
        Mark::Run => Ok(is_settled(rt, played, block.line)? && run(rt, threads, played, block)?),
        Mark::Errors => has_errors(rt, played, block),
        Mark::Status => has_status(rt, played, block),
        Mark::Holds => holds(rt, block),
        Mark::Gone => is_gone(rt, block),
    }
}

// Plays blocks up to the first that differs, and returns the number of its line. Where they do not say how the last run ended, that is the
// last block.
fn play_blocks<T: Threads + Wait + Sync>(
    rt: &HostRuntime,
    threads: &T,
    played: &mut Played,
    blocks: &[Block<'_>],
) -> io::Result<Option<usize>> {
    for block in blocks {
        if !step(rt, threads, played, block)? {
            return Ok(Some(block.line));
        }
    }
    match blocks.last() {
        Some(block) if !is_settled(rt, played, block.line)? => Ok(Some(block.line)),
        _ => Ok(None),
    }
}

/// Plays the transcript of this name, writes a line about it, and returns whether all was as it says.
pub(crate) fn play<T: Threads + Wait + Sync>(
    rt: &HostRuntime,
    threads: &T,
    name: &str,
) -> io::Result<bool> {
    let transcript = fs::read_to_string(rt, name)?;
    let blocks = match blocks_of(rt.alloc(), transcript.as_str())? {
        Ok(blocks) => blocks,
        Err(line) => {
            println!(rt; "{name}: line {line} is malformed")?;
            return Ok(false);
        }
    };
    let mut played = Played {
        errors: Vec::new(rt.alloc()),
        status: 0,
        runs: 0,
        audited: 0,
    };
    let differs = play_blocks(rt, threads, &mut played, &blocks)?;
    match differs {
        None if played.audited == 0 => println!(rt; "{name}: as written, {} runs", played.runs)?,
        None => println!(rt;
            "{name}: as written, {} runs, {} audited",
            played.runs, played.audited
        )?,
        Some(line) => println!(rt; "{name}: differs at line {line}")?,
    }
    Ok(differs.is_none())
}
