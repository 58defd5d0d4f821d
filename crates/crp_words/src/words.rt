//! What the words of the command line ask for.
ghost use Rattle.std.specs.Prelude.{◌≡◌, ◌≢◌, IfOk, IfErr, IfSome, IfNone, map, codes};
ghost use Rattle.clap.specs.Words.{found_of, kind_of, rows_of};
ghost use Rattle.crp_words.specs.Words.{Asks, HasSettings, IsFault, IsNamedTwice, IsSolveFault, Lacks, MayBeJson, Refuses, ShowsKind, WordsAsk, words_or_default};

use crate::commands::command_line;
use crate::follow_words::follow_of;
use crate::given::{is_given, one_file, same_file, text_of, wrong};
use crate::input_words::{input_of, is_sized_twice, separator_of};
use crate::search_words::{search_of, stop_of, time_of, workers_of};
use crate::usage::{Mistake, Usage};
use clap::error::ErrorKind;
use clap::{ArgMatches, Error};
use crp_jobs::{AbsentFiles, AuditFiles, FileCommand, Job, RunFiles};
use crp_report::RunSettings;
use std::alloc::{AllocError, Global};

static NO_WORDS: [&str; 2] = ["replay", "-"];

// What numbers may be given.
const NUMBERS: &str =
    "\nA number is whole and has no sign: --rows 1 to 12, --tiers 1 to 8, --workers 1 to 64, --split 0 to 8, --beam 0 to 10000, --budget 0 to 1099511627776.\n";

// The same, where the words speak of `--thin`.
const NUMBERS_AND_THIN: &str =
    "\nA number is whole and has no sign: --rows 1 to 12, --tiers 1 to 8, --workers 1 to 64, --split 0 to 8, --beam 0 to 10000, --thin 0 to 1000000, --budget 0 to 1099511627776.\n";

// Those of `follow`, where the words speak of `--loaded`.
const NUMBERS_AND_LOADED: &str =
    "\nA number is whole and has no sign: --rows 1 to 12, --tiers 1 to 8, --loaded 0 to 18446744073709551615.\n";

// What seconds may be given, where the words speak of them.
const SECONDS: &str =
    "\n--seconds and --total-seconds are seconds without a sign, 0.001 to 86400, as 10 or 0.5.\n";

// The refusals of heights beside rows or tiers.
static ABSENT_SIZED_TWICE: &str =
    "error: the argument '--heights <HEIGHTS>' cannot be used with '--rows <N>' or '--tiers <N>'\n\nUsage: crp absent [OPTIONS] <YARD> <MOVINS>\n\nFor more information, try '--help'.\n";

static AUDIT_SIZED_TWICE: &str =
    "error: the argument '--heights <HEIGHTS>' cannot be used with '--rows <N>' or '--tiers <N>'\n\nUsage: crp audit [OPTIONS] <YARD> <MOVINS> <REPORT> <CERTS>\n\nFor more information, try '--help'.\n";

static SIZED_TWICE: &str =
    "error: the argument '--heights <HEIGHTS>' cannot be used with '--rows <N>' or '--tiers <N>'\n\nUsage: crp solve [OPTIONS] <YARD> <MOVINS>\n\nFor more information, try '--help'.\n";

// The names of a file that `solve` writes and of another of its files, where they are one.
fn named_twice<'a>(matches: &ArgMatches<'a>) -> Option<(&'a str, &'a str)>
    ensures some { IfSome result (λ _. IsNamedTwice (rows_of (found_of matches.now))) }
    ensures none { IfNone result (¬ IsNamedTwice (rows_of (found_of matches.now))) }
{
    if let Some(names) = one_file(matches, "cert", "yard") {
        return Some(names);
    }
    if let Some(names) = one_file(matches, "cert", "movins") {
        return Some(names);
    }
    if let Some(names) = one_file(matches, "after", "yard") {
        return Some(names);
    }
    if let Some(names) = one_file(matches, "after", "movins") {
        return Some(names);
    }
    one_file(matches, "after", "cert")
}

// The settings of `solve`.
fn settings_of(alloc: Global, matches: &ArgMatches<'_>) -> Result<RunSettings, Usage>
    ensures ok { IfOk result (HasSettings (rows_of (found_of matches.now))) }
    ensures err { IfErr result (Lacks (HasSettings (rows_of (found_of matches.now))) (IsSolveFault (rows_of (found_of matches.now)))) }
{
    let search = search_of(alloc, matches)?;
    let input = input_of(alloc, matches)?;
    let time = time_of(matches)?;
    Ok(RunSettings::new(search.with_time(time), input))
}

// Whether the words give the flag for JSON Lines.
fn is_json(matches: &ArgMatches<'_>) -> bool
    ensures { MayBeJson (rows_of (found_of matches.now)) result }
{
    is_given(matches, "json")
}

// What `prove` and its matches ask for.
fn prove_of<'a>(alloc: Global, matches: &ArgMatches<'a>) -> Result<Job<'a>, Usage>
    ensures ok { IfOk result (Asks (codes "prove") (rows_of (found_of matches.now))) }
    ensures err { IfErr result (Lacks (Asks (codes "prove") (rows_of (found_of matches.now))) (IsFault (codes "prove") (rows_of (found_of matches.now)))) }
{
    let search = search_of(alloc, matches)?;
    let time = time_of(matches)?;
    let file = text_of(alloc, matches, "file")?;
    Ok(Job::OneFile {
        file,
        command: FileCommand::Prove(search.with_time(time)),
        stop: stop_of(matches),
    })
}

// What `check` and its matches ask for.
fn check_of<'a>(alloc: Global, matches: &ArgMatches<'a>) -> Result<Job<'a>, Usage>
    ensures ok { IfOk result (Asks (codes "check") (rows_of (found_of matches.now))) }
    ensures err { IfErr result (Lacks (Asks (codes "check") (rows_of (found_of matches.now))) (IsFault (codes "check") (rows_of (found_of matches.now)))) }
{
    let workers = workers_of(alloc, matches)?;
    let file = text_of(alloc, matches, "file")?;
    Ok(Job::OneFile {
        file,
        command: FileCommand::Check {
            any_size: is_given(matches, "any-size"),
            workers,
            json: is_json(matches),
        },
        stop: stop_of(matches),
    })
}

// What `solve` and its matches ask for.
fn solve_of<'a>(alloc: Global, matches: &ArgMatches<'a>) -> Result<Job<'a>, Usage>
    ensures ok { IfOk result (Asks (codes "solve") (rows_of (found_of matches.now))) }
    ensures err { IfErr result (Lacks (Asks (codes "solve") (rows_of (found_of matches.now))) (IsFault (codes "solve") (rows_of (found_of matches.now)))) }
{
    if is_sized_twice(matches) {
        return Err(wrong(alloc, SIZED_TWICE));
    }
    if let Some(names) = named_twice(matches) {
        return Err(same_file(alloc, names));
    }
    let settings = settings_of(alloc, matches)?;
    let yard = text_of(alloc, matches, "yard")?;
    let movins = text_of(alloc, matches, "movins")?;
    let separator = separator_of(alloc, matches)?;
    let files = RunFiles {
        yard,
        movins,
        sizes: matches.get_str("sizes"),
        cert: matches.get_str("cert"),
        after: matches.get_str("after"),
        stop: stop_of(matches),
        json: is_given(matches, "json"),
        separator,
    };
    Ok(Job::Solve {
        files,
        settings,
        quiet: is_given(matches, "quiet"),
        progress: is_given(matches, "progress"),
    })
}

// What `absent` and its matches ask for.
fn absent_of<'a>(alloc: Global, matches: &ArgMatches<'a>) -> Result<Job<'a>, Usage>
    ensures ok { IfOk result (Asks (codes "absent") (rows_of (found_of matches.now))) }
    ensures err { IfErr result (Lacks (Asks (codes "absent") (rows_of (found_of matches.now))) (IsFault (codes "absent") (rows_of (found_of matches.now)))) }
{
    if is_sized_twice(matches) {
        return Err(wrong(alloc, ABSENT_SIZED_TWICE));
    }
    let settings = input_of(alloc, matches)?;
    let separator = separator_of(alloc, matches)?;
    let files = AbsentFiles {
        yard: text_of(alloc, matches, "yard")?,
        sizes: matches.get_str("sizes"),
        movins: text_of(alloc, matches, "movins")?,
        separator,
    };
    Ok(Job::Absent { files, settings })
}

// What `audit` and its matches ask for.
fn audit_of<'a>(alloc: Global, matches: &ArgMatches<'a>) -> Result<Job<'a>, Usage>
    ensures ok { IfOk result (Asks (codes "audit") (rows_of (found_of matches.now))) }
    ensures err { IfErr result (Lacks (Asks (codes "audit") (rows_of (found_of matches.now))) (IsFault (codes "audit") (rows_of (found_of matches.now)))) }
{
    if is_sized_twice(matches) {
        return Err(wrong(alloc, AUDIT_SIZED_TWICE));
    }
    let settings = input_of(alloc, matches)?;
    let separator = separator_of(alloc, matches)?;
    let files = AuditFiles {
        yard: text_of(alloc, matches, "yard")?,
        sizes: matches.get_str("sizes"),
        movins: text_of(alloc, matches, "movins")?,
        report: text_of(alloc, matches, "report")?,
        partial: is_given(matches, "partial"),
        certificates: text_of(alloc, matches, "certificates")?,
        separator,
        json: is_json(matches),
    };
    Ok(Job::Audit { files, settings })
}

// What a command without numbers and its matches ask for.
fn leaf_of<'a>(alloc: Global, name: &str, matches: &ArgMatches<'a>) -> Result<Job<'a>, Usage>
    requires { (name.now ≢ codes "prove") × (name.now ≢ codes "solve") × (name.now ≢ codes "audit") × (name.now ≢ codes "follow") × (name.now ≢ codes "absent") × (name.now ≢ codes "check") }
    ensures ok { IfOk result (Asks name.now (rows_of (found_of matches.now))) }
    ensures err { IfErr result (Lacks (Asks name.now (rows_of (found_of matches.now))) (IsFault name.now (rows_of (found_of matches.now)))) }
{
    let file = text_of(alloc, matches, "file")?;
    let command = match name {
        "replay" => FileCommand::Replay,
        "bound" => FileCommand::Bound {
            chains: is_given(matches, "chains"),
            json: is_json(matches),
        },
        "rewrite" => FileCommand::Rewrite,
        _ => return Err(wrong(alloc, "error: there is no such command\n")),
    };
    Ok(Job::OneFile {
        file,
        command,
        stop: stop_of(matches),
    })
}

// What a command and its matches ask for.
fn job_of<'a>(alloc: Global, name: &str, matches: &ArgMatches<'a>) -> Result<Job<'a>, Usage>
    ensures ok { IfOk result (Asks name.now (rows_of (found_of matches.now))) }
    ensures err { IfErr result (Lacks (Asks name.now (rows_of (found_of matches.now))) (IsFault name.now (rows_of (found_of matches.now)))) }
{
    if name == "prove" {
        return prove_of(alloc, matches);
    }
    if name == "check" {
        return check_of(alloc, matches);
    }
    if name == "solve" {
        return solve_of(alloc, matches);
    }
    if name == "audit" {
        return audit_of(alloc, matches);
    }
    if name == "follow" {
        return follow_of(alloc, matches);
    }
    if name == "absent" {
        return absent_of(alloc, matches);
    }
    leaf_of(alloc, name, matches)
}

// Whether what was refused was to be a number: it is none, or has a sign.
fn is_no_number(kind: ErrorKind, text: &str) -> bool {
    if kind == ErrorKind::ValueValidation {
        return true;
    }
    match text.split_once("unexpected argument '-") {
        Some((_, rest)) => rest.as_bytes().first().is_some_and(|b| b.is_ascii_digit()),
        None => false,
    }
}

// What numbers may be given, for these words.
fn numbers_for(words: &[&str]) -> &'static str {
    if words.iter().any(|word| word.starts_with("--thin")) {
        NUMBERS_AND_THIN
    } else if words.iter().any(|word| word.starts_with("--loaded")) {
        NUMBERS_AND_LOADED
    } else {
        NUMBERS
    }
}

// Whether the words speak of seconds.
fn speak_of_seconds(words: &[&str]) -> bool {
    words.iter().any(|word| word.starts_with("--seconds") || word.starts_with("--total-seconds"))
}

// The text of a refusal of clap's for these words; where a number was to be given and none was, with the numbers that there are.
fn text_of_refusal(alloc: Global, words: &[&str], error: &Error) -> Result<String, AllocError> {
    let mut text = error.to_string(alloc)?;
    if is_no_number(error.kind(), text.as_str()) {
        text.push_str(numbers_for(words))?;
        if speak_of_seconds(words) {
            text.push_str(SECONDS)?;
        }
    }
    Ok(text)
}

// The text of a refusal of clap's for these words.
fn usage_of(alloc: Global, words: &[&str], error: &Error) -> Usage
    ensures { ShowsKind (kind_of error.now) result }
{
    let Ok(text) = text_of_refusal(alloc, words, error) else {
        return Usage::Memory;
    };
    match error.kind() {
        ErrorKind::OutOfMemory => Usage::Memory,
        ErrorKind::DisplayHelp | ErrorKind::DisplayVersion => Usage::Help(text),
        _ => Usage::Wrong(Mistake::Words(text)),
    }
}

// The words, or a replay of the standard input where there are none.
fn or_default<'a>(words: &'a [&'a str]) -> &'a [&'a str]
    ensures { map (λ w. w.now) result.now ≡ words_or_default (map (λ w. w.now) words.entry.now) }
{
    if words.is_empty() {
        NO_WORDS.as_slice()
    } else {
        words
    }
}

/// What the words after the program's name ask for, as clap's matches of them give it.
pub fn job<'a>(alloc: Global, words: &'a [&'a str]) -> Result<Job<'a>, Usage>
    ensures asked { IfOk result (WordsAsk (map (λ w. w.now) words.entry.now)) }
    ensures refused { IfErr result (Refuses (map (λ w. w.now) words.entry.now)) }
{
    let words = or_default(words);
    let Ok(command) = command_line(alloc) else {
        return Err(Usage::Memory);
    };
    match command.try_get_matches_from(words) {
        Ok(matches) => match matches.subcommand() {
            Some((name, inner)) => job_of(alloc, name, inner),
            None => Err(wrong(alloc, "error: there is no command\n")),
        },
        Err(error) => Err(usage_of(alloc, words, &error)),
    }
}
