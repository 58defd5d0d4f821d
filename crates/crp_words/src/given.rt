//! What clap's matches give, and the refusals of words.
ghost use Rattle.std.specs.Prelude.{◌≡◌, ◌↔◌, ℕ, None, IfOk, IfErr, IfSome, IfNone, IsTrue};
ghost use Rattle.clap.specs.Words.{first_of, found_of, rows_of};
ghost use Rattle.crp_words.specs.Words.{HasNumber, HasNumberBeyond, HasNumberWithin, HasText, IsGivenByWords, IsJust, IsOneFile, IsWordsOrMemory, Lacks, MayHaveNumber, NoFault, plain_name};

use crate::usage::{Mistake, SettingFault, Usage};
use clap::ArgMatches;
use clap::parser::ValueSource;
use std::alloc::Global;

// The refusal of words that are no command with its files and options.
pub(crate) fn wrong(alloc: Global, text: &str) -> Usage
    ensures { IsWordsOrMemory result }
{
    match String::from_str(alloc, text) {
        Ok(text) => Usage::Wrong(Mistake::Words(text)),
        Err(_) => Usage::Memory,
    }
}

// The text of a file or an option.
pub(crate) fn text_of<'a>(
    alloc: Global,
    matches: &ArgMatches<'a>,
    name: &str,
) -> Result<&'a str, Usage>
    ensures ok { IfOk result (λ text. HasText name.now (rows_of (found_of matches.now)) text.now) }
    ensures err { IfErr result (Lacks (HasText name.now (rows_of (found_of matches.now))) NoFault) }
{
    match matches.get_str(name) {
        Some(text) => Ok(text),
        None => Err(wrong(alloc, "error: these words ask for nothing\n")),
    }
}

/// Whether there is no text for the file or the option.
pub(crate) fn is_missing(matches: &ArgMatches<'_>, name: &str) -> bool
    ensures { IsTrue result ↔ (first_of name.now (rows_of (found_of matches.now)) ≡ None) }
{
    matches.get_str(name).is_none()
}

// The whole number of an option.
fn number_of(matches: &ArgMatches<'_>, name: &str) -> Option<u64>
    ensures some { IfSome result (HasNumber name.now (rows_of (found_of matches.now))) }
    ensures none { IfNone result ((n : ℕ) → HasNumber name.now (rows_of (found_of matches.now)) n → ⊥) }
{
    matches.get_one::<u64>(name)
}

/// The whole number of an option, if there is one.
pub(crate) fn optional_number_of(
    alloc: Global,
    matches: &ArgMatches<'_>,
    name: &str,
) -> Result<Option<u64>, Usage>
    ensures ok { IfOk result (MayHaveNumber name.now (rows_of (found_of matches.now))) }
    ensures err { IfErr result (Lacks (MayHaveNumber name.now (rows_of (found_of matches.now))) NoFault) }
{
    if is_missing(matches, name) {
        return Ok(None);
    }
    match number_of(matches, name) {
        Some(number) => Ok(Some(number)),
        None => Err(wrong(alloc, "error: a number is not given\n")),
    }
}

/// The whole number of an option, within its limits.
pub(crate) fn number_within(
    alloc: Global,
    matches: &ArgMatches<'_>,
    name: &str,
    limits: (u64, u64),
    fault: SettingFault,
) -> Result<u64, Usage>
    ensures ok { IfOk result (HasNumberWithin name.now limits.0 limits.1 (rows_of (found_of matches.now))) }
    ensures err { IfErr result (Lacks (HasNumberWithin name.now limits.0 limits.1 (rows_of (found_of matches.now)))
        (IsJust fault (HasNumberBeyond name.now limits.0 limits.1 (rows_of (found_of matches.now))))) }
{
    let Some(number) = number_of(matches, name) else {
        return Err(wrong(alloc, "error: a number is not given\n"));
    };
    if number < limits.0 || number > limits.1 {
        return Err(Usage::Wrong(Mistake::Setting(fault)));
    }
    Ok(number)
}

/// Whether the words give the option, so that it has not its default.
pub(crate) fn is_given(matches: &ArgMatches<'_>, name: &str) -> bool
    ensures { IsTrue result ↔ IsGivenByWords name.now (rows_of (found_of matches.now)) }
{
    let Some(source) = matches.value_source(name) else {
        return false;
    };
    match source {
        ValueSource::CommandLine => true,
        ValueSource::DefaultValue => false,
    }
}

// The name of a file without `./` in front.
fn plain_name(name: &str) -> &[u8]
    ensures { result.now ≡ plain_name name.now }
{
    let name = name.as_bytes();
    if name.starts_with(b"./") {
        &name[2..]
    } else {
        name
    }
}

// The names that the words give to one file, where they name one for both.
pub(crate) fn one_file<'a>(
    matches: &ArgMatches<'a>,
    name: &str,
    other: &str,
) -> Option<(&'a str, &'a str)>
    ensures some { IfSome result (λ _. IsOneFile name.now other.now (rows_of (found_of matches.now))) }
    ensures none { IfNone result (¬ IsOneFile name.now other.now (rows_of (found_of matches.now))) }
{
    let Some(first) = matches.get_str(name) else {
        return None;
    };
    let Some(second) = matches.get_str(other) else {
        return None;
    };
    if plain_name(first) == plain_name(second) {
        Some((first, second))
    } else {
        None
    }
}

/// The refusal of two names of one file.
pub(crate) fn same_file(alloc: Global, names: (&str, &str)) -> Usage
    ensures { IsWordsOrMemory result }
{
    match format!(in alloc;
        "crp: S8\nthe names {} and {} are of one file: each file needs a name of its own, since what is written is emptied first\n",
        names.0, names.1
    ) {
        Ok(text) => Usage::Wrong(Mistake::Words(text)),
        Err(_) => Usage::Memory,
    }
}
