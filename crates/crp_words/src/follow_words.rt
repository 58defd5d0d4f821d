//! What the words of `follow` ask for.
ghost use Rattle.std.specs.Prelude.{◌↔◌, IfOk, IfErr, IfSome, IfNone, IsTrue, codes};
ghost use Rattle.clap.specs.Words.{found_of, rows_of};
ghost use Rattle.crp_words.specs.Words.{Asks, IsFault, IsFollowNamedTwice, IsLoadedAlone, IsOrderedAlone, Lacks, MayNameAfter, NoFault};

use crate::bays::blocks_of;
use crate::compare_words::{COMPARED_BESIDE, compare_files_of, is_compared_beside};
use crate::given::{is_given, is_missing, one_file, optional_number_of, same_file, text_of, wrong};
use crate::input_words::{input_of, is_sized_twice, separator_of};
use crate::usage::Usage;
use clap::ArgMatches;
use crp_follow::Part;
use crp_jobs::{AfterFile, FollowFiles, Job};
use std::alloc::Global;

// The refusal of heights beside rows or tiers.
static SIZED_TWICE: &str =
    "error: the argument '--heights <HEIGHTS>' cannot be used with '--rows <N>' or '--tiers <N>'\n\nUsage: crp follow [OPTIONS] <YARD> <REPORT> [MOVINS]\n\nFor more information, try '--help'.\n";

// The refusal of what is read of a message without one.
static ORDERED_ALONE: &str =
    "error: the arguments '--order <ORDER>', '--code <TEXT>' and '--message <REFERENCE>' are about a message: name it behind the report\n\nUsage: crp follow [OPTIONS] <YARD> <REPORT> [MOVINS]\n\nFor more information, try '--help'.\n";

// The refusal of a count of the ship's containers without the yard after, or without a message.
static LOADED_ALONE: &str =
    "error: the argument '--loaded <N>' needs '--after <FILE>', and a message behind the report\n\nUsage: crp follow [OPTIONS] <YARD> <REPORT> [MOVINS]\n\nFor more information, try '--help'.\n";

// Whether what is read of a message, or made of it, is given, and no message.
fn is_ordered_alone(matches: &ArgMatches<'_>) -> bool
    ensures { IsTrue result ↔ IsOrderedAlone (rows_of (found_of matches.now)) }
{
    is_missing(matches, "movins")
        && (is_given(matches, "order") || is_given(matches, "code") || is_given(matches, "message"))
}

// Whether the containers that the ship has are counted, and the yard after is not wanted, or there is no message.
fn is_loaded_alone(matches: &ArgMatches<'_>) -> bool
    ensures { IsTrue result ↔ IsLoadedAlone (rows_of (found_of matches.now)) }
{
    is_given(matches, "loaded") && (is_missing(matches, "after") || is_missing(matches, "movins"))
}

// The names of a file that `follow` writes and of another of its files, where they are one.
fn named_twice<'a>(matches: &ArgMatches<'a>) -> Option<(&'a str, &'a str)>
    ensures some { IfSome result (λ _. IsFollowNamedTwice (rows_of (found_of matches.now))) }
    ensures none { IfNone result (¬ IsFollowNamedTwice (rows_of (found_of matches.now))) }
{
    if let Some(names) = one_file(matches, "page", "yard") {
        return Some(names);
    }
    if let Some(names) = one_file(matches, "page", "report") {
        return Some(names);
    }
    if let Some(names) = one_file(matches, "page", "movins") {
        return Some(names);
    }
    if let Some(names) = one_file(matches, "after", "yard") {
        return Some(names);
    }
    if let Some(names) = one_file(matches, "after", "report") {
        return Some(names);
    }
    if let Some(names) = one_file(matches, "after", "movins") {
        return Some(names);
    }
    one_file(matches, "after", "page")
}

// The file of the yard after, if it is wanted, and how many containers the ship has by then, if they are counted.
fn after_of<'a>(alloc: Global, matches: &ArgMatches<'a>) -> Result<Option<AfterFile<'a>>, Usage>
    ensures ok { IfOk result (MayNameAfter (rows_of (found_of matches.now))) }
    ensures err { IfErr result (Lacks (MayNameAfter (rows_of (found_of matches.now))) NoFault) }
{
    let Some(name) = matches.get_str("after") else {
        return Ok(None);
    };
    let loaded = optional_number_of(alloc, matches, "loaded")?;
    Ok(Some(AfterFile { name, loaded }))
}

/// What `follow` and its matches ask for.
pub(crate) fn follow_of<'a>(alloc: Global, matches: &ArgMatches<'a>) -> Result<Job<'a>, Usage>
    ensures ok { IfOk result (Asks (codes "follow") (rows_of (found_of matches.now))) }
    ensures err { IfErr result (Lacks (Asks (codes "follow") (rows_of (found_of matches.now))) (IsFault (codes "follow") (rows_of (found_of matches.now)))) }
{
    if is_sized_twice(matches) {
        return Err(wrong(alloc, SIZED_TWICE));
    }
    if is_ordered_alone(matches) {
        return Err(wrong(alloc, ORDERED_ALONE));
    }
    if is_loaded_alone(matches) {
        return Err(wrong(alloc, LOADED_ALONE));
    }
    if let Some(names) = named_twice(matches) {
        return Err(same_file(alloc, names));
    }
    if is_compared_beside(matches) {
        return Err(wrong(alloc, COMPARED_BESIDE));
    }
    let input = input_of(alloc, matches)?;
    let yard = text_of(alloc, matches, "yard")?;
    let report = text_of(alloc, matches, "report")?;
    let separator = separator_of(alloc, matches)?;
    let (settings, bays) = input.for_all();
    if let Some(second) = matches.get_str("compare") {
        let files = compare_files_of(matches, yard, report, second, separator);
        return Ok(Job::Compare { files, settings });
    }
    let after = after_of(alloc, matches)?;
    let blocks = blocks_of(alloc, matches)?;
    let files = FollowFiles {
        yard,
        sizes: matches.get_str("sizes"),
        report,
        partial: is_given(matches, "partial"),
        summary: is_given(matches, "summary"),
        movins: matches.get_str("movins"),
        page: matches.get_str("page"),
        after,
        part: Part::new(bays, blocks),
        separator,
    };
    Ok(Job::Follow { files, settings })
}
