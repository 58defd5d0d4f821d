//! The options of the command line.
ghost use Rattle.std.specs.Prelude.{◌≡◌, IfOk};
ghost use Rattle.clap.specs.Words.{Shape};
ghost use Rattle.crp_words.specs.Commands.{IsArg, IsCommand, beam_rule, budget_rule, chains_rule, deepen_rule, first_rule, flag_rule, json_rule, number_rule, optional_number_rule, optional_rule, progress_rule, quiet_rule, repeated_rule, seconds_rule, split_rule, stop_rule, strong_rule, text_rule, thin_rule, total_seconds_rule, with_after, with_bays, with_blocks, with_compare, with_json, with_orders, with_outputs, with_page, with_partial, with_search, with_searches, with_size, with_summary, with_ways, workers_rule};

use clap::{Arg, ArgAction, Command, value_parser};
use std::alloc::{AllocError, Global};

// An option that takes a whole number.
fn number<'a>(alloc: Global, name: &'a str, default: &'a str, help: &'a str) -> Arg<'a>
    ensures { IsArg (number_rule name.entry.now default.entry.now) result }
{
    Arg::new(alloc, name)
        .long(name)
        .value_name("N")
        .value_parser(value_parser!(u64))
        .default_value(default)
        .help(help)
}

// An option that takes a text.
fn text<'a>(
    alloc: Global,
    name: &'a str,
    shown: &'a str,
    default: &'a str,
    help: &'a str,
) -> Arg<'a>
    ensures { IsArg (text_rule name.entry.now default.entry.now) result }
{
    Arg::new(alloc, name)
        .long(name)
        .value_name(shown)
        .default_value(default)
        .help(help)
}

// An option that takes a text, and has none where it is not given.
fn optional<'a>(alloc: Global, name: &'a str, shown: &'a str, help: &'a str) -> Arg<'a>
    ensures { IsArg (optional_rule name.entry.now) result }
{
    Arg::new(alloc, name)
        .long(name)
        .value_name(shown)
        .help(help)
}

// An option that takes a text, and may be given several times.
fn repeated<'a>(alloc: Global, name: &'a str, shown: &'a str, help: &'a str) -> Arg<'a>
    ensures { IsArg (repeated_rule name.entry.now) result }
{
    optional(alloc, name, shown, help).action(ArgAction::Append)
}

// An option that takes a whole number, and has none where it is not given.
fn optional_number<'a>(alloc: Global, name: &'a str, help: &'a str) -> Arg<'a>
    ensures { IsArg (optional_number_rule name.entry.now) result }
{
    Arg::new(alloc, name)
        .long(name)
        .value_name("N")
        .value_parser(value_parser!(u64))
        .help(help)
}

// An option that takes no text.
pub(crate) fn flag<'a>(alloc: Global, name: &'a str, help: &'a str) -> Arg<'a>
    ensures { IsArg (flag_rule name.entry.now) result }
{
    Arg::new(alloc, name)
        .long(name)
        .action(ArgAction::SetTrue)
        .help(help)
}

/// The option of how many workers there are, with what they do.
pub(crate) fn workers<'a>(alloc: Global, help: &'a str) -> Arg<'a>
    ensures { IsArg workers_rule result }
{
    number(alloc, "workers", "1", help)
}

fn split<'a>(alloc: Global) -> Arg<'a>
    ensures { IsArg split_rule result }
{
    number(
        alloc,
        "split",
        "2",
        "Subtrees at paths of fewer rows than this are for whichever worker is idle, 0 to 8",
    )
}

fn budget<'a>(alloc: Global) -> Arg<'a>
    ensures { IsArg budget_rule result }
{
    number(
        alloc,
        "budget",
        "1000000",
        "Most positions looked at for a bay, 0 to 1099511627776",
    )
}

fn first<'a>(alloc: Global) -> Arg<'a>
    ensures { IsArg first_rule result }
{
    flag(
        alloc,
        "first",
        "Give the first of all best plans, whatever the workers do",
    )
}

fn beam<'a>(alloc: Global) -> Arg<'a>
    ensures { IsArg beam_rule result }
{
    number(
        alloc,
        "beam",
        "0",
        "Positions that a beam search for the plan to begin with keeps, 0 to 10000",
    )
}

fn deepen<'a>(alloc: Global) -> Arg<'a>
    ensures { IsArg deepen_rule result }
{
    flag(
        alloc,
        "deepen",
        "Search with a limit that rises from the lower bound",
    )
}

fn thin<'a>(alloc: Global) -> Arg<'a>
    ensures { IsArg thin_rule result }
{
    number(
        alloc,
        "thin",
        "0",
        "Most thinned branches of a try to close a position, 0 to 1000000; 0 for no try",
    )
}

fn chains<'a>(alloc: Global) -> Arg<'a>
    ensures { IsArg chains_rule result }
{
    flag(
        alloc,
        "chains",
        "Close positions also by chains of containers that block",
    )
}

fn strong<'a>(alloc: Global) -> Arg<'a>
    ensures { IsArg strong_rule result }
{
    flag(
        alloc,
        "strong",
        "For large bays: --chains --thin 10000 --deepen --beam 100",
    )
}

fn seconds<'a>(alloc: Global) -> Arg<'a>
    ensures { IsArg seconds_rule result }
{
    optional(
        alloc,
        "seconds",
        "S",
        "No bay is searched longer than S seconds, 0.001 to 86400",
    )
}

fn stop<'a>(alloc: Global) -> Arg<'a>
    ensures { IsArg stop_rule result }
{
    optional(
        alloc,
        "stop",
        "FILE",
        "The search ends as soon as this file is there, as if its time were over",
    )
}

fn total_seconds<'a>(alloc: Global) -> Arg<'a>
    ensures { IsArg total_seconds_rule result }
{
    optional(
        alloc,
        "total-seconds",
        "S",
        "All bays together are searched no longer than S seconds, 0.001 to 86400",
    )
}

// A command with the limits of a search, and how it is made.
fn with_ways<'a>(alloc: Global, command: Command<'a>) -> Result<Command<'a>, AllocError>
    ensures { IfOk result (λ new. (shape : Shape) → IsCommand shape command.entry → IsCommand (with_ways shape) new) }
{
    command
        .arg(workers(alloc, "Workers that search a bay together, 1 to 64"))?
        .arg(budget(alloc))?
        .arg(split(alloc))?
        .arg(first(alloc))?
        .arg(beam(alloc))?
        .arg(deepen(alloc))
}

// A command with the options of a search.
pub(crate) fn with_search<'a>(
    alloc: Global,
    command: Command<'a>,
) -> Result<Command<'a>, AllocError>
    ensures { IfOk result (λ new. (shape : Shape) → IsCommand shape command.entry → IsCommand (with_search shape) new) }
{
    with_ways(alloc, command)?
        .arg(thin(alloc))?
        .arg(chains(alloc))?
        .arg(strong(alloc))?
        .arg(seconds(alloc))?
        .arg(stop(alloc))
}

// A command with the options of the searches of several bays.
pub(crate) fn with_searches<'a>(
    alloc: Global,
    command: Command<'a>,
) -> Result<Command<'a>, AllocError>
    ensures { IfOk result (λ new. (shape : Shape) → IsCommand shape command.entry → IsCommand (with_searches shape) new) }
{
    with_search(alloc, command)?.arg(total_seconds(alloc))
}

// A command with the size of the bays, and the byte between the fields of lists.
pub(crate) fn with_size<'a>(alloc: Global, command: Command<'a>) -> Result<Command<'a>, AllocError>
    ensures { IfOk result (λ new. (shape : Shape) → IsCommand shape command.entry → IsCommand (with_size shape) new) }
{
    let rows = number(alloc, "rows", "6", "Rows of each bay, 1 to 12");
    let tiers = number(alloc, "tiers", "5", "Tiers of each bay, 1 to 8");
    let heights = optional(
        alloc,
        "heights",
        "HEIGHTS",
        "Tiers of each row, as 3.1.3, in place of --rows and --tiers",
    );
    let sizes = optional(
        alloc,
        "sizes",
        "FILE",
        "Sizes of bays that have another (CSV: block,bay,heights)",
    );
    let separator = text(
        alloc,
        "separator",
        "C",
        ",",
        "Sign between the fields of lists, as ;",
    );
    command
        .arg(rows)?
        .arg(tiers)?
        .arg(heights)?
        .arg(sizes)?
        .arg(separator)
}

// A command with the order of leaving, and what is to be loaded.
pub(crate) fn with_orders<'a>(
    alloc: Global,
    command: Command<'a>,
) -> Result<Command<'a>, AllocError>
    ensures { IfOk result (λ new. (shape : Shape) → IsCommand shape command.entry → IsCommand (with_orders shape) new) }
{
    let order = text(
        alloc,
        "order",
        "ORDER",
        "listed",
        "Order of leaving: listed (as in the message) or stowage (lowest ship tier first)",
    );
    let code = text(
        alloc,
        "code",
        "TEXT",
        "LOA",
        "Handling code of the containers to be loaded",
    );
    let message = repeated(
        alloc,
        "message",
        "REFERENCE",
        "Read the message with this reference (UNH) alone; may be given several times",
    );
    command.arg(order)?.arg(code)?.arg(message)
}

// A command with these, and the bays that the run is for.
pub(crate) fn with_bays<'a>(alloc: Global, command: Command<'a>) -> Result<Command<'a>, AllocError>
    ensures { IfOk result (λ new. (shape : Shape) → IsCommand shape command.entry → IsCommand (with_bays shape) new) }
{
    with_orders(alloc, command)?.arg(repeated(
        alloc,
        "bay",
        "BAY",
        "Only this bay, as 'A 1'; may be given several times",
    ))
}

// A command with the blocks whose bays are wanted.
pub(crate) fn with_blocks<'a>(
    alloc: Global,
    command: Command<'a>,
) -> Result<Command<'a>, AllocError>
    ensures { IfOk result (λ new. (shape : Shape) → IsCommand shape command.entry → IsCommand (with_blocks shape) new) }
{
    command.arg(repeated(
        alloc,
        "block",
        "BLOCK",
        "Only the bays of this block; may be given several times",
    ))
}

fn quiet<'a>(alloc: Global) -> Arg<'a>
    ensures { IsArg quiet_rule result }
{
    flag(alloc, "quiet", "Leave out the notes on the standard error")
}

fn progress<'a>(alloc: Global) -> Arg<'a>
    ensures { IsArg progress_rule result }
{
    flag(
        alloc,
        "progress",
        "Say on the standard error which bay begins, where that is no terminal",
    )
}

fn json<'a>(alloc: Global) -> Arg<'a>
    ensures { IsArg json_rule result }
{
    flag(
        alloc,
        "json",
        "Print the report as JSON Lines, one object for each bay",
    )
}

// A command with what is written.
pub(crate) fn with_outputs<'a>(
    alloc: Global,
    command: Command<'a>,
) -> Result<Command<'a>, AllocError>
    ensures { IfOk result (λ new. (shape : Shape) → IsCommand shape command.entry → IsCommand (with_outputs shape) new) }
{
    let cert = optional(
        alloc,
        "cert",
        "FILE",
        "File that gets the certificates; without it they are not written",
    );
    let after = optional(
        alloc,
        "after",
        "FILE",
        "File that gets the yard after the plans; without it that is not written",
    );
    command
        .arg(cert)?
        .arg(after)?
        .arg(quiet(alloc))?
        .arg(progress(alloc))?
        .arg(json(alloc))
}

// A command with the page of what is followed.
pub(crate) fn with_page<'a>(alloc: Global, command: Command<'a>) -> Result<Command<'a>, AllocError>
    ensures { IfOk result (λ new. (shape : Shape) → IsCommand shape command.entry → IsCommand (with_page shape) new) }
{
    command.arg(optional(
        alloc,
        "page",
        "FILE",
        "File that gets a page of the moves, with pictures; without it that is not written",
    ))
}

// A command with a report that may end early.
pub(crate) fn with_partial<'a>(
    alloc: Global,
    command: Command<'a>,
) -> Result<Command<'a>, AllocError>
    ensures { IfOk result (λ new. (shape : Shape) → IsCommand shape command.entry → IsCommand (with_partial shape) new) }
{
    command.arg(flag(
        alloc,
        "partial",
        "Take a report that ends early, without its last line, as far as it goes",
    ))
}

// A command that may print JSON Lines.
pub(crate) fn with_json<'a>(
    alloc: Global,
    command: Command<'a>,
    help: &'a str,
) -> Result<Command<'a>, AllocError>
    ensures { IfOk result (λ new. (shape : Shape) → IsCommand shape command.entry → IsCommand (with_json shape) new) }
{
    command.arg(flag(alloc, "json", help))
}

// A command with a table of the bays.
pub(crate) fn with_summary<'a>(
    alloc: Global,
    command: Command<'a>,
) -> Result<Command<'a>, AllocError>
    ensures { IfOk result (λ new. (shape : Shape) → IsCommand shape command.entry → IsCommand (with_summary shape) new) }
{
    command.arg(flag(
        alloc,
        "summary",
        "Print a table of the bays, one line for each, in place of that of the moves",
    ))
}

// A command with a second report.
pub(crate) fn with_compare<'a>(
    alloc: Global,
    command: Command<'a>,
) -> Result<Command<'a>, AllocError>
    ensures { IfOk result (λ new. (shape : Shape) → IsCommand shape command.entry → IsCommand (with_compare shape) new) }
{
    command.arg(optional(
        alloc,
        "compare",
        "REPORT2",
        "Print a table of the bays of both reports, with the difference of their relocations",
    ))
}

// A command with the yard after the moves of what is followed, and how many of them are made.
pub(crate) fn with_after<'a>(alloc: Global, command: Command<'a>) -> Result<Command<'a>, AllocError>
    ensures { IfOk result (λ new. (shape : Shape) → IsCommand shape command.entry → IsCommand (with_after shape) new) }
{
    let after = optional(
        alloc,
        "after",
        "FILE",
        "Write the yard as the moves leave it to FILE, as a yard list",
    );
    let loaded = optional_number(
        alloc,
        "loaded",
        "Make the moves only until the ship has its first N containers",
    );
    command.arg(after)?.arg(loaded)
}
