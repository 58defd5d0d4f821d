//! The command line: each command with its files and options.
ghost use Rattle.std.specs.Prelude.{◌≡◌, IfOk};
ghost use Rattle.clap.specs.Words.{App, app_of, with_subcommand};
ghost use Rattle.crp_words.specs.Commands.{IsArg, IsCommand, absent as absent_shape, absent_files as absent_files_shape, alone, audit as audit_shape, audit_files as audit_files_shape, bound as bound_shape, check as check_shape, crp, file_rule, flag_rule, follow as follow_shape, follow_files as follow_files_shape, leaf as leaf_shape, leaves, more_rule, prove as prove_shape, rewrite as rewrite_shape, solve as solve_shape, solve_files as solve_files_shape, top_command as top_shape, with_option};

use crate::options::{
    flag, with_after, with_bays, with_blocks, with_compare, with_json, with_orders, with_outputs,
    with_page, with_partial, with_search, with_searches, with_size, with_summary, workers,
};
use clap::{Arg, Command};
use std::alloc::{AllocError, Global};

// What a command that reads a head says of its file.
const HEAD: &str = "Certificate, or - for the standard input";

// A file that has to be named.
fn file<'a>(alloc: Global, name: &'a str, shown: &'a str, help: &'a str) -> Arg<'a>
    ensures { IsArg (file_rule name.entry.now) result }
{
    Arg::new(alloc, name)
        .required(true)
        .value_name(shown)
        .help(help)
}

// A file that may be named.
fn more_file<'a>(alloc: Global, name: &'a str, shown: &'a str, help: &'a str) -> Arg<'a>
    ensures { IsArg (more_rule name.entry.now) result }
{
    Arg::new(alloc, name).value_name(shown).help(help)
}

// A command that takes a file, and no option.
fn leaf<'a>(
    alloc: Global,
    name: &'a str,
    about: &'a str,
    help: &'a str,
) -> Result<Command<'a>, AllocError>
    ensures { IfOk result (IsCommand (leaf_shape name.entry.now)) }
{
    Command::new(alloc, name)
        .about(about)
        .arg(file(alloc, "file", "FILE", help))
}

// A command that takes a file, and this flag alone.
fn leaf_with_flag<'a>(
    alloc: Global,
    name: &'a str,
    about: &'a str,
    help: &'a str,
    flagged: &'a str,
    flag_help: &'a str,
) -> Result<Command<'a>, AllocError>
    ensures { IfOk result (IsCommand (with_option (flag_rule flagged.entry.now) (leaf_shape name.entry.now))) }
{
    let command = leaf(alloc, name, about, help)?;
    command.arg(flag(alloc, flagged, flag_help))
}

// The command `prove`.
fn prove<'a>(alloc: Global) -> Result<Command<'a>, AllocError>
    ensures { IfOk result (IsCommand prove_shape) }
{
    let command = leaf(
        alloc,
        "prove",
        "Solve the problem of a certificate's head and print a certificate",
        HEAD,
    )?;
    with_search(alloc, command)
}

// The command `solve`, with its files, and without the options.
fn solve_files<'a>(alloc: Global) -> Result<Command<'a>, AllocError>
    ensures { IfOk result (IsCommand solve_files_shape) }
{
    Command::new(alloc, "solve")
        .about("Print the plans of a yard's bays for the load orders of a message")
        .arg(file(alloc, "yard", "YARD", "Yard list (CSV)"))?
        .arg(file(alloc, "movins", "MOVINS", "Load orders (MOVINS)"))
}

// The command `solve`.
fn solve<'a>(alloc: Global) -> Result<Command<'a>, AllocError>
    ensures { IfOk result (IsCommand solve_shape) }
{
    let sized = with_size(alloc, solve_files(alloc)?)?;
    let ordered = with_bays(alloc, sized)?;
    let searched = with_searches(alloc, ordered)?;
    with_outputs(alloc, searched)
}

// The command `absent`, with its files, and without the options.
fn absent_files<'a>(alloc: Global) -> Result<Command<'a>, AllocError>
    ensures { IfOk result (IsCommand absent_files_shape) }
{
    Command::new(alloc, "absent")
        .about("List the ordered containers of a message that are not in the yard (CSV)")
        .arg(file(alloc, "yard", "YARD", "Yard list (CSV)"))?
        .arg(file(alloc, "movins", "MOVINS", "Load orders (MOVINS)"))
}

// The command `absent`.
fn absent<'a>(alloc: Global) -> Result<Command<'a>, AllocError>
    ensures { IfOk result (IsCommand absent_shape) }
{
    let sized = with_size(alloc, absent_files(alloc)?)?;
    with_orders(alloc, sized)
}

// The command `audit`, with its files, and without the options.
fn audit_files<'a>(alloc: Global) -> Result<Command<'a>, AllocError>
    ensures { IfOk result (IsCommand audit_files_shape) }
{
    Command::new(alloc, "audit")
        .about(
            "Check a report and its certificates, whoever made them, against a yard list and a message",
        )
        .arg(file(alloc, "yard", "YARD", "Yard list (CSV)"))?
        .arg(file(alloc, "movins", "MOVINS", "Load orders (MOVINS)"))?
        .arg(file(alloc, "report", "REPORT", "Report, as solve prints it"))?
        .arg(file(
            alloc,
            "certificates",
            "CERTS",
            "Certificates of its bays, as solve --cert writes them",
        ))
}

// The command `audit`.
fn audit<'a>(alloc: Global) -> Result<Command<'a>, AllocError>
    ensures { IfOk result (IsCommand audit_shape) }
{
    let sized = with_size(alloc, audit_files(alloc)?)?;
    let ordered = with_bays(alloc, sized)?;
    let early = with_partial(alloc, ordered)?;
    with_json(
        alloc,
        early,
        "Print what is found as JSON Lines, one object for each bay",
    )
}

// The command `follow`, with its files, and without the options.
fn follow_files<'a>(alloc: Global) -> Result<Command<'a>, AllocError>
    ensures { IfOk result (IsCommand follow_files_shape) }
{
    Command::new(alloc, "follow")
        .about(
            "Follow the moves of a report, whoever wrote it, over a yard and print a table of them",
        )
        .arg(file(alloc, "yard", "YARD", "Yard list (CSV)"))?
        .arg(file(
            alloc,
            "report",
            "REPORT",
            "Report, as solve prints it, or - for the standard input",
        ))?
        .arg(more_file(
            alloc,
            "movins",
            "MOVINS",
            "Load orders (MOVINS); with them the table is in the order in which the ship is loaded",
        ))
}

// The command `follow`.
fn follow<'a>(alloc: Global) -> Result<Command<'a>, AllocError>
    ensures { IfOk result (IsCommand follow_shape) }
{
    let sized = with_size(alloc, follow_files(alloc)?)?;
    let ordered = with_bays(alloc, sized)?;
    let parted = with_blocks(alloc, ordered)?;
    let paged = with_page(alloc, parted)?;
    let left = with_after(alloc, paged)?;
    let early = with_partial(alloc, left)?;
    let summed = with_summary(alloc, early)?;
    with_compare(alloc, summed)
}

// crp itself, without its commands.
fn top<'a>(alloc: Global) -> Result<Command<'a>, AllocError>
    ensures { IfOk result (λ c. app_of c ≡ alone top_shape) }
{
    let top = Command::new(alloc, "crp").bin_name("crp")?;
    Ok(
        top.version("0.1.0 (Rattle logic dac8208d650f15bf)")
            .no_binary_name(true)
            .subcommand_required(true),
    )
}

// A command line with one more command that takes a file, and no option.
fn with_leaf<'a>(
    alloc: Global,
    line: Command<'a>,
    name: &'a str,
    about: &'a str,
    help: &'a str,
) -> Result<Command<'a>, AllocError>
    ensures { IfOk result (λ new. (app : App) → app_of line.entry ≡ app → app_of new ≡ with_subcommand app (leaf_shape name.entry.now)) }
{
    line.subcommand(leaf(alloc, name, about, help)?)
}

// The command `check`.
fn check<'a>(alloc: Global) -> Result<Command<'a>, AllocError>
    ensures { IfOk result (IsCommand check_shape) }
{
    let command = leaf_with_flag(
        alloc,
        "check",
        "Check a file of certificates",
        "Certificates, or - for the standard input",
        "any-size",
        "Take more than 268435456 bytes too",
    )?;
    let worked = command.arg(workers(
        alloc,
        "Workers that check certificates side by side, 1 to 64",
    ))?;
    with_json(
        alloc,
        worked,
        "Print what they show as JSON Lines, one object for each certificate",
    )
}

// The command `bound`.
fn bound<'a>(alloc: Global) -> Result<Command<'a>, AllocError>
    ensures { IfOk result (IsCommand bound_shape) }
{
    let command = leaf_with_flag(
        alloc,
        "bound",
        "Print two lower bounds on the relocations of a certificate's bay",
        HEAD,
        "chains",
        "Print also one by chains of containers that block, with their ranks",
    )?;
    with_json(alloc, command, "Print them as JSON Lines, in one object")
}

// crp with the commands that take a file, and no option of a search.
fn with_leaves<'a>(alloc: Global) -> Result<Command<'a>, AllocError>
    ensures { IfOk result (λ line. app_of line ≡ leaves) }
{
    let line = with_leaf(
        alloc,
        top(alloc)?,
        "replay",
        "Print the moves of a certificate's plan",
        HEAD,
    )?;
    line.subcommand(bound(alloc)?)?.subcommand(check(alloc)?)
}

// The command `rewrite`.
fn rewrite<'a>(alloc: Global) -> Result<Command<'a>, AllocError>
    ensures { IfOk result (IsCommand rewrite_shape) }
{
    leaf(
        alloc,
        "rewrite",
        "Print a report whose moves were edited, with lines that count its moves",
        "Report, as solve prints it, or - for the standard input",
    )
}

/// The whole command line.
pub fn command_line<'a>(alloc: Global) -> Result<Command<'a>, AllocError>
    ensures { IfOk result (λ c. app_of c ≡ crp) }
{
    with_leaves(alloc)?
        .subcommand(prove(alloc)?)?
        .subcommand(solve(alloc)?)?
        .subcommand(audit(alloc)?)?
        .subcommand(follow(alloc)?)?
        .subcommand(absent(alloc)?)?
        .subcommand(rewrite(alloc)?)
}
