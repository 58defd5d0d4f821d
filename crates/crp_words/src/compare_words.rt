//! What the words of `follow` ask for that name a second report.
ghost use Rattle.std.specs.Prelude.{◌↔◌, IsTrue, codes};
ghost use Rattle.clap.specs.Words.{found_of, rows_of};
ghost use Rattle.crp_words.specs.Words.{AreBothInput, HasCompareFiles, HasSeparator, HasText, IsComparedBeside, IsOfOneReport};

use crate::given::is_given;
use clap::ArgMatches;
use crp_jobs::CompareFiles;

/// The refusal of a second report beside what is made of one.
pub(crate) static COMPARED_BESIDE: &str =
    "error: the argument '--compare <REPORT2>' cannot be used with a message, '--bay <BAY>', '--block <BLOCK>', '--summary', '--page <FILE>' or '--after <FILE>', and one report at most may be -\n\nUsage: crp follow [OPTIONS] <YARD> <REPORT> [MOVINS]\n\nFor more information, try '--help'.\n";

// Whether the report of this name is the standard input.
fn is_input(matches: &ArgMatches<'_>, name: &str) -> bool
    ensures { IsTrue result ↔ HasText name.now (rows_of (found_of matches.now)) (codes "-") }
{
    let Some(text) = matches.get_str(name) else {
        return false;
    };
    if text == "-" {
        return true;
    }
    false
}

// Whether both reports are.
fn are_both_input(matches: &ArgMatches<'_>) -> bool
    ensures { IsTrue result ↔ AreBothInput (rows_of (found_of matches.now)) }
{
    is_input(matches, "report") && is_input(matches, "compare")
}

// Whether what is said of one report is given.
fn is_of_one_report(matches: &ArgMatches<'_>) -> bool
    ensures { IsTrue result ↔ IsOfOneReport (rows_of (found_of matches.now)) }
{
    is_given(matches, "movins")
        || is_given(matches, "bay")
        || is_given(matches, "block")
        || is_given(matches, "summary")
}

/// Whether a second report is given beside what is made of one, or both are the standard input.
pub(crate) fn is_compared_beside(matches: &ArgMatches<'_>) -> bool
    ensures { IsTrue result ↔ IsComparedBeside (rows_of (found_of matches.now)) }
{
    is_given(matches, "compare")
        && (is_of_one_report(matches)
            || is_given(matches, "page")
            || is_given(matches, "after")
            || are_both_input(matches))
}

/// The files of two reports, where these are the yard list and the reports.
pub(crate) fn compare_files_of<'a>(
    matches: &ArgMatches<'a>,
    yard: &'a str,
    report: &'a str,
    second: &'a str,
    separator: u8,
) -> CompareFiles<'a>
    requires yard { HasText (codes "yard") (rows_of (found_of matches.now)) yard.now }
    requires report { HasText (codes "report") (rows_of (found_of matches.now)) report.now }
    requires separator { HasSeparator (rows_of (found_of matches.now)) separator }
    requires second { HasText (codes "compare") (rows_of (found_of matches.now)) second.now }
    ensures { HasCompareFiles (rows_of (found_of matches.now)) result }
{
    CompareFiles {
        yard,
        sizes: matches.get_str("sizes"),
        report,
        second,
        partial: is_given(matches, "partial"),
        separator,
    }
}
