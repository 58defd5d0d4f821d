//! The help that words of the command line ask for.
use crate::calls::job;
use crate::compare::assert_at;
use crp_words::Usage;
use std::alloc::Global;

fn is_help(alloc: Global, words: &[&str]) -> bool {
    matches!(job(alloc, words), Err(Usage::Help(_)))
}

#[test]
fn shows_help(rt: HostRuntime) {
    for words in [
        ["--help", "replay"],
        ["--version", "replay"],
        ["bound", "--help"],
        ["solve", "--help"],
        ["absent", "--help"],
        ["audit", "--help"],
        ["follow", "--help"],
        ["rewrite", "--help"],
        ["help", "prove"],
    ] {
        assert_at(&rt, is_help(rt.alloc(), &words), &words);
    }
}

// What the help of `solve` says of its words, its options and their defaults.
const HELP: [&str; 34] = [
    "Usage: crp solve [OPTIONS] <YARD> <MOVINS>",
    "--rows <N>",
    "1 to 12 [default: 6]",
    "--tiers <N>",
    "1 to 8 [default: 5]",
    "--heights <HEIGHTS>",
    "--sizes <FILE>",
    "--separator <C>",
    "[default: ,]",
    "--order <ORDER>",
    "[default: listed]",
    "--code <TEXT>",
    "[default: LOA]",
    "--message <REFERENCE>",
    "--bay <BAY>",
    "--workers <N>",
    "1 to 64 [default: 1]",
    "--split <N>",
    "0 to 8 [default: 2]",
    "--budget <N>",
    "0 to 1099511627776 [default: 1000000]",
    "--first",
    "--beam <N>",
    "0 to 10000 [default: 0]",
    "--deepen",
    "--thin <N>",
    "0 to 1000000; 0 for no try [default: 0]",
    "--chains",
    "--strong",
    "--cert <FILE>",
    "--after <FILE>",
    "--quiet",
    "--progress",
    "--json",
];

// The help that words ask for; nothing where they ask for none.
fn help_of(alloc: Global, words: &[&str]) -> String {
    match job(alloc, words) {
        Err(Usage::Help(help)) => help,
        _ => String::new(alloc),
    }
}

fn says(text: &String, piece: &str) -> bool {
    text.as_str().contains(piece)
}

#[test]
fn help_states_options_and_defaults(rt: HostRuntime) {
    let help = help_of(rt.alloc(), &["solve", "--help"]);
    for piece in HELP {
        assert_at(&rt, says(&help, piece), &piece);
    }
    let help = help_of(rt.alloc(), &["bound", "--help"]);
    for piece in ["Usage: crp bound [OPTIONS] <FILE>", "--chains", "--json"] {
        assert_at(&rt, says(&help, piece), &piece);
    }
}
