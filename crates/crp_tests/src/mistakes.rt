//! Words of the command line that are refused.
use crate::calls::job;
use crate::compare::assert_at;
use crp_words::{Mistake, Usage};
use std::alloc::Global;

fn is_wrong(alloc: Global, words: &[&str]) -> bool {
    matches!(job(alloc, words), Err(Usage::Wrong(Mistake::Words(_))))
}

// Words that ask for nothing: a file or a value is missing, or there is one too many; an option is given twice, or is none of its command; a
// value is no number; heights stand beside rows or tiers.
const WRONG: [&[&str]; 35] = [
    &["replay"],
    &["a", "replay"],
    &["bound", "a", "b"],
    &["check", "a", "--rows", "1"],
    &["prove", "--budget", "1"],
    &["prove", "a", "--budget"],
    &["prove", "a", "--rows=1"],
    &["prove", "a", "--split=-1"],
    &["prove", "a", "--budget=ten"],
    &["prove", "a", "--budget=18446744073709551616"],
    &["solve", "a", "--budget=1"],
    &["solve", "a", "b", "c", "--rows=1"],
    &["solve", "a", "b", "--rows=1", "--rows=1"],
    &["solve", "a", "b", "--rows=-1", "--tiers=1"],
    &["solve", "a", "b", "--rows=1", "--tiers="],
    &["solve", "a", "b", "--order=Listed", "--rows=1"],
    &["solve", "a", "b", "--workers=1", "--workers=1"],
    &["prove", "a", "--first", "--first"],
    &["prove", "a", "--budget=1", "--first=true"],
    &["solve", "a", "b", "--first=false"],
    &["solve", "a", "--first", "--first"],
    &["check", "a", "--first", "--first"],
    &["replay", "a", "--first"],
    &["bound", "a", "--first"],
    &["check", "a", "--first"],
    &["solve", "a", "--first"],
    &["solve", "a", "b", "--tiers=5", "--heights=3.1.3"],
    &["solve", "a", "b", "--heights=9", "--rows=0"],
    &["solve", "a", "b", "--heights=3", "--heights=3"],
    &["absent", "a"],
    &["absent", "a", "b", "--cert=c"],
    &["absent", "a", "b", "--bay=A 1"],
    &["absent", "a", "b", "--rows=3", "--heights=3"],
    &["rewrite"],
    &["rewrite", "a", "b"],
];

#[test]
fn refuses_words(rt: HostRuntime) {
    for words in WRONG {
        assert_at(&rt, is_wrong(rt.alloc(), words), &words);
    }
}
