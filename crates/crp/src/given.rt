//! The words that the program is given.
ghost use Rattle.std.specs.Prelude.{ℕ, List, IfOk, map, option_map, string_bytes};
ghost use Rattle.crp_words.specs.Json.{IsJsonHead};

use crate::program::texts_of;
use crp_json::Printed;
use crp_words::{Mistake, Usage, json_head};
use std::alloc::Global;
use std::{env, io};

// The words after the program's name.
fn words_after_name(rt: &HostRuntime) -> io::Result<Vec<String>> {
    let mut words = Vec::new(rt.alloc());
    for word in env::args(rt)?.skip(1) {
        words.push(word)?;
    }
    Ok(words)
}

// Why the words were not had: memory is lacking, or one of them is no text.
fn usage_without_words(alloc: Global, error: &io::Error) -> Usage {
    if error.kind() == io::ErrorKind::OutOfMemory {
        return Usage::Memory;
    }
    match String::from_str(alloc, "error: a word is no text\n") {
        Ok(text) => Usage::Wrong(Mistake::Words(text)),
        Err(_) => Usage::Memory,
    }
}

/// What is printed, and the first line of JSON Lines, where the words ask for these.
pub type Head = (Printed, Option<Vec<u8>>);

// What the words print, and the first line of JSON Lines, where they ask for these.
fn head_of(alloc: Global, words: &[String]) -> Result<Head, Usage>
    ensures { (line : List ℕ) × IfOk result (λ head. IsJsonHead (map string_bytes words.now) line head.0 (option_map (λ line. line.items) head.1)) }
{
    match texts_of(alloc, words) {
        Ok(texts) => json_head(alloc, &texts),
        Err(_) => Err(Usage::Memory),
    }
}

// The words after the program's name, or why they were not had.
fn words_of(rt: &HostRuntime) -> Result<Vec<String>, Usage> {
    words_after_name(rt).map_err(|error| usage_without_words(rt.alloc(), &error))
}

/// The words after the program's name, with what they print and the first line of JSON Lines, where they ask for these; or why they were not
/// had, or ask for nothing.
pub fn words_and_head(rt: &HostRuntime) -> (Result<Vec<String>, Usage>, Head) {
    let words = match words_of(rt) {
        Ok(words) => words,
        Err(usage) => return (Err(usage), (Printed::Report, None)),
    };
    match head_of(rt.alloc(), &words) {
        Ok(head) => (Ok(words), head),
        Err(usage) => (Err(usage), (Printed::Report, None)),
    }
}
