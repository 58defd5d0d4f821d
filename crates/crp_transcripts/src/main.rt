//! Plays transcripts of the program `crp`: what stands in which file, the words of a run, and what must come of it.
//!
//! A transcript is a text of blocks. A block is a line with a mark, and the lines behind it, which are its text:
//!
//! - `# NOTE` says what is shown, and has no text;
//! - `> NAME` writes its text to the file of this name;
//! - `~ NAME FILE` makes a symbolic link of this name, which leads to this file, and `+ NAME FILE` a hard link;
//! - `$ crp WORDS` runs the program with these words, and its text is what the standard output must get. A word that stands between two
//!   `'` may have blanks. With `< NAME` at the end the standard input is what the file of this name holds, else it is empty;
//! - `!` has as its text what the standard error must have got from the run. With no such block that is nothing;
//! - `? STATUS` is the exit status that the run must have had. With no such block that is 0;
//! - `= NAME` has as its text what the file of this name must hold;
//! - `- NAME` says that there must be no file of this name.
//!
//! What a run of `solve` with certificates wrote is audited, too, and the audit must be a yes, but where it wrote JSON Lines. Where the words
//! name a limit of time, the clock of the run is a second later at each reading.
//!
//! In a text `\xHH` is a byte, `\\` a backslash, and a line that ends with `\` gives no line end. Empty lines count for nothing.
//!
//! The words of this program are the names of transcripts. It plays them in order, in the folder that it is run in, up to the first block
//! that differs, and writes a line for each. The transcripts behind the word `--differs` are wrong on purpose, one for each mark, so each
//! must differ. Where anything is otherwise, the standard error shows what was found, and the program ends with status 1.
#![tactic(auto)]

mod audits;
mod blocks;
mod player;
mod ticking;

use crate::player::play;
use std::process::ExitCode;
use std::sync::Wait;
use std::thread::Threads;
use std::{env, io};

// Plays all transcripts, and returns whether each went as it must.
fn play_all<T: Threads + Wait + Sync>(rt: &HostRuntime, threads: &T) -> io::Result<bool> {
    let mut is_right = true;
    let mut is_well = true;
    for word in env::args(rt)?.skip(1) {
        if word.as_str() == "--differs" {
            is_right = false;
        } else {
            is_well &= play(rt, threads, word.as_str())? == is_right;
        }
    }
    Ok(is_well)
}

fn main(rt: HostRuntime) -> io::Result<ExitCode> {
    if play_all(&rt, &rt)? {
        Ok(ExitCode::SUCCESS)
    } else {
        Ok(ExitCode::FAILURE)
    }
}
