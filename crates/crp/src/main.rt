//! The program `crp`: plans for a container yard that gives its containers to a ship in a fixed order.
#![tactic(auto)]

mod cleared;
mod given;
mod piped;
mod program;
mod standing;
mod terminal;

use crate::cleared::Cleared;
use crate::given::words_and_head;
use crate::piped::Piped;
use crate::standing::standing_in;
use crate::terminal::ErrorTerminal;
use crp_commands::{Metered, Streams};
use crp_files::SystemFiles;
use crp_json::{JsonErrors, JsonLines};
use crp_plan::Counted;
use std::io::IsTerminal;
use std::marker::Brand;
use std::process::ExitCode;

// The streams of the program.
fn streams_of<R, W, E>(input: R, out: W, errors: E) -> Streams<R, W, E> {
    Streams { input, out, errors }
}

fn main(rt: HostRuntime) -> ExitCode {
    let _held = standing_in(&rt);
    let (words, (printed, head)) = words_and_head(&rt);
    let is_json = head.is_some();
    let terminal = ErrorTerminal::new(&rt, !is_json);
    let input = Metered {
        source: Counted::new(rt.stdin()),
        terminal: &terminal,
    };
    let cleared = Cleared {
        writer: rt.stdout(),
        terminal: rt.stdout().is_terminal().then_some(&terminal),
    };
    let piped = Counted::new(Piped::new(cleared));
    let out = JsonLines::<_, Brand>::new(rt.alloc(), piped, printed, head);
    let errors = JsonErrors::<_, Brand>::new(rt.alloc(), Counted::new(rt.stderr()), is_json);
    let mut streams = streams_of(input, out, errors);
    let status = program::run(
        &rt,
        rt.alloc(),
        &mut SystemFiles::new(&rt),
        &mut streams,
        &words,
        rt.stdin().is_terminal(),
        &terminal,
    );
    ExitCode::from(status)
}
