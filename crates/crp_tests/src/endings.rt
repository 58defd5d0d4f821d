//! Help that cannot be written.
use crate::compare::assert_same;
use crate::devices::Small;
use crp_commands::{NoTerminal, Streams};
use crp_files::SystemFiles;
use crp_plan::Received;
use crp_words::run_words;

#[test]
fn help_that_cannot_be_written(rt: HostRuntime) {
    let out = Small {
        bytes: Vec::new(rt.alloc()),
        room: 3,
        failed: 0,
    };
    let mut streams = Streams {
        input: b"".as_slice(),
        out,
        errors: Received::new(rt.alloc()),
    };
    let status = run_words(
        &rt,
        rt.alloc(),
        &mut SystemFiles::new(&rt),
        &mut streams,
        &["--version"],
        &NoTerminal,
    );
    assert_same(&rt, &status, &5);
    assert_same(&rt, &streams.out.bytes.as_slice(), &b"crp".as_slice());
    let explained =
        b"crp: a write failed\nlook at the standard output: the output could not be written: its disk must not be full, and the program that reads it must not have ended\n";
    assert_same(&rt, &streams.errors.bytes.as_slice(), &explained.as_slice());
}
