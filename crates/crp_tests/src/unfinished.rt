//! Files that were written and cannot be finished: their bytes were taken, and closing them fails.
use crate::compare::assert_same_at;
use crate::six::{SIX_ANSWERED, SIX_CONTAINERS, SIX_ORDERS, message};
use crp_commands::{NoTerminal, Streams};
use crp_memory_files::{FilesInMemory, StoredFile};
use crp_plan::{Nowhere, Received};
use crp_words::run_words;
use std::test::Fail;

// A file that is read.
fn input<'a>(name: &'a str, bytes: &'a [u8]) -> StoredFile<'a> {
    StoredFile {
        name,
        link: name,
        given: Some(bytes),
        finishes: true,
    }
}

// A file that is written, unless it is the one that cannot be finished.
fn output<'a>(name: &'a str, unfinished: &str) -> StoredFile<'a> {
    StoredFile {
        name,
        link: name,
        given: None,
        finishes: name != unfinished,
    }
}

// Words of which one names a file that cannot be finished, and what is said of it.
#[derive(Clone, Copy)]
struct Case {
    words: &'static [&'static str],
    name: &'static str,
    explained: &'static [u8],
}

const SOLVE: &[&str] = &[
    "solve",
    "yard.csv",
    "orders.edi",
    "--rows=3",
    "--tiers=3",
    "--cert=proofs",
    "--after=left",
    "--quiet",
];

const FOLLOW: &[&str] = &[
    "follow",
    "yard.csv",
    "-",
    "--rows=3",
    "--tiers=3",
    "--page=page",
];

const CERTIFICATES: &[u8] =
    b"crp: a write of the certificates failed\nlook at the file proofs: the certificates could not be written: the folder must be there and let you write, and its disk must not be full\n";

const YARD_AFTER: &[u8] =
    b"crp: a write of the yard after the plans failed\nlook at the file left: the yard after the plans could not be written: the folder must be there and let you write, and its disk not be full\n";

const PAGE: &[u8] =
    b"crp: a write of the page failed\nlook at the file page: the page could not be written: the folder must be there and let you write, and its disk must not be full\n";

const CASES: [Case; 3] = [
    Case {
        words: SOLVE,
        name: "proofs",
        explained: CERTIFICATES,
    },
    Case {
        words: SOLVE,
        name: "left",
        explained: YARD_AFTER,
    },
    Case {
        words: FOLLOW,
        name: "page",
        explained: PAGE,
    },
];

#[test]
fn files_that_cannot_be_finished(rt: HostRuntime) -> Result<(), Fail> {
    let message = message(rt.alloc(), &[SIX_ORDERS], b"16")?;
    for case in CASES {
        let stored = [
            input("yard.csv", SIX_CONTAINERS),
            input("orders.edi", &message),
            output("proofs", case.name),
            output("left", case.name),
            output("page", case.name),
        ];
        let mut files = FilesInMemory::new(rt.alloc(), &stored)?;
        let mut streams = Streams {
            input: SIX_ANSWERED,
            out: Nowhere,
            errors: Received::new(rt.alloc()),
        };
        let status = run_words(
            &rt,
            rt.alloc(),
            &mut files,
            &mut streams,
            case.words,
            &NoTerminal,
        );
        assert_same_at(&rt, &status, &5, &case.name);
        assert_same_at(
            &rt,
            &streams.errors.bytes.as_slice(),
            &case.explained,
            &case.name,
        );
    }
    Ok(())
}
