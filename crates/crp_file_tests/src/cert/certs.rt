use super::{SAID_OF_SIX, SIX_CONTAINERS, Said, assert_fault, assert_head, joined};
use crate::calls::read_cert;
use crate::compare::{assert_same, assert_same_at};
use crp_cert::{CertFault, Parts, Script};
use crp_row::Kind;
use crp_tree::Tree;
use std::alloc::{AllocError, Global};
use std::process::Abort;
use std::test::Fail;

/// The head of six containers that nine relocations can lead through.
const LONG_PATHS: [&[u8]; 8] = [
    b"CRP-CERT 1",
    b"bay A 1",
    b"size 3 3 6 6",
    b"row 1 4 6",
    b"row 3 5",
    b"row 2",
    b"at least 0",
    b"plan -",
];

/// The head of the six containers in the version whose cuts may have their reasons.
const SIX_WITH_REASONS: [&[u8]; 9] = [
    b"CRP-CERT 3",
    b"bay A 1",
    b"size 3 3 6 6",
    b"heights 3 3 3",
    b"row 1 5 4",
    b"row 6",
    b"row 3 2",
    b"at least 3",
    b"plan 2 2 1",
];

/// The lines of a head and what follows them.
fn text_of(alloc: Global, head: &[&[u8]], rest: &[u8]) -> Result<Vec<u8>, AllocError> {
    let mut text = joined(alloc, head)?;
    text.extend_from_slice(rest)?;
    Ok(text)
}

/// The fault that a text is refused with, if it is.
fn refusal(alloc: Global, text: &[u8]) -> Option<CertFault> {
    match read_cert(alloc, text) {
        Ok(_) => None,
        Err(fault) => Some(fault),
    }
}

/// A certificate of the six containers with these parts is refused with this fault.
fn assert_refused(
    rt: &(impl Abort + AllocGlobal),
    rest: &[u8],
    fault: CertFault,
) -> Result<(), AllocError> {
    let text = text_of(rt.alloc(), &SIX_CONTAINERS, rest)?;
    assert_fault(rt, refusal(rt.alloc(), &text), Some(fault), rest);
    Ok(())
}

/// Adds what a tree is, for a branch how many trees follow, and for reasons what they show and their text.
fn push_tree(text: &mut Vec<u8>, tree: &Tree) -> Result<(), AllocError> {
    let mut rest = tree.symbols();
    while let Some((kind, reasons)) = rest.next() {
        match kind {
            Kind::CutB => text.push(b'b')?,
            Kind::CutL => text.push(b'l')?,
            Kind::CutR(bound) => {
                text.push(b'r')?;
                text.push(bound)?;
                text.extend_from_slice(reasons)?;
            }
            Kind::Given => text.push(b'g')?,
            Kind::Branch(count) => {
                text.push(b'x')?;
                text.push(count)?;
            }
        }
    }
    Ok(())
}

/// What parts are: of each its rows and its tree.
fn shown(alloc: Global, parts: &Parts) -> Result<Vec<u8>, AllocError> {
    let mut text = Vec::new(alloc);
    for part in parts.as_slice() {
        text.extend_from_slice(part.name().rows())?;
        push_tree(&mut text, part.tree())?;
    }
    Ok(text)
}

fn script_of(alloc: Global, text: &[u8]) -> Result<Script, CertFault> {
    read_cert(alloc, text)
}

/// The parts that are read of a text, as they are shown.
fn parts_of(alloc: Global, text: &[u8]) -> Result<Vec<u8>, CertFault> {
    let script = script_of(alloc, text)?;
    Ok(shown(alloc, &script.parts)?)
}

/// A certificate of this head has these parts.
fn assert_parts(
    rt: &(impl Abort + AllocGlobal),
    head: &[&[u8]],
    rest: &[u8],
    parts: &[u8],
) -> Result<(), Fail> {
    let text = text_of(rt.alloc(), head, rest)?;
    assert_same_at(rt, &parts_of(rt.alloc(), &text)?.as_slice(), &parts, &rest);
    Ok(())
}

fn made_again(parts: Parts) -> Parts {
    Parts::of(parts.into_vec())
}

fn assert_shown(
    rt: &(impl Abort + AllocGlobal),
    parts: &Parts,
    expected: &[u8],
) -> Result<(), AllocError> {
    assert_same(rt, &shown(rt.alloc(), parts)?.as_slice(), &expected);
    Ok(())
}

/// A script has this head and these parts, and so have its parts made again.
fn assert_script(
    rt: &(impl Abort + AllocGlobal),
    text: &[u8],
    said: &Said,
    expected: &[u8],
) -> Result<(), Fail> {
    let script = script_of(rt.alloc(), text)?;
    assert_head(rt, &script.head, said);
    assert_shown(rt, &script.parts, expected)?;
    assert_shown(rt, &made_again(script.parts), expected)?;
    Ok(())
}

#[test]
fn six_containers_three_relocations(rt: HostRuntime) -> Result<(), Fail> {
    let text = text_of(rt.alloc(), &SIX_CONTAINERS, b"part /: XLB\nend 1\n")?;
    assert_script(&rt, &text, &SAID_OF_SIX, b"x\x02lb")
}

#[test]
fn parts_that_are_read(rt: HostRuntime) -> Result<(), Fail> {
    let texts: [(&[u8], &[u8]); 11] = [
        (b"end 0\n", b""),
        (b"part /: B\nend 1\n", b"b"),
        (b"part /: XLL\nend 1\n", b"x\x02ll"),
        (b"part /: XBL\nend 1\n", b"x\x02bl"),
        (b"part /: XXBBB\nend 1\n", b"x\x02x\x02bbb"),
        (
            b"part /: XLB\npart 2: L\npart 3: B\nend 3\n",
            b"x\x02lb\x02l\x03b",
        ),
        (
            b"part /: XLB\npart 2: L\npart 3: B\npart 3.2: B\nend 4\n",
            b"x\x02lb\x02l\x03b\x03\x02b",
        ),
        // Subtrees that are given to parts of their own.
        (
            b"part /: XGG\npart 2: L\npart 3: B\nend 3\n",
            b"x\x02gg\x02l\x03b",
        ),
        (
            b"part /: XGB\npart 2: XXBBB\nend 2\n",
            b"x\x02gb\x02x\x02x\x02bbb",
        ),
        (b"part /: XLXG\nend 1\n", b"x\x02lx\x01g"),
        // After the relocations of a plan no container is left.
        (b"part 2.2.1: X\nend 1\n", b"\x02\x02\x01x\x00"),
    ];
    for (rest, parts) in texts {
        assert_parts(&rt, &SIX_CONTAINERS, rest, parts)?;
    }
    Ok(())
}

#[test]
fn a_subtree_given_at_nine_rows_is_read(rt: HostRuntime) -> Result<(), Fail> {
    let deep = b"part 3.3.1.2.1.1.2.2: XGB\nend 1\n";
    assert_parts(
        &rt,
        &LONG_PATHS,
        deep,
        b"\x03\x03\x01\x02\x01\x01\x02\x02x\x02gb",
    )
}

#[test]
fn reasons_that_are_read(rt: HostRuntime) -> Result<(), Fail> {
    let texts: [(&[u8], &[u8]); 2] = [
        (b"part /: [2:RBB]\nend 1\n", b"r\x02RBB"),
        (
            b"part /: X[12:T1,L;]L\npart 2: [0:]\nend 2\n",
            b"x\x02r\x0cT1,L;l\x02r\x00",
        ),
    ];
    for (rest, parts) in texts {
        assert_parts(&rt, &SIX_WITH_REASONS, rest, parts)?;
    }
    Ok(())
}

// The program checks without `read_cert`, so there is a row here for each fault of the parts. Where it checks a file, what follows a last
// line is one more certificate.
#[test]
fn certificates_that_are_refused(rt: HostRuntime) -> Result<(), Fail> {
    let cases: [(&[u8], CertFault); 10] = [
        (b"part 1: B\nend 1\n", CertFault::Part { line: 9 }),
        (
            b"part /: XLB\npart 3: B\npart 2: L\nend 3\n",
            CertFault::Order { line: 11 },
        ),
        (b"part /: G\nend 1\n", CertFault::Symbol { line: 9 }),
        // Reasons, which version 1 does not spell.
        (b"part /: [2:RBB]\nend 1\n", CertFault::Symbol { line: 9 }),
        (b"part /: XXBB\nend 1\n", CertFault::Unfinished { line: 9 }),
        (b"part /: XLBB\nend 1\n", CertFault::Trailing { line: 9 }),
        (b"part /: XLB\nend 2\n", CertFault::End { line: 10 }),
        (b"part /: XLB\nend 1\n\n", CertFault::End { line: 11 }),
        (b"part /: XLB\nend 1\nend 1\n", CertFault::End { line: 11 }),
        (
            b"part /: XLB\nend 1\nCRP-CERT 1\n",
            CertFault::End { line: 11 },
        ),
    ];
    for (rest, fault) in cases {
        assert_refused(&rt, rest, fault)?;
    }
    Ok(())
}
