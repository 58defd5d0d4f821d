//! Versions of certificates, and the heights that they state.
use crate::calls::read_cert;
use crate::compare::assert_same_at;
use crp_cert::{CertFault, Script, Version};
use crp_plan::Problem;
use std::alloc::{AllocError, Global};
use std::process::Abort;
use std::test::Fail;

const UNEQUAL: &[u8] = b"CRP-CERT 2\nbay A 1\nsize 3 3 4 4\nheights 3 1 3\nrow 1 4\nrow 2\nrow 3\n\
at least 2\nplan 3 1\npart /: L\nend 1\n";

const NARROW: &[u8] = b"CRP-CERT 2\nbay A 1\nsize 2 2 3 3\nheights 2 1\nrow 1 2\nrow 3\n\
at least 4\nplan -\npart /: X\nend 1\n";

/// The certificate of four containers in rows of one height, in version 2.
const EQUAL: &[u8] = b"CRP-CERT 2\nbay A 1\nsize 3 3 4 4\nheights 3 3 3\nrow 1 4\nrow 2\nrow 3\n\
at least 2\nplan 3 1\npart /: L\nend 1\n";

/// The same in version 1.
const EQUAL_UNSAID: &[u8] = b"CRP-CERT 1\nbay A 1\nsize 3 3 4 4\nrow 1 4\nrow 2\nrow 3\n\
at least 2\nplan 3 1\npart /: L\nend 1\n";

/// The same in version 3, where the cut has its reasons.
const WITH_REASONS: &[u8] =
    b"CRP-CERT 3\nbay A 1\nsize 3 3 4 4\nheights 3 3 3\nrow 1 4\nrow 2\nrow 3\n\
at least 2\nplan 3 1\npart /: [2:RBB]\nend 1\n";

fn script_of(alloc: Global, text: &[u8]) -> Result<Script, CertFault> {
    read_cert(alloc, text)
}

/// How high each row of a bay may be.
fn heights_of(alloc: Global, problem: &Problem) -> Result<Vec<u8>, AllocError> {
    let mut heights = Vec::new(alloc);
    for row in 0..problem.rows() {
        heights.push(problem.height(row + 1))?;
    }
    Ok(heights)
}

/// The text is a certificate of this version, under these heights.
fn assert_heights(
    rt: &(impl Abort + AllocGlobal),
    text: &[u8],
    version: Version,
    heights: &[u8],
) -> Result<(), CertFault> {
    let script = script_of(rt.alloc(), text)?;
    assert_same_at(rt, &script.head.version, &version, &text);
    let read = heights_of(rt.alloc(), &script.head.problem)?;
    assert_same_at(rt, &read.as_slice(), &heights, &text);
    Ok(())
}

#[test]
fn heights_are_read(rt: HostRuntime) -> Result<(), Fail> {
    let cases: [(&[u8], Version, &[u8]); 5] = [
        (UNEQUAL, Version::Two, &[3, 1, 3]),
        (NARROW, Version::Two, &[2, 1]),
        (EQUAL, Version::Two, &[3, 3, 3]),
        (EQUAL_UNSAID, Version::One, &[3, 3, 3]),
        (WITH_REASONS, Version::Three, &[3, 3, 3]),
    ];
    for (text, version, heights) in cases {
        assert_heights(&rt, text, version, heights)?;
    }
    Ok(())
}
