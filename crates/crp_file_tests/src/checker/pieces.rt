//! Certificates that come in two pieces.
use super::{ONE_ROW, SIX, TWO, UNEQUAL};
use crate::calls::{bay_after, check, check_pieces};
use crate::compare::{assert_at, assert_same_at};
use std::process::Abort;
use std::test::Fail;

/// The certificate is what it is, wherever it is cut into two pieces.
fn is_whole(rt: &(impl Abort + AllocGlobal), text: &str) {
    let bytes = text.as_bytes();
    let whole = check(rt.alloc(), bytes);
    for length in 0..bytes.len() {
        let pieces = check_pieces(rt.alloc(), &bytes[..length], &bytes[length..]);
        assert_same_at(rt, &pieces, &whole, &length);
    }
}

#[test]
fn certificates_in_two_pieces(rt: HostRuntime) -> Result<(), Fail> {
    is_whole(&rt, TWO);
    is_whole(&rt, SIX);
    is_whole(&rt, ONE_ROW);
    is_whole(&rt, UNEQUAL);
    is_whole(
        &rt,
        "CRP-CERT 1\nbay A 1\nsize 3 3 6 6\nrow 1 5 4\nrow 6\nrow 3 2\nat least 3\nplan 2 2 1\npart /: XGG\npart 2: L\npart 3: B\nend 3\n",
    );
    is_whole(
        &rt,
        "CRP-CERT 1\nbay A 1\nsize 3 3 6 6\nrow 1 5 4\nrow 6\nrow 3 2\nat least 3\nplan 2 2 1\npart /: XBL\npart 2 : L\nend 2\n",
    );
    Ok(())
}

#[test]
fn the_bay_is_known_from_the_second_line_on(rt: HostRuntime) -> Result<(), Fail> {
    let bytes = SIX.as_bytes();
    for length in 0..bytes.len() {
        let bay = bay_after(rt.alloc(), &bytes[..length])?;
        assert_at(&rt, bay.is_some() == (length >= 19), &length);
    }
    Ok(())
}
