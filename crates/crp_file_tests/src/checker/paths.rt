//! Paths: how they are shown, and in what order they stand.
use crate::compare::{assert_same, assert_same_at};
use crp_checker::Path;
use std::alloc::{AllocError, Global};
use std::cmp::Ordering;
use std::process::Abort;
use std::test::Fail;

/// The path of these rows shows this text, and has these rows.
fn path_is(rt: &(impl Abort + AllocGlobal), rows: &[u8], text: &str) -> Result<(), AllocError> {
    let path = Path::from_rows(rt.alloc(), rows)?;
    let shown = format!(in rt.alloc(); "{path}")?;
    assert_same(rt, &shown.as_str(), &text);
    assert_same_at(rt, &path.rows(), &rows, &text);
    Ok(())
}

/// How two paths stand to each other, and whether they are equal.
fn compared(alloc: Global, one: &[u8], other: &[u8]) -> Result<(Ordering, bool), AllocError> {
    let one = Path::from_rows(alloc, one)?;
    let other = Path::of(other.to_vec(alloc)?);
    Ok((one.cmp(&other), one == other))
}

#[test]
fn paths_are_shown(rt: HostRuntime) -> Result<(), Fail> {
    let paths: [(&[u8], &str); 5] = [
        (&[], "/"),
        (&[2], "2"),
        (&[2, 12], "2.12"),
        (&[3], "3"),
        (&[12], "12"),
    ];
    for (rows, text) in paths {
        path_is(&rt, rows, text)?;
    }
    Ok(())
}

#[test]
fn paths_stand_row_by_row_and_a_front_first(rt: HostRuntime) -> Result<(), Fail> {
    let rows: [&[u8]; 5] = [&[], &[2], &[2, 12], &[3], &[12]];
    for (i, first) in rows.iter().enumerate() {
        for (j, second) in rows.iter().enumerate() {
            let (order, equal) = compared(rt.alloc(), first, second)?;
            assert_same_at(&rt, &order, &i.cmp(&j), &(i, j));
            assert_same_at(&rt, &equal, &(i == j), &(i, j));
        }
    }
    Ok(())
}
