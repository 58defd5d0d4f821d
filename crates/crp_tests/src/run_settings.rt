//! The settings of a run at their limits, and beyond them.
use crate::compare::{assert_same, assert_same_at};
use crp_order::Mode;
use crp_report::{InputSettings, RunFault};
use std::alloc::{AllocError, Global};
use std::process::Abort;
use std::test::Fail;

// What is stated where settings are refused; nothing where they are not.
fn settings_text(
    alloc: Global,
    settings: &Result<InputSettings, RunFault>,
) -> Result<String, AllocError> {
    match settings {
        Err(fault) => format!(in alloc; "{fault}"),
        Ok(_) => Ok(String::new(alloc)),
    }
}

// Settings of bays with so many rows and tiers.
fn with_size(alloc: Global, rows: u8, tiers: u8) -> Result<InputSettings, RunFault> {
    InputSettings::new(alloc, rows, tiers, Mode::Listed, b"LOA")
}

#[test]
fn settings_beyond_their_limits(rt: HostRuntime) -> Result<(), Fail> {
    let cases: [(u8, u8, &str); 4] = [(0, 0, "S5"), (13, 8, "S5"), (12, 9, "S6"), (1, 0, "S6")];
    for (rows, tiers, line) in cases {
        let settings = with_size(rt.alloc(), rows, tiers);
        let text = settings_text(rt.alloc(), &settings)?;
        assert_same_at(&rt, &text.as_str(), &line, &(rows, tiers));
    }
    Ok(())
}

// Lists of heights, and what is stated where they are refused.
const HEIGHTS_CASES: [(&[u8], &str); 9] = [
    (&[1], ""),
    (&[8; 12], ""),
    (&[3, 1, 3], ""),
    (&[], "S4"),
    (&[1; 13], "S4"),
    (&[0], "S4"),
    (&[9], "S4"),
    (&[3, 0, 3], "S4"),
    (&[8, 8, 9], "S4"),
];

// Settings with these heights in place of six rows of five tiers.
fn with_heights(alloc: Global, heights: &[u8]) -> Result<InputSettings, RunFault> {
    with_size(alloc, 6, 5)?.with_heights(heights)
}

// Settings that are made have these heights.
fn assert_heights(rt: &impl Abort, settings: &Result<InputSettings, RunFault>, heights: &[u8]) {
    if let Ok(settings) = settings {
        assert_same(rt, &settings.sizes().common(), &heights);
    }
}

#[test]
fn heights_at_their_limits(rt: HostRuntime) -> Result<(), Fail> {
    for (heights, line) in HEIGHTS_CASES {
        let settings = with_heights(rt.alloc(), heights);
        let text = settings_text(rt.alloc(), &settings)?;
        assert_same_at(&rt, &text.as_str(), &line, &heights);
        assert_heights(&rt, &settings, heights);
    }
    Ok(())
}
