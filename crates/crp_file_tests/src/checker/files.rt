//! Files of certificates.
use super::{FOUR, SIX};
use crate::calls::check_file;
use crate::compare::{assert_same, assert_same_at};
use crp_checker::Verdict;
use crp_plan::BayName;
use std::alloc::AllocError;
use std::process::Abort;
use std::test::Fail;

fn verdict_is(rt: &impl Abort, shown: &(BayName, Verdict), verdict: Verdict) {
    assert_same(rt, &shown.0.block(), &b"A".as_slice());
    assert_same(rt, &shown.0.bay(), &1);
    assert_same(rt, &shown.1, &verdict);
}

/// What is shown is of bays A 1, and this.
fn verdicts_are(rt: &impl Abort, shown: &[(BayName, Verdict)], verdicts: &[Verdict]) {
    assert_same(rt, &shown.len(), &verdicts.len());
    for (one, verdict) in shown.iter().zip(verdicts) {
        verdict_is(rt, one, *verdict);
    }
}

fn file_shows(rt: &(impl Abort + AllocGlobal), file: &str, verdicts: &[Verdict]) {
    let shown = check_file(rt.alloc(), file.as_bytes()).expect(rt, "certificates");
    verdicts_are(rt, shown.as_slice(), verdicts);
    let list = shown.into_vec();
    verdicts_are(rt, &list, verdicts);
}

#[test]
fn files_of_certificates(rt: HostRuntime) -> Result<(), Fail> {
    file_shows(&rt, "", &[]);
    let two = format!(in rt.alloc(); "{FOUR}{SIX}")?;
    file_shows(&rt, &two, &[Verdict::Optimal(2), Verdict::Optimal(3)]);
    Ok(())
}

/// The six containers' certificate is followed by one that is refused with this fault.
fn second_refused(
    rt: &(impl Abort + AllocGlobal),
    rest: &str,
    fault: &str,
) -> Result<(), AllocError> {
    let file = format!(in rt.alloc(); "{SIX}{rest}")?;
    let refused = check_file(rt.alloc(), file.as_bytes()).expect_err(rt, "a refused one");
    let text = format!(in rt.alloc(); "{refused}")?;
    assert_same_at(rt, &text.as_str(), &fault, &rest);
    assert_same_at(rt, &refused.number, &2, &rest);
    verdicts_are(rt, refused.before.as_slice(), &[Verdict::Optimal(3)]);
    Ok(())
}

#[test]
fn a_file_with_a_refused_certificate(rt: HostRuntime) -> Result<(), Fail> {
    second_refused(&rt, "end 1\n", "certificate 2: C1 at line 1")?;
    Ok(())
}
