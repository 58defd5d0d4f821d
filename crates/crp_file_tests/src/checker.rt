//! Certificates that are accepted, and those that are refused.
mod files;
mod paths;
mod pieces;

use crate::calls::{check, check_bytes, check_bytes_for, check_for, read_head};
use crate::compare::assert_same_at;
use crp_checker::{Refused, Verdict};
use crp_plan::Problem;
use std::alloc::{AllocError, Global};
use std::process::Abort;
use std::test::Fail;

/// Two containers, the first under the second: one relocation.
const TWO: &str =
    "CRP-CERT 1\nbay A 1\nsize 2 2 2 2\nrow 1 2\nrow\nat least 1\nplan 2\npart /: B\nend 1\n";

/// Four containers: two relocations, which the look-ahead bound shows at once.
const FOUR: &str =
    "CRP-CERT 1\nbay A 1\nsize 3 3 4 4\nrow 1 4\nrow 2\nrow 3\nat least 2\nplan 3 1\npart /: L\nend 1\n";

/// Six containers: three relocations.
const SIX: &str =
    "CRP-CERT 1\nbay A 1\nsize 3 3 6 6\nrow 1 5 4\nrow 6\nrow 3 2\nat least 3\nplan 2 2 1\npart /: XLB\nend 1\n";

/// Two containers in one row, the first under the second: no plan.
const ONE_ROW: &str =
    "CRP-CERT 1\nbay A 1\nsize 1 3 2 2\nrow 1 2\nat least 5\nplan -\npart /: X\nend 1\n";

/// Four containers under heights 3, 1 and 3: two relocations.
const UNEQUAL: &str =
    "CRP-CERT 2\nbay A 1\nsize 3 3 4 4\nheights 3 1 3\nrow 1 4\nrow 2\nrow 3\nat least 2\nplan 3 1\npart /: L\nend 1\n";

/// Rows of heights 2 and 1, both full: no plan.
const NARROW: &str =
    "CRP-CERT 2\nbay A 1\nsize 2 2 3 3\nheights 2 1\nrow 1 2\nrow 3\nat least 4\nplan -\npart /: X\nend 1\n";

/// The same four under equal heights that are stated, with the first of their best plans.
const FIRST: &str =
    "CRP-CERT 2\nbay A 1\nsize 3 3 4 4\nheights 3 3 3\nrow 1 4\nrow 2\nrow 3\nfirst 2\nplan 2 1\npart /: XXBBB\nend 1\n";

/// Six containers under equal heights that are stated, with the first of their best plans.
const FIRST_OF_SIX: &str =
    "CRP-CERT 2\nbay A 1\nsize 3 3 6 6\nheights 3 3 3\nrow 1 5 4\nrow 6\nrow 3 2\nfirst 3\nplan 2 2 1\npart /: XXXBBBB\nend 1\n";

/// The certificate of the four containers, with their equal heights stated.
const EQUAL: &str =
    "CRP-CERT 2\nbay A 1\nsize 3 3 4 4\nheights 3 3 3\nrow 1 4\nrow 2\nrow 3\nat least 2\nplan 3 1\npart /: L\nend 1\n";

/// Two rows of two tiers, both full: no plan.
const FULL: &str =
    "CRP-CERT 1\nbay A 1\nsize 2 2 4 4\nrow 1 2\nrow 3 4\nat least 5\nplan -\npart /: X\nend 1\n";

/// Certificates that are accepted, and what they show: of each verdict one at least.
const ACCEPTED: [(&str, Verdict); 11] = [
    (TWO, Verdict::Optimal(1)),
    (FOUR, Verdict::Optimal(2)),
    (SIX, Verdict::Optimal(3)),
    (ONE_ROW, Verdict::NoPlan),
    (FULL, Verdict::NoPlan),
    (UNEQUAL, Verdict::Optimal(2)),
    (NARROW, Verdict::NoPlan),
    (
        "CRP-CERT 1\nbay A 1\nsize 3 3 6 6\nrow 1 5 4\nrow 6\nrow 3 2\nat least 2\nplan 2 2 1\npart /: B\nend 1\n",
        Verdict::Bounds {
            lower: 2,
            upper: Some(3),
        },
    ),
    (
        "CRP-CERT 1\nbay A 1\nsize 3 3 6 6\nrow 1 4 6\nrow 3 5\nrow 2\nat least 0\nplan -\npart /: XBXBXXBXXXXGBBBBB\npart 3.3.1.2.1.1.2.2: B\nend 2\n",
        Verdict::Bounds {
            lower: 0,
            upper: None,
        },
    ),
    (
        "CRP-CERT 1\nbay A 1\nsize 3 3 6 6\nrow 1 5 4\nrow 6\nrow 3 2\nat least 3\nplan 2 2 1\npart /: XGB\npart 2: XGB\npart 2.2: XBB\nend 3\n",
        Verdict::Optimal(3),
    ),
    (FIRST, Verdict::First(2)),
];

/// Certificates that are refused: with those of the six below, for each fault of a text, and for each of a claim but K1.
const REFUSED: [(&str, &str); 9] = [
    ("CRP-CERT 4\n", "C1 at line 1"),
    (
        "CRP-CERT 2\nbay A 1\nsize 3 3 4 4\nheights 2 1 2\nrow 1 4\nrow 2\nrow 3\nat least 2\nplan 3 1\npart /: L\nend 1\n",
        "C2 at line 4",
    ),
    (
        "CRP-CERT 2\nbay A 1\nsize 3 3 4 4\nheights 3 1 3\nrow 1 4\nrow 2 3\nrow 3\nat least 2\nplan 3 1\npart /: L\nend 1\n",
        "C3 at line 6",
    ),
    (
        "CRP-CERT 1\nbay A 1\nsize 3 3 6 6\nrow 1 5 4\nrow 6\nrow 3 2\nat least 3\nplan 07\npart /: XLB\nend 1\n",
        "C5 at line 8",
    ),
    (
        "CRP-CERT 1\nbay A 1\nsize 3 3 6 6\nrow 1 5 4\nrow 6\nrow 3 2\nat least 3\nplan 1\npart /: XBL\nend 1\n",
        "K2 (Q2 at step 1)",
    ),
    (
        "CRP-CERT 2\nbay A 1\nsize 3 3 4 4\nheights 3 3 3\nrow 1 4\nrow 2\nrow 3\nfirst 1\nplan 2 1\npart /: XXBBB\nend 1\n",
        "K2",
    ),
    (
        "CRP-CERT 1\nbay A 1\nsize 2 2 2 2\nrow 2 1\nrow\nat least 0\nplan\npart /: X\nend 1\n",
        "K4 at part / symbol 1",
    ),
    (
        "CRP-CERT 1\nbay A 1\nsize 3 3 6 6\nrow 1 4 6\nrow 3 5\nrow 2\nat least 0\nplan -\npart /: XBXBXXBXXXXXGBBBBBB\nend 1\n",
        "K5 at 3.3.1.2.1.1.2.2.1",
    ),
    (
        "CRP-CERT 1\nbay A 1\nsize 3 3 6 6\nrow 1 5 4\nrow 6\nrow 3 2\nat least 3\nplan 2 2 1\npart /: XLB\npart 3.2: B\nend 2\n",
        "K6 at 3.2",
    ),
];

/// The certificate shows this, whole and byte by byte.
fn shows(rt: &(impl Abort + AllocGlobal), text: &str, verdict: Verdict) {
    let shown = check(rt.alloc(), text.as_bytes()).expect(rt, "an accepted certificate");
    assert_same_at(rt, &shown, &verdict, &text);
    let shown = check_bytes(rt.alloc(), text.as_bytes()).expect(rt, "an accepted certificate");
    assert_same_at(rt, &shown, &verdict, &text);
}

fn text_of_refusal(alloc: Global, refused: &Refused) -> Result<String, AllocError> {
    format!(in alloc; "{refused}")
}

fn refused_for(
    rt: &(impl Abort + AllocGlobal),
    refused: &Refused,
    text: &str,
    fault: &str,
) -> Result<(), AllocError> {
    let shown = text_of_refusal(rt.alloc(), refused)?;
    assert_same_at(rt, &shown.as_str(), &fault, &text);
    Ok(())
}

/// The certificate is refused for this, whole and byte by byte.
fn refuses(rt: &(impl Abort + AllocGlobal), text: &str, fault: &str) -> Result<(), AllocError> {
    let refused = check(rt.alloc(), text.as_bytes()).expect_err(rt, "a refused certificate");
    refused_for(rt, &refused, text, fault)?;
    let refused = check_bytes(rt.alloc(), text.as_bytes()).expect_err(rt, "a refused certificate");
    refused_for(rt, &refused, text, fault)
}

#[test]
fn certificates_whole_and_byte_by_byte(rt: HostRuntime) -> Result<(), Fail> {
    for (text, verdict) in ACCEPTED {
        shows(&rt, text, verdict);
    }
    for (text, fault) in REFUSED {
        refuses(&rt, text, fault)?;
    }
    Ok(())
}

/// What stands in the head of the six containers' certificate before the bound.
const SIX_ROWS: &str = "CRP-CERT 1\nbay A 1\nsize 3 3 6 6\nrow 1 5 4\nrow 6\nrow 3 2\n";

/// What may follow there, so that it is accepted.
const RESTS: [&str; 4] = [
    "at least 3\nplan 2 2 1\npart /: XLB\nend 1\n",
    "at least 3\nplan 2 2 1\npart /: XLL\nend 1\n",
    "at least 3\nplan 2 2 1\npart /: XXBBB\nend 1\n",
    "at least 3\nplan 2 2 1\npart /: XGG\npart 2: L\npart 3: B\nend 3\n",
];

/// What may follow there, and the fault.
const WRONG_RESTS: [(&str, &str); 17] = [
    (
        "at least 14\nplan 2 2 1\npart /: XLB\nend 1\n",
        "C4 at line 7",
    ),
    (
        "at least 3\nplan 2 2 1\npart /: XGG\npart 1: B\npart 3: B\nend 3\n",
        "C6 at line 10",
    ),
    (
        "at least 3\nplan 2 2 1\npart /: XGG\npart 3: B\npart 2: L\nend 3\n",
        "C7 at line 11",
    ),
    ("at least 3\nplan 2 2 1\npart /: G\nend 1\n", "C8 at line 9"),
    (
        "at least 3\nplan 2 2 1\npart /: XLBZ\nend 1\n",
        "C8 at line 9",
    ),
    (
        "at least 3\nplan 2 2 1\npart /: XBLQ\nend 1\n",
        "C8 at line 9",
    ),
    (
        "at least 3\nplan 2 2 1\npart /: XL\nend 1\n",
        "C9 at line 9",
    ),
    (
        "at least 3\nplan 2 2 1\npart /: XXBB\nend 1\n",
        "C9 at line 9",
    ),
    (
        "at least 3\nplan 2 2 1\npart /: XLBB\nend 1\n",
        "C10 at line 9",
    ),
    (
        "at least 3\nplan 2 2 1\npart /: XBLL\nend 1\n",
        "C10 at line 9",
    ),
    ("at least 3\nplan 2 2 1\npart /: XLB\n", "C11 at line 10"),
    (
        "at least 3\nplan 2 2 1\npart /: XLB\nend 2\n",
        "C11 at line 10",
    ),
    (
        "at least 3\nplan 2 2 1\npart /: XBL\nend 1\n",
        "K3 at part / symbol 2",
    ),
    (
        "at least 3\nplan 2 2 1\npart /: XBB\nend 1\n",
        "K3 at part / symbol 2",
    ),
    (
        "at least 4\nplan 2 2 1\npart /: XLB\nend 1\n",
        "K3 at part / symbol 2",
    ),
    (
        "at least 3\nplan 2 2 1\npart /: XGG\npart 2: L\nend 2\n",
        "K5 at 3",
    ),
    (
        "at least 3\nplan 2 2 1\npart /: XGG\npart 2: L\npart 3: B\npart 3.2: B\nend 4\n",
        "K6 at 3.2",
    ),
];

#[test]
fn certificates_of_the_six_whole_and_byte_by_byte(rt: HostRuntime) -> Result<(), Fail> {
    for rest in RESTS {
        let text = format!(in rt.alloc(); "{SIX_ROWS}{rest}")?;
        shows(&rt, &text, Verdict::Optimal(3));
    }
    for (rest, fault) in WRONG_RESTS {
        let text = format!(in rt.alloc(); "{SIX_ROWS}{rest}")?;
        refuses(&rt, &text, fault)?;
    }
    Ok(())
}

fn problem_of(rt: &(impl Abort + AllocGlobal), text: &str) -> Problem {
    read_head(rt.alloc(), text.as_bytes())
        .expect(rt, "a head")
        .problem
}

/// The certificate shows this for the problem of that text's head, whole and byte by byte.
fn shows_for(rt: &(impl Abort + AllocGlobal), head: &str, text: &str, verdict: Verdict) {
    let problem = problem_of(rt, head);
    let shown = check_for(rt.alloc(), &problem, text.as_bytes()).expect(rt, "its problem");
    assert_same_at(rt, &shown, &verdict, &text);
    let shown = check_bytes_for(rt.alloc(), &problem, text.as_bytes()).expect(rt, "its problem");
    assert_same_at(rt, &shown, &verdict, &text);
}

/// The certificate is refused with this fault for the problem of that text's head, whole and byte by byte.
fn refuses_for(
    rt: &(impl Abort + AllocGlobal),
    head: &str,
    text: &str,
    fault: &str,
) -> Result<(), AllocError> {
    let problem = problem_of(rt, head);
    let refused = check_for(rt.alloc(), &problem, text.as_bytes()).expect_err(rt, "refused");
    refused_for(rt, &refused, head, fault)?;
    let refused = check_bytes_for(rt.alloc(), &problem, text.as_bytes()).expect_err(rt, "refused");
    refused_for(rt, &refused, head, fault)
}

#[test]
fn certificates_for_a_problem(rt: HostRuntime) -> Result<(), Fail> {
    let cases: [(&str, &str, Verdict); 5] = [
        (SIX, SIX, Verdict::Optimal(3)),
        (ONE_ROW, ONE_ROW, Verdict::NoPlan),
        (FOUR, EQUAL, Verdict::Optimal(2)),
        (FIRST, FIRST, Verdict::First(2)),
        (FIRST_OF_SIX, FIRST_OF_SIX, Verdict::First(3)),
    ];
    for (head, text, verdict) in cases {
        shows_for(&rt, head, text, verdict);
    }
    Ok(())
}

#[test]
fn certificates_for_another_problem(rt: HostRuntime) -> Result<(), Fail> {
    let cases: [(&str, &str, &str); 4] = [
        (FOUR, SIX, "K1"),
        (FOUR, UNEQUAL, "K1"),
        (FIRST, FIRST_OF_SIX, "K1"),
        (SIX, "CRP-CERT 4\n", "C1 at line 1"),
    ];
    for (head, text, fault) in cases {
        refuses_for(&rt, head, text, fault)?;
    }
    Ok(())
}

/// The problem of these lines is not that of the six containers' certificate.
fn is_another(rt: &(impl Abort + AllocGlobal), lines: &str) -> Result<(), AllocError> {
    let head = format!(in rt.alloc(); "CRP-CERT 1\nbay A 1\n{lines}\nat least 0\nplan -\n")?;
    refuses_for(rt, &head, SIX, "K1")
}

#[test]
fn certificates_for_problems_that_differ_little(rt: HostRuntime) -> Result<(), Fail> {
    let problems = [
        "size 3 3 6 6\nrow 5 1 4\nrow 6\nrow 3 2",
        "size 3 3 6 6\nrow 1 5 4\nrow 6\nrow 2 3",
        "size 3 3 6 6\nrow 1 5 4\nrow 6 2\nrow 3",
        "size 3 3 5 6\nrow 1 5 4\nrow 6\nrow 3 2",
        "size 3 4 6 6\nrow 1 5 4\nrow 6\nrow 3 2",
    ];
    for lines in problems {
        is_another(&rt, lines)?;
    }
    Ok(())
}
