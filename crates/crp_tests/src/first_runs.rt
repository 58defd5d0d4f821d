//! The first best plans of a yard of many bays, by one worker and by several.
use crate::compare::assert_at;
use crate::many_workers::{message_of_many_bays, run_words, yard_of_many_bays};
use std::fs;
use std::sync::Wait;
use std::test::Fail;
use std::thread::Threads;

// The report of a yard of many bays with their first best plans.
fn report_by<T: Threads + Wait + Sync>(
    rt: &HostRuntime,
    threads: &T,
    workers: &str,
) -> Result<Vec<u8>, Fail> {
    let words = [
        "solve",
        "firsts-list.csv",
        "firsts-loading.edi",
        "--rows=4",
        "--tiers=4",
        "--first",
        workers,
    ];
    let (_, report) = run_words(rt, threads, &words)?;
    Ok(report)
}

#[test]
fn any_number_of_workers_reports_the_same_bytes(rt: HostRuntime) -> Result<(), Fail> {
    let (list, loading) = ("firsts-list.csv", "firsts-loading.edi");
    fs::write(&rt, list, yard_of_many_bays(rt.alloc())?.as_slice())?;
    fs::write(&rt, loading, message_of_many_bays(rt.alloc())?.as_str())?;
    let alone = report_by(&rt, &rt, "--workers=1")?;
    assert!(rt; alone.as_slice().ends_with(b"bays 16 decided 16\n"));
    for workers in ["--workers=3", "--workers=64"] {
        let report = report_by(&rt, &rt, workers)?;
        assert_at(&rt, report == alone, &workers);
    }
    fs::remove_file(&rt, list)?;
    fs::remove_file(&rt, loading)?;
    Ok(())
}
