//! The library in one page: a problem is stated, two workers solve it, and the certificate of their answer is checked. The contract of
//! `proved` says what a caller has: whatever is answered is so of every legal plan.
#![tactic(auto)]

ghost use Rattle.std.specs.Prelude.{IfSome};
ghost use Rattle.crp_checker.specs.Verdicts.{Says};

use crp_checker::{Verdict, check_for};
use crp_incumbent::Board;
use crp_plan::{BayName, Problem};
use crp_report::certificate_of;
use crp_solve::{NoGate, Settings, solve};
use std::alloc::{AllocError, Global};
use std::io;
use std::process::ExitCode;
use std::sync::Wait;
use std::thread::Threads;

// Three rows of three tiers, with the containers' turns from bottom to top: 1 leaves first.
const ROWS: [&[u8]; 3] = [&[1, 5, 4], &[6], &[3, 2]];

// The problem of a bay with these rows, from which all leave.
fn stated(alloc: Global) -> Result<Option<Problem>, AllocError> {
    let mut rows = Vec::new(alloc);
    for row in ROWS {
        rows.push(Vec::from_slice(alloc, row)?)?;
    }
    Ok(Problem::new(3, 6, &rows).ok())
}

// What the certificate shows that two workers find; nothing where memory runs out.
fn proved<T: Threads + Wait + Sync>(rt: &T, alloc: Global, problem: &Problem) -> Option<Verdict>
    ensures { IfSome result (Says problem.now) }
{
    let settings = Settings::new(2, 1_000_000, 2).ok()?;
    let bay = BayName::new(b"A", 1)?;
    let solved = solve(rt, alloc, problem, settings, &Board::new(problem), &NoGate).ok()?;
    let certificate = certificate_of(alloc, &bay, problem, &solved.answer).ok()?;
    check_for(alloc, problem, &certificate).ok()
}

fn main(rt: HostRuntime) -> io::Result<ExitCode> {
    let Some(problem) = stated(rt.alloc())? else {
        return Ok(ExitCode::FAILURE);
    };
    match proved(&rt, rt.alloc(), &problem) {
        Some(Verdict::Optimal(count)) => {
            println!(rt; "no plan has fewer than {count} relocations, and one has as many")?;
            Ok(ExitCode::SUCCESS)
        }
        _ => Ok(ExitCode::FAILURE),
    }
}
