mod best;
mod boards;
mod seats;
mod threads;

ghost use Rattle.std.specs.Prelude.{◌≡◌};

use crp_plan::{Plan, Problem};
use std::process::Abort;

/// The plan with these rows.
fn plan_of(rt: &impl Abort, problem: &Problem, rows: &[u8]) -> Plan
    ensures { result ≡ record { problem = problem.now; path = rows.now } }
{
    Plan::from_rows(problem, rows).expect(rt, "a plan")
}
