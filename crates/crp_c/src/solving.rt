//! A bay is solved.
ghost use Rattle.std.specs.Prelude.{◌≡◌, ◌<◌, ◌≤◌, IfOk, length, take, drop, unwrap_or, []};
ghost use Rattle.crp_solve.specs.Answers.{plan_of};
ghost use Rattle.crp_c.specs.Asked.{Asked, problem_of, IsAsked, IsRefusedWith};
ghost use Rattle.crp_c.specs.Checks.{IsTrueOf};
ghost use Rattle.crp_c.specs.Answers.{verdict_of, cause_of, path_of, text_of, IsPut, IsAnswered};

use crate::answered::Answered;
use crate::asked::{Search, read_call};
use crate::known::known_by;
use crate::status::{DONE, MEMORY};
use crate::trouble::number_of;
use crp_cert::{cert_text, first_text};
use crp_checker::Verdict;
use crp_plan::{BayName, Problem};
use crp_solve::{Answer, Cause, solve_alone};
use std::alloc::{AllocError, Global};

fn verdict_of(answer: &Answer) -> Verdict
    ensures { result ≡ verdict_of answer.now }
{
    match answer {
        Answer::Optimal { plan, .. } => Verdict::Optimal(plan.count()),
        Answer::First { plan, .. } => Verdict::First(plan.count()),
        Answer::NoPlan { .. } => Verdict::NoPlan,
        Answer::Between { lower, plan, .. } => Verdict::Bounds {
            lower: *lower,
            upper: plan.as_ref().map(|plan| plan.count()),
        },
    }
}

fn cause_of(answer: &Answer) -> u32
    ensures { result ≡ cause_of answer.now }
{
    match answer {
        Answer::Between { cause, .. } => match cause {
            Cause::Budget => 1,
            Cause::Memory => 2,
            Cause::Time => 3,
        },
        _ => 0,
    }
}

/// The rows that the relocations of the plan go to, if there is a plan.
fn path_of(answer: &Answer) -> &[u8]
    ensures { result.now ≡ path_of answer.now }
{
    match answer {
        Answer::Optimal { plan, .. } => plan.rows(),
        Answer::First { plan, .. } => plan.rows(),
        Answer::NoPlan { .. } => &[],
        Answer::Between { plan, .. } => match plan {
            Some(plan) => plan.rows(),
            None => &[],
        },
    }
}

/// The text of the certificate of an answer. That of a first best plan claims it to be that.
fn text_of(
    alloc: Global,
    bay: &BayName,
    problem: &Problem,
    answer: &Answer,
) -> Result<Vec<u8>, AllocError>
    ensures { IfOk result (λ text. text.items ≡ text_of bay.now problem.now answer.now) }
{
    match answer {
        Answer::Optimal { plan, cert } => cert_text(alloc, bay, problem, cert, Some(plan)),
        Answer::First { plan, cert } => first_text(alloc, bay, problem, cert, plan),
        Answer::NoPlan { cert } => cert_text(alloc, bay, problem, cert, None),
        Answer::Between { cert, plan, .. } => {
            cert_text(alloc, bay, problem, cert, plan.as_ref())
        }
    }
}

/// Puts bytes at the front of a buffer, where they fit. How many they are.
fn put(bytes: &[u8], buffer: &mut [u8]) -> usize
    ensures size { result ≡ length bytes.now }
    ensures front { length bytes.now ≤ length buffer.old → take (length bytes.now) buffer.new ≡ bytes.now }
    ensures behind { length bytes.now ≤ length buffer.old → drop (length bytes.now) buffer.new ≡ drop (length bytes.now) buffer.old }
    ensures kept { length buffer.old < length bytes.now → buffer.new ≡ buffer.old }
{
    let size = bytes.len();
    if size <= buffer.len() {
        buffer[..size].copy_from_slice(bytes);
    }
    size
}

/// Solves a bay with one worker, in the thread of the caller: rows with these heights, of which the first has the first so many of the
/// ranks, from bottom to top, and so on; ranks 1 to `ordered` are to leave. `DONE` where it is answered: the rows of the plan and the
/// bytes of the certificate, under this name of the bay, are in the buffers where they fit; the same call with larger buffers gives the
/// same. `MEMORY` where no memory is left, and else the number of what is refused.
#[unsafe(no_mangle)]
pub extern "C" fn crp_solve(
    alloc: Global,
    heights: &[u8],
    counts: &[u8],
    ranks: &[u8],
    ordered: u8,
    block: &[u8],
    bay: u16,
    search: &Search,
    plan: &mut [u8],
    certificate: &mut [u8],
    answered: &mut Answered,
) -> u32
    ensures answered { let asked : Asked = record { heights = heights.now; counts = counts.now; ranks = ranks.now; ordered = ordered; block = block.now; bay = bay; search = search.now } in
        result ≡ DONE → IsAsked asked × IsAnswered asked plan.old plan.new certificate.old certificate.new answered.new }
    ensures says { let asked : Asked = record { heights = heights.now; counts = counts.now; ranks = ranks.now; ordered = ordered; block = block.now; bay = bay; search = search.now } in
        result ≡ DONE → IsTrueOf (problem_of asked) answered.new.known }
    ensures refused { let asked : Asked = record { heights = heights.now; counts = counts.now; ranks = ranks.now; ordered = ordered; block = block.now; bay = bay; search = search.now } in
        ¬ result ≡ DONE → IsRefusedWith asked result }
    ensures kept { ¬ result ≡ DONE → (plan.new ≡ plan.old) × (certificate.new ≡ certificate.old) × (answered.new ≡ answered.old) }
{
    let stated = match read_call(alloc, heights, counts, ranks, ordered, block, bay, search) {
        Ok(stated) => stated,
        Err(trouble) => return number_of(trouble),
    };
    let Ok(solved) = solve_alone(alloc, &stated.problem, stated.settings) else {
        return MEMORY;
    };
    let Ok(text) = text_of(alloc, &stated.bay, &stated.problem, &solved.answer) else {
        return MEMORY;
    };
    let plan_size = put(path_of(&solved.answer), plan);
    let certificate_size = put(&text, certificate);
    *answered = Answered {
        known: known_by(verdict_of(&solved.answer)),
        cause: cause_of(&solved.answer),
        expanded: solved.expanded,
        plan_size,
        certificate_size,
    };
    DONE
}
