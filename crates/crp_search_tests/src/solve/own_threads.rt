//! A search whose caller runs the workers in threads of its own.
ghost use Rattle.std.specs.Prelude.{◌≡◌, ◌∷◌, [], IfSome, false};
ghost use Rattle.std.specs.Thread.{IsSync};
ghost use Rattle.crp_solve.specs.Groups.{SameWorkers, AreReady, AreTogether};

use crate::bays::{BETTER_THAN_GREEDY, Bay, FOUR_ROWS, PACKED, problem_of};
use crate::compare::assert_at;
use crate::solve::solving::text_of;
use crate::solve::together::{CUT_SHORT, ENDED, Ends, FOUR_ROWS_IN_PARTS, Meeting, has_ends};
use crp_incumbent::Board;
use crp_solve::{Common, Gate, Group, NoGate, Search, Settings, Solved};
use std::alloc::Global;
use std::sync::Wait;
use std::test::Fail;
use std::thread;
use std::thread::Threads;

/// What two workers are together, after each worked in a thread.
fn work_in_two<R: Threads + Wait + Sync, G: Gate + Sync>(
    rt: &R,
    board: &Board,
    gate: &G,
    common: &Common,
    first: Group,
    second: Group,
) -> Group
    requires { AreReady common.now.of (first ∷ second ∷ []) }
    ensures { AreTogether (first ∷ second ∷ []) result }
{
    let (second, first) = thread::join(
        rt,
        move || -> Group
            requires sync { IsSync R.row × IsSync G.row }
            requires words { second.of ≡ common.now.of }
            ensures { SameWorkers second result }
        { common.work(rt, board, gate, 1, second) },
        move || -> Group
            requires sync { IsSync R.row × IsSync G.row }
            requires words { first.of ≡ common.now.of }
            ensures { SameWorkers first result }
        { common.work(rt, board, gate, 0, first) },
    );
    first.merge(common.shared(), second)
}

/// The two workers, where there are two.
fn two_of(mut groups: Vec<Group>) -> Option<(Group, Group)>
    ensures { IfSome result (λ two. groups.items ≡ two.0 ∷ two.1 ∷ []) }
{
    let second = groups.pop()?;
    let first = groups.pop()?;
    if groups.is_empty() {
        Some((first, second))
    } else {
        None
    }
}

/// The answer of a search by two workers, each in a thread of the caller's.
fn solved_in_two<R: Threads + Wait + Sync, G: Gate + Sync>(
    rt: &R,
    alloc: Global,
    bay: &Bay,
    settings: Settings,
    gate: &G,
) -> Result<Solved, Fail>
    requires not_first { settings.first ≡ false }
    requires one_search { settings.deepen ≡ false }
{
    let problem = problem_of(alloc, bay)?;
    let board = Board::new(&problem);
    let (search, groups) = Search::begin(rt, alloc, &problem, settings, &board, gate)?;
    let Some((first, second)) = two_of(groups) else {
        return Err("there are two workers")?;
    };
    let all = work_in_two(rt, &board, gate, search.common(), first, second);
    Ok(search.end(rt, &board, gate, all)?)
}

/// A bay, a budget, and how the right answers begin and end, whichever worker comes first.
const CASES: [(Bay, u64, Ends); 3] = [
    (FOUR_ROWS, 1000000, (FOUR_ROWS_IN_PARTS, "not asked")),
    (BETTER_THAN_GREEDY, 3, ENDED),
    (BETTER_THAN_GREEDY, 2, CUT_SHORT),
];

#[test]
fn workers_in_two_threads_of_the_caller(rt: HostRuntime) -> Result<(), Fail> {
    for (bay, budget, ends) in CASES {
        let gate = Meeting::of(2);
        let settings = Settings::new(2, budget, 1)?;
        let solved = solved_in_two(&rt, rt.alloc(), &bay, settings, &gate)?;
        let text = text_of(rt.alloc(), &solved)?;
        let known = has_ends(text.as_str(), ends);
        assert_at(&rt, known && gate.was_held(), &text.as_str());
    }
    Ok(())
}

// One legal row leads on from the first position, so one name waits, and whoever searches its part can give more away.
#[test]
fn two_workers_begin_in_a_packed_bay(rt: HostRuntime) -> Result<(), Fail> {
    let settings = Settings::new(2, 1000000, 1)?;
    let solved = solved_in_two(&rt, rt.alloc(), &PACKED, settings, &NoGate)?;
    let text = text_of(rt.alloc(), &solved)?;
    let ends = ("optimal at least 4, part: XG, part 4: ", "; not asked");
    assert_at(&rt, has_ends(text.as_str(), ends), &text.as_str());
    Ok(())
}
