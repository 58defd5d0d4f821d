//! What is asked of the solver.
ghost use Rattle.std.specs.Prelude.{◌≡◌, ◌≤◌, IfOk, OnOk, IfErr};
ghost use Rattle.crp_c.specs.Asked.{Asked, IsStated, chosen_by, IsRefusedSearch, IsTrouble};

use crate::rows::problem_from;
use crate::trouble::Trouble;
use crp_plan::{BayName, Problem};
use crp_solve::Settings;
use std::alloc::Global;

/// The sum of all flags: 1 asks for the first of all best plans, 2 for many searches, whose limit rises from the lower bound, 4 for
/// reasons by chains of containers.
pub const MOST_FLAGS: u32 = 7;

/// What is chosen for a search.
#[repr(C)]
#[derive(Clone, Copy)]
pub struct Search {
    /// The most positions that are expanded, 0 to 1099511627776.
    pub budget: u64,
    /// The positions of a level that a beam keeps, which looks for the plan to begin with, 0 to 10000; 0 begins with the greedy plan.
    pub beam: u32,
    /// The most thinned branches of a try to close a position, 0 to 1000000.
    pub thin: u32,
    /// A sum of some of the flags.
    pub flags: u32,
}

/// A bay, its name, and what is chosen for its search.
#[derive(Drop)]
pub(crate) struct Stated {
    pub problem: Problem,
    pub bay: BayName,
    pub settings: Settings,
}

fn settings_from(search: &Search) -> Result<Settings, Trouble>
    ensures flags { OnOk result (search.now.flags ≤ MOST_FLAGS) }
    ensures value { IfOk result (λ settings. settings ≡ chosen_by search.now) }
    ensures refused { IfErr result (IsRefusedSearch search.now) }
{
    let flags = search.flags;
    if flags > MOST_FLAGS {
        return Err(Trouble::Flags);
    }
    let settings = match Settings::new(1, search.budget, 0) {
        Ok(settings) => settings,
        Err(fault) => return Err(Trouble::Search(fault)),
    };
    let settings = match settings.with_beam(search.beam) {
        Ok(settings) => settings,
        Err(fault) => return Err(Trouble::Search(fault)),
    };
    let settings = match settings.with_thinning(search.thin) {
        Ok(settings) => settings,
        Err(fault) => return Err(Trouble::Search(fault)),
    };
    let settings = settings.with_deepening(flags / 2 % 2 == 1);
    let settings = settings.with_chains(flags / 4 % 2 == 1);
    if flags % 2 == 1 {
        return Ok(settings.with_first());
    }
    Ok(settings)
}

/// What is asked, where it may be; or what keeps it from that.
pub(crate) fn read_call(
    alloc: Global,
    heights: &[u8],
    counts: &[u8],
    ranks: &[u8],
    ordered: u8,
    block: &[u8],
    bay: u16,
    search: &Search,
) -> Result<Stated, Trouble>
    ensures stated { let asked : Asked = record { heights = heights.now; counts = counts.now; ranks = ranks.now; ordered = ordered; block = block.now; bay = bay; search = search.now } in
        IfOk result (λ s. IsStated asked s.problem s.bay s.settings) }
    ensures refused { let asked : Asked = record { heights = heights.now; counts = counts.now; ranks = ranks.now; ordered = ordered; block = block.now; bay = bay; search = search.now } in
        IfErr result (IsTrouble asked) }
{
    let problem = problem_from(alloc, heights, counts, ranks, ordered)?;
    let Some(bay) = BayName::new(block, bay) else {
        return Err(Trouble::Bay);
    };
    let settings = settings_from(search)?;
    Ok(Stated {
        problem,
        bay,
        settings,
    })
}
