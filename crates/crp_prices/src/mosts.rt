//! What the rows of a position earn at most.
ghost use Rattle.std.specs.Prelude.{◌≡◌, ℕ, ◌+◌, ◌*◌, ◌<◌, ◌≤◌, length, IfOk, sum};
ghost use Rattle.crp_prices.specs.PriceTable.{price_in};
ghost use Rattle.crp_prices.specs.Prices.{AreMost};
ghost use Rattle.crp_prices.specs.AllJobs.{mosts as mosts_of_place};

use crate::all_jobs::jobs_of;
use crate::pass::Pass;
use crate::prices::Prices;
use crate::row::row_most;
use crate::table::{inners_of, starts_of};
use arrayvec::ArrayVec;
use crp_bay::Position;
use std::alloc::{AllocError, Global};

/// What each row of a position earns at most at these prices and this unit, by one pass over all jobs.
pub fn mosts_of(
    alloc: Global,
    position: &Position,
    prices: &Prices,
    unit: u32,
) -> Result<ArrayVec<u32, 12>, AllocError>
    ensures value { IfOk result (λ mosts. mosts.items ≡ mosts_of_place (price_in prices.now) unit position.now.place) }
    ensures most { IfOk result (λ mosts. AreMost (price_in prices.now) unit position.now.place mosts.items) }
    ensures few { IfOk result (λ mosts. sum mosts.items ≤ 12 * (8 * (98 * 9999))) }
{
    let ordered = position.ordered();
    let listed = jobs_of(alloc, position)?;
    let jobs = listed.as_slice();
    let pass = Pass {
        table: prices.table(),
        unit,
        ordered,
        jobs,
        starts: starts_of(jobs),
    };
    let mut columns = vec![in alloc; [0; 9]; jobs.len() + 1]?;
    let inners = inners_of(alloc, &pass, columns.as_mut_slice())?;
    let mut mosts = ArrayVec::new();
    for row in 1..position.rows() + 1 {
        mosts.push(row_most(
            &pass,
            position.height(row),
            position.stack(row),
            inners.as_slice(),
            columns.as_mut_slice(),
        ));
    }
    Ok(mosts)
}
