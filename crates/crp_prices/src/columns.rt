//! What a scope brings by room, of what it brings by fewer jobs.
ghost use Rattle.std.specs.Prelude.{◌≡◌, ℕ, suc, ◌+◌, ◌*◌, ◌<◌, ◌≤◌, [], true, false, length, slice_index, drop};
ghost use Rattle.crp_prices.specs.PriceTable.{price_in};
ghost use Rattle.crp_prices.specs.Pass.{earns_above};
ghost use Rattle.crp_prices.specs.Columns.{entry, IsColumn};
ghost use Rattle.crp_prices.specs.Tables.{AreColumns, AreInner};
ghost use Rattle.crp_prices.specs.Ready.{IsReady};

use crate::job::MarkedJob;
use crate::pass::Pass;
use crate::prices::price_at;

/// What a job earns that is put on as no new low.
fn earns_at(pass: &Pass, low: u8, job: MarkedJob) -> u32
    requires ready { IsReady pass.now }
    requires rank { job.rank ≤ 96 }
    requires turn { job.turn ≤ 96 }
    ensures value { result ≡ earns_above (price_in pass.now.table.now) pass.now.unit pass.now.ordered low job }
    ensures few { result ≤ 9999 }
{
    let price = price_at(pass.table, job.rank, job.turn) as u32;
    if low > pass.ordered {
        return price;
    }
    let next = price_at(pass.table, job.rank, low) as u32;
    price.saturating_sub(pass.unit).saturating_sub(next)
}

/// What a job brings that is taken as the new low, by room.
fn with_low(paid: u32, after: &[u32; 9], resumed: &[u32; 9], inner: &[u32; 9]) -> [u32; 9]
    requires paid { paid ≤ 9999 }
    requires resumed { (k : ℕ) → slice_index resumed.now k ≤ 8 * (98 * 9999) }
    requires inner { (k : ℕ) → slice_index inner.now k ≤ 8 * (98 * 9999) }
    ensures { (k : ℕ) → k < 9 → slice_index result k ≡ entry true paid after.now resumed.now inner.now k }
{
    let mut column = *after;
    for room in 1..9 {
        column[room] = after[room].max(paid + inner[room - 1] + resumed[room]);
    }
    column
}

/// What a job brings that is taken as no new low, by room.
fn with_top(paid: u32, after: &[u32; 9]) -> [u32; 9]
    requires paid { paid ≤ 9999 }
    requires after { (k : ℕ) → slice_index after.now k ≤ 8 * (98 * 9999) }
    ensures { (k : ℕ) → k < 9 → slice_index result k ≡ entry false paid after.now [] [] k }
{
    let mut column = *after;
    for room in 1..9 {
        column[room] = after[room].max(paid + after[room - 1]);
    }
    column
}

/// The column of a scope from the job at an index on, where those behind it are there.
pub(crate) fn column_at(
    pass: &Pass,
    low: u8,
    index: usize,
    inners: &[[u32; 9]],
    columns: &[[u32; 9]],
) -> [u32; 9]
    requires ready { IsReady pass.now }
    requires low { low ≤ pass.now.ordered + 1 }
    requires index { index < slice_index pass.now.starts low }
    requires inners { AreInner (price_in pass.now.table.now) pass.now.unit pass.now.ordered pass.now.jobs.now low inners.now }
    requires columns { AreColumns (price_in pass.now.table.now) pass.now.unit pass.now.ordered pass.now.jobs.now low (suc index) (slice_index pass.now.starts low) columns.now }
    ensures { IsColumn (price_in pass.now.table.now) pass.now.unit pass.now.ordered pass.now.jobs.now low (drop index pass.now.jobs.now) result }
{
    let job = pass.jobs[index];
    if job.rank < low {
        let paid = price_at(pass.table, job.rank, job.turn) as u32;
        let resumes = pass.starts[job.rank as usize + 1];
        with_low(paid, &columns[index + 1], &columns[resumes], &inners[index])
    } else {
        with_top(earns_at(pass, low, job), &columns[index + 1])
    }
}
