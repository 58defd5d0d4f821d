//! What scopes bring from each job on.
ghost use Rattle.std.specs.Prelude.{◌≡◌, ℕ, suc, ◌+◌, ◌^◌, ◌<◌, ◌≤◌, List, length, IfOk, drop, slice_get, slice_index, Some};
ghost use Rattle.crp_prices.specs.PriceTable.{price_in};
ghost use Rattle.crp_prices.specs.declared.job.MarkedJob.{MarkedJob as Marked};
ghost use Rattle.crp_prices.specs.Columns.{from_on};
ghost use Rattle.crp_prices.specs.Tables.{own_jobs, AreColumns, AreInner, AreStarts};
ghost use Rattle.crp_prices.specs.Ready.{IsReady};

use crate::columns::column_at;
use crate::job::MarkedJob;
use crate::pass::Pass;
use std::alloc::{AllocError, Global};

/// The index, from this one on, of the first job that is not before the turn.
fn next_from(jobs: &[MarkedJob], index: usize, turn: u8) -> usize
    requires { index ≤ length jobs.now }
    ensures within { result ≤ length jobs.now }
    ensures from { drop result jobs.now ≡ from_on turn (drop index jobs.now) }
{
    for i in index..jobs.len() {
        if jobs[i].turn >= turn {
            return i;
        }
    }
    jobs.len()
}

/// For each turn the index of the first job that is not before it.
pub(crate) fn starts_of(jobs: &[MarkedJob]) -> [usize; 98]
    ensures { AreStarts jobs.now result }
{
    let mut starts = [0; 98];
    let mut at = 0;
    for turn in 0..98u8 {
        at = next_from(jobs, at, turn);
        starts[turn as usize] = at;
    }
    starts
}

/// Fills the columns of the scope of a low from an index on, up to its turn, from the last one back.
pub(crate) fn fill(
    pass: &Pass,
    low: u8,
    begin: usize,
    inners: &[[u32; 9]],
    columns: &mut [[u32; 9]],
)
    requires ready { IsReady pass.now }
    requires low { low ≤ pass.now.ordered + 1 }
    requires inners { AreInner (price_in pass.now.table.now) pass.now.unit pass.now.ordered pass.now.jobs.now low inners.now }
    requires long { length columns.old ≡ length pass.now.jobs.now + 1 }
    ensures { AreColumns (price_in pass.now.table.now) pass.now.unit pass.now.ordered pass.now.jobs.now low begin (slice_index pass.now.starts low) columns.new }
{
    let mut i = pass.starts[low as usize];
    columns[i] = [0; 9];
    while i > begin {
        i -= 1;
        columns[i] = column_at(pass, low, i, inners, columns);
    }
}

/// The index at which the own scope of the job at an index begins.
fn begin_of(pass: &Pass, index: usize) -> usize
    requires ready { IsReady pass.now }
    requires index { index < length pass.now.jobs.now }
    ensures within { result ≤ length pass.now.jobs.now }
    ensures begins { (x : Marked) → slice_get pass.now.jobs.now index ≡ Some x → drop result pass.now.jobs.now ≡ own_jobs pass.now.jobs.now index x }
    ensures after { (x : Marked) → slice_get pass.now.jobs.now index ≡ Some x → slice_index pass.now.starts x.turn ≤ result }
    ensures before { (x : Marked) → slice_get pass.now.jobs.now index ≡ Some x → result ≤ slice_index pass.now.starts x.rank }
{
    let job = pass.jobs[index];
    if job.is_later {
        pass.starts[job.turn as usize]
    } else {
        index + 1
    }
}

/// Keeps what the own scopes of the jobs of a rank bring, from an index on, where the columns are those of the rank.
fn keep(pass: &Pass, rank: u8, first: usize, columns: &[[u32; 9]], inners: &mut [[u32; 9]])
    requires ready { IsReady pass.now }
    requires rank { rank ≤ pass.now.ordered }
    requires none { (i : ℕ) (x : Marked) → i < first → slice_get pass.now.jobs.now i ≡ Some x → x.rank ≡ rank → ⊥ }
    requires columns { (x : Marked) → slice_get pass.now.jobs.now first ≡ Some x → AreColumns (price_in pass.now.table.now) pass.now.unit pass.now.ordered
        pass.now.jobs.now rank (slice_index pass.now.starts x.turn) (slice_index pass.now.starts rank) columns.now }
    requires inners { AreInner (price_in pass.now.table.now) pass.now.unit pass.now.ordered pass.now.jobs.now rank inners.old }
    ensures { AreInner (price_in pass.now.table.now) pass.now.unit pass.now.ordered pass.now.jobs.now (rank + 1) inners.new }
{
    for index in first..pass.starts[rank as usize] {
        if pass.jobs[index].rank == rank {
            inners[index] = columns[begin_of(pass, index)];
        }
    }
}

/// The index of the first job of a rank; where there is none, the number of jobs.
fn first_of(jobs: &[MarkedJob], rank: u8) -> usize
    ensures within { result ≤ length jobs.now }
    ensures none { (i : ℕ) (x : Marked) → i < result → slice_get jobs.now i ≡ Some x → x.rank ≡ rank → ⊥ }
{
    for (i, job) in jobs.iter().enumerate() {
        if job.rank == rank {
            return i;
        }
    }
    jobs.len()
}

/// Adds what the own scopes of the jobs of a rank bring to what those of lower ranks do. The columns are written over.
fn add_rank(pass: &Pass, rank: u8, inners: &mut [[u32; 9]], columns: &mut [[u32; 9]])
    requires ready { IsReady pass.now }
    requires rank { rank ≤ pass.now.ordered }
    requires inners { AreInner (price_in pass.now.table.now) pass.now.unit pass.now.ordered pass.now.jobs.now rank inners.old }
    requires long { length columns.old ≡ length pass.now.jobs.now + 1 }
    ensures inners { AreInner (price_in pass.now.table.now) pass.now.unit pass.now.ordered pass.now.jobs.now (rank + 1) inners.new }
    ensures long { length columns.new ≡ length pass.now.jobs.now + 1 }
{
    let first = first_of(pass.jobs, rank);
    if first < pass.jobs.len() {
        let begin = pass.starts[pass.jobs[first].turn as usize];
        fill(pass, rank, begin, inners, columns);
        keep(pass, rank, first, columns, inners);
    }
}

/// What the own scopes of the jobs of all ordered containers bring. The columns are written over.
pub(crate) fn inners_of(
    alloc: Global,
    pass: &Pass,
    columns: &mut [[u32; 9]],
) -> Result<Vec<[u32; 9]>, AllocError>
    requires ready { IsReady pass.now }
    requires long { length columns.old ≡ length pass.now.jobs.now + 1 }
    ensures inners { IfOk result (λ inners. AreInner (price_in pass.now.table.now) pass.now.unit pass.now.ordered pass.now.jobs.now (suc pass.now.ordered) inners.items) }
    ensures long { length columns.new ≡ length pass.now.jobs.now + 1 }
{
    let mut inners = vec![in alloc; [0; 9]; pass.jobs.len()]?;
    for rank in 0..pass.ordered + 1 {
        add_rank(pass, rank, inners.as_mut_slice(), columns);
    }
    Ok(inners)
}
