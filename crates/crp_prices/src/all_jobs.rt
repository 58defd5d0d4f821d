//! All jobs of a position in the order in which the pass reads them.
ghost use Rattle.std.specs.Prelude.{◌≡◌, ℕ, suc, ◌+◌, ◌<◌, ◌≤◌, List, [], ◌∷◌, ◌++◌, length, slice_index, IfOk, if◌then◌else◌, nat_lt, ◌&&◌};
ghost use Rattle.crp_plan.specs.Bay.{Position as Place};
ghost use Rattle.crp_prices.specs.Pass.{AreJobs};
ghost use Rattle.crp_prices.specs.Tables.{AreReadable};
ghost use Rattle.crp_prices.specs.AllJobs.{turn_in as turn_in_stack, turn_of as turn_of_rank, later_jobs, first_jobs, jobs_of as jobs_of_place};

use crate::job::MarkedJob;
use crate::row::least_of;
use crp_bay::Position;
use std::alloc::{AllocError, Global};

/// The first turn of a rank where it blocks in the stack; else the first turn that is none.
fn turn_in(ordered: u8, rank: u8, stack: &[u8]) -> u8
    requires { ordered < 255 }
    ensures value { result ≡ turn_in_stack ordered rank [] stack.now }
    ensures few { result ≤ suc ordered }
{
    let mut least = ordered + 1;
    for c in stack {
        if *c == rank && least < rank {
            return least;
        }
        least = least.min(*c);
    }
    ordered + 1
}

/// The first turn of a rank where it blocks; else the first turn that is none.
fn turn_of(position: &Position, rank: u8) -> u8
    ensures { result ≡ turn_of_rank position.now.place rank }
{
    let ordered = position.ordered();
    let mut turn = ordered + 1;
    for row in 1..position.rows() + 1 {
        turn = turn.min(turn_in(ordered, rank, position.stack(row)));
    }
    turn
}

/// The first turn of each rank.
fn turns_of(position: &Position) -> [u8; 97]
    ensures { (rank : ℕ) → rank < 97 → slice_index result rank ≡ turn_of_rank position.now.place rank }
{
    let mut turns = [0; 97];
    for rank in 0..97u8 {
        turns[rank as usize] = turn_of(position, rank);
    }
    turns
}

/// Adds a job where it is to be.
fn push_if(jobs: &mut Vec<MarkedJob>, is_one: bool, job: MarkedJob) -> Result<(), AllocError>
    ensures { IfOk result (λ _. jobs.new.items ≡ jobs.old.items ++ (if is_one then job ∷ [] else [])) }
{
    if is_one {
        jobs.push(job)?;
    }
    Ok(())
}

/// Whether a rank has a later job in a turn.
fn is_later(turns: &[u8; 97], turn: u8, rank: u8) -> bool
    requires { rank < 97 }
    ensures { result ≡ (nat_lt (slice_index turns.now rank) turn && nat_lt turn rank) }
{
    turns[rank as usize] < turn && turn < rank
}

/// Adds the later jobs of a turn, of ranks up to most, where these are the first turns of all ranks.
fn push_later(
    jobs: &mut Vec<MarkedJob>,
    turns: &[u8; 97],
    turn: u8,
    most: u8,
) -> Result<(), AllocError>
    requires { most < 97 }
    ensures { IfOk result (λ _. (s : Place) → ((rank : ℕ) → rank < 97 → slice_index turns.now rank ≡ turn_of_rank s rank)
        → jobs.new.items ≡ jobs.old.items ++ later_jobs s turn most) }
{
    let mut rank = most;
    while rank > 0 {
        push_if(
            jobs,
            is_later(turns, turn, rank),
            MarkedJob {
                rank,
                turn,
                is_later: true,
            },
        )?;
        rank -= 1;
    }
    Ok(())
}

/// Adds the first jobs of a turn, the upper ones first, where this is the stack of the turn.
fn push_first(
    jobs: &mut Vec<MarkedJob>,
    ordered: u8,
    turn: u8,
    stack: &[u8],
) -> Result<(), AllocError>
    requires { ordered < 255 }
    ensures { IfOk result (λ _. jobs.new.items ≡ jobs.old.items ++ first_jobs ordered turn [] stack.now) }
{
    let mut i = stack.len();
    while i > 0 {
        i -= 1;
        let rank = stack[i];
        let is_one = least_of(ordered, &stack[..i]) == turn && turn < rank;
        push_if(
            jobs,
            is_one,
            MarkedJob {
                rank,
                turn,
                is_later: false,
            },
        )?;
    }
    Ok(())
}

/// All jobs of a position of ranks up to most, in the order in which the pass reads them.
fn jobs_up_to(alloc: Global, position: &Position, most: u8) -> Result<Vec<MarkedJob>, AllocError>
    requires { most ≡ 96 }
    ensures value { IfOk result (λ jobs. jobs.items ≡ jobs_of_place position.now.place most) }
    ensures jobs { IfOk result (λ jobs. AreJobs position.now.place jobs.items) }
    ensures readable { IfOk result (λ jobs. AreReadable jobs.items) }
{
    let ordered = position.ordered();
    let turns = turns_of(position);
    let mut jobs = Vec::new(alloc);
    for turn in position.next()..ordered + 1 {
        let (_, stack) = position.stack_of(turn);
        push_later(&mut jobs, &turns, turn, most)?;
        push_first(&mut jobs, ordered, turn, stack)?;
    }
    Ok(jobs)
}

/// All jobs of a position, in the order in which the pass reads them.
pub fn jobs_of(alloc: Global, position: &Position) -> Result<Vec<MarkedJob>, AllocError>
    ensures value { IfOk result (λ jobs. jobs.items ≡ jobs_of_place position.now.place 96) }
    ensures jobs { IfOk result (λ jobs. AreJobs position.now.place jobs.items) }
    ensures readable { IfOk result (λ jobs. AreReadable jobs.items) }
{
    jobs_up_to(alloc, position, 96)
}
