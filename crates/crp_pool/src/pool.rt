// The pool as a whole: made before its workers start, taken apart after they end.
ghost use Rattle.std.specs.Prelude.{◌≡◌, ◌+◌, ◌-◌, ◌<◌, ◌≤◌, ℕ, List, All, map, IfOk, length, vec_len, vec_capacity};
ghost use Rattle.std.specs.List.Sorted.{IsPermutation, IsNonDecreasingBy};
ghost use Rattle.crp_pool.specs.Hand.{all_deque_shares};
ghost use Rattle.crp_pool.specs.Weigh.{SameNames};
ghost use Rattle.crp_pool.specs.Deques.{row_ways, shape, guest, DequeId, own_deque, fresh_way, IsFresh, EachGivesShare};
ghost use Rattle.crp_pool.specs.Seats.{IsSplit, IsEverySeat, IsNewSeat, seat_deque, seat_number, numbers, all_puts, all_takes, PoolKeeps};

use crate::owner::{Link, Owner};
use crate::rest::{Rest, give_back};
use crate::seat::PoolSeat;
use std::alloc::{AllocError, Global};
use std::marker::Model;
use std::snapshot::Snapshot;

/// A pool of names, with a deque for each worker. Contracts see which deques they are.
#[derive(Drop)]
pub struct Pool {
    known: Snapshot<Vec<Owner>>,
    owners: Vec<Owner>,
    rows: Vec<Vec<Link>>,
}

impl Model for Pool {
    ghost Value = { List DequeId };

    ghost view = { λ p. map own_deque p.known.value.items };

    ghost invariant = { λ p. PoolKeeps (length p.known.value.items) (vec_len p.owners) (vec_len p.rows) (vec_capacity p.owners) (vec_capacity p.rows) };
}

/// The deques, whose workers have all shares.
fn open(alloc: Global, workers: usize, capacity: usize) -> Result<Vec<Owner>, AllocError>
    ensures { IfOk result (λ v. (length v.items ≡ workers) × All (IsFresh all_deque_shares capacity) v.items) }
{
    let mut owners = Vec::new(alloc);
    for _number in 0..workers {
        owners.push(Owner::new(alloc, capacity)?)?;
    }
    Ok(owners)
}

/// A way to each deque.
fn link_row(alloc: Global, owners: &mut Vec<Owner>) -> Result<Vec<Link>, AllocError>
    requires { All (λ o. 1 < o.hand.shares) owners.old.items }
    ensures deques { IfOk result (λ _. map own_deque owners.new.items ≡ map own_deque owners.old.items) }
    ensures shares { IfOk result (λ _. EachGivesShare owners.old.items owners.new.items) }
    ensures row { IfOk result (λ v. v.items ≡ map fresh_way (map own_deque owners.old.items)) }
{
    let mut links = Vec::new(alloc);
    for i in 0..owners.len() {
        links.push(owners[i].link()?)?;
    }
    Ok(links)
}

/// For each worker a way to each deque.
fn link_rows(alloc: Global, owners: &mut Vec<Owner>) -> Result<Vec<Vec<Link>>, AllocError>
    requires shares { All (λ o. o.hand.shares ≡ all_deque_shares) owners.old.items }
    requires few { length owners.old.items ≤ 64 }
    ensures deques { IfOk result (λ _. map own_deque owners.new.items ≡ map own_deque owners.old.items) }
    ensures fresh { IfOk result (λ _. (capacity : ℕ) → All (IsFresh all_deque_shares capacity) owners.old.items
        → All (IsFresh (all_deque_shares - length owners.old.items) capacity) owners.new.items) }
    ensures rows { IfOk result (λ v. (length v.items ≡ length owners.old.items) × All (λ r. r.items ≡ map fresh_way (map own_deque owners.old.items)) v.items) }
{
    let mut rows = Vec::new(alloc);
    for _row in 0..owners.len() {
        rows.push(link_row(alloc, owners)?)?;
    }
    Ok(rows)
}

/// A seat for each worker.
fn seat_all(
    alloc: Global,
    owners: Vec<Owner>,
    mut rows: Vec<Vec<Link>>,
    capacity: usize,
) -> Result<Vec<PoolSeat>, AllocError>
    requires count { (length rows.items ≡ length owners.items) × (length owners.items ≤ 64) }
    requires fresh { All (IsFresh (all_deque_shares - length owners.items) capacity) owners.items }
    requires rows { All (λ r. r.items ≡ map fresh_way (map own_deque owners.items)) rows.items }
    ensures deques { IfOk result (λ v. map seat_deque v.items ≡ map own_deque owners.items) }
    ensures new { IfOk result (λ v. All (IsNewSeat (map own_deque owners.items) capacity) v.items) }
    ensures numbers { IfOk result (λ v. map seat_number v.items ≡ numbers 0 (length owners.items)) }
{
    let mut seats = Vec::new(alloc);
    let mut number = 0usize;
    for owner in owners {
        let Some(links) = rows.pop() else {
            unreachable!()
        };
        seats.push(PoolSeat {
            number,
            owner,
            links,
            capacity,
        })?;
        number += 1;
    }
    Ok(seats)
}

/// Takes the seats apart.
fn unseat(seats: Vec<PoolSeat>, owners: &mut Vec<Owner>, rows: &mut Vec<Vec<Link>>)
    requires empty { (vec_len owners.old ≡ 0) × (vec_len rows.old ≡ 0) }
    requires room { (vec_len seats ≤ vec_capacity owners.old) × (vec_len seats ≤ vec_capacity rows.old) }
    ensures deques { map own_deque owners.new.items ≡ map seat_deque seats.items }
    ensures shares { All (λ o. 0 < o.hand.shares) owners.new.items }
    ensures ways { (pool : List DequeId) → All (λ s. s.pool ≡ pool) seats.items → All (λ r. map shape r.items ≡ map guest pool) rows.new.items }
    ensures sums { IsSplit seats.items owners.new.items (map row_ways rows.new.items) }
{
    for seat in seats {
        let PoolSeat {
            number: _,
            owner,
            links,
            capacity: _,
        } = seat;
        owners.push_reserved(owner);
        rows.push_reserved(links);
    }
}

/// Sorts the seats by their numbers.
fn put_in_order(seats: &mut Vec<PoolSeat>)
    ensures moved { IsPermutation seats.old.items seats.new.items }
    ensures sorted { IsNonDecreasingBy seat_number seats.new.items }
{
    seats.sort_unstable_by_key(|s| s.number());
}

impl Pool {
    /// A pool for this many workers, and a seat for each of them, by their numbers.
    pub fn new(
        alloc: Global,
        workers: usize,
        capacity: usize,
    ) -> Result<(Pool, Vec<PoolSeat>), AllocError>
        requires workers { (0 < workers) × (workers ≤ 64) }
        requires capacity { capacity ≤ 4096 }
        ensures seats { IfOk result (λ r. (length r.1.items ≡ workers) × IsEverySeat r.0 r.1.items) }
        ensures fresh { IfOk result (λ r. All (IsNewSeat r.0 capacity) r.1.items) }
        ensures in_order { IfOk result (λ r. map seat_number r.1.items ≡ numbers 0 workers) }
    {
        let mut owners = open(alloc, workers, capacity)?;
        let rows = link_rows(alloc, &mut owners)?;
        let known = Snapshot::of(&owners);
        let room = Vec::with_capacity(alloc, workers)?;
        let room_for_rows = Vec::with_capacity(alloc, workers)?;
        let seats = seat_all(alloc, owners, rows, capacity)?;
        let pool = Pool {
            known,
            owners: room,
            rows: room_for_rows,
        };
        Ok((pool, seats))
    }

    /// Takes every seat of the pool back, in any order. The names that were put are those that were taken, and the rest.
    pub fn finish(self, mut seats: Vec<PoolSeat>) -> Rest
        requires { IsEverySeat self seats.items }
        ensures puts { SameNames result.puts (all_puts seats.items) }
        ensures takes { SameNames result.takes (all_takes seats.items) }
    {
        let Pool {
            known: _,
            mut owners,
            mut rows,
        } = self;
        put_in_order(&mut seats);
        unseat(seats, &mut owners, &mut rows);
        for links in rows {
            give_back(&mut owners, links);
        }
        Rest { owners }
    }
}
