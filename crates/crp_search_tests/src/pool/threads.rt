//! Four threads that put and take.
ghost use Rattle.std.specs.Prelude.{ℕ, ◌<◌, length, slice_index_or};
ghost use Rattle.crp_pool.specs.Seats.{PoolSeat as Place, SameSeat};

use super::filled::Filled;
use crate::compare::assert_same_at;
use crp_pool::PoolSeat;
use crp_tree::Name;
use std::alloc::{AllocError, Global};
use std::sync::atomic::{AtomicU64, Ordering};
use std::test::Fail;
use std::thread;
use std::thread::Threads;

/// How many names each thread puts.
const EACH: usize = 2500;

/// How many threads there are.
const THREADS: usize = 4;

/// How often each name was met.
type Counts = Vec<AtomicU64>;

/// Counts for all names, which were not met yet.
fn no_counts(alloc: Global) -> Result<Counts, AllocError> {
    let mut counts = Vec::new(alloc);
    for _ in 0..EACH * THREADS {
        counts.push(AtomicU64::new(0))?;
    }
    Ok(counts)
}

/// The name of a number below 65536, in two rows.
fn name_of(number: usize) -> Name {
    let rows = [(number / 256 % 256) as u8, (number % 256) as u8];
    match Name::from_rows(&rows) {
        Some(name) => name,
        None => unreachable!(),
    }
}

/// Counts a name.
fn count(counts: &Counts, name: &Name) {
    let [high, low] = name.rows() else {
        return;
    };
    let number = usize::from(*high) * 256 + usize::from(*low);
    if let Some(met) = counts.get(number) {
        met.fetch_add(1, Ordering::SeqCst);
    }
}

/// Puts a name, or counts it where it comes back.
fn put(seat: &mut PoolSeat, counts: &Counts, name: Name)
    ensures { SameSeat seat.old seat.new }
{
    if let Err(name) = seat.put(name) {
        count(counts, &name);
    }
}

/// Takes a name and counts it, and answers whether there was one.
fn take(seat: &mut PoolSeat, counts: &Counts) -> bool
    ensures { SameSeat seat.old seat.new }
{
    match seat.take() {
        Some(name) => {
            count(counts, &name);
            true
        }
        None => false,
    }
}

/// Puts the names of a thread, and takes every third time.
fn put_names(seat: &mut PoolSeat, counts: &Counts, first: usize)
    ensures { SameSeat seat.old seat.new }
{
    for i in 0..EACH {
        put(seat, counts, name_of(first.wrapping_add(i)));
        if i % 3 == 0 {
            take(seat, counts);
        }
    }
}

/// Takes until nothing is found, or as often as there are names.
fn take_names(seat: &mut PoolSeat, counts: &Counts)
    ensures { SameSeat seat.old seat.new }
{
    for _ in 0..EACH * THREADS {
        if !take(seat, counts) {
            break;
        }
    }
}

/// Puts the names of a thread, and takes what is found.
fn work(seat: &mut PoolSeat, counts: &Counts, first: usize)
    ensures { SameSeat seat.old seat.new }
{
    put_names(seat, counts, first);
    take_names(seat, counts);
}

/// Each seat works in a thread of its own.
fn work_all<R: Threads + Sync>(rt: &R, seats: &mut [PoolSeat], counts: &Counts)
    ensures { (k : ℕ) (d : Place) → k < length seats.old → SameSeat (slice_index_or seats.old k d) (slice_index_or seats.new k d) }
{
    thread::for_each_mut(
        rt,
        seats,
        THREADS,
        &|i, seat| { work(seat, counts, i.wrapping_mul(EACH)) },
    );
}

impl Filled {
    /// All seats work.
    fn work<R: Threads + Sync>(&mut self, rt: &R, counts: &Counts) {
        work_all(rt, self.seats.as_mut_slice(), counts);
    }
}

#[test]
fn four_threads_account_for_every_name(rt: HostRuntime) -> Result<(), Fail> {
    let counts = no_counts(rt.alloc())?;
    let mut filled = Filled::new(rt.alloc(), 4, 64)?;
    filled.work(&rt, &counts);
    for name in filled.left(rt.alloc())?.iter() {
        count(&counts, name);
    }
    for (number, met) in counts.iter().enumerate() {
        assert_same_at(&rt, &met.load(Ordering::SeqCst), &1, &number);
    }
    Ok(())
}
