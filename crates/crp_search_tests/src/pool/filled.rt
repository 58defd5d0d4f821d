//! A pool with all its seats, for tests.
ghost use Rattle.std.specs.Prelude.{◌≡◌, ◌<◌, ◌≤◌, vec_len};
ghost use Rattle.crp_pool.specs.Seats.{IsEverySeat};

use crate::compare::{assert_at, assert_same_at};
use crp_pool::{Pool, PoolSeat};
use crp_tree::Name;
use std::alloc::{AllocError, Global};
use std::process::Abort;

/// The name with these rows.
pub fn named(rt: &impl Abort, rows: &[u8]) -> Name {
    Name::from_rows(rows).expect(rt, "8 rows at most")
}

/// This seat puts the name with these rows.
pub fn puts(rt: &impl Abort, filled: &mut Filled, seat: usize, rows: &[u8]) {
    assert!(rt; seat < filled.len());
    assert_at(rt, filled.put(seat, named(rt, rows)).is_ok(), &seat);
}

/// This seat takes the name with these rows, or none.
pub fn takes(rt: &impl Abort, filled: &mut Filled, seat: usize, rows: Option<&[u8]>) {
    assert!(rt; seat < filled.len());
    match filled.take(seat) {
        Some(name) => assert_same_at(rt, &Some(name.rows()), &rows, &seat),
        None => assert_at(rt, rows.is_none(), &seat),
    }
}

/// A pool, and every seat of it.
#[derive(Drop)]
pub struct Filled {
    pub pool: Pool,
    pub seats: Vec<PoolSeat>,
    ghost every: { IsEverySeat pool seats.items },
}

impl Filled {
    /// An empty pool.
    pub fn new(alloc: Global, workers: usize, capacity: usize) -> Result<Filled, AllocError>
        requires workers { (0 < workers) × (workers ≤ 64) }
        requires capacity { capacity ≤ 4096 }
    {
        let (pool, seats) = Pool::new(alloc, workers, capacity)?;
        Ok(Filled { pool, seats })
    }

    /// How many seats there are.
    pub fn len(&self) -> usize
        ensures { result ≡ vec_len self.now.seats }
    {
        self.seats.len()
    }

    /// This seat puts a name.
    pub fn put(&mut self, seat: usize, name: Name) -> Result<(), Name>
        requires { seat < vec_len self.old.seats }
    {
        self.seats[seat].put(name)
    }

    /// This seat takes a name.
    pub fn take(&mut self, seat: usize) -> Option<Name>
        requires { seat < vec_len self.old.seats }
    {
        self.seats[seat].take()
    }

    /// The same seats, the last first.
    pub fn turn(&mut self) {
        self.seats.reverse();
    }

    /// The names that are left once every seat is back.
    pub fn left(self, alloc: Global) -> Result<Vec<Name>, AllocError> {
        let Filled { pool, seats } = self;
        let mut rest = pool.finish(seats);
        let mut names = Vec::new(alloc);
        for _ in 0..u16::MAX {
            let Some(name) = rest.next() else {
                break;
            };
            names.push(name)?;
        }
        Ok(names)
    }
}
