//! Prices of jobs.
ghost use Rattle.std.specs.Prelude.{◌≡◌, ℕ, ◌+◌, ◌*◌, ◌<◌, ◌≤◌, ◌==◌, ◌&&◌, nat_lt, if◌then◌else◌, IfOk, List, length};
ghost use Rattle.std.specs.List.{All};
ghost use Rattle.crp_prices.specs.PriceTable.{price_in};

use std::alloc::{AllocError, Global};
use std::marker::Model;

/// Prices of jobs: for each rank and each turn, both from 0 to 96, a number from 0 to 9999. How many of them one relocation counts is the
/// unit, which is not kept here. Contracts see the numbers of all ranks as one list; `price_in` says which is whose.
#[derive(Drop)]
pub struct Prices {
    table: Vec<u16>,
}

impl Model for Prices {
    ghost Value = { List ℕ };

    ghost view = { λ p. p.table.items };

    ghost invariant = { λ p. (length p.table.items ≡ 97 * 97) × All (λ price. price ≤ 9999) p.table.items };
}

/// The price of a job in a table.
#[inline]
pub(crate) fn price_at(table: &[u16], rank: u8, turn: u8) -> u16
    requires long { length table.now ≡ 97 * 97 }
    requires rank { rank ≤ 96 }
    requires turn { turn ≤ 96 }
    ensures { result ≡ price_in table.now rank turn }
{
    table[rank as usize * 97 + turn as usize]
}

impl Prices {
    /// Prices that are all 0.
    pub fn new(alloc: Global) -> Result<Prices, AllocError>
        ensures { IfOk result (λ prices. (rank turn : ℕ) → price_in prices rank turn ≡ 0) }
    {
        Ok(Prices {
            table: vec![in alloc; 0; 97 * 97]?,
        })
    }

    /// Makes all prices 0.
    pub fn clear(&mut self)
        ensures { (rank turn : ℕ) → price_in self.new rank turn ≡ 0 }
    {
        self.table.fill(0);
    }

    /// Gives a job this price.
    pub fn set(&mut self, rank: u8, turn: u8, price: u16)
        requires rank { rank ≤ 96 }
        requires turn { turn ≤ 96 }
        requires price { price ≤ 9999 }
        ensures { (r v : ℕ) → price_in self.new r v ≡ (if r == rank && v == turn then price else price_in self.old r v) }
    {
        self.table[rank as usize * 97 + turn as usize] = price;
    }

    /// The price of a job.
    #[inline]
    pub fn get(&self, rank: u8, turn: u8) -> u16
        requires rank { rank ≤ 96 }
        requires turn { turn ≤ 96 }
        ensures value { result ≡ price_in self.now rank turn }
        ensures few { result ≤ 9999 }
    {
        price_at(self.table(), rank, turn)
    }

    /// All prices: 97 for each rank, one for each turn.
    #[inline]
    pub fn table(&self) -> &[u16]
        ensures value { result.now ≡ self.now }
        ensures long { length result.now ≡ 97 * 97 }
        ensures few { (rank turn : ℕ) → price_in self.now rank turn ≤ 9999 }
    {
        self.table.as_slice()
    }
}
