//! Prices as a list of those that are not 0.
ghost use Rattle.std.specs.Prelude.{◌≡◌, ◌↔◌, ℕ, ◌++◌, ◌∷◌, [], if◌then◌else◌, IsTrue, IfOk, IfErr, OnOk};
ghost use Rattle.crp_prices.specs.PriceTable.{price_in};
ghost use Rattle.crp_prices.specs.PriceLists.{IsPriced, StandsBefore, AreListed, listed_price, pair_text, next_text, behind_text, list_text};
ghost use Rattle.std.specs.Fmt.{decimal};

use crate::prices::Prices;
use itoa::Buffer;
use std::alloc::{AllocError, Global};
use std::marker::Model;

/// The price of the job to take in the container of this rank in this turn.
#[derive(Clone, Copy, Debug, Drop, PartialEq, Eq)]
pub struct Priced {
    /// The rank of the container, at most 96.
    pub rank: u8,
    /// The turn, at most 96.
    pub turn: u8,
    /// The price, from 1 to 9999.
    pub price: u16,
}

/// Prices of some jobs, by rising rank and, of one rank, by rising turn; the price of each other is 0. Contracts see the list.
#[derive(Drop)]
pub struct PriceList {
    entries: Vec<Priced>,
}

impl Model for PriceList {
    ghost use Rattle.std.specs.Prelude.{List};
    ghost use Rattle.crp_prices.specs.PriceLists.{AreListed};
    ghost use Rattle.crp_prices.specs.declared.list.Priced.{Priced as Listed};

    ghost Value = { List Listed };

    ghost view = { λ p. p.entries.items };

    ghost invariant = { λ p. AreListed p.entries.items };
}

/// Whether a price may be listed.
fn is_priced(entry: Priced) -> bool
    ensures { IsTrue result ↔ IsPriced entry }
{
    entry.rank <= 96 && entry.turn <= 96 && entry.price >= 1 && entry.price <= 9999
}

/// Whether one stands before the other.
fn stands_before(one: Priced, other: Priced) -> bool
    ensures { IsTrue result ↔ StandsBefore one other }
{
    one.rank < other.rank || one.rank == other.rank && one.turn < other.turn
}

/// Whether a price may be listed behind others.
fn may_follow(entries: &[Priced], entry: Priced) -> bool
    requires { AreListed entries.now }
    ensures { IsTrue result ↔ AreListed (entries.now ++ entry ∷ []) }
{
    let Some((last, _front)) = entries.split_last() else {
        return is_priced(entry);
    };
    if !stands_before(*last, entry) {
        return false;
    }
    is_priced(entry)
}

/// Adds a number to a text.
fn push_number(text: &mut Vec<u8>, number: u16) -> Result<(), AllocError>
    ensures { OnOk result (text.new.items ≡ text.old.items ++ decimal number) }
{
    let mut digits = Buffer::new();
    text.extend_from_slice(digits.format(number).as_bytes())
}

/// Adds a turn and its price to a text.
fn push_pair(text: &mut Vec<u8>, entry: Priced) -> Result<(), AllocError>
    ensures { OnOk result (text.new.items ≡ text.old.items ++ pair_text entry) }
{
    push_number(text, u16::from(entry.turn))?;
    text.push(b'.')?;
    push_number(text, entry.price)
}

/// Adds the text of a price behind another of this rank.
fn push_next(text: &mut Vec<u8>, rank: u8, entry: Priced) -> Result<(), AllocError>
    ensures { OnOk result (text.new.items ≡ text.old.items ++ next_text rank entry) }
{
    if entry.rank == rank {
        text.push(b',')?;
        return push_pair(text, entry);
    }
    text.push(b';')?;
    push_number(text, u16::from(entry.rank))?;
    text.push(b':')?;
    push_pair(text, entry)
}

/// Adds the text of prices behind one of this rank.
fn push_behind(text: &mut Vec<u8>, rank: u8, entries: &[Priced]) -> Result<(), AllocError>
    ensures { OnOk result (text.new.items ≡ text.old.items ++ behind_text rank entries.now) }
{
    let mut last = rank;
    let mut rest = entries;
    while let Some((first, behind)) = rest.split_first() {
        push_next(text, last, *first)?;
        last = first.rank;
        rest = behind;
    }
    Ok(())
}

impl PriceList {
    /// No price. It takes no memory.
    pub fn new(alloc: Global) -> PriceList
        ensures { result ≡ [] }
    {
        PriceList {
            entries: Vec::new(alloc),
        }
    }

    /// Adds a price behind the others, where it may stand there, and says whether it does.
    pub fn push(&mut self, entry: Priced) -> Result<bool, AllocError>
        ensures added { IfOk result (λ may. self.new ≡ (if may then self.old ++ entry ∷ [] else self.old)) }
        ensures may { IfOk result (λ may. IsTrue may ↔ AreListed (self.old ++ entry ∷ [])) }
        ensures same { IfErr result (λ _. self.new ≡ self.old) }
    {
        if !may_follow(&self.entries, entry) {
            return Ok(false);
        }
        self.entries.push(entry).map_err(AllocError::from)?;
        Ok(true)
    }

    /// The prices, one after the other.
    pub fn entries(&self) -> &[Priced]
        ensures value { result.now ≡ self.now }
        ensures listed { AreListed self.now }
    {
        self.entries.as_slice()
    }

    /// The list of these prices.
    pub fn of(alloc: Global, prices: &Prices) -> Result<PriceList, AllocError>
        ensures { IfOk result (λ list. (rank turn : ℕ) → listed_price list rank turn ≡ price_in prices.now rank turn) }
    {
        let mut entries = Vec::new(alloc);
        for (i, price) in prices.table().iter().enumerate() {
            if *price > 0 {
                entries.push(Priced {
                    rank: (i / 97) as u8,
                    turn: (i % 97) as u8,
                    price: *price,
                })?;
            }
        }
        Ok(PriceList { entries })
    }

    /// Makes these the prices.
    pub fn fill(&self, prices: &mut Prices)
        ensures { (rank turn : ℕ) → price_in prices.new rank turn ≡ listed_price self.now rank turn }
    {
        prices.clear();
        let mut rest = self.entries();
        while let Some((last, front)) = rest.split_last() {
            prices.set(last.rank, last.turn, last.price);
            rest = front;
        }
    }

    /// Adds their text to another.
    pub fn push_text(&self, text: &mut Vec<u8>) -> Result<(), AllocError>
        ensures { OnOk result (text.new.items ≡ text.old.items ++ list_text self.now) }
    {
        let Some((first, rest)) = self.entries().split_first() else {
            return Ok(());
        };
        push_number(text, u16::from(first.rank))?;
        text.push(b':')?;
        push_pair(text, *first)?;
        push_behind(text, first.rank, rest)
    }
}
