//! A family that is read symbol by symbol.
ghost use Rattle.std.specs.Prelude.{◌≡◌, ℕ, ◌+◌, ◌-◌, ◌*◌, ◌≤◌, ◌<◌, ◌↔◌, ◌∷◌, ◌++◌, List, [], length, count_by, ◌==◌, slice_index, IsTrue};
ghost use Rattle.std.specs.Bool.{OnTrue, OnFalse};
ghost use Rattle.crp_thinned.specs.Missing.{IsSoundlyThin};
ghost use Rattle.crp_thinning.specs.Owed.{Task, EndsFamily};
ghost use Rattle.crp_thinning.specs.OneChain.{IsRank, IsFair, last_rank, chain_of, Counted, ChainDone, CannotCount, CannotEnd, GoesOn, StaysFair};

use crate::linking::chain_gain_of;
use crate::track::Track;
use arrayvec::ArrayVec;

/// What was read of a chain, and what came of the chains before it.
#[derive(Drop)]
pub struct Reading {
    /// How often each rank came in the chains before.
    pub seen: [u8; 256],
    /// How much this chain and those to come have to gain.
    pub wanted: u32,
    /// The ranks of the chain that are whole.
    pub ranks: ArrayVec<u8, 96>,
    /// The number that has begun; 0 where none has.
    pub number: u8,
}

/// What a symbol of a family leads to.
pub enum Reads {
    /// The family goes on.
    On,
    /// It has ended, and its chains gain what is wanted.
    Ended,
    /// No family begins so that gains as much.
    Wrong,
}

/// Where a family begins whose chains have to gain so much.
pub fn begin_family(wanted: u32) -> Reading
    ensures seen { (x : ℕ) → slice_index result.seen x ≡ 0 }
    ensures wanted { result.wanted ≡ wanted }
    ensures ranks { result.ranks.items ≡ [] }
    ensures number { result.number ≡ 0 }
    ensures fair { IsFair result }
{
    Reading {
        seen: [0u8; 256],
        wanted,
        ranks: ArrayVec::new(),
        number: 0,
    }
}

/// One more digit of a number. `false` where the number is then no rank of a bay.
fn digit(reading: &mut Reading, symbol: u8) -> bool
    requires digit { 48 ≤ symbol }
    requires low { symbol ≤ 57 }
    requires number { reading.old.number ≤ 96 }
    ensures goes_on { OnTrue result (IsRank (reading.old.number * 10 + (symbol - 48))) }
    ensures value { OnTrue result (reading.new ≡ record reading.old { number = reading.old.number * 10 + (symbol - 48) }) }
    ensures refused { OnFalse result (IsRank (reading.old.number * 10 + (symbol - 48)) → ⊥) }
{
    let number = reading.number as u32 * 10 + (symbol - 48) as u32;
    if number == 0 || number > 96 {
        return false;
    }
    reading.number = number as u8;
    true
}

/// A point behind a rank. `false` where no rank is there, or the chain is as long as any can be.
fn point(reading: &mut Reading) -> bool
    requires { length reading.old.ranks.items < 96 }
    ensures some { OnTrue result (1 ≤ reading.old.number) }
    ensures few { OnTrue result (length reading.old.ranks.items + 1 < 96) }
    ensures ranks { OnTrue result (reading.new.ranks.items ≡ reading.old.ranks.items ++ reading.old.number ∷ []) }
    ensures number { OnTrue result (reading.new.number ≡ 0) }
    ensures same { OnTrue result ((reading.new.seen ≡ reading.old.seen) × (reading.new.wanted ≡ reading.old.wanted)) }
    ensures refused { OnFalse result (1 ≤ reading.old.number → length reading.old.ranks.items + 1 < 96 → ⊥) }
{
    if reading.number == 0 || reading.ranks.len() >= 95 {
        return false;
    }
    let rank = reading.number;
    reading.ranks.push(rank);
    reading.number = 0;
    true
}

/// Counts each rank of a list. `false` exactly where one was there already or comes twice.
fn mark(ranks: &[u8], seen: &mut [u8; 256]) -> bool
    requires { (x : ℕ) → slice_index seen.old x ≤ 1 }
    ensures counted { OnTrue result ((x : ℕ) → slice_index seen.new x ≡ slice_index seen.old x + count_by (λ y. y == x) ranks.now) }
    ensures few { OnTrue result ((x : ℕ) → slice_index seen.new x ≤ 1) }
    ensures twice { OnFalse result ((x : ℕ) × (2 ≤ slice_index seen.old x + count_by (λ y. y == x) ranks.now)) }
{
    for rank in ranks {
        if seen[*rank as usize] != 0 {
            return false;
        }
        seen[*rank as usize] = 1;
    }
    true
}

/// Makes the number that has begun the last rank of the chain. `false` where none has begun behind a point.
fn last_number(reading: &mut Reading) -> bool
    requires { length reading.old.ranks.items < 96 }
    ensures ranks { OnTrue result (reading.new.ranks.items ≡ chain_of reading.old) }
    ensures may { OnTrue result (reading.old.number ≡ 0 → reading.old.ranks.items ≡ []) }
    ensures same { OnTrue result ((reading.new.seen ≡ reading.old.seen) × (reading.new.wanted ≡ reading.old.wanted)) }
    ensures few { length reading.new.ranks.items ≤ 96 }
    ensures refused { OnFalse result ((reading.old.number ≡ 0) × (reading.old.ranks.items ≡ [] → ⊥)) }
{
    if reading.number == 0 {
        return reading.ranks.is_empty();
    }
    let rank = reading.number;
    reading.ranks.push(rank);
    true
}

/// Counts what the chain of these ranks gains. `false` where they are no chain, or one of them was in a chain before.
fn count_chain(track: &Track, reading: &mut Reading) -> bool
    requires thin { IsSoundlyThin track.now.place }
    requires few { length reading.old.ranks.items ≤ 96 }
    requires seen { (x : ℕ) → slice_index reading.old.seen x ≤ 1 }
    ensures counted { OnTrue result (Counted track.now.place reading.old.ranks.items reading.old reading.new) }
    ensures refused { OnFalse result (CannotCount track.now.place reading.old.ranks.items reading.old) }
{
    if !mark(reading.ranks.as_slice(), &mut reading.seen) {
        return false;
    }
    let Some(gain) = chain_gain_of(track, reading.ranks.as_slice()) else {
        return false;
    };
    reading.wanted = reading.wanted.saturating_sub(gain);
    reading.ranks = ArrayVec::new();
    reading.number = 0;
    true
}

/// A chain has ended. `false` where it is none, or has a rank in common with one before.
fn end_chain(track: &Track, reading: &mut Reading) -> bool
    requires thin { IsSoundlyThin track.now.place }
    requires fair { IsFair reading.old }
    ensures done { OnTrue result (ChainDone track.now.place reading.old reading.new) }
    ensures refused { OnFalse result (CannotEnd track.now.place reading.old) }
{
    last_number(reading) && count_chain(track, reading)
}

/// Whether a symbol is a digit.
fn is_digit(symbol: u8) -> bool
    ensures { IsTrue result ↔ ((48 ≤ symbol) × (symbol ≤ 57)) }
{
    symbol >= 48 && symbol <= 57
}

/// Reads a digit of a family.
fn read_digit(track: &Track, reading: &mut Reading, symbol: u8) -> Reads
    requires fair { IsFair reading.old }
    requires digit { (48 ≤ symbol) × (symbol ≤ 57) }
    ensures goes_on { (tasks : List Task) (text : List ℕ) → EndsFamily track.now.place reading.old tasks (symbol ∷ text) ↔ GoesOn result track.now.place reading.new tasks text }
    ensures fair { StaysFair result reading.new }
{
    // Called for its clause: the ranks that stand are those of a bay.
    let _next = track.next();
    if digit(reading, symbol) {
        Reads::On
    } else {
        Reads::Wrong
    }
}

/// Reads a point of a family.
fn read_point(track: &Track, reading: &mut Reading) -> Reads
    requires { IsFair reading.old }
    ensures goes_on { (tasks : List Task) (text : List ℕ) → EndsFamily track.now.place reading.old tasks (46 ∷ text) ↔ GoesOn result track.now.place reading.new tasks text }
    ensures fair { StaysFair result reading.new }
{
    // Called for its clause: the ranks that stand are those of a bay.
    let _next = track.next();
    if point(reading) {
        Reads::On
    } else {
        Reads::Wrong
    }
}

/// Reads a comma of a family.
fn read_comma(track: &Track, reading: &mut Reading) -> Reads
    requires thin { IsSoundlyThin track.now.place }
    requires fair { IsFair reading.old }
    ensures goes_on { (tasks : List Task) (text : List ℕ) → EndsFamily track.now.place reading.old tasks (44 ∷ text) ↔ GoesOn result track.now.place reading.new tasks text }
    ensures fair { StaysFair result reading.new }
{
    // Called for its clause: the ranks that stand are those of a bay.
    let _next = track.next();
    if end_chain(track, reading) {
        Reads::On
    } else {
        Reads::Wrong
    }
}

/// Reads the end of a family.
fn read_end(track: &Track, reading: &mut Reading) -> Reads
    requires thin { IsSoundlyThin track.now.place }
    requires fair { IsFair reading.old }
    ensures goes_on { (tasks : List Task) (text : List ℕ) → EndsFamily track.now.place reading.old tasks (59 ∷ text) ↔ GoesOn result track.now.place reading.new tasks text }
    ensures fair { StaysFair result reading.new }
{
    // Called for its clause: the ranks that stand are those of a bay.
    let _next = track.next();
    if end_chain(track, reading) && reading.wanted == 0 {
        Reads::Ended
    } else {
        Reads::Wrong
    }
}

/// Reads one symbol of a family.
pub fn read_symbol(track: &Track, reading: &mut Reading, symbol: u8) -> Reads
    requires thin { IsSoundlyThin track.now.place }
    requires fair { IsFair reading.old }
    ensures goes_on { (tasks : List Task) (text : List ℕ) → EndsFamily track.now.place reading.old tasks (symbol ∷ text) ↔ GoesOn result track.now.place reading.new tasks text }
    ensures fair { StaysFair result reading.new }
{
    // Called for its clause: the ranks that stand are those of a bay.
    let _next = track.next();
    if is_digit(symbol) {
        return read_digit(track, reading, symbol);
    }
    if symbol == b'.' {
        return read_point(track, reading);
    }
    if symbol == b',' {
        return read_comma(track, reading);
    }
    if symbol == b';' {
        return read_end(track, reading);
    }
    Reads::Wrong
}
