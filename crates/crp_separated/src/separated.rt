//! A source of a list, seen as the list with another byte between its fields.
ghost use Rattle.std.specs.Prelude.{◌≡◌, ◌≤◌, ◌⊎◌, ℕ, [], OnOk, min, drop, length, take, option_map};
ghost use Rattle.std.specs.Io.KnownBytes.{IsAtEnd, Keeps};
ghost use Rattle.arrayvec.specs.ArrayVec.{array_vec_len};
ghost use Rattle.crp_separated.specs.Separators.{translated};
ghost use Rattle.crp_separated.specs.Given.{CountsStep, InterruptsStep, seen};
ghost use Rattle.crp_separated.specs.declared.places.Place.TheVariants as place;

use crate::places::Place;
use crate::translating::{READY, Separators, push_translated};
use arrayvec::ArrayVec;
use crp_plan::{Failure, Source};

// The most bytes that are taken at once.
const PIECE: usize = 2048;

/// A source that gives a list with another byte between its fields than the source has that it is made of, and the same records.
#[derive(Drop)]
pub struct Separated<R> {
    /// The other source.
    pub source: R,
    separators: Separators,
    place: Place,
    ready: ArrayVec<u8, READY>,
    // How many of the bytes that are ready are given.
    given: usize,
    ghost within: { given ≤ array_vec_len ready },
}

// Puts a front of the bytes at the front of `buf`, as much as there is room for, and says how many.
fn give(bytes: &[u8], buf: &mut [u8]) -> usize
    ensures many { result ≡ min (length buf.new) (length bytes.now) }
    ensures same { length buf.new ≡ length buf.old }
    ensures front { take result buf.new ≡ take result bytes.now }
{
    let n = buf.len().min(bytes.len());
    buf[..n].copy_from_slice(&bytes[..n]);
    n
}

impl<R: Source> Separated<R> {
    /// The source, from its first byte on.
    pub fn new(source: R, separators: Separators) -> Separated<R>
        ensures source { result.source ≡ source }
        ensures bytes { ⟦<Separated<R> as Source>⟧.remaining result ≡ option_map (translated separators.from separators.to place.FieldStart) (R.remaining source) }
        ensures count { ⟦<Separated<R> as Source>⟧.failures result ≡ R.failures source }
        ensures interrupted { ⟦<Separated<R> as Source>⟧.interrupted result ≡ R.interrupted source }
    {
        Separated {
            source,
            separators,
            place: Place::FieldStart,
            ready: ArrayVec::new(),
            given: 0,
        }
    }

    // Makes bytes ready in place of those that were, which are all given.
    fn refill(&mut self) -> Result<(), Failure>
        requires all_given { self.old.given ≡ array_vec_len self.old.ready }
        ensures keeps { Keeps (seen self.old.separators.from self.old.separators.to self.old.place (drop self.old.given self.old.ready.items) (R.remaining self.old.source))
            (seen self.new.separators.from self.new.separators.to self.new.place (drop self.new.given self.new.ready.items) (R.remaining self.new.source)) }
        ensures count { CountsStep (R.failures self.old.source) (R.failures self.new.source) result }
        ensures interrupted { InterruptsStep (R.interrupted self.old.source) (R.interrupted self.new.source) result }
        ensures none { OnOk result (self.new.ready.items ≡ []
            → IsAtEnd (R.remaining self.new.source) ⊎ ((self.old.place ≡ place.Quoted) × (self.new.place ≡ place.QuoteEnd))) }
        ensures fresh { OnOk result (self.new.given ≡ 0) }
    {
        let mut piece = [0u8; PIECE];
        let n = self.source.read(&mut piece)?;
        self.given = 0;
        self.ready.clear();
        self.place = push_translated(self.separators, self.place, &piece[..n], &mut self.ready);
        Ok(())
    }

    // Makes bytes ready, unless none are left. A quote between quotes alone makes none ready; the byte behind it does.
    fn fill(&mut self) -> Result<(), Failure>
        requires all_given { self.old.given ≡ array_vec_len self.old.ready }
        ensures keeps { Keeps (seen self.old.separators.from self.old.separators.to self.old.place (drop self.old.given self.old.ready.items) (R.remaining self.old.source))
            (seen self.new.separators.from self.new.separators.to self.new.place (drop self.new.given self.new.ready.items) (R.remaining self.new.source)) }
        ensures count { CountsStep (R.failures self.old.source) (R.failures self.new.source) result }
        ensures interrupted { InterruptsStep (R.interrupted self.old.source) (R.interrupted self.new.source) result }
        ensures none { OnOk result (self.new.ready.items ≡ [] → IsAtEnd (R.remaining self.new.source)) }
        ensures fresh { OnOk result (self.new.given ≡ 0) }
    {
        self.refill()?;
        if self.ready.is_empty() && self.place == Place::QuoteEnd {
            self.refill()?;
        }
        Ok(())
    }
}

impl<R: Source> Source for Separated<R> {
    ghost remaining = { λ s. seen s.separators.from s.separators.to s.place (drop s.given s.ready.items) (R.remaining s.source) };

    ghost failures = { λ s. R.failures s.source };

    ghost interrupted = { λ s. R.interrupted s.source };

    fn read(&mut self, buf: &mut [u8]) -> Result<usize, Failure> {
        if buf.is_empty() {
            return Ok(0);
        }
        if self.given == self.ready.len() {
            self.fill()?;
        }
        let n = give(&self.ready.as_slice()[self.given..], buf);
        self.given += n;
        Ok(n)
    }
}
