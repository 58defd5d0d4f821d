//! A source without the byte order mark at its front.
ghost use Rattle.std.specs.Prelude.{◌≡◌, ◌<◌, ◌+◌, ◌⊎◌, ◌++◌, ℕ, List, true, false, OnOk, get_or, length, option_map};
ghost use Rattle.std.specs.Io.KnownBytes.{Keeps};
ghost use Rattle.csv.specs.Reading.{is_bom, strip_bom};
ghost use Rattle.arrayvec.specs.ArrayVec.{array_vec_len};
ghost use Rattle.crp_separated.specs.Given.{CountsStep, InterruptsStep, unmarked};

use arrayvec::ArrayVec;
use crp_plan::{Failure, Source};

/// A source that gives what another one gives, without a byte order mark at its front.
#[derive(Drop)]
pub struct Unmarked<R> {
    /// The other source.
    pub source: R,
    // The first bytes, as far as they are not given yet.
    front: ArrayVec<u8, 3>,
    // Whether the front was looked at.
    looked: bool,
    ghost few: { looked ≡ false → array_vec_len front < 3 },
}

// Whether the bytes are a byte order mark.
fn is_mark(bytes: &[u8]) -> bool
    requires { length bytes.now ≡ 3 }
    ensures { result ≡ is_bom (get_or bytes.now 0 0) (get_or bytes.now 1 0) (get_or bytes.now 2 0) }
{
    bytes[0] == 0xef && bytes[1] == 0xbb && bytes[2] == 0xbf
}

// Empties a front that is a byte order mark.
fn pass_over_mark(front: &mut ArrayVec<u8, 3>)
    requires { array_vec_len front.old ≡ 3 }
    ensures { (rest : List ℕ) → strip_bom (front.old.items ++ rest) ≡ front.new.items ++ rest }
{
    if is_mark(front.as_slice()) {
        front.clear();
    }
}

impl<R: Source> Unmarked<R> {
    /// The source, none of whose bytes was looked at.
    pub fn new(source: R) -> Unmarked<R>
        ensures source { result.source ≡ source }
        ensures bytes { ⟦<Unmarked<R> as Source>⟧.remaining result ≡ option_map strip_bom (R.remaining source) }
        ensures count { ⟦<Unmarked<R> as Source>⟧.failures result ≡ R.failures source }
        ensures interrupted { ⟦<Unmarked<R> as Source>⟧.interrupted result ≡ R.interrupted source }
    {
        Unmarked {
            source,
            front: ArrayVec::new(),
            looked: false,
        }
    }

    // Takes one byte more to the front, and looks at it where it is whole or the source has no more.
    fn look(&mut self) -> Result<(), Failure>
        requires not_yet { self.old.looked ≡ false }
        ensures keeps { Keeps (unmarked self.old.looked self.old.front.items (R.remaining self.old.source)) (unmarked self.new.looked self.new.front.items (R.remaining self.new.source)) }
        ensures count { CountsStep (R.failures self.old.source) (R.failures self.new.source) result }
        ensures interrupted { InterruptsStep (R.interrupted self.old.source) (R.interrupted self.new.source) result }
        ensures nearer { OnOk result ((self.new.looked ≡ true) ⊎ (array_vec_len self.new.front ≡ array_vec_len self.old.front + 1)) }
    {
        let mut piece = [0u8; 1];
        let n = self.source.read(&mut piece)?;
        if n == 0 {
            self.looked = true;
            return Ok(());
        }
        self.front.push(piece[0]);
        if self.front.len() == 3 {
            pass_over_mark(&mut self.front);
            self.looked = true;
        }
        Ok(())
    }

    // Looks at the whole front.
    fn look_at_front(&mut self) -> Result<(), Failure>
        ensures keeps { Keeps (unmarked self.old.looked self.old.front.items (R.remaining self.old.source)) (unmarked self.new.looked self.new.front.items (R.remaining self.new.source)) }
        ensures count { CountsStep (R.failures self.old.source) (R.failures self.new.source) result }
        ensures interrupted { InterruptsStep (R.interrupted self.old.source) (R.interrupted self.new.source) result }
        ensures looked { OnOk result (self.new.looked ≡ true) }
    {
        while !self.looked {
            self.look()?;
        }
        Ok(())
    }
}

impl<R: Source> Source for Unmarked<R> {
    ghost remaining = { λ u. unmarked u.looked u.front.items (R.remaining u.source) };

    ghost failures = { λ u. R.failures u.source };

    ghost interrupted = { λ u. R.interrupted u.source };

    fn read(&mut self, buf: &mut [u8]) -> Result<usize, Failure> {
        if buf.is_empty() {
            return Ok(0);
        }
        self.look_at_front()?;
        if !self.front.is_empty() {
            buf[0] = self.front.remove(0);
            return Ok(1);
        }
        self.source.read(buf)
    }
}
