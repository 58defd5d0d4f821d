//! A file of certificates that is read from a source in pieces, one certificate after the other.
ghost use Rattle.std.specs.Prelude.{◌≡◌, ◌↔◌, ◌≤◌, ◌<◌, [], true, false, ℕ, List, Option, IfSome, IfOk, IfErr, OnOk, IsErrOf, length};
ghost use Rattle.crp_plan.specs.Bay.{Problem};
ghost use Rattle.crp_plan.specs.Devices.{Transfers, failures_of_read, most_interruptions};
ghost use Rattle.crp_checker.specs.Fed.{HasRead};
ghost use Rattle.crp_checker.specs.Reading.{HasMore, IsSpent, IsLeft, AreTaken, IsTaken, IsTooLong, AreFed};

use crate::checker::Checker;
use crate::watch::{Watch, cut};
use crp_plan::{ReadFault, Source, read_some};
use std::alloc::{AllocError, Global};

/// How many bytes are read at a time, at most.
const PIECE: usize = 16_384;

/// What was read of a file of certificates, and not taken yet.
#[derive(Drop)]
pub struct Unread {
    /// The piece that was read last.
    piece: Vec<u8>,
    /// How many bytes of it were taken.
    taken: usize,
    /// How many bytes more may be taken.
    room: usize,
    /// Whether the source has said that no more comes.
    ended: bool,
}

impl Unread {
    /// Nothing yet, of a file of which no more than `limit` bytes are taken.
    pub fn new(alloc: Global, limit: usize) -> Unread
        ensures left { (known : Option (List ℕ)) (left : List ℕ) → IsLeft known result left ↔ IfSome known (λ xs. left ≡ xs) }
        ensures room { result.room ≡ limit }
    {
        Unread {
            piece: Vec::new(alloc),
            taken: 0,
            room: limit,
            ended: false,
        }
    }

    // Reads the next piece, where all of the last one was taken. Room is made before: what was read is never lost.
    fn refill<R: Source>(
        &mut self,
        source: &mut R,
        interruptions: &mut u32,
    ) -> Result<(), ReadFault>
        requires none { length self.old.piece.items ≤ self.old.taken }
        requires going { self.old.ended ≡ false }
        requires passed { interruptions.old ≤ most_interruptions }
        ensures same { AreTaken (R.remaining source.old) self.old [] (R.remaining source.new) self.new }
        ensures more { OnOk result (self.new.ended ≡ false → self.new.taken < length self.new.piece.items) }
        ensures end { OnOk result (self.new.ended ≡ true → IsSpent self.new) }
        ensures small { IsErrOf result ReadFault.TooLarge → ⊥ }
        ensures done { OnOk result (Transfers 0 interruptions.old interruptions.new (R.failures source.old) (R.failures source.new) (R.interrupted source.old) (R.interrupted source.new)) }
        ensures stopped { IfErr result (λ fault. Transfers (failures_of_read fault) interruptions.old interruptions.new (R.failures source.old) (R.failures source.new) (R.interrupted source.old) (R.interrupted source.new)) }
    {
        self.taken = 0;
        self.piece.clear();
        let Ok(()) = self.piece.reserve(PIECE) else {
            return Err(ReadFault::Memory);
        };
        let mut piece = [0u8; PIECE];
        let Ok(n) = read_some(source, &mut piece, interruptions) else {
            return Err(ReadFault::Failed);
        };
        let Ok(()) = self.piece.extend_from_slice(&piece[..n]) else {
            unreachable!()
        };
        self.ended = n == 0;
        Ok(())
    }

    // That a byte is there; or that it may not be taken.
    fn more(&self) -> Result<bool, ReadFault>
        ensures some { IfOk result (λ more. (more ≡ true) × (0 < self.now.room)) }
        ensures none { IfErr result (λ fault. (fault ≡ ReadFault.TooLarge) × (self.now.room ≡ 0)) }
    {
        if self.room == 0 {
            return Err(ReadFault::TooLarge);
        }
        Ok(true)
    }

    /// Whether a byte of the file is left that was not taken. Reads a piece, where that has to be found out. More than the limit is
    /// reported where all bytes within it were taken, so that it does not depend on how the reads are cut. Nothing is lost, whatever
    /// the answer is.
    pub fn fill<R: Source>(
        &mut self,
        source: &mut R,
        interruptions: &mut u32,
    ) -> Result<bool, ReadFault>
        requires some { (left : List ℕ) × IsLeft (R.remaining source.old) self.old left }
        requires passed { interruptions.old ≤ most_interruptions }
        ensures same { AreTaken (R.remaining source.old) self.old [] (R.remaining source.new) self.new }
        ensures more { IfOk result (λ more. more ≡ true → HasMore self.new) }
        ensures end { IfOk result (λ more. more ≡ false → IsSpent self.new × (HasMore self.old → ⊥)) }
        ensures large { IsErrOf result ReadFault.TooLarge → IsTooLong (R.remaining source.old) self.old }
        ensures done { OnOk result (Transfers 0 interruptions.old interruptions.new (R.failures source.old) (R.failures source.new) (R.interrupted source.old) (R.interrupted source.new)) }
        ensures stopped { IfErr result (λ fault. Transfers (failures_of_read fault) interruptions.old interruptions.new (R.failures source.old) (R.failures source.new) (R.interrupted source.old) (R.interrupted source.new)) }
    {
        if self.taken < self.piece.len() {
            return self.more();
        }
        if self.ended {
            return Ok(false);
        }
        self.refill(source, interruptions)?;
        if self.ended {
            return Ok(false);
        }
        self.more()
    }

    // Takes of the bytes that were read those of a certificate, and feeds them. The answer says whether it goes on behind them.
    fn feed(&mut self, checker: &mut Checker, watch: &mut Watch) -> Result<bool, AllocError>
        requires some { HasMore self.old }
        ensures fed { IfOk result (λ more. (text : List ℕ)
            × ((known : Option (List ℕ)) (left : List ℕ) → IsLeft known self.old left → AreTaken known self.old text known self.new)
            × AreFed self.old text self.new checker.old checker.new watch.old watch.new more) }
    {
        let most = self.room.min(self.piece.len() - self.taken);
        let rest = &self.piece[self.taken..self.taken + most];
        match cut(watch, rest) {
            Some(n) => {
                checker.feed(&rest[..n])?;
                self.taken += n;
                self.room -= n;
                Ok(false)
            }
            None => {
                checker.feed(rest)?;
                self.taken += most;
                self.room -= most;
                Ok(true)
            }
        }
    }
}

// Takes some bytes of a certificate, and feeds them. The answer says whether it goes on behind them.
fn feed_some<R: Source>(
    checker: &mut Checker,
    watch: &mut Watch,
    source: &mut R,
    unread: &mut Unread,
    interruptions: &mut u32,
) -> Result<bool, ReadFault>
    requires some { (left : List ℕ) × IsLeft (R.remaining source.old) unread.old left }
    requires passed { interruptions.old ≤ most_interruptions }
    ensures fed { IfOk result (λ more. (text : List ℕ) × AreTaken (R.remaining source.old) unread.old text (R.remaining source.new) unread.new
        × AreFed unread.old text unread.new checker.old checker.new watch.old watch.new more) }
    ensures large { IsErrOf result ReadFault.TooLarge → IsTooLong (R.remaining source.old) unread.old }
    ensures done { OnOk result (Transfers 0 interruptions.old interruptions.new (R.failures source.old) (R.failures source.new) (R.interrupted source.old) (R.interrupted source.new)) }
    ensures stopped { IfErr result (λ fault. Transfers (failures_of_read fault) interruptions.old interruptions.new (R.failures source.old) (R.failures source.new) (R.interrupted source.old) (R.interrupted source.new)) }
{
    if !unread.fill(source, interruptions)? {
        return Ok(false);
    }
    match unread.feed(checker, watch) {
        Ok(more) => Ok(more),
        Err(_) => Err(ReadFault::Memory),
    }
}

/// Feeds the next certificate of a file to a checker, down to the end of its first line that begins with `end `, or of the file.
/// Where that fails the rest of the certificate is lost with what was read; so neither the checker nor the file is given back.
#[tactic(auto, using(crp_plan::proofs::Interruptions::transfers_on, crp_plan::proofs::Interruptions::no_transfer))]
pub fn feed_next<R: Source>(
    checker: Checker,
    source: &mut R,
    unread: Unread,
    interruptions: &mut u32,
) -> Result<(Checker, Unread), ReadFault>
    requires some { (left : List ℕ) × IsLeft (R.remaining source.old) unread left }
    requires more { HasMore unread }
    requires passed { interruptions.old ≤ most_interruptions }
    ensures fed { IfOk result (λ next. (text : List ℕ) × IsTaken (R.remaining source.old) unread text (R.remaining source.new) next.1
        × ((wanted : Option Problem) → HasRead wanted [] checker → HasRead wanted text next.0)) }
    ensures large { IsErrOf result ReadFault.TooLarge → IsTooLong (R.remaining source.old) unread }
    ensures done { OnOk result (Transfers 0 interruptions.old interruptions.new (R.failures source.old) (R.failures source.new) (R.interrupted source.old) (R.interrupted source.new)) }
    ensures stopped { IfErr result (λ fault. Transfers (failures_of_read fault) interruptions.old interruptions.new (R.failures source.old) (R.failures source.new) (R.interrupted source.old) (R.interrupted source.new)) }
{
    let mut checker = checker;
    let mut unread = unread;
    let mut watch = Watch::Begun;
    while feed_some(&mut checker, &mut watch, source, &mut unread, interruptions)? {}
    Ok((checker, unread))
}
