//! A checker of files of certificates that is fed in pieces.
ghost use Rattle.std.specs.Prelude.{◌≡◌, ◌≢◌, ◌⊎◌, ◌+◌, ◌++◌, [], true, false, List, ℕ, Some, Err, IfOk, IfErr, length};
ghost use Rattle.crp_plan.specs.BayNames.{YardBay};
ghost use Rattle.crp_checker.specs.declared.verdict.Verdict.{Verdict as Shown};
ghost use Rattle.crp_checker.specs.declared.refused.Refused.{Refused as Reason};
ghost use Rattle.crp_checker.specs.Files.{IsFileRefusal};
ghost use Rattle.crp_checker.specs.FedFiles.{HasReadFile, HasRefused, IsBegunBehind, LeadsOn, ShowsLast};

use crate::checker::Checker;
use crate::refused::Refused;
use crate::verdict::Verdict;
use crate::watch::{Watch, cut};
use crp_plan::BayName;
use std::alloc::Global;
use std::mem;

/// A checker of a file of certificates, which is fed in pieces, however they are cut. Of the certificates
/// that have ended it keeps nothing.
#[derive(Drop)]
pub struct FileChecker {
    alloc: Global,
    /// The checker of the certificate that has not ended.
    checker: Checker,
    /// The line of it that it stands in.
    watch: Watch,
    /// Whether a byte of it came.
    has_begun: bool,
    /// Why a certificate was refused, if one was.
    refused: Option<Refused>,
}

/// What a piece of a file leads to.
#[derive(Drop)]
pub enum Fed {
    /// No certificate has ended: all of the piece was read.
    Open,
    /// A certificate has ended, which is accepted.
    Ended {
        /// How many bytes of the piece were read.
        taken: usize,
        /// Whose the certificate is.
        bay: BayName,
        /// What it shows.
        verdict: Verdict,
    },
}

/// Whether bytes have come, where these come more.
fn has_bytes(before: bool, piece: &[u8]) -> bool
    ensures none { result ≡ false → (before ≡ false) × (piece.now ≡ []) }
    ensures some { result ≡ true → (before ≡ true) ⊎ (piece.now ≢ []) }
{
    before || !piece.is_empty()
}

impl FileChecker {
    /// A checker that was fed nothing.
    pub fn new(alloc: Global) -> FileChecker
        ensures { HasReadFile [] [] result }
    {
        FileChecker {
            alloc,
            checker: Checker::new(alloc, None),
            watch: Watch::Begun,
            has_begun: false,
            refused: None,
        }
    }

    /// Whether bytes have come of a certificate that has not ended.
    pub fn has_begun(&self) -> bool
        ensures { (file : List ℕ) (verdicts : List (YardBay × Shown)) → HasReadFile file verdicts self.now → IsBegunBehind file verdicts result }
    {
        let FileChecker { has_begun, .. } = self;
        *has_begun
    }

    /// Notes why a certificate is refused, and says it.
    fn stop(&mut self, refused: Refused) -> Refused
        ensures same { result ≡ refused }
        ensures noted { HasRefused refused self.new }
    {
        self.refused = Some(refused.again(self.alloc));
        refused
    }

    /// Reads a piece, where no certificate was refused.
    fn read(&mut self, piece: &[u8]) -> Result<Fed, Refused>
        ensures on { IfOk result (λ fed. (file : List ℕ) (verdicts : List (YardBay × Shown)) → HasReadFile file verdicts self.old
            → LeadsOn file piece.now verdicts self.new fed) }
        ensures refused { IfErr result (λ refused. (refused ≡ Refused.Memory)
            ⊎ ((file : List ℕ) (verdicts : List (YardBay × Shown)) (more : List ℕ) → HasReadFile file verdicts self.old
            → IsFileRefusal (file ++ (piece.now ++ more)) verdicts (length verdicts + 1) refused)) }
    {
        let Some(taken) = cut(&mut self.watch, piece) else {
            self.checker.feed(piece)?;
            self.has_begun = has_bytes(self.has_begun, piece);
            return Ok(Fed::Open);
        };
        self.checker.feed(&piece[..taken])?;
        self.has_begun = false;
        let checker = mem::replace(&mut self.checker, Checker::new(self.alloc, None));
        let (bay, verdict) = checker.finish_for()?;
        Ok(Fed::Ended {
            taken,
            bay,
            verdict,
        })
    }

    /// Reads a piece, down to the end of a certificate, if one ends there. The error says why that one
    /// is refused; from then on every call says so, or that no memory is left.
    pub fn feed(&mut self, piece: &[u8]) -> Result<Fed, Refused>
        ensures on { IfOk result (λ fed. (file : List ℕ) (verdicts : List (YardBay × Shown)) → HasReadFile file verdicts self.old
            → LeadsOn file piece.now verdicts self.new fed) }
        ensures refused { IfErr result (λ refused. (refused ≡ Refused.Memory)
            ⊎ ((file : List ℕ) (verdicts : List (YardBay × Shown)) (more : List ℕ) → HasReadFile file verdicts self.old
            → IsFileRefusal (file ++ (piece.now ++ more)) verdicts (length verdicts + 1) refused)) }
        ensures stops { IfErr result (λ refused. HasRefused refused self.new) }
        ensures stays { (refused : Reason) → HasRefused refused self.old → (result ≡ Err refused) ⊎ (result ≡ Err Refused.Memory) }
    {
        if let Some(refused) = mem::replace(&mut self.refused, None) {
            return Err(self.stop(refused));
        }
        match self.read(piece) {
            Ok(fed) => Ok(fed),
            Err(refused) => Err(self.stop(refused)),
        }
    }

    /// What the last certificate shows, which does not end with its last line but with the file: `None` where
    /// nothing stands after the others. The error says why it is refused.
    pub fn finish(self) -> Result<Option<(BayName, Verdict)>, Refused>
        ensures last { IfOk result (λ last. (file : List ℕ) (verdicts : List (YardBay × Shown)) → HasReadFile file verdicts self
            → ShowsLast file verdicts last) }
        ensures refused { IfErr result (λ refused. (file : List ℕ) (verdicts : List (YardBay × Shown)) → HasReadFile file verdicts self
            → IsFileRefusal file verdicts (length verdicts + 1) refused) }
        ensures stays { (refused : Reason) → HasRefused refused self → (result ≡ Err refused) ⊎ (result ≡ Err Refused.Memory) }
    {
        let FileChecker {
            alloc: _,
            checker,
            watch: _,
            has_begun,
            refused,
        } = self;
        if let Some(refused) = refused {
            return Err(refused);
        }
        if !has_begun {
            return Ok(None);
        }
        let last = checker.finish_for()?;
        Ok(Some(last))
    }
}
