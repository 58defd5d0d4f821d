//! The check of a file of certificates.
ghost use Rattle.std.specs.Prelude.{◌≡◌, ◌≢◌, ◌≤◌, ◌+◌, ◌∷◌, ◌++◌, [], List, ℕ, IfOk, IfErr, length, take};
ghost use Rattle.crp_checker.specs.Files.{FileShows, IsFileRefusal};
ghost use Rattle.crp_checker.specs.FedFiles.{HasReadFile};

use crate::file_checker::{Fed, FileChecker};
use crate::refused::Refused;
use crate::verdict::Verdict;
use crate::verdicts::{FileRefused, Verdicts};
use crp_plan::BayName;
use std::alloc::Global;

/// Reads on in a file, and adds what the certificate shows that ends there, if one does. How many bytes were read.
fn check_some(
    files: &mut FileChecker,
    rest: &[u8],
    verdicts: &mut Vec<(BayName, Verdict)>,
) -> Result<usize, Refused>
    requires reading { (file : List ℕ) × HasReadFile file verdicts.old.items files.old }
    requires some { 1 ≤ length rest.now }
    ensures some { IfOk result (λ n. 1 ≤ n) }
    ensures within { IfOk result (λ n. n ≤ length rest.now) }
    ensures on { IfOk result (λ n. (file : List ℕ) → HasReadFile file verdicts.old.items files.old
        → HasReadFile (file ++ take n rest.now) verdicts.new.items files.new) }
    ensures refused { IfErr result (λ refused. (file : List ℕ) → HasReadFile file verdicts.old.items files.old
        → IsFileRefusal (file ++ rest.now) verdicts.new.items (length verdicts.new.items + 1) refused) }
{
    match files.feed(rest)? {
        Fed::Open => Ok(rest.len()),
        Fed::Ended {
            taken,
            bay,
            verdict,
        } => match verdicts.push((bay, verdict)) {
            Ok(()) => Ok(taken),
            Err(_) => Err(Refused::Memory),
        },
    }
}

/// That the certificate behind those that show this is refused.
fn refused_behind(verdicts: Vec<(BayName, Verdict)>, refused: Refused) -> FileRefused
    ensures before { result.before ≡ verdicts.items }
    ensures number { result.number ≡ length verdicts.items + 1 }
    ensures refused { result.refused ≡ refused }
{
    let number = verdicts.len() as u64 + 1;
    FileRefused {
        before: Verdicts::of(verdicts),
        number,
        refused,
    }
}

/// What the certificates of a file show that has been read: those that have ended, and the last one, if there is one more.
fn finish(files: FileChecker, verdicts: Vec<(BayName, Verdict)>) -> Result<Verdicts, FileRefused>
    ensures shown { IfOk result (λ shown. (file : List ℕ) → HasReadFile file verdicts.items files → FileShows file shown) }
    ensures refused { IfErr result (λ refusal. (file : List ℕ) → HasReadFile file verdicts.items files
        → IsFileRefusal file refusal.before refusal.number refusal.refused) }
{
    match files.finish() {
        Ok(None) => Ok(Verdicts::of(verdicts)),
        Ok(Some(last)) => {
            let mut verdicts = verdicts;
            match verdicts.push(last) {
                Ok(()) => Ok(Verdicts::of(verdicts)),
                Err(_) => Err(refused_behind(verdicts, Refused::Memory)),
            }
        }
        Err(refused) => Err(refused_behind(verdicts, refused)),
    }
}

/// What each certificate of a file shows, in order. A certificate ends with its first line that
/// begins with `end `; bytes after the last such line are one more certificate, and no bytes are
/// none. Else the first certificate that is refused, and what those before it show.
pub fn check_file(alloc: Global, bytes: &[u8]) -> Result<Verdicts, FileRefused>
    ensures shown { IfOk result (FileShows bytes.now) }
    ensures refused { IfErr result (λ refusal.
        IsFileRefusal bytes.now refusal.before refusal.number refusal.refused) }
{
    let mut files = FileChecker::new(alloc);
    let mut verdicts = Vec::new(alloc);
    let mut rest = bytes;
    while !rest.is_empty() {
        match check_some(&mut files, rest, &mut verdicts) {
            Ok(taken) => rest = &rest[taken..],
            Err(refused) => return Err(refused_behind(verdicts, refused)),
        }
    }
    finish(files, verdicts)
}
