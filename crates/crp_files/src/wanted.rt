//! A file that is written where one is asked for.
ghost use Rattle.std.specs.Prelude.{◌≡◌, ◌+◌, [], Some, None, IsTrue, IsSome, IfOk, IfErr, IfSome, OnOk, MatchOption, MatchResult, option_map};
ghost use Rattle.crp_plan.specs.Devices.{CountsMore, CountsOne};
ghost use Rattle.crp_files.specs.Known.{IsChangedIn, IsPreparedIn};

use crate::files::{Files, NotFinished, NotOpened};
use crp_plan::{Failure, Sink};
use std::marker::{Brand, Model, PhantomData};

/// Makes an empty file of this name where one is asked for and nothing is there. What is there stays as it is.
pub fn prepare_wanted<F: Files>(files: &mut F, name: Option<&str>)
    ensures prepared { IsPreparedIn (option_map (λ name. name.now) name.entry) (F.known files.old) (F.known files.new) }
    ensures count { F.failures files.new ≡ F.failures files.old }
{
    if let Some(name) = name {
        files.prepare(name);
    }
}

/// The name of a file that is written, if one is. Who opens it picks that, by the type `Brand`.
pub trait Named {
    ghost use Rattle.std.specs.Prelude.{ℕ, List, Option};

    ghost name: { Option (List ℕ) };
}

impl Named for Brand {
    ghost use Rattle.std.specs.Prelude.{None};

    ghost name = { None };
}

/// A file that is written where one is asked for. Where none is, what it is given goes nowhere, no bytes are stated, and no call fails.
#[derive(Drop)]
pub struct Wanted<F: Files, N: Named> {
    file: Option<F::Output>,
    name: PhantomData<N>,
}

impl<F: Files, N: Named> Model for Wanted<F, N> {
    ghost use Rattle.std.specs.Prelude.{◌≡◌, is_some};
    ghost use Rattle.crp_files.specs.Held.{Held, held_of};

    ghost Value = { Held };

    ghost view = { λ w. held_of F.Output.contents F.Output.failures F.Output.interrupted w.file };

    ghost invariant = { λ w. is_some w.file ≡ is_some N.name };
}

impl<F: Files, N: Named> Sink for Wanted<F, N> {
    ghost contents = { λ w. w.contents };

    ghost failures = { λ w. w.failures };

    ghost interrupted = { λ w. w.interrupted };

    fn write(&mut self, piece: &[u8]) -> Result<usize, Failure> {
        match &mut self.file {
            Some(file) => file.write(piece),
            None => Ok(piece.len()),
        }
    }
}

impl<F: Files, N: Named> Wanted<F, N> {
    /// Makes the file of this name, or empties the one that is there; where no name is given, there is nothing to make.
    pub fn create(files: &mut F, name: Option<&str>) -> Result<Wanted<F, N>, NotOpened>
        requires named { option_map (λ name. name.now) name ≡ N.name }
        ensures new { IfOk result (λ file. file.failures ≡ 0) }
        ensures empty { IfOk result (λ file. IsSome N.name → IsTrue (F.known files.old).states → file.contents ≡ Some []) }
        ensures refused { IfErr result (λ _. MatchOption N.name ⊥ (λ name. IsTrue ((F.known files.old).may_not_create name))) }
        ensures changed { IsChangedIn N.name (F.known files.old) (F.known files.new) }
        ensures count { MatchResult result (λ _. F.failures files.new ≡ F.failures files.old) (λ _. CountsOne (F.failures files.old) (F.failures files.new)) }
    {
        let file = match name {
            Some(name) => Some(files.create(name)?),
            None => None,
        };
        Ok(Wanted {
            file,
            name: PhantomData,
        })
    }

    /// Closes the file of this name, if one was made. Then what it was given stands there, unless it says that this is not known.
    pub fn finish(self, files: &mut F, name: Option<&str>) -> Result<(), NotFinished>
        requires named { option_map (λ name. name.now) name ≡ N.name }
        ensures left { OnOk result (IfSome N.name (λ name. IsTrue (F.known files.old).states → (F.known files.new).given name ≡ self.contents)) }
        ensures unwanted { MatchOption N.name (self.failures ≡ 0) (λ _. Unit {0}) }
        ensures changed { IsChangedIn N.name (F.known files.old) (F.known files.new) }
        ensures count { MatchResult result (λ _. CountsMore self.failures (F.failures files.old) (F.failures files.new))
            (λ _. IsSome N.name × CountsMore (self.failures + 1) (F.failures files.old) (F.failures files.new)) }
    {
        match (name, self.file) {
            (Some(name), Some(file)) => files.finish(name, file),
            _ => Ok(()),
        }
    }
}
