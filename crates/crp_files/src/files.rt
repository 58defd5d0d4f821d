//! How files are opened by their names and given back.
ghost use Rattle.std.specs.Prelude.{◌≡◌, ◌≤◌, ◌+◌, ℕ, [], Some, IsTrue, IfOk, IfErr, IfSome, OnOk, MatchResult, vec_len};
ghost use Rattle.crp_plan.specs.Devices.{CountsMore, CountsOne};
ghost use Rattle.crp_files.specs.Known.{KnownFiles, IsChangedAt, IsPreparedAt, IsFront, nothing_known};

use crp_plan::{Sink, Source};
use std::alloc::Global;

/// A file that cannot be opened.
#[derive(Clone, Copy, Debug, PartialEq, Eq)]
pub struct NotOpened;

/// A file that was written, and of which it is not known whether all of it stands there.
#[derive(Clone, Copy, Debug, PartialEq, Eq)]
pub struct NotFinished;

/// Opens files by their names, and counts what has failed of them.
pub trait Files {
    /// A file that is read.
    type Input: Source + Drop;

    /// A file that is written.
    type Output: Sink + Drop;

    // What is known of each file by its name.
    ghost known: { Self → KnownFiles } = { λ _. nothing_known };

    // How many files could not be opened or finished, and how many calls of those that were closed have failed, up to the largest u64.
    ghost failures: { Self → ℕ };

    /// Whether two names lead to one plain file that is there, by a link of whatever kind or as what stands behind a standard stream, as far
    /// as that can be seen without opening it. A pipe, a terminal and other devices have no bytes to lose, and are no other.
    fn is_one_file(&self, name: &str, other: &str) -> bool
        ensures { IfSome ((known self.now).are_one name.now other.now) (λ one. result ≡ one) };

    /// What a file begins with, at most so many bytes, to say what it looks like or what stands at a place; nothing where it is no plain
    /// file, which alone can be read a second time, where it cannot be read, or where memory is refused. It counts no failure.
    fn begins(&self, alloc: Global, name: &str, most: usize) -> Option<Vec<u8>>
        ensures front { IfSome result (λ front. IsFront ((known self.now).given name.now) front.items) }
        ensures few { IfSome result (λ front. vec_len front ≤ most) };

    /// How many bytes a plain file has, as far as that is known: to show how much of it is read. Nothing rests on it.
    fn size(&self, name: &str) -> Option<u64>;

    /// Opens a file that is there, to read it from its beginning.
    fn open(&mut self, name: &str) -> Result<Self::Input, NotOpened>
        ensures new { IfOk result (λ file. Self.Input.failures file ≡ 0) }
        ensures bytes { IfOk result (λ file. Self.Input.remaining file ≡ (known self.old).given name.now) }
        ensures refused { IfErr result (λ _. IsTrue ((known self.old).may_not_open name.now)) }
        ensures kept { known self.new ≡ known self.old }
        ensures count { MatchResult result (λ _. failures self.new ≡ failures self.old) (λ _. CountsOne (failures self.old) (failures self.new)) };

    /// Makes an empty file of this name where nothing is there, also where the name is a link that leads to nothing. What is there stays as
    /// it is, and is not opened. It counts no failure: where no file can be made, `create` will say so.
    fn prepare(&mut self, name: &str)
        ensures prepared { IsPreparedAt name.now (known self.old) (known self.new) }
        ensures count { failures self.new ≡ failures self.old };

    /// Makes a file, or empties the one that is there, to write it.
    fn create(&mut self, name: &str) -> Result<Self::Output, NotOpened>
        ensures new { IfOk result (λ file. Self.Output.failures file ≡ 0) }
        ensures empty { IfOk result (λ file. IsTrue (known self.old).states → Self.Output.contents file ≡ Some []) }
        ensures refused { IfErr result (λ _. IsTrue ((known self.old).may_not_create name.now)) }
        ensures changed { IsChangedAt name.now (known self.old) (known self.new) }
        ensures count { MatchResult result (λ _. failures self.new ≡ failures self.old) (λ _. CountsOne (failures self.old) (failures self.new)) };

    /// Closes a file that was read.
    fn close(&mut self, file: Self::Input)
        ensures kept { known self.new ≡ known self.old }
        ensures count { CountsMore (Self.Input.failures file) (failures self.old) (failures self.new) };

    /// Closes the file of this name, which was written. Then what it was given stands there, unless it says that this is not known.
    fn finish(&mut self, name: &str, file: Self::Output) -> Result<(), NotFinished>
        ensures left { OnOk result (IsTrue (known self.old).states → (known self.new).given name.now ≡ Self.Output.contents file) }
        ensures changed { IsChangedAt name.now (known self.old) (known self.new) }
        ensures count { MatchResult result (λ _. CountsMore (Self.Output.failures file) (failures self.old) (failures self.new))
            (λ _. CountsMore (Self.Output.failures file + 1) (failures self.old) (failures self.new)) };
}
