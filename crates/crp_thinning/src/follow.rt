//! Following the symbols of thinned branches, one by one.
ghost use Rattle.std.specs.Prelude.{◌≡◌, ℕ, ◌↔◌, ◌∷◌, List};
ghost use Rattle.crp_thinning.specs.declared.reading.Reading.{Reading as Read};
ghost use Rattle.crp_thinning.specs.Owed.{Owes, Trees, Takes, EndsFamily};
ghost use Rattle.crp_thinning.specs.OneChain.{IsFair};
ghost use Rattle.crp_thinning.specs.Branches.{behind, to_come, following, IsOpen, IsKept};

use crate::path::{Path, branch, branch_free, go_on};
use crate::reading::{Reading, Reads, begin_family};
use crate::stage::Stage;

/// Goes on behind a tree.
fn next_tree(path: &mut Path) -> Stage
    requires { IsOpen path.old }
    ensures trees { (r : Read) → following result path.new r ≡ Trees (behind path.old) }
    ensures kept { (r : Read) → IsKept result path.new r }
{
    if go_on(path) {
        Stage::Tree
    } else {
        Stage::Done
    }
}

/// Follows the symbol of a cut by the blocking bound.
fn follow_blocking(path: &mut Path) -> Stage
    requires { IsOpen path.old }
    ensures takes { (r : Read) (text : List ℕ) → Takes (following result path.new r) text ↔ Owes (to_come path.old) (66 ∷ text) }
    ensures kept { (r : Read) → IsKept result path.new r }
{
    if path.place.blocking() >= path.need {
        next_tree(path)
    } else {
        Stage::Refused
    }
}

/// Follows the symbol of a cut by the look-ahead bound.
fn follow_look_ahead(path: &mut Path) -> Stage
    requires { IsOpen path.old }
    ensures takes { (r : Read) (text : List ℕ) → Takes (following result path.new r) text ↔ Owes (to_come path.old) (76 ∷ text) }
    ensures kept { (r : Read) → IsKept result path.new r }
{
    if path.place.look_ahead_reaches(path.need) {
        next_tree(path)
    } else {
        Stage::Refused
    }
}

/// Follows the symbol of a thinned branch.
fn follow_branch(path: &mut Path) -> Stage
    requires { IsOpen path.old }
    ensures takes { (r : Read) (text : List ℕ) → Takes (following result path.new r) text ↔ Owes (to_come path.old) (82 ∷ text) }
    ensures kept { (r : Read) → IsKept result path.new r }
{
    if path.place.is_done() {
        return Stage::Refused;
    }
    branch(path);
    Stage::Tree
}

/// Follows the symbol of a branch with one tree.
fn follow_free(path: &mut Path) -> Stage
    requires { IsOpen path.old }
    ensures takes { (r : Read) (text : List ℕ) → Takes (following result path.new r) text ↔ Owes (to_come path.old) (70 ∷ text) }
    ensures kept { (r : Read) → IsKept result path.new r }
{
    let row = path.place.free_row();
    if row == 0 {
        return Stage::Refused;
    }
    branch_free(path, row);
    Stage::Tree
}

/// Where a cut by chains begins.
fn family_at(path: &Path) -> Reading
    ensures takes { (text : List ℕ) → EndsFamily path.now.place.place result (behind path.now) text ↔ Owes (to_come path.now) (84 ∷ text) }
    ensures fair { IsFair result }
{
    begin_family(path.need.saturating_sub(path.place.blocking()))
}

/// Follows the first symbol of a tree.
pub fn follow_tree(path: &mut Path, reading: &mut Reading, symbol: u8) -> Stage
    requires { IsOpen path.old }
    ensures takes { (text : List ℕ) → Takes (following result path.new reading.new) text ↔ Owes (to_come path.old) (symbol ∷ text) }
    ensures kept { IsKept result path.new reading.new }
{
    if symbol == b'B' {
        return follow_blocking(path);
    }
    if symbol == b'L' {
        return follow_look_ahead(path);
    }
    if symbol == b'R' {
        return follow_branch(path);
    }
    if symbol == b'F' {
        return follow_free(path);
    }
    if symbol == b'T' {
        *reading = family_at(path);
        return Stage::Family;
    }
    Stage::Refused
}

/// Follows a symbol of a family.
pub fn follow_family(path: &mut Path, reading: &mut Reading, symbol: u8) -> Stage
    requires open { IsOpen path.old }
    requires fair { IsFair reading.old }
    ensures takes { (text : List ℕ) → Takes (following result path.new reading.new) text ↔ EndsFamily path.old.place.place reading.old (behind path.old) (symbol ∷ text) }
    ensures kept { IsKept result path.new reading.new }
{
    match path.place.read_family(reading, symbol) {
        Reads::On => Stage::Family,
        Reads::Ended => next_tree(path),
        Reads::Wrong => Stage::Refused,
    }
}
