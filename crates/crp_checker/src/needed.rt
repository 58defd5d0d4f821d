//! The names that are needed, held against those that parts have.
ghost use Rattle.std.specs.Prelude.{◌≡◌, ◌<◌, ◌≤◌, ◌↔◌, ℕ, List, [], All, AllPairs, Contains, IsTrue, IfSome, IfNone, IfOk, OnOk, IfErr, length, take, slice_index_or};
ghost use Rattle.std.specs.List.Sorted.{IsSorted};
ghost use Rattle.std.specs.Cmp.Lexicographic.{slice_cmp};
ghost use Rattle.std.specs.Ordering.{nat_cmp};
ghost use Rattle.crp_tree.specs.Names.{Precedes};
ghost use Rattle.crp_tree.specs.Claims.{IsRootOrGiven};
ghost use Rattle.crp_checker.specs.Gathered.{gathered, first_with};
ghost use Rattle.crp_checker.specs.Needs.{IsNamesRefusal};

use crate::given_names::GivenNames;
use crate::path::Path;
use crate::refused::Refused;
use crp_tree::Name;
use std::alloc::{AllocError, Global};

/// Whether the name is among these, which are in order.
fn is_held(held: &[Name], name: &Name) -> bool
    requires { IsSorted (slice_cmp nat_cmp) held.now }
    ensures { IsTrue result ↔ Contains held.now name.now }
{
    held.binary_search(name).is_ok()
}

/// The index of the first of the names that is not among those held, which are in order.
fn first_absent(wanted: &[Name], held: &[Name]) -> Option<usize>
    requires { IsSorted (slice_cmp nat_cmp) held.now }
    ensures none { IfNone result (All (Contains held.now) wanted.now) }
    ensures found { IfSome result (λ i. (i < length wanted.now) × All (Contains held.now) (take i wanted.now)
        × (Contains held.now (slice_index_or wanted.now i []) → ⊥)) }
{
    for (i, name) in wanted.iter().enumerate() {
        if !is_held(held, name) {
            return Some(i);
        }
    }
    None
}

/// The names that are needed and have at most 8 rows, in order: the root, and those that are given.
fn needed_names(alloc: Global, given: Vec<Name>) -> Result<Vec<Name>, AllocError>
    ensures sorted { IfOk result (λ needed. IsSorted (slice_cmp nat_cmp) needed.items) }
    ensures all { IfOk result (λ needed. (name : List ℕ) → Contains needed.items name ↔ IsRootOrGiven given.items name) }
{
    let mut needed = given;
    needed.push(Name::root())?;
    needed.sort()?;
    Ok(needed)
}

/// Of a name and a path, if there is one, the first.
fn first_of(alloc: Global, name: &Name, path: Option<Path>) -> Result<Path, AllocError>
    ensures { IfOk result (λ first. first ≡ first_with name.now path) }
{
    if let Some(path) = path {
        if path.rows().cmp(&name.rows()).is_lt() {
            return Ok(path);
        }
    }
    Path::from_rows(alloc, name.rows())
}

/// Holds the names that parts have, which rise, against those that they give.
pub fn hold_names(alloc: Global, names: Vec<Name>, given: GivenNames) -> Result<(), Refused>
    requires rising { AllPairs Precedes names.items }
    requires short { All (λ name. length name ≤ 8) names.items }
    ensures same { OnOk result ((list : List (List ℕ)) → given ≡ gathered list
        → (name : List ℕ) → Contains names.items name ↔ IsRootOrGiven list name) }
    ensures refused { IfErr result (λ refused. (list : List (List ℕ)) → given ≡ gathered list → IsNamesRefusal names.items list refused) }
{
    let (short, longer) = given.into_parts();
    let needed = needed_names(alloc, short)?;
    if let Some(i) = first_absent(&needed, &names) {
        let name = first_of(alloc, &needed[i], longer)?;
        return Err(Refused::Missing { name });
    }
    if let Some(name) = longer {
        return Err(Refused::Missing { name });
    }
    if let Some(i) = first_absent(&names, &needed) {
        let name = Path::from_rows(alloc, names[i].rows())?;
        return Err(Refused::Unneeded { name });
    }
    Ok(())
}
