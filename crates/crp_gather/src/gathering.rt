//! Parts held against the names that are needed.
ghost use Rattle.std.specs.Prelude.{◌≡◌, ◌↔◌, ◌++◌, ℕ, List, All, Contains, IsTrue, IfSome, IfNone, IfOk, OnOk, IfErr};
ghost use Rattle.std.specs.List.Sorted.{IsSorted, IsPermutation};
ghost use Rattle.std.specs.Cmp.Lexicographic.{slice_cmp};
ghost use Rattle.std.specs.Ordering.{nat_cmp};
ghost use Rattle.crp_tree.specs.Parts.{names_of, IsKeptPart, IsAbout};
ghost use Rattle.crp_tree.specs.Names.{IsFirst};
ghost use Rattle.crp_gather.specs.Gathers.{Need, AreWhole, IsStranger, IsGatherFault, Belongs};

use crate::fault::GatherFault;
use crate::held::{first_absent, first_twice, is_held};
use crp_plan::Problem;
use crp_tree::{Cert, Name, Part, Parts};
use std::alloc::{AllocError, Global};

/// Sorts the parts by name: the names are sorted, and then each part is moved to its place.
fn put_in_order(parts: &mut Vec<Part>) -> Result<(), AllocError>
    ensures moved { IsPermutation parts.old.items parts.new.items }
    ensures sorted { OnOk result (IsSorted (slice_cmp nat_cmp) (names_of parts.new.items)) }
{
    parts.sort_by_cached_key(|part| part.name().copy())?;
    Ok(())
}

/// The names of the parts.
fn names(alloc: Global, parts: &[Part]) -> Result<Vec<Name>, AllocError>
    ensures { IfOk result (λ names. names.items ≡ names_of parts.now) }
{
    parts.iter().map(|part| part.name().copy()).collect(alloc)
}

/// Adds copies of the names.
fn push_copies(to: &mut Vec<Name>, names: &[Name]) -> Result<(), AllocError>
    ensures { OnOk result (to.new.items ≡ to.old.items ++ names.now) }
{
    for name in names {
        to.push(name.copy())?;
    }
    Ok(())
}

/// The names that are needed, in order: the root, and those that the parts give.
fn needed_names(alloc: Global, parts: &[Part]) -> Result<Vec<Name>, AllocError>
    ensures sorted { IfOk result (λ needed. IsSorted (slice_cmp nat_cmp) needed.items) }
    ensures all { IfOk result (λ needed. (name : List ℕ) → Contains needed.items name ↔ Need parts.now name) }
{
    let mut needed = Vec::new(alloc);
    for part in parts {
        push_copies(&mut needed, part.given_names())?;
    }
    needed.push(Name::root())?;
    needed.sort_unstable();
    Ok(needed)
}

/// Whether the part is about the problem, and its name is among the needed ones, which are in order.
fn belongs(problem: &Problem, part: &Part, needed: &[Name]) -> bool
    requires { IsSorted (slice_cmp nat_cmp) needed.now }
    ensures belongs { IsTrue result ↔ ((part.now.problem ≡ problem.now) × Contains needed.now part.now.name) }
    ensures part { IsKeptPart part.now }
{
    let name = part.name();
    part.problem().is_same(problem) && is_held(needed, name)
}

/// The name of the first part, of these in order, that does not belong to the problem's search.
fn first_stranger(problem: &Problem, parts: &[Part], needed: &[Name]) -> Option<Name>
    requires sorted { IsSorted (slice_cmp nat_cmp) (names_of parts.now) }
    requires needed { IsSorted (slice_cmp nat_cmp) needed.now }
    requires all { (name : List ℕ) → Contains needed.now name ↔ Need parts.now name }
    ensures none { IfNone result (All (Belongs problem.now parts.now) parts.now) }
    ensures parts { IfNone result (All IsKeptPart parts.now) }
    ensures first { IfSome result (IsFirst (IsStranger problem.now parts.now)) }
{
    for (i, part) in parts.iter().enumerate() {
        if !belongs(problem, part, needed) {
            return Some(part.name().copy());
        }
    }
    None
}

/// Accepts parts in the order of their names that are a whole search of the problem.
fn accept(alloc: Global, problem: &Problem, parts: &[Part]) -> Result<(), GatherFault>
    requires { IsSorted (slice_cmp nat_cmp) (names_of parts.now) }
    ensures whole { OnOk result (AreWhole problem.now parts.now) }
    ensures parts { OnOk result (All IsKeptPart parts.now) }
    ensures refused { IfErr result (IsGatherFault problem.now parts.now) }
{
    let names = names(alloc, parts)?;
    let needed = needed_names(alloc, parts)?;
    if let Some(name) = first_twice(&names) {
        return Err(GatherFault::Double(name));
    }
    if let Some(name) = first_absent(&needed, &names) {
        return Err(GatherFault::Missing(name));
    }
    if let Some(name) = first_stranger(problem, parts, &needed) {
        return Err(GatherFault::Stranger(name));
    }
    Ok(())
}

/// The certificate of these parts, which may come in any order.
///
/// Needed names are the root and all names that a part gives. Each needed name must have one part of
/// the problem, and there must be no other part. The certificate's bound is the least floor.
pub fn gather(alloc: Global, problem: &Problem, mut parts: Vec<Part>) -> Result<Cert, GatherFault>
    ensures whole { OnOk result (AreWhole problem.now parts.items) }
    ensures parts { IfOk result (λ cert. IsPermutation parts.items cert.parts) }
    ensures about { IfOk result (IsAbout problem.now) }
    ensures refused { IfErr result (IsGatherFault problem.now parts.items) }
{
    put_in_order(&mut parts)?;
    accept(alloc, problem, &parts)?;
    Ok(Cert::of_parts(Parts::from_vec(parts)))
}
