//! Names in order, held against each other.
ghost use Rattle.std.specs.Prelude.{◌≤◌, ◌↔◌, ℕ, List, All, Contains, IsTrue, IfSome, IfNone};
ghost use Rattle.std.specs.List.Sorted.{IsSorted};
ghost use Rattle.std.specs.Cmp.Lexicographic.{slice_cmp};
ghost use Rattle.std.specs.Ordering.{nat_cmp};
ghost use Rattle.crp_tree.specs.Claims.{times};
ghost use Rattle.crp_tree.specs.Names.{IsFirst};

use crp_tree::Name;

/// Whether the name is among these, which are in order.
pub(crate) fn is_held(held: &[Name], name: &Name) -> bool
    requires { IsSorted (slice_cmp nat_cmp) held.now }
    ensures { IsTrue result ↔ Contains held.now name.now }
{
    held.binary_search(name).is_ok()
}

/// The first of the names, which are in order, that is not among those held, which are in order too.
pub(crate) fn first_absent(wanted: &[Name], held: &[Name]) -> Option<Name>
    requires wanted { IsSorted (slice_cmp nat_cmp) wanted.now }
    requires held { IsSorted (slice_cmp nat_cmp) held.now }
    ensures none { IfNone result (All (Contains held.now) wanted.now) }
    ensures first { IfSome result (IsFirst (λ name. Contains wanted.now name × (Contains held.now name → ⊥))) }
{
    for (i, name) in wanted.iter().enumerate() {
        if !is_held(held, name) {
            return Some(name.copy());
        }
    }
    None
}

/// The first of the names, which are in order, that stands there twice.
pub(crate) fn first_twice(names: &[Name]) -> Option<Name>
    requires { IsSorted (slice_cmp nat_cmp) names.now }
    ensures none { IfNone result ((name : List ℕ) → times name names.now ≤ 1) }
    ensures first { IfSome result (IsFirst (λ name. 2 ≤ times name names.now)) }
{
    for i in 1..names.len() {
        if names[i - 1] == names[i] {
            return Some(names[i].copy());
        }
    }
    None
}
