//! Parts that are gathered in two orders, and parts that are balanced.
ghost use Rattle.std.specs.Prelude.{◌≡◌, ◌⊎◌, All, IfOk, IfErr};
ghost use Rattle.std.specs.List.Sorted.{IsPermutation};
ghost use Rattle.crp_tree.specs.Parts.{IsKeptPart};
ghost use Rattle.crp_gather.specs.Gathers.{IsBalanced};

use crp_gather::{GatherFault, balanced_parts_are_whole, gather, order_changes_nothing};
use crp_plan::Problem;
use crp_tree::{Cert, Part};
use std::alloc::Global;

/// The same parts gathered in two orders. If neither runs out of memory, they make one certificate, or they are refused for one fault.
pub fn gathered_twice(
    alloc: Global,
    problem: &Problem,
    parts: Vec<Part>,
    others: Vec<Part>,
) -> (Result<Cert, GatherFault>, Result<Cert, GatherFault>)
    requires { IsPermutation parts.items others.items }
    ensures certificate { IfOk result.0 (λ cert. IfOk result.1 (λ other. cert ≡ other)) }
    ensures fault { IfErr result.0 (λ one. IfErr result.1
        (λ other. (one ≡ GatherFault.Memory) ⊎ (other ≡ GatherFault.Memory) ⊎ (one ≡ other))) }
    ensures either { IfOk result.0 (λ _. IfErr result.1 (λ other. other ≡ GatherFault.Memory)) }
{
    order_changes_nothing();
    let one = gather(alloc, problem, parts);
    let other = gather(alloc, problem, others);
    (one, other)
}

/// Parts of the problem whose names are the root and all names that they give, each as often: they make a certificate, unless memory
/// runs out.
pub fn gathered_balanced(
    alloc: Global,
    problem: &Problem,
    parts: Vec<Part>,
) -> Result<Cert, GatherFault>
    requires of_problem { All (λ part. part.problem ≡ problem.now) parts.items }
    requires kept { All IsKeptPart parts.items }
    requires balanced { IsBalanced parts.items }
    ensures { IfErr result (λ fault. fault ≡ GatherFault.Memory) }
{
    let _rows = problem.rows();
    order_changes_nothing();
    balanced_parts_are_whole();
    gather(alloc, problem, parts)
}
