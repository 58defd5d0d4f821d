//! Laws of parts that are put together, for the crates above.
ghost use Rattle.std.specs.Prelude.{◌≡◌, ◌⊎◌, List, All};
ghost use Rattle.std.specs.List.Sorted.{IsPermutation};
ghost use Rattle.crp_plan.specs.Bay.{Problem, IsProblem};
ghost use Rattle.crp_tree.specs.Parts.{ProblemPart, Certificate, IsKeptPart, IsCertificate};
ghost use Rattle.crp_gather.specs.declared.fault.GatherFault.{GatherFault};
ghost use Rattle.crp_gather.specs.declared.fault.GatherFault.TheVariants.{Memory};
ghost use Rattle.crp_gather.specs.Gathers.{AreWhole, IsGatherFault, IsBalanced};

/// The same parts in any order give the same answer, unless it is out of memory: they are a whole or they are not, they make one
/// certificate, and they are refused for one fault; and a whole is refused for none.
pub fn order_changes_nothing()
    ensures whole { (p : Problem) (parts others : List ProblemPart) → IsPermutation parts others → AreWhole p parts → AreWhole p others }
    ensures certificate { (cert other : Certificate) → IsPermutation cert.parts other.parts → IsCertificate cert → IsCertificate other
        → cert ≡ other }
    ensures fault { (p : Problem) (parts others : List ProblemPart) (one other : GatherFault) → IsPermutation parts others
        → IsGatherFault p parts one → IsGatherFault p others other
        → (one ≡ Memory) ⊎ (other ≡ Memory) ⊎ (one ≡ other) }
    ensures either { (p : Problem) (parts : List ProblemPart) (fault : GatherFault) → AreWhole p parts → IsGatherFault p parts fault
        → fault ≡ Memory }
{}

/// Parts of a problem whose names are the root and all names that they give, each as often, are a whole.
pub fn balanced_parts_are_whole()
    ensures { (p : Problem) (parts : List ProblemPart) → IsProblem p → All (λ part. part.problem ≡ p) parts → All IsKeptPart parts
        → IsBalanced parts → AreWhole p parts }
{}
