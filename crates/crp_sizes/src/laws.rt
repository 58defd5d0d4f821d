//! Laws of the definitions. Each is the contract of a function that does nothing.

ghost use Rattle.std.specs.Prelude.{◌≡◌, ◌↔◌, ◌⊎◌, ◌∷◌, [], ℕ, List, Some, codes, slice_get};
ghost use Rattle.crp_plan.specs.BayNames.{YardBay};
ghost use Rattle.crp_sizes.specs.Heights.{IsHeightsText};
ghost use Rattle.crp_sizes.specs.Sizes.{BaySize, heights_of};
ghost use Rattle.crp_sizes.specs.Records.{IsSizesList};
ghost use Rattle.crp_sizes.specs.Faults.{IsFirstFault};
ghost use Rattle.crp_sizes.specs.declared.fault.SizesFault.{SizesFault};
ghost use Rattle.crp_sizes.specs.declared.fault.SizesFault.TheVariants.{Header, Digits, Heights, Twice};

/// A text is that of one list of heights at most, and lists one list of sizes at most.
pub fn one_list()
    ensures heights { (text heights others : List ℕ) → IsHeightsText heights text → IsHeightsText others text → heights ≡ others }
    ensures sizes { (text : List ℕ) (sizes others : List BaySize) → IsSizesList text sizes → IsSizesList text others → sizes ≡ others }
{}

/// A text lists sizes or has a first fault, and never both, nor two first faults.
pub fn one_outcome()
    ensures some { (text : List ℕ) → ((sizes : List BaySize) × IsSizesList text sizes) ⊎ ((fault : SizesFault) × IsFirstFault text fault) }
    ensures fault { (text : List ℕ) (fault other : SizesFault) → IsFirstFault text fault → IsFirstFault text other → fault ≡ other }
    ensures either { (text : List ℕ) (sizes : List BaySize) (fault : SizesFault) → IsSizesList text sizes → IsFirstFault text fault → ⊥ }
{}

/// Where a text lists sizes, a bay has these heights exactly where a record gives it these.
pub fn sized_as_listed()
    ensures { (text : List ℕ) (sizes : List BaySize) (bay : YardBay) (heights : List ℕ) → IsSizesList text sizes
        → (heights_of sizes bay ≡ Some heights) ↔ ((i : ℕ) × (slice_get sizes i ≡ Some (bay, heights))) }
{}

/// Some texts by hand: two sizes, a header alone, a height of 9, the bay 7 a second time as 07, the bay 0 before a record without fields,
/// thirteen heights, and no header.
pub fn worked_cases()
    ensures listed { IsSizesList (codes "block,bay,heights\nA,7,5.5.5.5.4\nB,12,3\n")
        ((record { block = codes "A"; bay = 7 }, 5 ∷ 5 ∷ 5 ∷ 5 ∷ 4 ∷ []) ∷ (record { block = codes "B"; bay = 12 }, 3 ∷ []) ∷ []) }
    ensures empty { IsSizesList (codes "block,bay,heights\n") [] }
    ensures nine { IsFirstFault (codes "block,bay,heights\nA,7,3\nA,8,3.9\n") (Heights 3) }
    ensures again { IsFirstFault (codes "block,bay,heights\nA,7,3\nA,07,2.2\n") (Twice 3) }
    ensures zero { IsFirstFault (codes "block,bay,heights\nA,0,3\nA\n") (Digits 2) }
    ensures thirteen { IsFirstFault (codes "block,bay,heights\nA,7,1.1.1.1.1.1.1.1.1.1.1.1.1\n") (Heights 2) }
    ensures bare { IsFirstFault (codes "A,7,3\n") (Header 1) }
{}
