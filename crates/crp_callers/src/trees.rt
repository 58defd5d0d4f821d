//! Names and trees of a search, and what the cuts of a tree have to reach.
ghost use Rattle.std.specs.Prelude.{◌≡◌, ◌≤◌, ◌⊎◌, ◌↔◌, [], ◌∷◌, Contains, AllPairs};
ghost use Rattle.crp_plan.specs.Bay.{IsAt, IsLegalRow};
ghost use Rattle.crp_tree.specs.Names.{Precedes};
ghost use Rattle.crp_tree.specs.Trees.{Node, nodes, Begins, value};
ghost use Rattle.crp_tree.specs.First.{MeetsNeed};
ghost use Rattle.crp_callers.specs.SmallBays.{bay_of_four, standing, first_of_four, two_cuts};

use crp_bay::walks;
use crp_plan::Problem;
use crp_tree::{Name, names_are_ordered, needs_as_numbers, nodes_of_trees};

/// The earlier of two names: it is one of them, and neither comes before it.
pub fn earlier(one: Name, other: Name) -> Name
    ensures one { (result ≡ one) ⊎ Precedes result one }
    ensures other { (result ≡ other) ⊎ Precedes result other }
    ensures given { (result ≡ one) ⊎ (result ≡ other) }
    ensures first { (Precedes one result → ⊥) × (Precedes other result → ⊥) }
{
    names_are_ordered();
    if other.precedes(&one) { other } else { one }
}

/// 2 comes before 2.1, and that before 3, which comes before neither.
pub fn names_compared()
    ensures goes_on { Precedes (2 ∷ []) (2 ∷ 1 ∷ []) }
    ensures lower { Precedes (2 ∷ 1 ∷ []) (3 ∷ []) }
    ensures not_higher { Precedes (3 ∷ []) (2 ∷ 1 ∷ []) → ⊥ }
    ensures not_shorter { Precedes (2 ∷ 1 ∷ []) (2 ∷ []) → ⊥ }
{
    names_are_ordered();
}

/// Below the first branch there are nodes for the rows 2 and 3: 4, which stands on 1, may go there, and not where it is. On 2 it lets
/// 1 leave.
pub fn four_may_go(problem: &Problem)
    requires { problem.now ≡ bay_of_four }
    ensures two { IsLegalRow problem.now [] 2 }
    ensures three { IsLegalRow problem.now [] 3 }
    ensures not_one { IsLegalRow problem.now [] 1 → ⊥ }
    ensures on_two { IsAt problem.now (2 ∷ []) (standing 4 2 ([] ∷ (2 ∷ 4 ∷ []) ∷ (3 ∷ []) ∷ [])) }
{
    let _rows = problem.rows();
    walks();
    nodes_of_trees();
}

/// Of the branch and the two cuts below it the branch stands at the empty path, the paths rise, and nothing stands below a cut.
pub fn two_cuts()
    ensures own { (node : Node) × Contains (nodes [] first_of_four two_cuts) node × (node.path ≡ []) }
    ensures rising { AllPairs Precedes ([] ∷ (2 ∷ []) ∷ (3 ∷ []) ∷ []) }
    ensures apart { (node : Node) → Contains (nodes [] first_of_four two_cuts) node → Begins node.path (2 ∷ []) → node.path ≡ 2 ∷ [] }
{
    nodes_of_trees();
}

/// Where a plan of two relocations, to 3 and to 1, is claimed to be the first best, a cut at 2 has to reach 3, and one at 3.2 only 2.
pub fn cuts_by_needs()
    ensures before { (cut : Node) → cut.path ≡ 2 ∷ [] → (MeetsNeed 2 (3 ∷ 1 ∷ []) cut ↔ (3 ≤ value cut)) }
    ensures after { (cut : Node) → cut.path ≡ 3 ∷ 2 ∷ [] → (MeetsNeed 2 (3 ∷ 1 ∷ []) cut ↔ (2 ≤ value cut)) }
{
    needs_as_numbers();
}
