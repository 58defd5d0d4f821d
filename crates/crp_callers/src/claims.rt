//! What the laws of trees, of parts and of claims say of plans.
ghost use Rattle.std.specs.Prelude.{◌≡◌, ◌≤◌, ℕ, List, [], ◌∷◌, ◌++◌, All, AllPairs, Contains, Some, length, flat_map};
ghost use Rattle.crp_plan.specs.declared.moves.Move.{Move};
ghost use Rattle.crp_plan.specs.Bay.{Problem, IsProblem, Position, cap, IsPlan, IsAt, IsBest, relocations};
ghost use Rattle.crp_plan.specs.Faults.{IsPlanPath};
ghost use Rattle.crp_bounds.specs.Bounds.{look_ahead};
ghost use Rattle.crp_tree.specs.Tree.{Tree};
ghost use Rattle.crp_tree.specs.Names.{GoesOn, Precedes};
ghost use Rattle.crp_tree.specs.Trees.{Node, nodes, value, least_through, given_names, HasShape, HasAtLeast, least_value, Begins, Shows};
ghost use Rattle.crp_tree.specs.Claims.{Part, IsPart, given_by, names, times, IsNeeded, Claimed, IsAccepted};
ghost use Rattle.crp_tree.specs.Parts.{ProblemPart, nodes_of, given_of, IsKeptPart, Certificate, IsAbout};
ghost use Rattle.crp_tree.specs.First.{IsFirstBest, MeetsNeed, IsFirstAccepted, MeetNeeds};

use crp_tree::{
    accepted_means, first_means, firsts_are_accepted, names_are_ordered, names_given, names_once,
    needs_pass_on, nodes_of_parts, one_first_best, parts_cover, trees_show, whole_part_bounds,
};

/// Of a tree at the root that gives nothing away: no plan has fewer relocations than the least value of its cuts, or than a floor below
/// which none of them is.
pub fn whole_trees_bound()
    ensures least { (p : Problem) (s : Position) (tree : Tree) (moves : List Move) → IsProblem p → IsAt p [] s → HasShape [] s tree
        → given_names (nodes [] s tree) ≡ [] → IsPlan p moves → least_value (cap p) (nodes [] s tree) ≤ relocations moves }
    ensures floor { (p : Problem) (s : Position) (tree : Tree) (floor : ℕ) (moves : List Move) → IsProblem p → IsAt p [] s → HasShape [] s tree
        → given_names (nodes [] s tree) ≡ [] → HasAtLeast floor (nodes [] s tree) → floor ≤ cap p → IsPlan p moves → floor ≤ relocations moves }
{
    trees_show();
}

/// Where a plan has no relocation, the floor of a whole search is 0, and so is one that each of the needed parts shows.
pub fn floors_of_no_relocation()
    ensures whole { (x : ProblemPart) (moves : List Move) → IsKeptPart x → x.name ≡ [] → given_of x ≡ [] → IsPlan x.problem moves
        → relocations moves ≡ 0 → x.floor ≡ 0 }
    ensures parts { (p : Problem) (parts : List Part) (floor : ℕ) (moves : List Move) → IsProblem p → All (IsPart p) parts
        → All (λ part. Shows p part.name (given_by p part) floor) parts → ((name : List ℕ) → IsNeeded p parts name → Contains (names parts) name)
        → IsPlan p moves → relocations moves ≡ 0 → floor ≡ 0 }
{
    whole_part_bounds();
    parts_cover();
}

/// Each node of a part stands at its path. Of a part at the root none has less through it than the look-ahead bound there.
pub fn each_node()
    ensures stands { (x : ProblemPart) (node : Node) → IsKeptPart x → Contains (nodes_of x) node → IsAt x.problem node.path node.place }
    ensures bounded { (x : ProblemPart) (s : Position) (node : Node) → IsKeptPart x → x.name ≡ [] → IsAt x.problem [] s → Contains (nodes_of x) node
        → look_ahead s ≤ least_through node }
{
    nodes_of_parts();
}

/// What a tree gives away at the row 2: names that go on from there, of 8 rows at most, which rise; they are paths of the problem, and where one
/// is the beginning of another they are one.
pub fn given_below_two()
    ensures below { (s : Position) (tree : Tree) (given : List ℕ) → HasShape (2 ∷ []) s tree → Contains (given_names (nodes (2 ∷ []) s tree)) given
        → GoesOn (2 ∷ []) given × (length given ≤ 8) }
    ensures paths { (p : Problem) (s : Position) (tree : Tree) (given : List ℕ) → IsProblem p → IsAt p (2 ∷ []) s
        → Contains (given_names (nodes (2 ∷ []) s tree)) given → (t : Position) × IsAt p given t }
    ensures rising { (s : Position) (tree : Tree) → AllPairs Precedes (given_names (nodes (2 ∷ []) s tree)) }
    ensures apart { (s : Position) (tree : Tree) (given more : List ℕ) → Contains (given_names (nodes (2 ∷ []) s tree)) given
        → Contains (given_names (nodes (2 ∷ []) s tree)) (given ++ more) → given ++ more ≡ given }
{
    names_given();
}

/// Where the names of the parts are the root and the given names, each as often, one part at most stands at the root.
pub fn one_part_at_the_root()
    ensures { (p : Problem) (parts : List Part) → IsProblem p → All (IsPart p) parts
        → ((name : List ℕ) → times name (names parts) ≡ times name ([] ∷ flat_map (given_by p) parts)) → times [] (names parts) ≤ 1 }
{
    names_once();
}

/// Two accepted claims of the first best plan of one problem have one plan. And where the cuts of a certificate meet their needs by a plan,
/// that plan is the first best one.
pub fn first_plans()
    ensures one { (claim other : Claimed) (path again : List ℕ) → claim.problem ≡ other.problem → IsFirstAccepted claim path
        → IsFirstAccepted other again → path ≡ again }
    ensures met { (p : Problem) (cert : Certificate) (path : List ℕ) → IsAbout p cert → IsPlanPath p path
        → MeetNeeds (length path) path cert.parts → IsFirstBest p path }
{
    one_first_best();
    first_means();
    firsts_are_accepted();
}

/// A cut of the value 3 meets its need by every plan of two relocations. One that does so by the plan to 3 and to 1 does so by the plan to 2
/// and to 3, which comes before.
pub fn needs_of_cuts()
    ensures enough { (plan : List ℕ) (cut : Node) → 3 ≤ value cut → MeetsNeed 2 plan cut }
    ensures earlier { (cut : Node) → MeetsNeed 2 (3 ∷ 1 ∷ []) cut → MeetsNeed 2 (2 ∷ 3 ∷ []) cut }
{
    names_are_ordered();
    needs_pass_on();
}

/// What an accepted claim says: where a plan has no relocation, its bound is 0; where its bound is the cap, there is no plan; and where its own
/// plan has as many relocations as the bound, these are the fewest.
pub fn accepted_claims()
    ensures bound { (claim : Claimed) (moves : List Move) → IsAccepted claim → IsPlan claim.problem moves → relocations moves ≡ 0 → claim.lower ≡ 0 }
    ensures no_plan { (claim : Claimed) (moves : List Move) → IsAccepted claim → claim.lower ≡ cap claim.problem → IsPlan claim.problem moves → ⊥ }
    ensures best { (claim : Claimed) (rows : List ℕ) → IsAccepted claim → claim.plan ≡ Some rows → claim.lower ≡ length rows
        → IsBest claim.problem (length rows) }
{
    accepted_means();
}
