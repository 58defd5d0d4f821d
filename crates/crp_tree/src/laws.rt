//! Laws of trees, for the crates above.
ghost use Rattle.std.specs.Prelude.{◌≡◌, ◌≢◌, ℕ, ◌+◌, ◌≤◌, ◌⊎◌, ◌↔◌, List, [], ◌∷◌, ◌++◌, length, map, flat_map, Contains, All, AllPairs, Option, Some, IfSome, IsTrue, nat_eq};
ghost use Rattle.std.specs.declared.cmp.Ordering.{Ordering};
ghost use Rattle.std.specs.Cmp.Lexicographic.{pointwise, slice_cmp};
ghost use Rattle.std.specs.Ordering.{nat_cmp};
ghost use Rattle.crp_plan.specs.declared.moves.Move.{Move};
ghost use Rattle.crp_plan.specs.Bay.{Problem, IsProblem, cap, Position, IsAt, IsLegalRow, IsPlan, IsBest, relocations};
ghost use Rattle.crp_plan.specs.Faults.{IsPlanPath};
ghost use Rattle.crp_tree.specs.Names.{GoesOn, Precedes};
ghost use Rattle.crp_tree.specs.Claims.{Part, Claimed, IsAccepted, IsNeeded, names, times, given_by, IsPart};
ghost use Rattle.crp_bounds.specs.Bounds.{look_ahead};
ghost use Rattle.crp_tree.specs.Tree.{Tree};
ghost use Rattle.crp_tree.specs.Parts.{ProblemPart, nodes_of, given_of, IsKeptPart, Certificate, IsAbout, claimed};
ghost use Rattle.crp_tree.specs.First.{IsFirstBest, IsFirstAccepted, MeetsNeed, MeetNeeds, need_at};
ghost use Rattle.crp_tree.specs.Mark.{X};
ghost use Rattle.crp_tree.specs.Trees.{Node, nodes, Fits, Begins, Shows, HasShape, HasAtLeast, given_names, value, least_through, least_value};

/// A tree that has its shape at a path, and no cut of a value below the floor, shows the floor there; so it shows the least of
/// its values, or the cap where none is below that.
pub fn trees_show()
    ensures floor { (p : Problem) (name : List ℕ) (s : Position) (tree : Tree) (floor : ℕ) → IsProblem p → IsAt p name s → HasShape name s tree
        → HasAtLeast floor (nodes name s tree) → floor ≤ cap p → Shows p name (given_names (nodes name s tree)) floor }
    ensures least { (p : Problem) (name : List ℕ) (s : Position) (tree : Tree) → IsProblem p → IsAt p name s → HasShape name s tree
        → Shows p name (given_names (nodes name s tree)) (least_value (cap p) (nodes name s tree)) }
{}

/// The nodes of a tree that fits at a path of the problem, said without the walk that lists them: one stands at that path, and each
/// at its own; they rise; right below a branch there is one at each legal row and at no other; and no path goes on from that of
/// another node.
pub fn nodes_of_trees()
    ensures own { (name : List ℕ) (s : Position) (tree : Tree) → ((node : Node) × Contains (nodes name s tree) node × (node.path ≡ name)) }
    ensures at { (p : Problem) (name : List ℕ) (s : Position) (tree : Tree) → IsProblem p → IsAt p name s
        → All (λ node. IsAt p node.path node.place) (nodes name s tree) }
    ensures rising { (name : List ℕ) (s : Position) (tree : Tree) → AllPairs Precedes (map (λ node. node.path) (nodes name s tree)) }
    ensures below { (p : Problem) (name : List ℕ) (s : Position) (tree : Tree) (node : Node) (row : ℕ) → IsProblem p → IsAt p name s → Fits s tree
        → Contains (nodes name s tree) node → node.mark ≡ X
        → ((other : Node) × Contains (nodes name s tree) other × (other.path ≡ node.path ++ row ∷ [])) ↔ IsLegalRow p node.path row }
    ensures apart { (name : List ℕ) (s : Position) (tree : Tree) (node other : Node) → Contains (nodes name s tree) node
        → Contains (nodes name s tree) other → node.mark ≢ X → Begins other.path node.path → other.path ≡ node.path }
{}

/// The names that a tree gives: each goes on from the name of the tree, has 8 rows at most and is a path of the problem; they rise,
/// and none begins with another.
pub fn names_given()
    ensures goes_on { (name : List ℕ) (s : Position) (tree : Tree) (given : List ℕ) → HasShape name s tree
        → Contains (given_names (nodes name s tree)) given → GoesOn name given }
    ensures short { (name : List ℕ) (s : Position) (tree : Tree) (given : List ℕ) → HasShape name s tree
        → Contains (given_names (nodes name s tree)) given → length given ≤ 8 }
    ensures path { (p : Problem) (name : List ℕ) (s : Position) (tree : Tree) (given : List ℕ) → IsProblem p → IsAt p name s
        → Contains (given_names (nodes name s tree)) given → ((t : Position) × IsAt p given t) }
    ensures rising { (name : List ℕ) (s : Position) (tree : Tree) → AllPairs Precedes (given_names (nodes name s tree)) }
    ensures apart { (name : List ℕ) (s : Position) (tree : Tree) (given other : List ℕ) → Contains (given_names (nodes name s tree)) given
        → Contains (given_names (nodes name s tree)) other → Begins given other → given ≡ other }
{}

/// The order of names is an order of all lists of rows, and the one that `cmp` states; `==` states whether two names are the same.
pub fn names_are_ordered()
    ensures irreflexive { (name : List ℕ) → Precedes name name → ⊥ }
    ensures transitive { (first second third : List ℕ) → Precedes first second → Precedes second third → Precedes first third }
    ensures total { (name other : List ℕ) → name ≢ other → Precedes name other ⊎ Precedes other name }
    ensures compared { (name other : List ℕ) → ((slice_cmp nat_cmp name other ≡ Ordering.Less) ↔ Precedes name other) }
    ensures same { (name other : List ℕ) → (IsTrue (pointwise nat_eq name other) ↔ (name ≡ other)) }
{}

/// An accepted claim is so: no plan has fewer relocations than its bound; at the cap there is no plan; and its plan, where it meets
/// the bound, is a best one.
pub fn accepted_means()
    ensures bound { (claim : Claimed) (moves : List Move) → IsAccepted claim → IsPlan claim.problem moves → claim.lower ≤ relocations moves }
    ensures no_plan { (claim : Claimed) (moves : List Move) → IsAccepted claim → claim.lower ≡ cap claim.problem → IsPlan claim.problem moves → ⊥ }
    ensures best { (claim : Claimed) (rows : List ℕ) → IsAccepted claim → claim.plan ≡ Some rows → length rows ≡ claim.lower
        → IsBest claim.problem claim.lower }
{}

/// What a certificate about a problem claims, with a plan of the problem or none, is accepted.
pub fn claims_are_accepted()
    ensures { (p : Problem) (cert : Certificate) (plan : Option (List ℕ)) → IsAbout p cert → IfSome plan (IsPlanPath p)
        → IsAccepted (claimed p cert plan) }
{}

/// Where each needed name has a part, and each part shows the floor at its name, no plan has fewer relocations than the floor.
pub fn parts_cover()
    ensures { (p : Problem) (parts : List Part) (floor : ℕ) (moves : List Move) → IsProblem p → All (IsPart p) parts → All (λ part. Shows p part.name (given_by p part) floor) parts
        → ((name : List ℕ) → IsNeeded p parts name → Contains (names parts) name) → IsPlan p moves → floor ≤ relocations moves }
{}

/// Where the names of the parts are the root and all given names, each as often, no two parts have one name.
pub fn names_once()
    ensures { (p : Problem) (parts : List Part) → IsProblem p → All (IsPart p) parts
        → ((name : List ℕ) → times name (names parts) ≡ times name ([] ∷ flat_map (given_by p) parts)) → (name : List ℕ)
        → times name (names parts) ≤ 1 }
{}

/// Each node of a part stands at its path, where length plus look-ahead is no less than at its name.
pub fn nodes_of_parts()
    ensures at { (x : ProblemPart) → IsKeptPart x → All (λ node. IsAt x.problem node.path node.place) (nodes_of x) }
    ensures higher { (x : ProblemPart) (s : Position) → IsKeptPart x → IsAt x.problem x.name s
        → All (λ node. length x.name + look_ahead s ≤ least_through node) (nodes_of x) }
{}

/// At most one path is the first best plan's.
pub fn one_first_best()
    ensures { (p : Problem) (path other : List ℕ) → IsFirstBest p path → IsFirstBest p other → path ≡ other }
{}

/// The plan of a claim that is accepted as one of the first best plan is the first best plan.
pub fn first_means()
    ensures { (claim : Claimed) (path : List ℕ) → IsFirstAccepted claim path → IsFirstBest claim.problem path }
{}

/// What a certificate about a problem claims with a plan of it, by which each cut meets its need, is accepted as a claim of the first
/// best plan.
pub fn firsts_are_accepted()
    ensures { (p : Problem) (cert : Certificate) (path : List ℕ) → IsAbout p cert → IsPlanPath p path → MeetNeeds (length path) path cert.parts
        → IsFirstAccepted (claimed p cert (Some path)) path }
{}

/// A cut meets its need exactly where its value is at least the need as a number.
pub fn needs_as_numbers()
    ensures { (k : ℕ) (plan : List ℕ) (cut : Node) → (MeetsNeed k plan cut ↔ (need_at k plan cut.path ≤ value cut)) }
{}

/// A cut of a value above k meets its need by whatever plan, and one that meets its need by a plan does so by each plan before.
pub fn needs_pass_on()
    ensures above { (k : ℕ) (plan : List ℕ) (cut : Node) → k + 1 ≤ value cut → MeetsNeed k plan cut }
    ensures earlier { (k : ℕ) (plan earlier : List ℕ) (cut : Node) → Precedes earlier plan → MeetsNeed k plan cut → MeetsNeed k earlier cut }
{}

/// No plan has fewer relocations than the floor of a whole search: of a part at the root that gives nothing away.
pub fn whole_part_bounds()
    ensures { (x : ProblemPart) (moves : List Move) → IsKeptPart x → x.name ≡ [] → given_of x ≡ [] → IsPlan x.problem moves
        → x.floor ≤ relocations moves }
{}
