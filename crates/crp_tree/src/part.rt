ghost use Rattle.std.specs.Prelude.{◌≡◌, List, ◌++◌, All, AllPairs, IfOk, OnOk};
ghost use Rattle.crp_plan.specs.Bay.{IsProblem, cap};
ghost use Rattle.crp_row.specs.Symbol.{Symbol};
ghost use Rattle.crp_bay.specs.Positions.{targets};
ghost use Rattle.crp_tree.specs.Names.{Precedes};
ghost use Rattle.crp_tree.specs.Trees.{nodes, Fits, IsInPlace, given_names, least_value};
ghost use Rattle.crp_tree.specs.Listed.{AreFit, nodes_below};
ghost use Rattle.crp_tree.specs.Symbols.{tree_of, some_trees, ComesFirst, ComeFirst};
ghost use Rattle.crp_tree.specs.Claims.{IsPart, nodes_in, given_by};
ghost use Rattle.crp_tree.specs.Parts.{given_of, IsKeptPart};

use crate::name::{MAX_NAME, Name};
use crate::tree::{Tree, pass_trees};
use crp_bay::Position;
use crp_plan::Problem;
use crp_row::{Kind, Rest};
use std::alloc::{AllocError, Global};
use std::marker::Model;

/// A part of the search of a problem: a tree at the path that is its name, and the floor that it shows.
///
/// Every legal complete plan of the problem whose path begins with the name, and with none of the
/// names that the tree gives to other parts, has at least so many relocations as the floor says.
#[derive(Drop)]
pub struct Part {
    problem: Problem,
    name: Name,
    tree: Tree,
    floor: u32,
    given: Vec<Name>,
}

impl Model for Part {
    ghost use Rattle.crp_tree.specs.Parts.{ProblemPart, IsPartGiving};
    ghost use Rattle.crp_tree.specs.Symbols.{tree_code};
    ghost use Rattle.std.specs.Coded.{codes};

    ghost Value = { ProblemPart };

    ghost coded = { Prim.hlevel (codes, tree_code) };

    ghost view = { λ x. record { problem = x.problem; name = x.name; tree = x.tree; floor = x.floor } };

    ghost invariant = { λ x. IsPartGiving (record { problem = x.problem; name = x.name; tree = x.tree; floor = x.floor }) x.given.items };
}

impl Part {
    /// The part of these. Its tree must have its shape at the name, and its floor must be the least
    /// value of its cuts, or the problem's cap where none is below that. The names that it gives are found here, once.
    pub fn new(
        alloc: Global,
        problem: &Problem,
        name: Name,
        tree: Tree,
        floor: u32,
    ) -> Result<Part, AllocError>
        requires part { IsPart problem.now (record { name = name; tree = tree }) }
        requires floor { floor ≡ least_value (cap problem.now) (nodes_in problem.now (record { name = name; tree = tree })) }
        ensures value { IfOk result (λ part. part ≡ record { problem = problem.now; name = name; tree = tree; floor = floor }) }
        ensures part { IfOk result IsKeptPart }
    {
        let given = names_given(alloc, problem, &name, &tree)?;
        Ok(Part::giving(problem, name, tree, floor, given))
    }

    /// The same, where the names that it gives are known. It takes no memory.
    pub fn giving(problem: &Problem, name: Name, tree: Tree, floor: u32, given: Vec<Name>) -> Part
        requires part { IsPart problem.now (record { name = name; tree = tree }) }
        requires floor { floor ≡ least_value (cap problem.now) (nodes_in problem.now (record { name = name; tree = tree })) }
        requires given { given.items ≡ given_by problem.now (record { name = name; tree = tree }) }
        ensures value { result ≡ record { problem = problem.now; name = name; tree = tree; floor = floor } }
        ensures part { IsKeptPart result }
    {
        Part {
            problem: problem.copy(),
            name,
            tree,
            floor,
            given,
        }
    }

    /// The problem whose search it is a part of.
    pub fn problem(&self) -> &Problem
        ensures value { result.now ≡ self.now.problem }
        ensures problem { IsProblem self.now.problem }
    {
        &self.problem
    }

    /// The path that it stands at.
    pub fn name(&self) -> &Name
        ensures value { result.now ≡ self.now.name }
        ensures part { IsKeptPart self.now }
    {
        &self.name
    }

    /// Its tree.
    pub fn tree(&self) -> &Tree
        ensures value { result.now ≡ self.now.tree }
        ensures part { IsKeptPart self.now }
    {
        &self.tree
    }

    /// The floor that it shows, in relocations.
    pub fn floor(&self) -> u32
        ensures value { result ≡ self.now.floor }
        ensures part { IsKeptPart self.now }
    {
        self.floor
    }

    /// The names that it gives to other parts, rising.
    pub fn given_names(&self) -> &[Name]
        ensures names { result.now ≡ given_of self.now }
        ensures rising { AllPairs Precedes result.now }
    {
        self.given.as_slice()
    }
}

/// The names that a part of this name and tree gives to other parts.
fn names_given(
    alloc: Global,
    problem: &Problem,
    name: &Name,
    tree: &Tree,
) -> Result<Vec<Name>, AllocError>
    requires { IsPart problem.now (record { name = name.now; tree = tree.now }) }
    ensures { IfOk result (λ names. names.items ≡ given_by problem.now (record { name = name.now; tree = tree.now })) }
{
    let mut names = Vec::new(alloc);
    if !tree.gives() {
        return Ok(names);
    }
    let Some(place) = name.position(problem) else {
        unreachable!()
    };
    let mut list = tree.symbols();
    collect(&mut list, name, &place, &mut names)?;
    Ok(names)
}

/// Adds the names that the tree whose symbols come first gives at a path, and passes it. None has more than 8 rows.
#[cycle(collecting)]
fn collect(
    rest: &mut Rest<'_>,
    name: &Name,
    place: &Position,
    names: &mut Vec<Name>,
) -> Result<(), AllocError>
    requires whole { (behind : List Symbol) × ComesFirst rest.old behind }
    requires fits { Fits place.now.place (tree_of rest.old) }
    requires in_place { All IsInPlace (nodes name.now place.now.place (tree_of rest.old)) }
    ensures names { OnOk result (names.new.items ≡ names.old.items ++ given_names (nodes name.now place.now.place (tree_of rest.old))) }
    ensures behind { OnOk result (ComesFirst rest.old rest.new) }
{
    let Some((kind, _)) = rest.next() else {
        unreachable!()
    };
    match kind {
        Kind::CutB | Kind::CutL | Kind::CutR(_) => Ok(()),
        Kind::Given => {
            names.push(name.copy())?;
            Ok(())
        }
        Kind::Branch(count) => collect_below(rest, count as usize, name, place, names),
    }
}

/// The same for the trees of a branch, one for each legal row.
#[cycle(collecting)]
fn collect_below(
    rest: &mut Rest<'_>,
    count: usize,
    name: &Name,
    place: &Position,
    names: &mut Vec<Name>,
) -> Result<(), AllocError>
    requires whole { (behind : List Symbol) × ComeFirst count rest.old behind }
    requires fit { AreFit place.now.place (targets place.now.place) (some_trees count rest.old) }
    requires in_place { All IsInPlace (nodes_below name.now place.now.place (targets place.now.place) (some_trees count rest.old)) }
    ensures names { OnOk result (names.new.items ≡ names.old.items ++ given_names (nodes_below name.now place.now.place (targets place.now.place) (some_trees count rest.old))) }
    ensures behind { OnOk result (ComeFirst count rest.old rest.new) }
{
    if name.rows().len() == MAX_NAME {
        pass_trees(rest, count);
        return Ok(());
    }
    let targets = place.targets();
    let rows = targets.as_slice();
    for row in rows {
        let Some(longer) = name.child(*row) else {
            unreachable!()
        };
        let Some(next) = place.child(*row) else {
            unreachable!()
        };
        collect(rest, &longer, &next, names)?;
    }
    Ok(())
}
