//! A certificate settled on a plan.
ghost use Rattle.std.specs.Prelude.{◌≡◌, ◌+◌, ℕ, List, [], ◌∷◌, length, All, IfOk, OnOk, IfSome, IfNone, IsTrue, ◌↔◌};
ghost use Rattle.crp_plan.specs.Bay.{IsAt};
ghost use Rattle.crp_row.specs.Symbol.{Symbol, Branch};
ghost use Rattle.crp_row.specs.Rows.{symbol_of};
ghost use Rattle.crp_bounds.specs.Bounds.{blocking as blocking_bound, look_ahead as look_ahead_bound};
ghost use Rattle.crp_tree.specs.Names.{Precedes};
ghost use Rattle.crp_tree.specs.Trees.{nodes, least_value, Fits, IsInPlace, IsGivenAway};
ghost use Rattle.crp_tree.specs.Tree.{Tree};
ghost use Rattle.crp_tree.specs.Symbols.{tree_of, IsLeaf, leaf, ComesFirst};
ghost use Rattle.crp_tree.specs.Parts.{IsKeptPart, IsAbout};
ghost use Rattle.crp_tree.specs.First.{MeetNeeds};
ghost use Rattle.crp_gather.specs.Settled.{IsPast, IsPastPart, IsSettledPart, IsSettled, IsSettledTo, IsWritten};

use arrayvec::ArrayVec;
use crp_bounds::Bounded;
use crp_plan::{MAX_RELOCATIONS, Plan, Problem};
use crp_row::{Kind, Rest, Row};
use crp_tree::{Cert, Part, Parts, Tree, pass_trees};
use std::alloc::{AllocError, Global};

/// Destination rows, from the first relocation on.
type Path = ArrayVec<u8, MAX_RELOCATIONS>;

/// What is settled where a node is closed: the kind of the cut, and its value, or the problem's cap where that is not above it.
#[derive(Drop)]
struct Closed {
    kind: Kind,
    floor: u32,
}

/// The length of the path plus the blocking bound.
fn low_at(place: &Bounded, path: &Path) -> u32
    ensures { result ≡ length path.now.items + blocking_bound place.now.place }
{
    path.len() as u32 + place.blocking()
}

/// The length of the path plus the look-ahead bound.
fn high_at(place: &Bounded, path: &Path) -> u32
    ensures { result ≡ length path.now.items + look_ahead_bound place.now.place }
{
    path.len() as u32 + place.look_ahead()
}

/// Whether the path comes after the plan's.
fn comes_after(path: &Path, plan: &Plan) -> bool
    ensures { IsTrue result ↔ Precedes plan.now.path path.now.items }
{
    plan.rows().cmp(path.as_slice()).is_lt()
}

/// Closes the node at the path where that is past the plan.
fn close_past(problem: &Problem, place: &Bounded, path: &Path, plan: &Plan) -> Option<Closed>
    requires path { IsAt problem.now path.now.items place.now.place }
    ensures past { IfSome result (λ closed. IsPast plan.now.path path.now.items place.now.place) }
    ensures settled { IfSome result (λ closed. (old : Tree)
        → IsSettledTo problem.now plan.now.path path.now.items place.now.place (nodes path.now.items place.now.place old) (leaf (symbol_of closed.kind [])) closed.floor) }
    ensures leaf { IfSome result (λ closed. IsLeaf (symbol_of closed.kind [])) }
    ensures own { IfSome result (λ closed. IsGivenAway (leaf (symbol_of closed.kind [])) → ⊥) }
    ensures open { IfNone result (IsPast plan.now.path path.now.items place.now.place → ⊥) }
{
    if !comes_after(path, plan) {
        return None;
    }
    let most = problem.cap();
    let low = low_at(place, path);
    if low >= plan.count() {
        return Some(Closed {
            kind: Kind::CutB,
            floor: low.min(most),
        });
    }
    let high = high_at(place, path);
    if high >= plan.count() {
        return Some(Closed {
            kind: Kind::CutL,
            floor: high.min(most),
        });
    }
    None
}

/// What a leaf of this kind at the path shows, or `most` where that is not above it.
fn floor_at(kind: Kind, place: &Bounded, path: &Path, most: u32) -> u32
    ensures { (text : List ℕ) → IsLeaf (symbol_of kind text) → result ≡ least_value most (nodes path.now.items place.now.place (leaf (symbol_of kind text))) }
{
    match kind {
        Kind::CutB => low_at(place, path).min(most),
        Kind::CutL => high_at(place, path).min(most),
        Kind::CutR(bound) => (path.len() as u32 + bound as u32).min(most),
        Kind::Given | Kind::Branch(_) => most,
    }
}

/// Settles the tree at a path, whose symbols come first, on the plan, and passes it: adds the symbols of what it becomes. Answers
/// the least value of the new cuts, or the problem's cap where none is below that.
#[cycle(settling)]
fn settle_tree(
    problem: &Problem,
    rest: &mut Rest<'_>,
    place: &mut Bounded,
    path: &mut Path,
    plan: &Plan,
    settled: &mut Row,
) -> Result<u32, AllocError>
    requires path { IsAt problem.now path.old.items place.old.place }
    requires whole { (behind : List Symbol) × ComesFirst rest.old behind }
    requires fits { Fits place.old.place (tree_of rest.old) }
    requires in_place { All IsInPlace (nodes path.old.items place.old.place (tree_of rest.old)) }
    ensures settled { IfOk result (IsWritten problem.now plan.now.path path.old.items place.old.place (tree_of rest.old) settled.old.symbols settled.new.symbols) }
    ensures behind { OnOk result (ComesFirst rest.old rest.new) }
    ensures back { OnOk result ((place.new ≡ place.old) × (path.new.items ≡ path.old.items)) }
{
    if let Some(closed) = close_past(problem, place, path, plan) {
        settled.push(closed.kind, &[])?;
        pass_trees(rest, 1);
        return Ok(closed.floor);
    }
    let Some((kind, text)) = rest.next() else {
        unreachable!()
    };
    if let Kind::Branch(count) = kind {
        return settle_below(problem, rest, count, place, path, plan, settled);
    }
    settled.push(kind, text)?;
    Ok(floor_at(kind, place, path, problem.cap()))
}

/// The same for a branch, whose trees come first, at a path that is not past the plan.
#[cycle(settling)]
fn settle_below(
    problem: &Problem,
    rest: &mut Rest<'_>,
    count: u8,
    place: &mut Bounded,
    path: &mut Path,
    plan: &Plan,
    settled: &mut Row,
) -> Result<u32, AllocError>
    requires path { IsAt problem.now path.old.items place.old.place }
    requires open { IsPast plan.now.path path.old.items place.old.place → ⊥ }
    requires whole { (behind : List Symbol) × ComesFirst (Branch count ∷ rest.old) behind }
    requires fits { Fits place.old.place (tree_of (Branch count ∷ rest.old)) }
    requires in_place { All IsInPlace (nodes path.old.items place.old.place (tree_of (Branch count ∷ rest.old))) }
    ensures settled { IfOk result (IsWritten problem.now plan.now.path path.old.items place.old.place (tree_of (Branch count ∷ rest.old)) settled.old.symbols settled.new.symbols) }
    ensures behind { OnOk result (ComesFirst (Branch count ∷ rest.old) rest.new) }
    ensures back { OnOk result ((place.new ≡ place.old) × (path.new.items ≡ path.old.items)) }
{
    settled.push(Kind::Branch(count), &[])?;
    let targets = place.position().targets();
    let rows = targets.as_slice();
    let mut floor = problem.cap();
    for row in rows {
        path.push(*row);
        let _pushed = place.push(*row);
        let least = settle_tree(problem, rest, place, path, plan, settled)?;
        let _popped = place.pop();
        let _row = path.pop();
        floor = floor.min(least);
    }
    Ok(floor)
}

/// Settles a part on the plan. `None` exactly where its name is past the plan.
fn settle_part(alloc: Global, part: &Part, plan: &Plan) -> Result<Option<Part>, AllocError>
    ensures past { IfOk result (λ settled. IfNone settled (IsPastPart plan.now.path part.now)) }
    ensures settled { IfOk result (λ settled. IfSome settled (IsSettledPart plan.now.path part.now)) }
    ensures part { IfOk result (λ settled. IfSome settled IsKeptPart) }
{
    let problem = part.problem();
    let Some(mut place) = part.name().bounded(problem) else {
        unreachable!()
    };
    let mut path = Path::new();
    let Ok(()) = path.try_extend_from_slice(part.name().rows()) else {
        unreachable!()
    };
    if let Some(_closed) = close_past(problem, &place, &path, plan) {
        return Ok(None);
    }
    let mut rest = part.tree().symbols();
    let mut settled = Row::new(alloc);
    let floor = settle_tree(
        problem,
        &mut rest,
        &mut place,
        &mut path,
        plan,
        &mut settled,
    )?;
    let name = part.name().copy();
    let part = Part::new(alloc, problem, name, Tree::from_row(settled), floor)?;
    Ok(Some(part))
}

/// Settles a certificate about the plan's problem on the plan.
///
/// From the top, each node that comes after the plan, where a bound reaches the plan's relocations, becomes a cut: by the
/// blocking bound where that reaches them, else by the look-ahead bound. Parts that are no longer given fall away.
pub fn settle(alloc: Global, cert: Cert, plan: &Plan) -> Result<Cert, AllocError>
    requires about { IsAbout plan.now.problem cert }
    ensures about { IfOk result (IsAbout plan.now.problem) }
    ensures settled { IfOk result (IsSettled plan.now.path cert) }
    ensures needs { MeetNeeds (length plan.now.path) plan.now.path cert.parts
        → IfOk result (λ settled. MeetNeeds (length plan.now.path) plan.now.path settled.parts) }
{
    let mut parts = Vec::new(alloc);
    for part in cert.parts() {
        let settled = settle_part(alloc, part, plan)?;
        if let Some(settled) = settled {
            parts.push(settled)?;
        }
    }
    Ok(Cert::of_parts(Parts::from_vec(parts)))
}
