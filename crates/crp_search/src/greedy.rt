//! The plan by the greedy rule.
ghost use Rattle.std.specs.Prelude.{◌≡◌, ℕ, ◌+◌, ◌-◌, ◌<◌, ◌≤◌, ◌↔◌, List, [], IsTrue, IfSome, IfNone, length};
ghost use Rattle.crp_plan.specs.Bay.{Problem as Statement, IsProblem, Position as Place, IsSound, IsShifted};
ghost use Rattle.crp_bay.specs.Positions.{top, targets};
ghost use Rattle.crp_tree.specs.Trees.{least};
ghost use Rattle.crp_search.specs.Greedy.{blocker as blocker_of, least_rank as least_rank_of, IsGreedyRow, IsGreedyPath, IsBetter};

use arrayvec::ArrayVec;
use crp_bay::Position;
use crp_plan::{MAX_RELOCATIONS, Plan, Problem};

/// The rank on top of a stack, or 0.
fn top_rank(stack: &[u8]) -> u8
    ensures { result ≡ top stack.now }
{
    match stack.last() {
        Some(rank) => *rank,
        None => 0,
    }
}

/// The container that stands on top of the next one's stack.
fn blocker(position: &Position) -> u8
    requires { position.now.place.next ≤ position.now.place.ordered }
    ensures { result ≡ blocker_of position.now.place }
{
    top_rank(position.stack(position.row_of(position.next())))
}

/// The least rank of a stack, or the number for an empty one.
fn least_of(empty: u16, stack: &[u8]) -> u16
    ensures { result ≡ least empty stack.now }
{
    let mut least = empty;
    for rank in stack {
        least = least.min(u16::from(*rank));
    }
    least
}

/// The least rank that stands in a row; for an empty row, one more than the bay has containers.
fn least_rank(problem: &Problem, position: &Position, row: u8) -> u16
    requires counts { 1 ≤ row }
    requires there { row ≤ length position.now.place.heights }
    ensures { result ≡ least_rank_of problem.now position.now.place row }
{
    least_of(u16::from(problem.total()) + 1, position.stack(row))
}

/// Whether a row of one least rank is a better place for the blocker than one of another.
fn is_better(blocker: u8, rank: u16, other: u16) -> bool
    ensures { IsTrue result ↔ IsBetter blocker rank other }
{
    let blocker = u16::from(blocker);
    if blocker < rank {
        other <= blocker || rank < other
    } else {
        other < rank
    }
}

/// The row that the greedy rule chooses. `None` exactly where no relocation is legal.
pub(crate) fn greedy_row(problem: &Problem, position: &Position) -> Option<u8>
    ensures chosen { IfSome result (λ row. IsGreedyRow problem.now position.now.place row) }
    ensures none { IfNone result (targets position.now.place ≡ []) }
{
    let targets = position.targets();
    let mut best = *targets.first()?;
    let blocker = blocker(position);
    let mut least = least_rank(problem, position, best);
    for row in targets.as_slice() {
        let rank = least_rank(problem, position, *row);
        if is_better(blocker, rank, least) {
            best = *row;
            least = rank;
        }
    }
    Some(best)
}

/// The plan by the greedy rule. `None` exactly where the rule leads to no complete plan. It takes no memory.
///
/// The container that has to be relocated goes to the row whose least rank is the smallest among those greater than it,
/// since it does not block there; where there is none, to the row whose least rank is largest. An empty row counts as one
/// more than the containers of the bay. Ties go to the lowest row.
pub fn first_plan(problem: &Problem) -> Option<Plan>
    ensures problem { IfSome result (λ plan. plan.problem ≡ problem.now) }
    ensures greedy { IfSome result (λ plan. IsGreedyPath problem.now plan.path) }
    ensures none { IfNone result ((path : List ℕ) → IsGreedyPath problem.now path → ⊥) }
{
    let mut position = Position::start(problem);
    let mut path: ArrayVec<u8, MAX_RELOCATIONS> = ArrayVec::new();
    while !position.is_done() {
        let row = greedy_row(problem, &position)?;
        let Some(child) = position.child(row) else {
            unreachable!()
        };
        path.push(row);
        position = child;
    }
    match Plan::from_rows(problem, path.as_slice()) {
        Ok(plan) => Some(plan),
        Err(_fault) => unreachable!(),
    }
}

/// At most one path follows the greedy rule to its end.
pub fn one_greedy_plan()
    ensures { (p : Statement) (path other : List ℕ) → IsProblem p → IsGreedyPath p path → IsGreedyPath p other → path ≡ other }
{}

/// The blocker is the container that every legal relocation moves.
pub fn blocker_moves()
    ensures { (s : Place) (from to : ℕ) (t : Place) → IsSound s → (shift : IsShifted s from to t) → blocker_of s ≡ shift.moved }
{}
