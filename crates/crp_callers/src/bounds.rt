//! What the lower bounds say of every way to the end, and what they count in a bay of four containers.
ghost use Rattle.std.specs.Prelude.{◌≡◌, ◌≤◌, ◌+◌, ◌-◌, ℕ, suc, ◌↔◌, List, [], ◌∷◌, ◌++◌, length, map, sum_by, IsTrue, IsFalse};
ghost use Rattle.std.specs.Bool.{OnTrue, OnFalse};
ghost use Rattle.std.specs.List.{AllZip};
ghost use Rattle.crp_plan.specs.declared.moves.Move.{Move};
ghost use Rattle.crp_plan.specs.Rows.{holds, above, below};
ghost use Rattle.crp_plan.specs.Bay.{Problem as Statement, IsProblem, IsAt, IsLegalRow, Completes, relocations};
ghost use Rattle.crp_bay.specs.Positions.{counted};
ghost use Rattle.crp_bounds.specs.BlockingPlaces.{AreBlockers};
ghost use Rattle.crp_bounds.specs.Bounds.{blocking as blocking_of, look_ahead as look_ahead_of, stuck_above};
ghost use Rattle.crp_bounds.specs.Turns.{left_at};
ghost use Rattle.crp_callers.specs.SmallBays.{bay_of_four};

use crp_bay::Position;
use crp_bounds::{Bounded, blocking, look_ahead, words_mean};
use crp_plan::Problem;

/// Whether the blocking bound shows that no way to the end has so few relocations.
pub fn is_out_of_reach(position: &Position, most: u32) -> bool
    ensures { IsTrue result → (moves : List Move) → Completes position.now.place moves → relocations moves ≤ most → ⊥ }
{
    blocking(position) > most
}

/// Whether the look-ahead bound shows it.
pub fn is_out_of_reach_ahead(position: &Position, most: u32) -> bool
    ensures { IsTrue result → (moves : List Move) → Completes position.now.place moves → relocations moves ≤ most → ⊥ }
{
    look_ahead(position) > most
}

/// Whether the blocking bound that is kept with a position shows it.
pub fn is_out_of_reach_in_place(bounded: &Bounded, most: u32) -> bool
    ensures { IsTrue result → (moves : List Move) → Completes bounded.now.place moves → relocations moves ≤ most → ⊥ }
{
    bounded.blocking() > most
}

/// Whether the look-ahead bound of such a position shows it.
pub fn is_out_of_reach_ahead_in_place(bounded: &Bounded, most: u32) -> bool
    ensures { IsTrue result → (moves : List Move) → Completes bounded.now.place moves → relocations moves ≤ most → ⊥ }
{
    bounded.look_ahead() > most
}

/// Goes on by the row where a path that leads to the position can; then the path and the row lead to where it is. Elsewhere it stays.
pub fn go_on_with_bounds(bounded: &mut Bounded, row: u8) -> bool
    ensures can { (p : Statement) (path : List ℕ) → IsProblem p → IsAt p path bounded.old.place
        → (IsTrue result ↔ IsLegalRow p path row) }
    ensures leads { OnTrue result ((p : Statement) (path : List ℕ) → IsProblem p → IsAt p path bounded.old.place
        → IsAt p (path ++ row ∷ []) bounded.new.place) }
    ensures stays { OnFalse result (bounded.new ≡ bounded.old) }
{
    bounded.push(row)
}

/// Where nothing is to be undone, the position stays at the empty path.
pub fn nothing_undone_with_bounds(problem: &Problem) -> Bounded
    ensures { IsAt problem.now [] result.place }
{
    let mut bounded = Bounded::start(problem);
    if bounded.pop() {
        unreachable!()
    }
    bounded
}

/// How many containers block, each at its place in its stack.
pub fn blockers(position: &Position) -> u32
    ensures { (blockers : List (List ℕ)) × AllZip (AreBlockers position.now.place.ordered) position.now.place.stacks blockers
        × (result ≡ sum_by length blockers) }
{
    words_mean();
    blocking(position)
}

/// How many containers block, and how many more would block again, counted rank by rank in what is left of the stacks.
pub fn blockers_by_turns(position: &Position) -> u32
    ensures { result ≡ blocking_of position.now.place + sum_by
        (λ k. stuck_above position.now.place.ordered position.now.place.heights (map (left_at position.now.place.next k) position.now.place.stacks) k)
        (counted position.now.place.next (suc position.now.place.ordered - position.now.place.next)) }
{
    words_mean();
    look_ahead(position)
}

/// A stack is what stands below a container, the container, and what stands above it. All of a stack without it counts as below it.
pub fn stacks_are_cut()
    ensures held { (k : ℕ) (low high : List ℕ) → IsFalse (holds k low)
        → below k (low ++ k ∷ high) ++ k ∷ above k (low ++ k ∷ high) ≡ low ++ k ∷ high }
    ensures absent { (k : ℕ) (stack : List ℕ) → IsFalse (holds k stack) → (above k stack ≡ []) × (below k stack ≡ stack) }
{
    words_mean();
}

/// The look-ahead bound of a plan that makes so many relocations before the position. No path has more than 672.
pub fn bound_behind(position: &Position, made: u32) -> u32
    requires { made ≤ 672 }
    ensures { result ≡ made + look_ahead_of position.now.place }
{
    made + look_ahead(position)
}

/// Only 4 blocks, in the row of 1.
pub fn four_blocks(problem: &Problem) -> u32
    requires { problem.now ≡ bay_of_four }
    ensures { result ≡ 1 }
{
    blocking(&Position::start(problem))
}

/// And 4 would block again, on 2 and on 3.
pub fn four_blocks_again(problem: &Problem) -> u32
    requires { problem.now ≡ bay_of_four }
    ensures { result ≡ 2 }
{
    look_ahead(&Position::start(problem))
}
