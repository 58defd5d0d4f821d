//! How a path goes on from a position, and a bay of six containers that is walked through.
ghost use Rattle.std.specs.Prelude.{◌≡◌, ℕ, ◌↔◌, List, [], ◌∷◌, ◌++◌, true, false, IsTrue, IfSome, IfNone};
ghost use Rattle.std.specs.Bool.{OnTrue, OnFalse};
ghost use Rattle.crp_plan.specs.Bay.{Problem as Statement, IsProblem, IsAt, IsFinished, IsLegalRow};
ghost use Rattle.crp_bay.specs.Reached.{HasRoom};
ghost use Rattle.crp_callers.specs.SmallBays.{bay_of_six, standing};

use arrayvec::ArrayVec;
use crp_bay::Position;
use crp_plan::{MAX_ROWS, Problem};

/// Whether a path that leads to the position can go on by the row.
pub fn goes_on(position: &Position, row: u8) -> bool
    ensures { (p : Statement) (path : List ℕ) → IsProblem p → IsAt p path position.now.place
        → (IsTrue result ↔ IsLegalRow p path row) }
{
    match position.child(row) {
        Some(_) => true,
        None => false,
    }
}

/// Goes on by the row where a path that leads to the position can; then the path and the row lead to where it is. Elsewhere it stays.
pub fn go_on(position: &mut Position, row: u8) -> bool
    ensures can { (p : Statement) (path : List ℕ) → IsProblem p → IsAt p path position.old.place
        → (IsTrue result ↔ IsLegalRow p path row) }
    ensures leads { OnTrue result ((p : Statement) (path : List ℕ) → IsProblem p → IsAt p path position.old.place
        → IsAt p (path ++ row ∷ []) position.new.place) }
    ensures stays { OnFalse result (position.new ≡ position.old) }
{
    position.push(row)
}

/// Where nothing is to be undone, the position stays at the empty path.
pub fn nothing_undone(problem: &Problem) -> Position
    ensures { IsAt problem.now [] result.place }
{
    let mut position = Position::start(problem);
    if position.pop() {
        unreachable!()
    }
    position
}

/// The first row by which a path that leads to the position can go on, if there is one.
pub fn first_way_on(position: &Position) -> Option<u8>
    ensures some { IfSome result (λ row. (p : Statement) (path : List ℕ) → IsProblem p → IsAt p path position.now.place → IsLegalRow p path row) }
    ensures none { IfNone result ((p : Statement) (path : List ℕ) (row : ℕ) → IsProblem p → IsAt p path position.now.place → IsLegalRow p path row → ⊥) }
{
    let targets = position.targets();
    let [first, ..] = targets.as_slice() else {
        return None;
    };
    Some(*first)
}

/// Where all have left that are to leave, there is none.
pub fn ways_on_from_the_end(position: &Position) -> usize
    requires { IsFinished position.now.place }
    ensures { result ≡ 0 }
{
    position.targets().len()
}

/// The first row that has room, if one has.
pub fn first_with_room(position: &Position) -> Option<u8>
    ensures some { IfSome result (HasRoom position.now.place) }
    ensures none { IfNone result ((row : ℕ) → HasRoom position.now.place row → ⊥) }
{
    for row in 1..position.rows() + 1 {
        if position.fits(row) {
            return Some(row);
        }
    }
    None
}

/// 4 stands on top of the row from which 1 is to leave. It may go onto 6, or onto 2.
pub fn first_rows(problem: &Problem) -> ArrayVec<u8, MAX_ROWS>
    requires { problem.now ≡ bay_of_six }
    ensures { result.items ≡ 2 ∷ 3 ∷ [] }
{
    Position::start(problem).targets()
}

/// Where 4 goes onto 2, nothing can leave.
pub fn four_on_two(problem: &Problem) -> Position
    requires { problem.now ≡ bay_of_six }
    ensures { result.place ≡ standing 6 1 ((1 ∷ 5 ∷ []) ∷ (6 ∷ []) ∷ (3 ∷ 2 ∷ 4 ∷ []) ∷ []) }
{
    let Some(position) = Position::start(problem).child(3) else {
        unreachable!()
    };
    position
}

/// The row of 2 is full then, and that of 6 is not.
pub fn room_behind_four(problem: &Problem) -> (bool, bool)
    requires { problem.now ≡ bay_of_six }
    ensures { (result.0 ≡ true) × (result.1 ≡ false) }
{
    let position = four_on_two(problem);
    let six = position.fits(2);
    let two = position.fits(3);
    (six, two)
}

/// So 5 may go onto 6 alone.
pub fn rows_for_five(problem: &Problem) -> ArrayVec<u8, MAX_ROWS>
    requires { problem.now ≡ bay_of_six }
    ensures { result.items ≡ 2 ∷ [] }
{
    four_on_two(problem).targets()
}

/// Where 4 goes onto 6 and 5 onto 4, the containers 1, 2 and 3 leave one after the other, and 4 stands under 5.
pub fn two_relocations(problem: &Problem) -> Position
    requires { problem.now ≡ bay_of_six }
    ensures place { result.place ≡ standing 6 4 ([] ∷ (6 ∷ 4 ∷ 5 ∷ []) ∷ [] ∷ []) }
    ensures trail { result.trail ≡ standing 6 1 ((1 ∷ 5 ∷ []) ∷ (6 ∷ 4 ∷ []) ∷ (3 ∷ 2 ∷ []) ∷ [])
        ∷ standing 6 1 ((1 ∷ 5 ∷ 4 ∷ []) ∷ (6 ∷ []) ∷ (3 ∷ 2 ∷ []) ∷ []) ∷ [] }
{
    let mut position = Position::start(problem);
    let _four = position.push(2);
    let _five = position.push(2);
    position
}

/// Undone, 5 stands above 1 again, and 4 on 6.
pub fn one_undone(problem: &Problem) -> Position
    requires { problem.now ≡ bay_of_six }
    ensures { result.place ≡ standing 6 1 ((1 ∷ 5 ∷ []) ∷ (6 ∷ 4 ∷ []) ∷ (3 ∷ 2 ∷ []) ∷ []) }
{
    let mut position = two_relocations(problem);
    let _undone = position.pop();
    position
}

/// After these two, 5 goes into an empty row, and all leave.
pub fn last_relocation(problem: &Problem) -> bool
    requires { problem.now ≡ bay_of_six }
    ensures { IsTrue result }
{
    let mut position = two_relocations(problem);
    let _moved = position.push(1);
    position.is_done()
}
