//! Reports that are followed: where containers stand, what the table of the moves says, and which bytes a sink gets.
ghost use Rattle.std.specs.Prelude.{◌≡◌, ◌<◌, ◌≤◌, ◌⊎◌, ◌+◌, ◌==◌, ℕ, ◌++◌, ◌∷◌, [], List, Option, Some, MatchOption, length, take, map, count_by, slice_get, OnOk, IsErrOf, codes};
ghost use Rattle.std.specs.List.{AllByRecursion};
ghost use Rattle.crp_plan.specs.Devices.{CountsOne};
ghost use Rattle.crp_yard.specs.Inventory.{Inventory, times};
ghost use Rattle.crp_said.specs.declared.moves.SaidMove.{SaidMove};
ghost use Rattle.crp_follow.specs.declared.fault.FollowFault.{FollowFault as Fault};
ghost use Rattle.crp_follow.specs.Faults.{IsFirstFault};
ghost use Rattle.crp_follow.specs.Crane.{Stack, Leads};
ghost use Rattle.crp_follow.specs.Lines.{Line, after_mark, lines_in};
ghost use Rattle.crp_follow.specs.Kept.{taken_by, times_in, IsTakenAt, IsNextToLeave};
ghost use Rattle.crp_follow.specs.Table.{takes_from, leaves_at, next_to_leave, left_behind, standing, table_text, StandFew};
ghost use Rattle.crp_follow.specs.Views.{bay_followed};
ghost use Rattle.crp_callers.specs.SmallReport.{small_moves, small_rows, small_heights};

use crp_follow::{
    Followed, lines_are_numbered, nothing_is_lost, one_outcome, stays_within_heights,
    what_columns_say, write_table,
};
use crp_plan::{Received, WriteFault};
use crp_planned::plans_are_followed;
use std::alloc::Global;

/// A crane can make the moves of the small bay's plan as they are said, and then MSCU3 stands alone.
pub fn small_plan_is_followed()
    ensures { Leads small_heights small_rows small_moves ((codes "MSCU3" ∷ []) ∷ [] ∷ []) }
{
    plans_are_followed();
}

/// Whatever moves a crane makes over the small bay, MSCU3 stands in one place then, or was taken once.
pub fn stands_or_was_taken()
    ensures { (moves : List SaidMove) (after : List Stack) → Leads small_heights small_rows moves after
        → ((times_in (codes "MSCU3") after ≡ 1) × (times (codes "MSCU3") (taken_by moves) ≡ 0))
        ⊎ ((times_in (codes "MSCU3") after ≡ 0) × (times (codes "MSCU3") (taken_by moves) ≡ 1)) }
{
    nothing_is_lost();
}

/// Whatever moves a crane makes over the small bay, no row has more than two containers then.
pub fn rows_stay_low()
    ensures { (moves : List SaidMove) (after : List Stack) (row : ℕ) (stack : Stack) → Leads small_heights small_rows moves after
        → slice_get after row ≡ Some stack → length stack ≤ 2 }
{
    stays_within_heights();
}

/// The column `leaves` has the step whose move takes the container; where it is empty, no move does.
pub fn leaves_means()
    ensures { (moves : List SaidMove) (container : List ℕ) → MatchOption (leaves_at (takes_from 1 moves) container)
        ((step : ℕ) → ¬ IsTakenAt moves step container) (λ step. IsTakenAt moves step container) }
{
    what_columns_say();
}

/// The column `for` names the container that is taken next, at this step or later; where it is empty, none is.
pub fn next_means()
    ensures { (moves : List SaidMove) (step : ℕ) → MatchOption (next_to_leave (takes_from 1 moves) step)
        ((later : ℕ) (container : List ℕ) → step ≤ later → ¬ IsTakenAt moves later container) (λ container. IsNextToLeave moves step container) }
{
    what_columns_say();
}

/// The column `left` counts the containers that stand in the small bay after a step, whatever moves a crane makes there.
pub fn left_means()
    ensures { (moves : List SaidMove) (step : ℕ) (rows : List Stack) → Leads small_heights small_rows (take step moves) rows
        → left_behind 3 (takes_from 1 moves) step ≡ standing rows }
{
    what_columns_say();
}

/// A line of a report stands where its number says: behind a byte order mark, if there is one, one LF less than the number stands before it.
pub fn lines_are_found()
    ensures { (text : List ℕ) (before later : List Line) (line : Line) → lines_in text ≡ before ++ line ∷ later
        → (front : List ℕ) × (rest : List ℕ) × (after_mark text ≡ front ++ (line.body ++ rest)) × (line.number ≡ 1 + count_by (λ b. b == 10) front) }
{
    lines_are_numbered();
}

/// A report cannot be followed for one reason.
pub fn one_reason_to_stop()
    ensures { (yard : Inventory) (text : List ℕ) (fault other : Fault) → IsFirstFault yard text fault → IsFirstFault yard text other → fault ≡ other }
{
    one_outcome();
}

/// Writes the table of the moves behind what the sink has. It gets the text of the table; or, where the sink finds no memory, a front that is not all of
/// it, and one failure more; or nothing, where there is no memory for the text.
pub fn receive_table(
    alloc: Global,
    sink: &mut Received,
    followed: &Followed,
) -> Result<(), WriteFault>
    requires { AllByRecursion StandFew (map bay_followed followed.now.bays.items) }
    ensures all { OnOk result (sink.new.bytes.items ≡ sink.old.bytes.items ++ table_text (map bay_followed followed.now.bays.items)) }
    ensures part { IsErrOf result WriteFault.Failed → (n : ℕ) × (n < length (table_text (map bay_followed followed.now.bays.items)))
        × (sink.new.bytes.items ≡ sink.old.bytes.items ++ take n (table_text (map bay_followed followed.now.bays.items))) }
    ensures memory { IsErrOf result WriteFault.Memory → sink.new ≡ sink.old }
    ensures no_failure { OnOk result (sink.new.failed ≡ sink.old.failed) }
    ensures one_failure { IsErrOf result WriteFault.Failed → CountsOne sink.old.failed sink.new.failed }
{
    write_table(alloc, sink, followed)
}
