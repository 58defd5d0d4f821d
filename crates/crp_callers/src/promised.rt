//! Uses of the laws on what a report and its certificates promise of a bay.
ghost use Rattle.std.specs.Prelude.{◌≡◌, ℕ, List, Some};
ghost use Rattle.crp_plan.specs.declared.moves.Move.{Move};
ghost use Rattle.crp_plan.specs.Bay.{IsBest, IsProblem, path_of, start};
ghost use Rattle.crp_tree.specs.First.{IsFirstBest};
ghost use Rattle.crp_sizes.specs.Sizes.{heights_at};
ghost use Rattle.crp_yard.specs.Inventory.{StackedBay};
ghost use Rattle.crp_order.specs.BayProblems.{problem_of, ranked};
ghost use Rattle.crp_cert.specs.declared.script.Script.{Script};
ghost use Rattle.crp_cert.specs.Script.{IsScriptOf};
ghost use Rattle.crp_checker.specs.declared.verdict.Verdict.TheVariants.{Bounds};
ghost use Rattle.crp_checker.specs.Verdicts.{Says};
ghost use Rattle.crp_said.specs.declared.said.SaidCause.TheVariants.{Edited};
ghost use Rattle.crp_said.specs.declared.said.Said.TheVariants.{Optimal, First, Between};
ghost use Rattle.crp_said.specs.MoveLines.{AreMoveLines};
ghost use Rattle.crp_audit.specs.Headline.{Handed, IsTrueOf};
ghost use Rattle.crp_audit.specs.LooksTrue.{LooksTrue};

use crp_audit::{one_plan_is_printed, true_if_it_looks_so};

/// Where a printed plan has so many relocations and an accepted certificate says that these are the fewest, they are the fewest: which
/// claims something of all plans, and none was looked at but the printed one.
pub fn printed_and_accepted_is_best()
    ensures { (h : Handed) (bay : StackedBay) (lines certificate : List ℕ) (count : ℕ)
        → LooksTrue h (record { bay = bay; said = Optimal count; lines = lines; certificate = certificate })
        → IsBest (problem_of (heights_at h.yard.sizes bay.0) h.sequence bay.1) count }
{
    true_if_it_looks_so();
}

/// Of a bay whose plan is truly said to be the first, the moves whose lines are printed are those of the first best plan, and the
/// certificate has the rows of that plan.
pub fn printed_plan_is_certified()
    ensures first { (h : Handed) (bay : StackedBay) (lines certificate : List ℕ) (count : ℕ) (moves : List Move)
        → IsProblem (problem_of (heights_at h.yard.sizes bay.0) h.sequence bay.1)
        → IsTrueOf h (record { bay = bay; said = First count; lines = lines; certificate = certificate })
        → AreMoveLines (ranked h.sequence bay.1) (start (problem_of (heights_at h.yard.sizes bay.0) h.sequence bay.1)) moves lines
        → IsFirstBest (problem_of (heights_at h.yard.sizes bay.0) h.sequence bay.1) (path_of moves) }
    ensures stated { (h : Handed) (bay : StackedBay) (lines certificate : List ℕ) (count : ℕ) (moves : List Move)
        → IsProblem (problem_of (heights_at h.yard.sizes bay.0) h.sequence bay.1)
        → IsTrueOf h (record { bay = bay; said = First count; lines = lines; certificate = certificate })
        → AreMoveLines (ranked h.sequence bay.1) (start (problem_of (heights_at h.yard.sizes bay.0) h.sequence bay.1)) moves lines
        → (script : Script) × IsScriptOf certificate script × (script.head.plan ≡ Some (path_of moves)) }
{
    true_if_it_looks_so();
    one_plan_is_printed();
}

/// Of a bay whose moves were edited an auditor looks at the printed plan alone, and at the lower bound of a certificate that may be another
/// plan's: no complete plan has fewer relocations than that, and the printed one has as many as is said. Where the numbers meet, they are
/// the fewest.
pub fn edited_plan_is_bounded()
    ensures bounds { (h : Handed) (bay : StackedBay) (lines certificate : List ℕ) (lower upper : ℕ)
        → LooksTrue h (record { bay = bay; said = Between lower (Some upper) Edited; lines = lines; certificate = certificate })
        → Says (problem_of (heights_at h.yard.sizes bay.0) h.sequence bay.1) (Bounds lower (Some upper)) }
    ensures best { (h : Handed) (bay : StackedBay) (lines certificate : List ℕ) (count : ℕ)
        → LooksTrue h (record { bay = bay; said = Between count (Some count) Edited; lines = lines; certificate = certificate })
        → IsBest (problem_of (heights_at h.yard.sizes bay.0) h.sequence bay.1) count }
{
    true_if_it_looks_so();
}
