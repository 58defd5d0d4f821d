//! What the definitions of pictures mean.
ghost use Rattle.std.specs.Prelude.{◌≡◌, ◌≢◌, ◌≤◌, ◌+◌, ℕ, List, Some, is_some};
ghost use Rattle.crp_said.specs.declared.moves.Place.{Place};
ghost use Rattle.crp_said.specs.declared.moves.SaidMove.{SaidMove};
ghost use Rattle.crp_follow.specs.Crane.{Stack};
ghost use Rattle.crp_picture.specs.Boxes.{one_if, times_among, standing_at, goal_is_at};
ghost use Rattle.crp_picture.specs.Pictures.{boxes, cell_at};
ghost use Rattle.crp_picture.specs.Rectangles.{rectangle_of, IsPlaceUnder, AreApart, IsBoxIn, IsLabelIn};
ghost use Rattle.crp_picture.specs.Cells.{Cell as CellSaid, cells_of};
ghost use Rattle.crp_picture.specs.Frames.{Frame as FrameSaid, frame_cells};

/// At each place one box is drawn where a container stands there, over all kinds, and none elsewhere; in a frame also one where its
/// relocation puts its container.
pub fn each_is_drawn_once()
    ensures position { (moves : List SaidMove) (rows : List Stack) (place : Place)
        → times_among (cells_of moves rows) place boxes ≡ one_if (is_some (standing_at rows place)) }
    ensures frame { (moves : List SaidMove) (f : FrameSaid) (place : Place)
        → times_among (frame_cells moves f) place boxes ≡ one_if (is_some (standing_at f.before place)) + one_if (goal_is_at f.before f.moves place) }
{}

/// Different places do not overlap in a picture; the box of a place lies within it; and so, from left to right, does the label of the
/// container that stands there.
pub fn places_lie_apart()
    ensures apart { (tiers : ℕ) (a b : Place) → IsPlaceUnder tiers a → IsPlaceUnder tiers b → a ≢ b → AreApart (rectangle_of tiers a) (rectangle_of tiers b) }
    ensures drawn { (tiers : ℕ) (p : Place) → IsBoxIn tiers p }
    ensures label { (tiers rows : ℕ) (cells : List CellSaid) (p : Place) (c : CellSaid) → 1 ≤ p.row → p.row ≤ rows → cell_at cells p.row p.tier ≡ Some c
        → IsLabelIn tiers rows cells p c.name }
{}
