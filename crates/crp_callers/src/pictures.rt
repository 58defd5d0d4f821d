//! Pictures of a bay: what is drawn at a place.
ghost use Rattle.std.specs.Prelude.{◌≡◌, ◌≤◌, ◌∷◌, [], ℕ, List, Some};
ghost use Rattle.crp_said.specs.declared.moves.SaidMove.{SaidMove};
ghost use Rattle.crp_follow.specs.declared.stated.StatedMove.{StatedMove};
ghost use Rattle.crp_picture.specs.Boxes.{times_among};
ghost use Rattle.crp_picture.specs.Cells.{Cell, cells_of};
ghost use Rattle.crp_picture.specs.Frames.{Frame, frame_cells};
ghost use Rattle.crp_picture.specs.Pictures.{boxes, cell_at};
ghost use Rattle.crp_picture.specs.Rectangles.{AreApart, IsBoxIn, IsLabelIn, rectangle_of};
ghost use Rattle.crp_callers.specs.SmallReport.{place, small_rows};
ghost use Rattle.crp_callers.specs.SmallFrame.{frame_with};

use crp_picture::{each_is_drawn_once, places_lie_apart};

/// Whatever moves are made there, the picture of the small bay has one box where MSCU3 stands, and none on top of it or of MSCU2.
pub fn small_bay_is_drawn()
    ensures third { (moves : List SaidMove) → times_among (cells_of moves small_rows) (place 1 2) boxes ≡ 1 }
    ensures above { (moves : List SaidMove) → times_among (cells_of moves small_rows) (place 1 3) boxes ≡ 0 }
    ensures beside { (moves : List SaidMove) → times_among (cells_of moves small_rows) (place 2 2) boxes ≡ 0 }
{
    each_is_drawn_once();
}

/// A frame of the small bay, whatever moves it has, has one box where MSCU3 stands before it. One that puts MSCU3 onto MSCU2 has one there, and
/// one for MSCU2, whatever moves it has behind that.
pub fn frames_are_drawn()
    ensures stands { (moves : List SaidMove) (frame : Frame) → frame.before ≡ small_rows
        → times_among (frame_cells moves frame) (place 1 2) boxes ≡ 1 }
    ensures set_down { (moves : List SaidMove) (behind : List StatedMove) → times_among (frame_cells moves (frame_with behind)) (place 2 2) boxes ≡ 1 }
    ensures beneath { (moves : List SaidMove) (behind : List StatedMove) → times_among (frame_cells moves (frame_with behind)) (place 2 1) boxes ≡ 1 }
{
    each_is_drawn_once();
}

/// Where rows have two tiers, the second places of two rows do not overlap; the box of one lies within it, and so does the label of who stands
/// there.
pub fn second_places_lie_apart()
    ensures apart { (tiers : ℕ) → 2 ≤ tiers → AreApart (rectangle_of tiers (place 1 2)) (rectangle_of tiers (place 2 2)) }
    ensures drawn { IsBoxIn 2 (place 1 2) }
    ensures label { (cells : List Cell) (c : Cell) → cell_at cells 1 2 ≡ Some c → IsLabelIn 2 3 cells (place 1 2) c.name }
{
    places_lie_apart();
}
