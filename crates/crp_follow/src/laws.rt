//! Laws of reports that are followed. Each is the contract of a function that does nothing.
ghost use Rattle.std.specs.Prelude.{◌≡◌, ◌+◌, ◌≤◌, ◌∷◌, ◌++◌, ℕ, List, take, length, Some, None};
ghost use Rattle.crp_yard.specs.Inventory.{Inventory, FitBay, IsYard, times};
ghost use Rattle.crp_said.specs.declared.numbers.Numbers.{Numbers};
ghost use Rattle.crp_said.specs.declared.moves.SaidMove.{SaidMove};
ghost use Rattle.crp_follow.specs.declared.fault.FollowFault.{FollowFault};
ghost use Rattle.crp_follow.specs.Crane.{Stack, Leads};
ghost use Rattle.crp_said.specs.Spelled.{ReportSaid, SpellsReport};
ghost use Rattle.crp_follow.specs.Lines.{Line, after_mark, lines_in, StandsIn};
ghost use Rattle.crp_follow.specs.Stated.{most_bytes, BayStated, States};
ghost use Rattle.crp_follow.specs.Written.{SaysBays};
ghost use Rattle.crp_follow.specs.Kept.{taken_by, times_in, IsTakenAt, IsNextToLeave};
ghost use Rattle.crp_follow.specs.Table.{takes_from, leaves_at, next_to_leave, standing, left_behind};
ghost use Rattle.crp_follow.specs.Faults.{IsFirstFault};
ghost use Rattle.crp_follow.specs.Followed.{BayFollowed, IsFollowed};
ghost use Rattle.crp_follow.specs.Behind.{Made, IsYardBehind};

/// A report is followed in one way at most; then it has no first fault; and it has one first fault at most.
pub fn one_outcome()
    ensures one { (yard : Inventory) (text : List ℕ) (n k : Numbers) (bs cs : List BayFollowed) → IsFollowed yard text n bs → IsFollowed yard text k cs
        → (n ≡ k) × (bs ≡ cs) }
    ensures apart { (yard : Inventory) (text : List ℕ) (n : Numbers) (bays : List BayFollowed) (fault : FollowFault) → IsFollowed yard text n bays
        → ¬ IsFirstFault yard text fault }
    ensures first { (yard : Inventory) (text : List ℕ) (fault other : FollowFault) → IsFirstFault yard text fault → IsFirstFault yard text other
        → fault ≡ other }
{}

/// No move loses a container or makes one: what stands in the rows before moves are made stands there after them or was taken, each
/// container in as many places.
pub fn nothing_is_lost()
    ensures { (heights : List ℕ) (rows after : List Stack) (moves : List SaidMove) (container : List ℕ) → Leads heights rows moves after
        → times_in container rows ≡ times_in container after + times container (taken_by moves) }
{}

/// No row rises above its height.
pub fn stays_within_heights()
    ensures { (heights : List ℕ) (rows after : List Stack) (moves : List SaidMove) → Leads heights rows moves after → FitBay heights rows
        → FitBay heights after }
{}

/// What the columns `leaves`, `for` and `left` of the table say: the move of the step that `leaves` gives takes the container, and where
/// it gives none no move does; `for` names the container that the first take of this step or of a later one takes, and where it names
/// none there is no such take; and `left` counts the containers that stand in the bay after the move.
pub fn what_columns_say()
    ensures leaves { (moves : List SaidMove) (container : List ℕ) (step : ℕ) → leaves_at (takes_from 1 moves) container ≡ Some step
        → IsTakenAt moves step container }
    ensures stays { (moves : List SaidMove) (container : List ℕ) (step : ℕ) → leaves_at (takes_from 1 moves) container ≡ None
        → ¬ IsTakenAt moves step container }
    ensures next { (moves : List SaidMove) (step : ℕ) (container : List ℕ) → next_to_leave (takes_from 1 moves) step ≡ Some container
        → IsNextToLeave moves step container }
    ensures none { (moves : List SaidMove) (step later : ℕ) (container : List ℕ) → next_to_leave (takes_from 1 moves) step ≡ None
        → step ≤ later → ¬ IsTakenAt moves later container }
    ensures left { (heights : List ℕ) (start rows : List Stack) (moves : List SaidMove) (step : ℕ) → Leads heights start (take step moves) rows
        → left_behind (standing start) (takes_from 1 moves) step ≡ standing rows }
{}

/// A report as crp_said reads it, and `solve` writes it, is stated so: where it has no more than 8388608 bytes, its lines below bays are
/// those of moves, and its last line counts the bays.
pub fn written_is_stated()
    ensures { (text : List ℕ) (report : ReportSaid) (bays : List BayStated) → length text ≤ most_bytes → SpellsReport text report → SaysBays report bays
        → States text report.numbers bays }
{}

/// Each line that is read stands in the text, behind a byte order mark if there is one, as a line that is not empty, with LF, CR LF or
/// the end of the text behind it; and its number is one more than the LF before it.
pub fn lines_are_numbered()
    ensures { (text : List ℕ) (before later : List Line) (line : Line) → lines_in text ≡ before ++ line ∷ later → StandsIn (after_mark text) line }
{}

/// What moves leave of a yard is a yard, and one yard only.
pub fn moves_leave_a_yard()
    ensures yard { (yard after : Inventory) (made : List Made) → IsYard yard → IsYardBehind yard made after → IsYard after }
    ensures one { (yard one other : Inventory) (made : List Made) → IsYardBehind yard made one → IsYardBehind yard made other → one ≡ other }
{}
