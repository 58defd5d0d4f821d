//! Laws of reports. Each is the contract of a function that does nothing.
ghost use Rattle.std.specs.Prelude.{◌≡◌, ◌++◌, ℕ, List, length, All};
ghost use Rattle.crp_plan.specs.declared.moves.Move.{Move};
ghost use Rattle.crp_plan.specs.Bay.{Problem, IsPlan, start};
ghost use Rattle.crp_yard.specs.Naming.{FitsLine};
ghost use Rattle.crp_said.specs.declared.moves.SaidMove.{SaidMove};
ghost use Rattle.crp_said.specs.MoveLines.{move_words, AreMoveLines};
ghost use Rattle.crp_said.specs.TakeLines.{taken_in};
ghost use Rattle.crp_said.specs.Spelled.{ReportSaid, SpellsReport, IsMisspelled, CanBeStated};

/// A text is one report's at most; it is none where a line is misspelled, and one line at most is the first that is.
pub fn one_report()
    ensures one { (text : List ℕ) (r q : ReportSaid) → SpellsReport text r → SpellsReport text q → r ≡ q }
    ensures apart { (text : List ℕ) (r : ReportSaid) (line : ℕ) → SpellsReport text r → ¬ IsMisspelled text line }
    ensures first { (text : List ℕ) (line other : ℕ) → IsMisspelled text line → IsMisspelled text other → line ≡ other }
{}

/// A line states one move at most.
pub fn one_move()
    ensures { (m n : SaidMove) → CanBeStated m → CanBeStated n → move_words m ≡ move_words n → m ≡ n }
{}

/// The take lines of a complete plan name the containers of the first ranks, in their order: as many as are to leave.
pub fn takes_are_in_order()
    ensures { (p : Problem) (leaving staying : List (List ℕ)) (moves : List Move) (text : List ℕ)
        → All FitsLine (leaving ++ staying) → length leaving ≡ p.ordered → IsPlan p moves
        → AreMoveLines (leaving ++ staying) (start p) moves text → taken_in text ≡ leaving }
{}
