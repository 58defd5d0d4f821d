//! What symbols mean, for the crates above.
ghost use Rattle.std.specs.Prelude.{◌≡◌, ℕ, ◌≤◌, List, ◌++◌};
ghost use Rattle.crp_plan.specs.declared.moves.Move.{Move};
ghost use Rattle.crp_plan.specs.Bay.{Position, Completes, relocations};
ghost use Rattle.crp_bay.specs.Reached.{IsReached};
ghost use Rattle.crp_thinning.specs.Symbols.{Closes};

/// Symbols that close a position of a bay show that every way from it to the end has as many relocations.
pub fn closed_means()
    ensures { (s : Position) (need : ℕ) (text : List ℕ) (moves : List Move) → IsReached s → Closes s need text → Completes s moves → need ≤ relocations moves }
{}
