//! How far plans reach in their bays.
ghost use Rattle.std.specs.Prelude.{◌≡◌, []};
ghost use Rattle.crp_notes.specs.Beyond.{puts_into, lifts_from, standing_in, lands_beyond, go_beyond};

use crp_plan::{Move, Problem};

// Whether a move puts a container into a row.
fn puts_into(row: u8, made: &Move) -> bool
    ensures { result ≡ puts_into row made.now }
{
    match made {
        Move::Shift { to, .. } => *to == row,
        Move::Take { .. } => false,
    }
}

// Whether a move lifts a container from a row.
fn lifts_from(row: u8, made: &Move) -> bool
    ensures { result ≡ lifts_from row made.now }
{
    match made {
        Move::Shift { from, .. } => *from == row,
        Move::Take { row: from } => *from == row,
    }
}

// How many containers stand in a row of a bay behind these moves.
fn standing_in(problem: &Problem, moves: &[Move], row: u8) -> usize
    ensures { result ≡ standing_in problem.now.stacks moves.now row }
{
    let stood = match problem.stacks().get((row as usize).saturating_sub(1)) {
        Some(stack) => stack.height(),
        None => 0,
    };
    let put = moves.iter().filter(|made| puts_into(row, made)).count();
    let lifted = moves.iter().filter(|made| lifts_from(row, made)).count();
    (stood + put).saturating_sub(lifted)
}

// Whether a move puts a container into a row beyond this one, or above this tier, behind the moves before it.
fn lands_beyond(problem: &Problem, before: &[Move], made: &Move, row: u8, tier: usize) -> bool
    ensures { result ≡ lands_beyond row tier problem.now.stacks before.now made.now }
{
    match made {
        Move::Shift { to, .. } => row < *to || tier <= standing_in(problem, before, *to),
        Move::Take { .. } => false,
    }
}

/// Whether one of the moves of a plan puts a container into a row beyond this one, or above this tier.
pub(crate) fn go_beyond(problem: &Problem, moves: &[Move], row: u8, tier: usize) -> bool
    ensures { result ≡ go_beyond row tier problem.now.stacks [] moves.now }
{
    for i in 0..moves.len() {
        if lands_beyond(problem, &moves[..i], &moves[i], row, tier) {
            return true;
        }
    }
    false
}
