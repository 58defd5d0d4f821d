//! When containers leave.
ghost use Rattle.std.specs.Prelude.{◌≡◌, ◌≤◌, length, option_map};
ghost use Rattle.crp_follow.specs.Faults.{is_shift};
ghost use Rattle.crp_follow.specs.Stated.{moves_of};
ghost use Rattle.crp_picture.specs.Cells.{leaves_before, in_fifth, kind_at, blocks};
ghost use Rattle.crp_picture.specs.Frames.{taken_by, takes_first, frame_length, first_taken};

use crate::cell::Kind;
use crate::drawn::DrawnBay;
use crp_follow::StatedMove;
use crp_plan::Container;
use crp_said::SaidMove;

/// Whether a move is a relocation.
pub(crate) fn is_shift(said: &SaidMove) -> bool
    ensures { result ≡ is_shift said.now }
{
    matches!(said, SaidMove::Shift { .. })
}

// The container that a move takes, if it takes one.
fn taken_by(said: &SaidMove) -> Option<&Container>
    ensures { option_map (λ container. container.now) result ≡ taken_by said.now }
{
    match said {
        SaidMove::Shift { .. } => None,
        SaidMove::Take { container, .. } => Some(container),
    }
}

// How many takes the moves begin with.
fn takes_first(moves: &[StatedMove]) -> usize
    ensures value { result ≡ takes_first moves.now }
    ensures among { result ≤ length moves.now }
{
    for (i, stated) in moves.iter().enumerate() {
        if is_shift(&stated.said) {
            return i;
        }
    }
    moves.len()
}

/// How many moves the frame has that the first of these begins.
pub(crate) fn frame_length(moves: &[StatedMove]) -> usize
    ensures value { result ≡ frame_length moves.now }
    ensures among { result ≤ length moves.now }
{
    match moves {
        [] => 0,
        [_, later @ ..] => takes_first(later) + 1,
    }
}

/// The container that is taken first by these moves, if one is.
pub(crate) fn first_taken(moves: &[StatedMove]) -> Option<&Container>
    ensures { option_map (λ container. container.now) result ≡ first_taken moves.now }
{
    for stated in moves {
        if !is_shift(&stated.said) {
            return taken_by(&stated.said);
        }
    }
    None
}

// Whether who leaves at the first step leaves before who leaves at the other.
fn leaves_before(step: u64, other: u64) -> bool
    ensures { result ≡ leaves_before step other }
{
    step > 0 && (other == 0 || step < other)
}

/// Whether one of these leaves the bay before the container.
pub(crate) fn blocks(bay: &DrawnBay<'_>, beneath: &[Container], name: &[u8]) -> bool
    ensures { result ≡ blocks (moves_of bay.now.stated.moves) beneath.now name.now }
{
    let own = bay.step_of(name);
    for below in beneath {
        if leaves_before(bay.step_of(below.bytes()), own) {
            return true;
        }
    }
    false
}

// What a container is drawn as that leaves in this fifth of the moves, from 0.
fn in_fifth(fifth: u128) -> Kind
    ensures { result ≡ in_fifth fifth }
{
    if fifth == 0 {
        Kind::Soonest
    } else if fifth == 1 {
        Kind::Soon
    } else if fifth == 2 {
        Kind::Midway
    } else if fifth == 3 {
        Kind::Late
    } else {
        Kind::Latest
    }
}

/// What a container is drawn as that leaves at this step of so many, or stays.
pub(crate) fn kind_at(step: u64, count: u64) -> Kind
    requires { step ≤ count }
    ensures { result ≡ kind_at step count }
{
    if step == 0 {
        return Kind::Stays;
    }
    in_fifth(5 * u128::from(step - 1) / u128::from(count))
}
