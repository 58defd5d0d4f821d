//! A bay that is drawn.
ghost use Rattle.std.specs.Prelude.{◌≡◌, ◌≤◌, length, IfOk};
ghost use Rattle.crp_follow.specs.Stated.{moves_of};
ghost use Rattle.crp_follow.specs.Views.{bay_followed};
ghost use Rattle.crp_picture.specs.Cells.{step_of};

use crp_follow::{FollowedBay, Taken, leaves_at, takes_of};
use std::alloc::{AllocError, Global};
use std::marker::Model;

/// A bay whose pictures are drawn: what is followed of it, and the containers that leave it, each with its step. These are found once, and
/// are few, however many moves there are.
#[derive(Drop)]
pub struct DrawnBay<'a> {
    followed: &'a FollowedBay,
    takes: Vec<Taken<'a>>,
}

impl<'a> Model for DrawnBay<'a> {
    ghost use Rattle.std.specs.Prelude.{◌≡◌, map};
    ghost use Rattle.crp_follow.specs.Followed.{BayFollowed};
    ghost use Rattle.crp_follow.specs.Stated.{moves_of};
    ghost use Rattle.crp_follow.specs.Table.{takes_from};
    ghost use Rattle.crp_follow.specs.Views.{bay_followed, taken_as};

    ghost Value = { BayFollowed };

    ghost view = { λ a. bay_followed a.followed.now };

    ghost invariant = { λ a. map taken_as a.takes.items ≡ takes_from 1 (moves_of a.followed.now.stated.moves.items) };
}

impl<'a> DrawnBay<'a> {
    /// The bay that is followed.
    pub fn of(alloc: Global, followed: &'a FollowedBay) -> Result<DrawnBay<'a>, AllocError>
        ensures { IfOk result (λ bay. bay ≡ bay_followed followed.now) }
    {
        let takes = takes_of(alloc, &followed.stated.moves)?;
        Ok(DrawnBay { followed, takes })
    }

    /// What is followed of the bay.
    pub fn followed(&self) -> &'a FollowedBay
        ensures { bay_followed result.now ≡ self.now }
    {
        self.followed
    }

    /// How many moves the bay has.
    pub(crate) fn count(&self) -> u64
        ensures { result ≡ length self.now.stated.moves }
    {
        self.followed.stated.moves.len() as u64
    }

    /// The step at which the container leaves the bay, from 1; 0 where it stays.
    pub(crate) fn step_of(&self, name: &[u8]) -> u64
        ensures value { result ≡ step_of (moves_of self.now.stated.moves) name.now }
        ensures among { result ≤ length self.now.stated.moves }
    {
        match leaves_at(&self.takes, name) {
            Some(step) => step,
            None => 0,
        }
    }
}
