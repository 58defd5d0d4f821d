//! The rows of a thinned position, counted from 1.
ghost use Rattle.std.specs.Prelude.{◌≡◌, ◌≤◌, ◌-◌, length, Some, slice_get};
ghost use Rattle.crp_thinning.specs.Steps.{IsFine};

use crate::track::Track;

/// How many rows the bay has.
#[inline]
pub fn rows(track: &Track) -> u8
    ensures value { result ≡ length track.now.place.heights }
    ensures few { result ≤ 12 }
    ensures fine { IsFine (length track.now.steps) track.now.place }
{
    track.heights().len() as u8
}

/// How many containers a row can hold.
#[inline]
pub fn height(track: &Track, row: u8) -> u8
    requires counts { 1 ≤ row }
    requires there { row ≤ length track.now.place.heights }
    ensures { slice_get track.now.place.heights (row - 1) ≡ Some result }
{
    track.heights()[row as usize - 1]
}

/// The ranks of a row from bottom to top.
#[inline]
pub fn stack(track: &Track, row: u8) -> &[u8]
    requires counts { 1 ≤ row }
    requires there { row ≤ length track.now.place.heights }
    ensures value { slice_get track.now.place.stacks (row - 1) ≡ Some result.now }
    ensures low { length result.now ≤ 8 }
    ensures fine { IsFine (length track.now.steps) track.now.place }
{
    track.stacks()[row as usize - 1].ranks()
}
