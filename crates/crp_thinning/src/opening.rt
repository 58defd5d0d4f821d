//! Rows that are open.
ghost use Rattle.std.specs.Prelude.{◌≡◌, ◌≤◌};
ghost use Rattle.crp_chains.specs.Chains.{open_rows as rows_open};

use crate::looking::{height, rows, stack};
use crate::track::Track;
use crp_chains::{Blocker, is_open_to_any};

/// How many rows are open to any of a chain.
pub fn open_rows(track: &Track, chain: &[Blocker]) -> u32
    ensures value { result ≡ rows_open track.now.place chain.now }
    ensures few { result ≤ 12 }
{
    let mut count: u32 = 0;
    for row in 1..rows(track) + 1 {
        if is_open_to_any(
            track.ordered(),
            height(track, row),
            stack(track, row),
            chain,
        ) {
            count += 1;
        }
    }
    count
}
