//! What is counted of the bays of a report.
ghost use Rattle.std.specs.Prelude.{◌≡◌, ◌≤◌, ◌-◌, ◌*◌, ◌^◌, map};
ghost use Rattle.std.specs.List.{AllByRecursion};
ghost use Rattle.crp_follow.specs.Views.{bay_followed};
ghost use Rattle.crp_page.specs.Counts.{counts_of, sums_of, decided_in};
ghost use Rattle.crp_page.specs.Few.{LeaveFew};

use crp_follow::{FollowedBay, relocations_of, standing};

/// Four numbers of a bay or of all bays: its moves, how many of them are relocations, how many takes, and the containers that are left.
#[derive(Clone, Copy)]
pub struct Counts {
    pub moves: u128,
    pub relocations: u128,
    pub takes: u128,
    pub left: u128,
}

/// The numbers of a bay.
pub(crate) fn counts_of(bay: &FollowedBay) -> Counts
    requires { LeaveFew (bay_followed bay.now) }
    ensures value { result ≡ counts_of (bay_followed bay.now) }
    ensures moves { result.moves ≤ 2 ^ 64 - 1 }
    ensures relocations { result.relocations ≤ 2 ^ 64 - 1 }
    ensures takes { result.takes ≤ 2 ^ 64 - 1 }
    ensures left { result.left ≤ 96 }
{
    let moves = bay.stated.moves.len();
    let relocations = relocations_of(&bay.stated.moves);
    let takes = moves - relocations;
    let left = standing(&bay.after);
    Counts {
        moves: moves as u128,
        relocations: relocations as u128,
        takes: takes as u128,
        left: left as u128,
    }
}

/// The sums of these numbers.
pub(crate) fn sums_of(bays: &[FollowedBay]) -> Counts
    requires { AllByRecursion LeaveFew (map bay_followed bays.now) }
    ensures value { result ≡ sums_of (map bay_followed bays.now) }
    ensures takes { result.takes ≤ (2 ^ 64 - 1) * (2 ^ 64 - 1) }
{
    let mut sums = Counts {
        moves: 0,
        relocations: 0,
        takes: 0,
        left: 0,
    };
    for bay in bays {
        let counts = counts_of(bay);
        sums.moves += counts.moves;
        sums.relocations += counts.relocations;
        sums.takes += counts.takes;
        sums.left += counts.left;
    }
    sums
}

/// How many bays are decided.
pub(crate) fn decided_in(bays: &[FollowedBay]) -> usize
    ensures { result ≡ decided_in (map bay_followed bays.now) }
{
    let mut count: usize = 0;
    for bay in bays {
        if bay.stated.said.is_settled() {
            count += 1;
        }
    }
    count
}
