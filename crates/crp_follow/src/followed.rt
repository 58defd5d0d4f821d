//! A report that is followed.

use crate::row::Row;
use crate::stated::StatedBay;
use crp_said::Numbers;

/// A bay whose moves are followed: what the report states of it, and its rows before the first move and after the last.
#[derive(Drop)]
pub struct FollowedBay {
    pub stated: StatedBay,
    pub start: Vec<Row>,
    pub after: Vec<Row>,
}

/// A report whose moves are followed: its three numbers, and its bays in its order.
#[derive(Drop)]
pub struct Followed {
    pub numbers: Numbers,
    pub bays: Vec<FollowedBay>,
}
