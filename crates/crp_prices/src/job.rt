/// A container, by its rank, that comes up in the turn of a rank. Ranks count from 1.
#[derive(Clone, Copy, Default, Drop)]
pub struct Job {
    pub rank: u8,
    pub turn: u8,
}

/// A job with a mark: whether it is a later one. Ranks count from 1.
#[derive(Clone, Copy, Default, Drop)]
pub struct MarkedJob {
    pub rank: u8,
    pub turn: u8,
    pub is_later: bool,
}
