/// What became of the bays.
#[derive(Clone, Copy, Debug, PartialEq, Eq)]
pub enum Status {
    /// All are decided.
    Decided,
    /// A budget or a limit of time ended before a bay was decided.
    Budget,
    /// Memory ended before a bay was decided.
    Memory,
}
