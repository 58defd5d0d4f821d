/// What one more byte of reasons leads to.
#[derive(Clone, Copy, Debug, Drop, PartialEq, Eq)]
pub enum Step {
    /// The reasons go on.
    On,
    /// The reasons are whole.
    Ended {
        /// How many relocations they are to show.
        number: u8,
        /// Whether they do, at the position that was given.
        shown: bool,
    },
    /// No reasons begin so.
    Wrong,
}
