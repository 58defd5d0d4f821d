/// A symbol of one letter.
#[derive(Clone, Copy)]
pub enum Letter {
    /// A cut by the blocking bound.
    B,
    /// A cut by the look-ahead bound.
    L,
    /// A branch.
    X,
    /// A subtree that is given to a part of its own.
    G,
}
