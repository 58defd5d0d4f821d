/// Where trees are owed, seen from a position that is changed in place.
#[derive(Clone, Copy)]
pub enum Next {
    /// At the position, and nowhere else.
    Here,
    /// At legal rows behind those that the path has for the branches that are open, one at least.
    Behind,
    /// Nowhere.
    Nowhere,
}
