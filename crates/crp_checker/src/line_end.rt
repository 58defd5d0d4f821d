use crate::given_names::GivenNames;
use crate::wrong::Wrong;

/// What the symbols of a part line are, once the line ends.
#[derive(Drop)]
pub enum LineEnd {
    /// A byte is none of the symbols, or the first symbol is `G`.
    Unknown,
    /// Symbols follow the tree.
    Trailing,
    /// The symbols end before the tree does.
    Unfinished,
    /// The symbols are those of a tree.
    Whole {
        /// Its first wrong node, if it has one.
        wrong: Option<Wrong>,
        /// The names that it gives.
        given: GivenNames,
    },
}
