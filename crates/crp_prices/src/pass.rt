//! What the pass has at hand.
use crate::job::MarkedJob;

/// All jobs of a position in the order in which they are read, for each turn the index of the first that is not before it, and the table of prices.
#[derive(Drop)]
pub(crate) struct Pass<'a> {
    pub(crate) table: &'a [u16],
    pub(crate) unit: u32,
    pub(crate) ordered: u8,
    pub(crate) jobs: &'a [MarkedJob],
    pub(crate) starts: [usize; 98],
}
