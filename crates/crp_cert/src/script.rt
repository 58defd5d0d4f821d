use crate::head::Head;
use crate::parts::Parts;

/// What a whole certificate says: its head, and the parts of the search that it rests on.
#[derive(Drop)]
pub struct Script {
    /// The lines down to `plan`.
    pub head: Head,
    /// The part lines, in order.
    pub parts: Parts,
}
