/// A container that blocks, and its turn: the least ordered rank beneath it.
#[derive(Clone, Copy, Default, Drop)]
pub struct Blocker {
    pub rank: u8,
    pub turn: u8,
}
