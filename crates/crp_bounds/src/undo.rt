/// What was known before a push: of the container that it moved the least ordered rank at or below it, and the blocking bound.
#[derive(Clone, Copy, Default, Drop)]
pub struct Undo {
    pub rank: u8,
    pub least: u8,
    pub blocking: u8,
}
