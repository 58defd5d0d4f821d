/// The container that every legal relocation moves: its rank, and the row in which it stands.
#[derive(Clone, Copy, Drop)]
pub struct Mover {
    pub rank: u8,
    pub row: u8,
}
