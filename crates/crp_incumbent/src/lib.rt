//! What the workers of a search share: the limit and the claims, two words without a lock, and the board with the best plan.
#![tactic(auto)]

mod best;
mod board;
mod rule;
mod seat;
mod shared;

pub use best::Best;
pub use board::Board;
pub use rule::{Key, KeyedView};
pub use seat::{Seat, SplitRefused, Why};
pub use shared::{Shared, Totals};
