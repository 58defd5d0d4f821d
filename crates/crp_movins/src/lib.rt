//! Reads the load orders out of the segments of an interchange: which container is ordered into
//! which slot of the ship (UN/EDIFACT D.95B MOVINS, in this project's profile).
//!
//! `load_orders` answers the orders by place exactly where no segment is faulty, and else the first
//! fault with the number of its segment. What is ordered is said in `specs/LoadOrders.antt`, which
//! fault is the first in `specs/Faults.antt`.
#![tactic(auto)]

mod collected;
mod digits;
mod fault;
mod headed;
mod heading;
mod kind;
mod laws;
mod loading;
mod order;
mod ordering;
mod reading;
mod slot;
mod standing;

pub use fault::MovinsFault;
pub use heading::Heading;
pub use laws::{
    first_fault_is_least, last_is_last, orders_by_places, orders_stand_by_place, vacant_by_places,
};
pub use loading::{Loading, Reference};
pub use order::{Order, Orders};
pub use reading::{MAX_ORDERS, load_orders};
pub use slot::Slot;
