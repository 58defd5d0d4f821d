//! Reads and writes yard lists, and keeps what stands in the yard.
//!
//! A yard list is CSV with a header and a record for each container. `read_yard` answers the inventory
//! that the records give exactly where none has a fault, and else the first fault with the number of its
//! record. What an inventory is is said in `specs/Inventory.antt`, which fault is the first in
//! `specs/Faults.antt`, and how a yard stands after plans in `specs/After.antt`.
#![tactic(auto)]

mod bay_plan;
mod building;
mod containers;
mod fault;
mod fields;
mod floating;
mod laws;
mod leaving;
mod listing;
mod names;
mod place;
mod reading;
mod records;
mod stacks;
mod writing;
mod yard;

pub use bay_plan::{BayPlan, after};
pub use containers::Containers;
pub use crp_sizes::MAX_BYTES;
pub use fault::YardFault;
pub use laws::{
    each_stands_in_its_place, first_fault_is_least, floating_by_places, inventory_by_places,
    places_read_back, plans_leave_a_yard, text_reads_back,
};
pub use reading::{read_yard, read_yard_sizes, yard_of, yard_of_sizes};
pub use records::MAX_CONTAINERS;
pub use writing::{YardList, write_yard, yard_text};
pub use yard::Yard;
