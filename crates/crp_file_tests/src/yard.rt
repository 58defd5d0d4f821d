//! What no contract says: texts of faults, damaged lists, sizes, and devices that fail.
mod damage;
mod devices;
mod faults;
mod lists;
mod sizes;

use crate::calls::yard_of;
use crp_yard::YardFault;
use std::alloc::Global;

/// Six containers in one bay.
const SIX: &[u8] = b"block,bay,row,tier,container
A,1,1,1,C1
A,1,1,2,C5
A,1,1,3,C4
A,1,2,1,C6
A,1,3,1,C3
A,1,3,2,C2
";

/// The fault of a list for three rows and three tiers.
fn fault_of(alloc: Global, text: &[u8]) -> Option<YardFault> {
    yard_of(alloc, text, 3, 3).err()
}
