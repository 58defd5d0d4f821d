//! The numbers of what is ordered.

use crp_said::Numbers;

/// What is ordered, and who says so: the yard and the message, from which it is counted, or the report alone, which states it.
#[derive(Clone, Copy)]
pub enum OrderNumbers {
    Counted(Numbers),
    Stated(Numbers),
}
