//! The three numbers of a report.

/// The loading orders, the loading groups without a container, and the ordered containers that are not in the yard.
#[derive(Clone, Copy, Debug, PartialEq, Eq)]
pub struct Numbers {
    pub orders: u64,
    pub vacant: u64,
    pub absent: u64,
}
