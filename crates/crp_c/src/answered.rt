use crate::known::Known;

/// What the solver answers, beside the plan and the certificate.
#[repr(C)]
#[derive(Clone, Copy)]
pub struct Answered {
    /// What is known.
    pub known: Known,
    /// Why the search ended before the fewest relocations were known: 1 that the budget was spent, 2 that memory ran out; or else 0.
    pub cause: u32,
    /// How many positions were expanded to find the fewest relocations.
    pub expanded: u64,
    /// How many rows the plan has. They are in the buffer where they fit.
    pub plan_size: usize,
    /// How many bytes the certificate has. They are in the buffer where they fit.
    pub certificate_size: usize,
}
