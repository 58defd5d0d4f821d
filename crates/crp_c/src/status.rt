//! What a call returns.

/// It is done.
pub const DONE: u32 = 0;

/// No memory is left.
pub const MEMORY: u32 = 1;

/// The certificate is refused.
pub const REFUSED: u32 = 2;
