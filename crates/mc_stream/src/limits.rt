//! The limits of a pump.

/// The most rounds of one call of a pump: each writes at most once, and reads at most once.
pub const MAX_ROUNDS: u32 = 16;
