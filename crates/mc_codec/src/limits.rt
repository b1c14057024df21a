//! Limits of the numbers in replies.

/// The greatest number of 64 bits. It bounds what `incr` and `decr` answer, items' numbers, and seconds.
pub const NUMBER_LIMIT: u64 = 18_446_744_073_709_551_615;

/// The greatest client flags.
pub const FLAGS_LIMIT: u64 = 4_294_967_295;
