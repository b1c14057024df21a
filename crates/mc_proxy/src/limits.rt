//! The limits of a proxy.

/// The most sessions that are open at a time.
pub const MAX_SESSIONS: usize = 1024;
