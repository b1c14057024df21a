//! The version of all programs.

/// The version of all programs, and the protocol that they speak: `--version` prints it behind a program's name. A package has the same
/// number.
pub const VERSION: &str = "1.0.0 (memcached text protocol 1.6)";
