//! The marks at which a session's turns wait.

/// This number of unanswered requests stops a session's turns.
pub const MAX_UNANSWERED: usize = 1024;

/// This number of unsent bytes to its client stops a session's turns: 4 MiB.
pub const UNSENT_MARK: usize = 4_194_304;

/// This number of unsent bytes on a link that is up stops the turns that need it: 8 MiB.
pub const LINK_MARK: usize = 8_388_608;
