//! What a turn of a link returns.

/// What a turn of a link did.
#[derive(Clone, Copy, Debug, PartialEq, Eq)]
pub enum LinkStep {
    /// The oldest pending command got its reply.
    Took,
    /// No whole reply has arrived.
    Idle,
    /// A protocol violation, so the link is lost: the bytes are no reply to the oldest pending command, or no command is
    /// pending.
    Strange,
}
