//! What the calls of a session return.

/// What a turn of a session did.
#[derive(Clone, Copy, Debug, PartialEq, Eq)]
pub enum SessionTurn {
    /// One request or fault was taken, and its commands were sent, each to its owner. A command whose link is down is lost.
    Took,
    /// There is no whole request or fault until more bytes arrive.
    Idle,
    /// A whole request or fault waits while one of three marks is reached. [`MAX_UNANSWERED`](crate::MAX_UNANSWERED)
    /// requests are unanswered; or [`UNSENT_MARK`](crate::UNSENT_MARK) bytes are unsent to the client; or
    /// [`LINK_MARK`](crate::LINK_MARK) bytes are unsent on a link that the request needs and that is up.
    Waiting,
    /// The session is closed to input, after `quit` or a line too long.
    Closing,
}

/// What a call of `emit` did.
#[derive(Clone, Copy, Debug, PartialEq, Eq)]
pub enum Emit {
    /// The oldest unanswered request was answered.
    Done,
    /// No request is unanswered, or the outcome of one of its commands is not known yet.
    Idle,
}
