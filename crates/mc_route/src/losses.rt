//! The site's choice for lost commands.

/// What a request is answered if a command of it was lost.
#[derive(Clone, Copy, Debug, PartialEq, Eq)]
pub enum Losses {
    /// `SERVER_ERROR link lost`, whatever the request is.
    Told,
    /// A retrieval counts the command as a miss. Another request that hides its reply, by `noreply` or `q`, gets no answer. Every other
    /// one gets `SERVER_ERROR link lost`, so no store, deletion or count that was lost is confirmed.
    Missed,
}
