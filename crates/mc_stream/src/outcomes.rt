//! How a pump ends.

/// How a pump left a stream, and what is behind it.
#[derive(Clone, Copy, Debug, PartialEq, Eq)]
pub enum Pumped {
    /// Its rounds are used up, or a system call was interrupted: it may go on at once.
    Again,
    /// Neither side can go on until the stream has more bytes, or takes more.
    Blocked,
    /// The input has ended, or is read no further, and everything that arrived whole is answered and sent.
    Done,
    /// The stream failed or took nothing, a call was refused memory, or nothing is behind the stream. The caller closes it.
    Failed,
}
