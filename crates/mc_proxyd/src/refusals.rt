//! Why a request is refused, as it is printed.

use std::fmt;
use std::fmt::{Display, Formatter};

/// Why a request is refused, and its client closed.
#[derive(Clone, Copy, Debug)]
pub enum Refused {
    /// More than this number of bytes is kept for it, of which its answer is made.
    Answer(u64),
    /// It goes on only if more than this number of bytes is kept for its client, which is more than may be.
    Room(u64),
}

impl Display for Refused {
    fn fmt<W: fmt::Write>(&self, f: &mut Formatter<W>) -> fmt::Result {
        match self {
            Refused::Answer(bytes) => { write!(f, "its answer may have more than {bytes} bytes") }
            Refused::Room(bytes) => write!(f, "it needs more than {bytes} bytes of memory"),
        }
    }
}
