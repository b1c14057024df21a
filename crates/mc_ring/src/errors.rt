//! Errors.
ghost use Rattle.std.specs.Prelude.{◌≡◌};
ghost use Rattle.mc_ring.specs.declared.errors.RingError.TheVariants.{Memory};

use std::alloc::AllocError;
use thiserror::Error;

/// Why there is no ring, or no address. If several causes hold, the least number is returned, `Memory` last.
#[derive(Debug, Drop, Error)]
pub enum RingError {
    /// 1: there is no server, or no point.
    #[error("no server")]
    NoServer,
    /// 2: there are more than 64 servers.
    #[error("more than 64 servers")]
    TooMany,
    /// 3: two servers have equal addresses.
    #[error("server given twice")]
    Doubled,
    /// 4: a text is no address, or a point belongs to a server that is not in the list.
    #[error("bad server address")]
    BadAddress,
    /// 5: no memory.
    #[error("out of memory")]
    Memory,
}

impl<E: Into<AllocError> + Drop> From<E> for RingError {
    ghost from_gives = { λ _ e. e ≡ Memory };

    fn from(_e: E) -> RingError {
        RingError::Memory
    }
}
