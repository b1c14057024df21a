//! Why a call of a proxy fails.
ghost use Rattle.std.specs.Prelude.{◌≡◌};
ghost use Rattle.mc_proxy.specs.declared.errors.ProxyError.TheVariants.{Memory};
ghost use Rattle.mc_proxy.specs.Causes.{of_link, of_ring};

use crate::session_errors::SessionError;
use mc_link::LinkError;
use mc_ring::RingError;
use std::alloc::{AllocError, AllocFailed};
use thiserror::Error;

/// Why a call of a proxy failed. Nothing has changed. If several causes hold, the least number is returned, `Memory`
/// last.
#[derive(Debug, Drop, Error)]
pub enum ProxyError {
    /// 1: no session of this number is open.
    #[error("no such session")]
    NoSession,
    /// 2: as many sessions are open as a proxy may have, or no number is left.
    #[error("too many sessions")]
    TooManySessions,
    /// 3: the ring has no server at this place.
    #[error("no such link")]
    NoLink,
    /// 4: the link is down and must be up, or is up and must be down, or no generation is left.
    #[error("link in the wrong state")]
    LinkState,
    /// 5: no memory; returned if no other cause holds. No session was admitted, no piece, request or reply taken, no
    /// answer emitted and no server joined.
    #[error("out of memory")]
    Memory,
    /// 6: the ring has as many servers as it may have.
    #[error("ring is full")]
    RingFull,
    /// 7: the ring has a server of this address.
    #[error("server is in the ring")]
    AlreadyThere,
}

impl From<AllocError> for ProxyError {
    ghost from_gives = { λ _ e. e ≡ Memory };

    fn from(_e: AllocError) -> ProxyError {
        ProxyError::Memory
    }
}

impl<T: Drop> From<AllocFailed<T>> for ProxyError {
    ghost from_gives = { λ _ e. e ≡ Memory };

    fn from(_e: AllocFailed<T>) -> ProxyError {
        ProxyError::Memory
    }
}

impl From<SessionError> for ProxyError {
    ghost from_gives = { λ _ e. e ≡ Memory };

    fn from(_e: SessionError) -> ProxyError {
        ProxyError::Memory
    }
}

impl From<LinkError> for ProxyError {
    ghost from_gives = { λ link e. e ≡ of_link link };

    fn from(e: LinkError) -> ProxyError {
        match e {
            LinkError::State => ProxyError::LinkState,
            LinkError::Memory => ProxyError::Memory,
        }
    }
}

/// Why a server cannot join: with a valid address and ring there is no other cause.
impl From<RingError> for ProxyError {
    ghost from_gives = { λ ring e. e ≡ of_ring ring };

    fn from(e: RingError) -> ProxyError {
        match e {
            RingError::TooMany => ProxyError::RingFull,
            RingError::Doubled => ProxyError::AlreadyThere,
            RingError::NoServer | RingError::BadAddress | RingError::Memory => ProxyError::Memory,
        }
    }
}
