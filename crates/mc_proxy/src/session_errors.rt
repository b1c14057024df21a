//! Why a call of a session failed.
ghost use Rattle.std.specs.Prelude.{◌≡◌};
ghost use Rattle.mc_proxy.specs.declared.session_errors.SessionError.TheVariants.{Memory};

use mc_link::LinkError;
use mc_reply::ReplyError;
use mc_request::ReadError;
use mc_route::RouteError;
use std::alloc::{AllocError, AllocFailed};
use thiserror::Error;

/// Why a call of a session failed.
#[derive(Debug, Drop, Error)]
pub enum SessionError {
    /// 1: no memory. Nothing has changed: no piece or request was taken, no command sent, and no answer emitted.
    #[error("out of memory")]
    Memory,
}

impl From<AllocError> for SessionError {
    ghost from_gives = { λ _ e. e ≡ Memory };

    fn from(_e: AllocError) -> SessionError {
        SessionError::Memory
    }
}

impl From<ReadError> for SessionError {
    ghost from_gives = { λ _ e. e ≡ Memory };

    fn from(_e: ReadError) -> SessionError {
        SessionError::Memory
    }
}

impl From<RouteError> for SessionError {
    ghost from_gives = { λ _ e. e ≡ Memory };

    fn from(_e: RouteError) -> SessionError {
        SessionError::Memory
    }
}

impl From<ReplyError> for SessionError {
    ghost from_gives = { λ _ e. e ≡ Memory };

    fn from(_e: ReplyError) -> SessionError {
        SessionError::Memory
    }
}

impl<T: Drop> From<AllocFailed<T>> for SessionError {
    ghost from_gives = { λ _ e. e ≡ Memory };

    fn from(_e: AllocFailed<T>) -> SessionError {
        SessionError::Memory
    }
}

/// A session reserves room only on links that are up, which can fail only for lack of memory.
impl From<LinkError> for SessionError {
    ghost from_gives = { λ _ e. e ≡ Memory };

    fn from(_e: LinkError) -> SessionError {
        SessionError::Memory
    }
}
