//! Why a call of a world fails.
ghost use Rattle.std.specs.Prelude.{◌≡◌};
ghost use Rattle.mc_world.specs.declared.errors.WorldError.TheVariants.{Memory};

use mc_proxy::ProxyError;
use mc_server::ServerError;
use std::alloc::{AllocError, AllocFailed};
use thiserror::Error;

/// What a step did.
#[derive(Clone, Copy, Debug, PartialEq, Eq)]
pub enum Step {
    /// The event was executed.
    Done,
    /// The event did not apply. Nothing has changed.
    Nothing,
}

/// Why a call of a world failed. Nothing has changed; at `Memory` [`World::drain`](crate::World::drain) and
/// [`World::restart_proxy`](crate::World::restart_proxy) may have done a part.
#[derive(Debug, Drop, Error)]
pub enum WorldError {
    /// 1: memory was refused.
    #[error("out of memory")]
    Memory,
    /// 2: no proxy, or more than 64; more than 1,024 clients; bounds that no cache may have; or a number of stores that is not
    /// the number of servers.
    #[error("bad world")]
    BadWorld,
    /// 3: the ring has 64 servers.
    #[error("the ring is full")]
    RingFull,
    /// 4: the ring has a server of this address.
    #[error("the server is there already")]
    AlreadyThere,
    /// 5: no server has this place, or a proxy that is to learn one knows all.
    #[error("no such server")]
    NoServer,
    /// 6: no proxy has this number.
    #[error("no such proxy")]
    NoProxy,
    /// 7: a new server cannot join at a proxy that has not learned all servers.
    #[error("the proxy has not learned all servers")]
    Behind,
}

impl From<AllocError> for WorldError {
    ghost from_gives = { λ _ e. e ≡ Memory };

    fn from(_e: AllocError) -> WorldError {
        WorldError::Memory
    }
}

impl<T: Drop> From<AllocFailed<T>> for WorldError {
    ghost from_gives = { λ _ e. e ≡ Memory };

    fn from(_e: AllocFailed<T>) -> WorldError {
        WorldError::Memory
    }
}

impl From<ProxyError> for WorldError {
    ghost from_gives = { λ _ e. e ≡ Memory };

    fn from(_e: ProxyError) -> WorldError {
        WorldError::Memory
    }
}

impl From<ServerError> for WorldError {
    ghost from_gives = { λ _ e. e ≡ Memory };

    fn from(_e: ServerError) -> WorldError {
        WorldError::Memory
    }
}
