//! Why a job was not played to its end.
ghost use Rattle.std.specs.Prelude.{◌≡◌};
ghost use Rattle.mc_jobs.specs.declared.errors.JobError.TheVariants.{Memory, Refused};

use mc_proxy::ProxyError;
use mc_ring::RingError;
use mc_server::ServerError;
use std::alloc::{AllocError, AllocFailed};
use thiserror::Error;

/// Why a job was not played to its end.
#[derive(Debug, Drop, Error)]
pub enum JobError {
    /// Memory was refused.
    #[error("out of memory")]
    Memory,
    /// A call of a server, a proxy, a ring or a script was refused.
    #[error("a call was refused")]
    Refused,
}

impl From<AllocError> for JobError {
    ghost from_gives = { λ _ e. e ≡ Memory };

    fn from(_e: AllocError) -> JobError {
        JobError::Memory
    }
}

impl<T: Drop> From<AllocFailed<T>> for JobError {
    ghost from_gives = { λ _ e. e ≡ Memory };

    fn from(_e: AllocFailed<T>) -> JobError {
        JobError::Memory
    }
}

impl From<ServerError> for JobError {
    ghost from_gives = { λ _ e. e ≡ Refused };

    fn from(_e: ServerError) -> JobError {
        JobError::Refused
    }
}

impl From<ProxyError> for JobError {
    ghost from_gives = { λ _ e. e ≡ Refused };

    fn from(_e: ProxyError) -> JobError {
        JobError::Refused
    }
}

impl From<RingError> for JobError {
    ghost from_gives = { λ _ e. e ≡ Refused };

    fn from(_e: RingError) -> JobError {
        JobError::Refused
    }
}
