//! Why there is no answer.
ghost use Rattle.std.specs.Prelude.{◌≡◌};
ghost use Rattle.mc_admin.specs.declared.errors.AdminError.TheVariants.{Memory};

use http1::WriteError;
use std::alloc::AllocError;
use thiserror::Error;

/// Why there is no answer.
#[derive(Debug, Drop, Error)]
pub enum AdminError {
    /// 1: no memory.
    #[error("out of memory")]
    Memory,
}

impl From<AllocError> for AdminError {
    ghost from_gives = { λ _ e. e ≡ Memory };

    fn from(_e: AllocError) -> AdminError {
        AdminError::Memory
    }
}

impl From<WriteError> for AdminError {
    ghost from_gives = { λ _ e. e ≡ Memory };

    /// The fields that are written are always valid, so that memory is the only cause.
    fn from(_e: WriteError) -> AdminError {
        AdminError::Memory
    }
}
