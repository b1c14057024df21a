//! Why a call failed.
ghost use Rattle.std.specs.Prelude.{◌≡◌};
ghost use Rattle.mc_route.specs.declared.errors.RouteError.TheVariants.{Memory};

use std::alloc::AllocError;
use thiserror::Error;

/// Why a call of this crate failed.
#[derive(Debug, Drop, Error)]
pub enum RouteError {
    /// 1: no memory. Nothing has changed.
    #[error("out of memory")]
    Memory,
}

impl<E: Into<AllocError> + Drop> From<E> for RouteError {
    ghost from_gives = { λ _ e. e ≡ Memory };

    fn from(_e: E) -> RouteError {
        RouteError::Memory
    }
}
