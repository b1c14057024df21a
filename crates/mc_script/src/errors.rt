//! Why a script was not run to its end.
ghost use Rattle.std.specs.Prelude.{◌≡◌};
ghost use Rattle.mc_script.specs.declared.errors.SimError.TheVariants.{Memory};
ghost use Rattle.mc_script.specs.Statuses.{status_of};

use std::alloc::AllocError;
use thiserror::Error;

/// Why a script was not run to its end.
#[derive(Debug, Drop, Error)]
pub enum SimError {
    /// 1: the line of this number, counted from 1, is no line of a script. It is the first such line.
    #[error("line {0}: bad line")]
    BadLine(u64),
    /// 2: a read failed, or the input did not end; or a write failed.
    #[error("input or output failed")]
    Stream(Side),
    /// 3: memory was refused.
    #[error("out of memory")]
    Memory,
}

/// Which of a run's two streams failed.
#[derive(Clone, Copy, Debug, PartialEq, Eq)]
pub enum Side {
    /// The reader of the script.
    Input,
    /// The writer of the lines.
    Output,
}

impl SimError {
    /// The exit status of a program that ends by this error.
    pub fn status(&self) -> u8
        ensures { result ≡ status_of self.now }
    {
        match self {
            SimError::BadLine(_) => 2,
            SimError::Stream(_) => 3,
            SimError::Memory => 4,
        }
    }
}

impl<E: Into<AllocError> + Drop> From<E> for SimError {
    ghost from_gives = { λ _ e. e ≡ Memory };

    fn from(_e: E) -> SimError {
        SimError::Memory
    }
}
