//! The words of a program.
ghost use Rattle.std.specs.Prelude.{◌≡◌};
ghost use Rattle.std.specs.IoError.{error_kind};
ghost use Rattle.mc_program.specs.Statuses.{failure_of};

use crate::errors::ServeError;
use crate::failures::Failure;
use std::rt::Env;
use std::{env, io};

/// Returns the words with which the program was started, its own name first.
pub fn read_words<R: Env + AllocGlobal>(rt: &R) -> Result<Vec<String>, Failure> {
    let alloc = rt.alloc();
    let words = env::args(rt).map_err(|error| failure_of(&error))?;
    Ok(words.collect(alloc)?)
}

/// Returns the failure of an error of reading the words.
fn failure_of(error: &io::Error) -> Failure
    ensures { result ≡ failure_of (error_kind error.now) }
{
    if error.kind() == io::ErrorKind::OutOfMemory {
        Failure::Serve(ServeError::Memory)
    } else {
        Failure::NoText
    }
}
