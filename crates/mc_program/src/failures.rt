//! Why a program ends with another status than 0, or by words that ask for its version.
ghost use Rattle.std.specs.Prelude.{◌≡◌, MatchResult, false};
ghost use Rattle.mc_program.specs.Statuses.{Tells, failure_by, status_of, status_of_error};
ghost use Rattle.mc_program.specs.declared.failures.Failure.TheVariants.{Serve};
ghost use Rattle.mc_program.specs.declared.errors.ServeError.TheVariants.{Memory};

use crate::errors::{ListenError, ServeError};
use clap::error::ErrorKind;
use std::alloc::AllocError;
use std::io;

/// Why a program ends with another status than 0, or by words that ask for its version.
#[derive(Debug, Drop)]
pub enum Failure {
    /// The words are refused by the command line, or ask for help or the version.
    Words(clap::Error),
    /// A word is no text in UTF-8.
    NoText,
    /// The words are refused by the program, which says why.
    Refused(&'static str),
    /// Standard output cannot be written.
    Output,
    /// The program cannot serve.
    Serve(ServeError),
    /// The program cannot listen at a place, and its operator reads why.
    Listen(String, ListenError),
}

impl Failure {
    /// Makes the failure of a program that cannot serve at a place. It has the place and the cause if the operator reads them
    /// ([`is_read`](crate::is_read)), and there is memory for that.
    pub fn at<R: AllocGlobal>(rt: &R, error: ServeError, place: &str, is_read: bool) -> Failure
        ensures status { status_of result ≡ status_of_error error }
        ensures told { Tells place.now error result }
        ensures unread { is_read ≡ false → result ≡ Serve error }
    {
        if let ServeError::Listen(cause) = &error
            && is_read
            && let Ok(place) = place.to_string(rt.alloc())
        {
            return Failure::Listen(place, *cause);
        }
        Failure::Serve(error)
    }

    /// Returns the exit status.
    pub fn status(&self) -> u8
        ensures { result ≡ status_of self.now }
    {
        match self {
            Failure::Output => 1,
            Failure::Words(error) if error.kind() == ErrorKind::DisplayVersion => 0,
            Failure::Words(_) | Failure::NoText | Failure::Refused(_) => 2,
            Failure::Serve(error) => error.status(),
            Failure::Listen(_, _) => 3,
        }
    }

    /// Prints it on standard error, as the program of a name, in a line or two; a text of help, and the version, go to standard
    /// output.
    pub fn tell<R: Print + Eprint>(&self, rt: &R, program: &str) {
        // Best effort: if this write fails, the status alone reports the failure.
        let _ = match self {
            Failure::Words(error) => error.print(rt),
            Failure::NoText => eprintln!(rt; "{program}: a word is no text in UTF-8"),
            Failure::Refused(why) => eprintln!(rt; "{program}: {why}"),
            Failure::Output => eprintln!(rt; "{program}: output failed"),
            Failure::Serve(error) => eprintln!(rt; "{program}: {error}"),
            Failure::Listen(place, cause) => tell_place(rt, program, place, *cause),
        };
    }
}

/// Prints that a program cannot listen at a place, and why.
fn tell_place<R: Eprint>(rt: &R, program: &str, place: &str, cause: ListenError) -> io::Result<()> {
    eprintln!(rt; "{program}: cannot listen")?;
    eprintln!(rt; "{program}: {place}: {cause}")
}

/// Returns the exit status of a run: 0 if it ended without a failure, and else that of its failure.
pub fn exit_status(served: &Result<(), Failure>) -> u8
    ensures { MatchResult served.now (λ _. result ≡ 0) (λ failure. result ≡ status_of failure) }
{
    match served {
        Ok(()) => 0,
        Err(failure) => failure.status(),
    }
}

impl From<clap::Error> for Failure {
    ghost from_gives = { λ error failure. failure ≡ failure_by error };

    fn from(error: clap::Error) -> Failure {
        if error.kind() == ErrorKind::OutOfMemory {
            Failure::Serve(ServeError::Memory)
        } else {
            Failure::Words(error)
        }
    }
}

impl From<AllocError> for Failure {
    ghost from_gives = { λ _ failure. failure ≡ Serve Memory };

    fn from(_e: AllocError) -> Failure {
        Failure::Serve(ServeError::Memory)
    }
}

impl From<ServeError> for Failure {
    ghost from_gives = { λ error failure. failure ≡ Serve error };

    fn from(why: ServeError) -> Failure {
        Failure::Serve(why)
    }
}
