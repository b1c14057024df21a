//! Why the system gives no socket, no connection or no file.
ghost use Rattle.std.specs.Prelude.{◌≡◌};
ghost use Rattle.std.specs.IoError.{error_kind, raw_os_error};
ghost use Rattle.mc_program.specs.Sockets.{by_kind, by_number, socket_error_of};

use libc::EMFILE;
use std::error::Error;
use std::fmt::{Display, Formatter};
use std::io::ErrorKind;
use std::{fmt, io};

/// The number of the error that the system has as many files open as it can have. `libc` here has no name for it.
const ENFILE: i32 = 23;

/// Why the system gives no socket, no connection or no file.
#[derive(Clone, Copy, Debug, PartialEq, Eq)]
pub enum SocketError {
    /// This process has as many files and sockets open as it may have (EMFILE): `ulimit -n`.
    OpenFiles,
    /// All processes together have as many open as the system can have (ENFILE).
    SystemFiles,
    /// Another cause, by its kind.
    Other(ErrorKind),
    /// Another cause, whose kind has no name: its number (errno(3)).
    Numbered(i32),
}

impl SocketError {
    /// Returns what an error says.
    pub fn of(error: &io::Error) -> SocketError
        ensures { result ≡ socket_error_of (raw_os_error error.now) (error_kind error.now) }
    {
        match error.raw_os_error() {
            Some(EMFILE) => SocketError::OpenFiles,
            Some(ENFILE) => SocketError::SystemFiles,
            number => by_kind(number, error.kind()),
        }
    }
}

/// Returns an error of a kind; by its number, if it has one and the kind has no name.
fn by_kind(number: Option<i32>, kind: ErrorKind) -> SocketError
    ensures { result ≡ by_kind number kind }
{
    match kind {
        ErrorKind::Uncategorized => by_number(number),
        _ => SocketError::Other(kind),
    }
}

/// Returns an error whose kind has no name.
fn by_number(number: Option<i32>) -> SocketError
    ensures { result ≡ by_number number }
{
    match number {
        Some(number) => SocketError::Numbered(number),
        None => SocketError::Other(ErrorKind::Uncategorized),
    }
}

impl Display for SocketError {
    fn fmt<W: fmt::Write>(&self, f: &mut Formatter<W>) -> fmt::Result {
        match self {
            SocketError::OpenFiles => f.write_str("too many open files"),
            SocketError::SystemFiles => f.write_str("too many open files in the system"),
            SocketError::Other(kind) => write_kind(*kind, f),
            SocketError::Numbered(number) => write!(f, "errno {number}"),
        }
    }
}

impl Error for SocketError {}

/// Writes the name of an error's kind: as errno(3) has it, if the standard library's words say less to an operator.
fn write_kind<W: fmt::Write>(kind: ErrorKind, f: &mut Formatter<W>) -> fmt::Result {
    match kind {
        ErrorKind::NotFound => f.write_str("no such file"),
        ErrorKind::AlreadyExists => f.write_str("already exists"),
        ErrorKind::FilesystemLoop => f.write_str("too many levels of symbolic links"),
        ErrorKind::InvalidFilename => f.write_str("file name too long"),
        ErrorKind::InvalidInput => f.write_str("invalid argument"),
        _ => write!(f, "{kind}"),
    }
}
