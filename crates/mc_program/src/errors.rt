//! Why a program cannot serve.
ghost use Rattle.std.specs.Prelude.{◌≡◌};
ghost use Rattle.std.specs.IoError.{error_kind, raw_os_error};
ghost use Rattle.mc_program.specs.Sockets.{socket_error_of};
ghost use Rattle.mc_program.specs.Statuses.{status_of_error};
ghost use Rattle.mc_program.specs.declared.errors.ListenError.TheVariants.{System};
ghost use Rattle.mc_program.specs.declared.errors.ServeError.TheVariants.{Listen, Memory};

use crate::sockets::SocketError;
use std::alloc::AllocError;
use std::io;
use thiserror::Error;

/// Why a program cannot listen.
#[derive(Clone, Copy, Debug, PartialEq, Eq, Error)]
pub enum ListenError {
    /// 1: the text is no `<host>:<port>`.
    #[error("not <host>:<port>")]
    NoAddress,
    /// 2: the system knows no IPv4 address of the host.
    #[error("no such host with an IPv4 address")]
    UnknownHost,
    /// 3: the system refuses the address, or the poll of the program's sockets, for this cause.
    #[error("{0}")]
    System(SocketError),
    /// 4: the system gives no random bytes for the seed of the program's hashes.
    #[error("no random bytes for a seed")]
    NoSeed,
}

/// Why a program that serves streams cannot start, or cannot go on.
#[derive(Debug, Drop, Error)]
pub enum ServeError {
    /// 1: it cannot listen, for a cause: the address is none, has no IPv4 address or cannot be bound, or the system refuses the poll
    /// of its sockets or the seed of its hashes.
    #[error("cannot listen")]
    Listen(ListenError),
    /// 2: no memory to start with. Once a program serves, lack of memory closes a stream, and does not end the program.
    #[error("out of memory")]
    Memory,
    /// 3: calls of a server got no memory for this number of seconds in which it stored no item, and the settings say that it ends
    /// then.
    #[error("out of memory for {0} seconds")]
    MemoryFor(u64),
}

impl ServeError {
    /// Returns the exit status of a program that ends by it: 3 if it cannot listen, 4 for lack of memory.
    pub fn status(&self) -> u8
        ensures { result ≡ status_of_error self.now }
    {
        match self {
            ServeError::Listen(_) => 3,
            ServeError::Memory | ServeError::MemoryFor(_) => 4,
        }
    }
}

impl From<AllocError> for ServeError {
    ghost from_gives = { λ _ e. e ≡ Memory };

    fn from(_e: AllocError) -> ServeError {
        ServeError::Memory
    }
}

impl From<io::Error> for ServeError {
    ghost from_gives = { λ error e. e ≡ Listen (System (socket_error_of (raw_os_error error) (error_kind error))) };

    fn from(error: io::Error) -> ServeError {
        ServeError::Listen(ListenError::System(SocketError::of(&error)))
    }
}
