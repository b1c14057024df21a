//! What a proxy reports of its servers on standard error.
ghost use Rattle.std.specs.Prelude.{◌≡◌, ◌≢◌, Some, None, IfSome, IfNone};
ghost use Rattle.std.specs.IoError.{error_kind, raw_os_error};
ghost use Rattle.mc_program.specs.Sockets.{socket_error_of};
ghost use Rattle.mc_proxyd.specs.Causes.{cause_by};
ghost use Rattle.mc_proxyd.specs.declared.notices.Cause.TheVariants.{Connect, Memory};

use crate::lists::Mistake;
use crate::options::PROGRAM;
use mc_program::SocketError;
use mc_proxy::ProxyError;
use std::alloc::{AllocError, AllocFailed};
use std::fmt::{Display, Formatter};
use std::{fmt, io};
use thiserror::Error;

/// Why a server is not connected.
#[derive(Clone, Copy, Debug, PartialEq, Eq, Error)]
pub enum Cause {
    /// The system knows no IPv4 address of the host's name.
    #[error("unknown host")]
    UnknownHost,
    /// The look-up of the host had not ended after [`CONNECT_MILLIS`](crate::limits::CONNECT_MILLIS), or ended later without an address.
    #[error("look-up timed out")]
    LookUp,
    /// The system gives no thread for the look-up of the host.
    #[error("no thread for a look-up")]
    NoThread,
    /// The system refused the connection, or ended it, for this reason.
    #[error("{0}")]
    Connect(SocketError),
    /// The connection was not established after [`CONNECT_MILLIS`](crate::limits::CONNECT_MILLIS).
    #[error("timed out")]
    TimedOut,
    /// The connection was established, and the server has not answered `version` after [`PROBE_MILLIS`](crate::limits::PROBE_MILLIS).
    #[error("no answer")]
    NoAnswer,
    /// A pending command has waited for longer than the settings allow.
    #[error("no reply in time")]
    Late,
    /// A protocol violation: the bytes are no reply to the oldest pending command, or no command was pending, or they are no answer to
    /// `version`.
    #[error("strange reply")]
    Strange,
    /// The connection has ended or failed.
    #[error("connection ended")]
    Ended,
    /// No memory for received bytes, or for one more server.
    #[error("out of memory")]
    Memory,
    /// A list has another address for the server. [`tell_address`] says so in place of this.
    #[error("address changed")]
    Moved,
    /// The ring has the server already, or has no room for it.
    #[error("no place in the ring")]
    NoPlace,
}

impl From<ProxyError> for Cause {
    ghost from_gives = { λ error cause. cause ≡ cause_by error };

    fn from(error: ProxyError) -> Cause {
        match error {
            ProxyError::RingFull | ProxyError::AlreadyThere => Cause::NoPlace,
            _ => Cause::Memory,
        }
    }
}

impl From<AllocError> for Cause {
    ghost from_gives = { λ _ cause. cause ≡ Memory };

    fn from(_e: AllocError) -> Cause {
        Cause::Memory
    }
}

impl<T: Drop> From<AllocFailed<T>> for Cause {
    ghost from_gives = { λ _ cause. cause ≡ Memory };

    fn from(_e: AllocFailed<T>) -> Cause {
        Cause::Memory
    }
}

impl From<io::Error> for Cause {
    ghost from_gives = { λ error cause. cause ≡ Connect (socket_error_of (raw_os_error error) (error_kind error)) };

    fn from(error: io::Error) -> Cause {
        Cause::Connect(SocketError::of(&error))
    }
}

/// What became of a server, as it is printed: `back`, `refused: <cause>`, `lost: <cause>`, `joined`, `not joined: <cause>`; or of a list
/// of servers, `not taken: <mistake>`, `taken again`.
#[derive(Clone, Copy, Debug, PartialEq, Eq)]
pub enum Notice {
    /// It has answered, and its link is up.
    Back,
    /// It cannot be connected to, or does not answer as a server of memcached's protocol does.
    Refused(Cause),
    /// Its connection was lost.
    Lost(Cause),
    /// It has joined the ring.
    Joined,
    /// It could not join the ring.
    NotJoined(Cause),
    /// The notice is about a list of servers: it changes nothing.
    NotTaken(Mistake),
    /// The notice is about a list of servers: it is followed again.
    TakenAgain,
}

impl Display for Notice {
    fn fmt<W: fmt::Write>(&self, f: &mut Formatter<W>) -> fmt::Result {
        match self {
            Notice::Back => f.write_str("back"),
            Notice::Refused(cause) => write!(f, "refused: {cause}"),
            Notice::Lost(cause) => write!(f, "lost: {cause}"),
            Notice::Joined => f.write_str("joined"),
            Notice::NotJoined(cause) => write!(f, "not joined: {cause}"),
            Notice::NotTaken(mistake) => write!(f, "not taken: {mistake}"),
            Notice::TakenAgain => f.write_str("taken again"),
        }
    }
}

/// Prints on standard error what became of a server.
pub fn tell<R: Eprint>(rt: &R, server: &str, notice: Notice) {
    // Best effort: a failed write to standard error must not stop serving.
    let _ = eprintln!(rt; "{PROGRAM}: {server} {notice}");
}

/// Prints on standard error a server's new address, which a list has changed: at once, even if another line about it was printed in this
/// second.
pub fn tell_address<R: Eprint>(rt: &R, server: &str, address: &str) {
    // Best effort: a failed write to standard error must not stop serving.
    let _ = eprintln!(rt; "{PROGRAM}: {server} now at {address}");
}

/// Prints on standard error that a list is not taken, since the server of this number is another there, or is missing there.
pub fn tell_other<R: Eprint>(rt: &R, list: &str, number: usize, server: &str, other: Option<&str>) {
    // Best effort: a failed write to standard error must not stop serving.
    let _ = match other {
        Some(other) => eprintln!(rt;
            "{PROGRAM}: {list} not taken: server {number} is {server}, the list has {other}"
        ),
        None => eprintln!(rt;
            "{PROGRAM}: {list} not taken: server {number} is {server}, the list has no server {number}"
        ),
    };
}

/// The last notice about a server, and the one that is due: only what is new, and at most one a second.
#[derive(Clone, Copy, Debug)]
pub struct Notices {
    /// The last notice.
    pub said: Notice,
    /// What became of the server since, if that is something else.
    pub due: Option<Notice>,
    /// The second of the last notice that was printed.
    pub second: Option<u64>,
}

impl Notices {
    /// Makes the state in which no notice was printed, and this one is taken to be known.
    pub fn new(said: Notice) -> Notices
        ensures { result ≡ record { said = said; due = None; second = None } }
    {
        Notices {
            said,
            due: None,
            second: None,
        }
    }

    /// Records what became of the server. It replaces the notice that was due before.
    pub fn note(&mut self, notice: Notice)
        ensures due { IfSome self.new.due (λ due. due ≡ notice) }
        ensures said { self.new.said ≡ self.old.said }
        ensures second { self.new.second ≡ self.old.second }
    {
        self.due = (notice != self.said).then_some(notice);
    }

    /// Takes a notice as printed, and drops the one that is due. A later notice about the server is printed if it is something else.
    pub fn take_as_said(&mut self, notice: Notice)
        ensures { self.new ≡ record self.old { said = notice; due = None } }
    {
        *self = Notices {
            said: notice,
            due: None,
            second: self.second,
        };
    }

    /// Returns whether a notice is due.
    pub fn is_due(&self) -> bool {
        self.due.is_some()
    }

    /// Returns the notice to print in this second, if any, and takes it as printed.
    pub fn take(&mut self, second: u64) -> Option<Notice>
        ensures once { self.old.second ≡ Some second → result ≡ None }
        ensures due { self.old.second ≢ Some second → result ≡ self.old.due }
        ensures taken { IfSome result (λ notice. self.new ≡ record { said = notice; due = None; second = Some second }) }
        ensures nothing { IfNone result (self.new ≡ self.old) }
    {
        if self.second == Some(second) {
            return None;
        }
        let notice = self.due?;
        self.said = notice;
        self.due = None;
        self.second = Some(second);
        Some(notice)
    }
}
