//! A listener, and how many connections it has accepted.
ghost use Rattle.std.specs.Prelude.{◌≡◌, ◌≢◌, None, Some};
ghost use Rattle.std.specs.IoError.{error_kind, raw_os_error};
ghost use Rattle.mc_program.specs.Sockets.{socket_error_of};
ghost use Rattle.mc_net.specs.Acceptors.{is_refused};

use mc_program::SocketError;
use mio::net::{TcpListener, TcpStream};
use mio::{Interest, Registry, Token};
use std::io;
use std::io::ErrorKind;
use std::marker::Model;

/// How often a call tries again if the system gives no connection but says that there may be one.
const MAX_TRIES: u32 = 16;

/// What is known of the connections that wait to be accepted.
#[derive(Clone, Copy, Debug, PartialEq, Eq)]
pub enum Backlog {
    /// None waits until the listener is reported again.
    Nobody,
    /// There may be more.
    More,
    /// There may be more, but the system gives none now, for example because no descriptor is left.
    Refused(SocketError),
}

impl Backlog {
    /// Returns whether there may be more, and the system gives none now.
    pub fn is_refused(self) -> bool
        ensures { result ≡ is_refused self }
    {
        matches!(self, Backlog::Refused(_))
    }
}

/// A listener, and how many connections it has accepted. Contracts see its limit, that number, and what is known of the
/// waiting connections.
#[derive(Drop)]
pub struct Acceptor {
    listener: TcpListener,
    /// How many are accepted in all; 0 for no limit.
    limit: u64,
    accepted: u64,
    backlog: Backlog,
}

impl Model for Acceptor {
    ghost use Rattle.mc_net.specs.Acceptors.{AcceptorState};

    ghost Value = { AcceptorState };

    ghost view = { λ d. record { limit = d.limit; accepted = d.accepted; backlog = d.backlog } };
}

impl Acceptor {
    ghost use Rattle.mc_net.specs.Acceptors.{new_acceptor, reported, is_shut, IsAccept};

    /// Makes an acceptor that has accepted no connection, and will accept `limit`; 0 for no limit.
    pub fn new(listener: TcpListener, limit: u64) -> Acceptor
        ensures { result ≡ new_acceptor limit }
    {
        Acceptor {
            listener,
            limit,
            accepted: 0,
            backlog: Backlog::Nobody,
        }
    }

    /// Makes a poll report the listener by a token when a connection arrives.
    pub fn register(&mut self, registry: &Registry, token: Token) -> io::Result<()>
        ensures { self.new ≡ self.old }
    {
        registry.register(&mut self.listener, token, Interest::READABLE)
    }

    /// Records that a poll has reported the listener.
    pub fn note(&mut self)
        ensures { self.new ≡ reported self.old }
    {
        self.backlog = Backlog::More;
    }

    /// Returns the next connection. If there is none, [`backlog`](Self::backlog) says why; an acceptor that is shut gives
    /// none.
    ///
    /// If the system interrupted the call, or the connection is gone again, it is repeated, up to 16 times.
    pub fn accept(&mut self) -> Option<TcpStream>
        ensures { IsAccept result self.old self.new }
    {
        if self.is_shut() {
            self.backlog = Backlog::Nobody;
            return None;
        }
        match next_connection(&self.listener) {
            Ok(stream) => {
                self.accepted = self.accepted.saturating_add(1);
                self.backlog = Backlog::More;
                Some(stream)
            }
            Err(backlog) => {
                self.backlog = backlog;
                None
            }
        }
    }

    /// Returns what is known of the waiting connections.
    pub fn backlog(&self) -> Backlog
        ensures { result ≡ self.now.backlog }
    {
        self.backlog
    }

    /// Returns how many connections it has accepted.
    pub fn accepted(&self) -> u64
        ensures { result ≡ self.now.accepted }
    {
        self.accepted
    }

    /// Returns whether it accepts no more: as many as its limit were accepted.
    pub fn is_shut(&self) -> bool
        ensures { result ≡ is_shut self.now }
    {
        self.limit > 0 && self.accepted >= self.limit
    }
}

/// Returns the next connection of a listener, or what is then known of the waiting ones.
fn next_connection(listener: &TcpListener) -> Result<TcpStream, Backlog> {
    for _ in 0..MAX_TRIES {
        match listener.accept() {
            Ok((stream, _)) => return Ok(stream),
            Err(error) => {
                if let Some(backlog) = backlog_by(&error) {
                    return Err(backlog);
                }
            }
        }
    }
    Err(Backlog::More)
}

/// Returns what a failed accept says of the waiting connections; none if it must be tried again at once, since the system
/// interrupted it, or the connection is gone again.
fn backlog_by(error: &io::Error) -> Option<Backlog>
    ensures nobody { error_kind error.now ≡ ErrorKind.WouldBlock → result ≡ Some Backlog.Nobody }
    ensures interrupted { error_kind error.now ≡ ErrorKind.Interrupted → result ≡ None }
    ensures aborted { error_kind error.now ≡ ErrorKind.ConnectionAborted → result ≡ None }
    ensures refused { error_kind error.now ≢ ErrorKind.WouldBlock → error_kind error.now ≢ ErrorKind.Interrupted
        → error_kind error.now ≢ ErrorKind.ConnectionAborted
        → result ≡ Some (Backlog.Refused (socket_error_of (raw_os_error error.now) (error_kind error.now))) }
{
    match error.kind() {
        ErrorKind::WouldBlock => Some(Backlog::Nobody),
        ErrorKind::Interrupted | ErrorKind::ConnectionAborted => None,
        _ => Some(Backlog::Refused(SocketError::of(error))),
    }
}
